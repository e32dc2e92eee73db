//! Currencies and amounts.

/// A currency code of three capital letters (ISO 4217's form).
#[derive(Clone, Copy, Debug, PartialEq, Eq)]
pub struct Ccy(pub [u8; 3]);

/// An amount in minor units (cents of a currency with two decimals), below 10^14.
#[derive(Clone, Copy, Debug, PartialEq, Eq)]
pub struct Minor(pub u64);

/// An amount of a currency, and the number of decimals that the currency has.
#[derive(Clone, Copy, Debug, PartialEq, Eq)]
pub struct Amount {
    pub ccy: Ccy,
    pub minor: Minor,
    pub decimals: u8,
}
