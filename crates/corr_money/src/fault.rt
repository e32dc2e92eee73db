//! What is wrong with the spelling of an amount.

/// Why bytes are no amount of a currency, in the order in which it is tested.
#[derive(Clone, Copy, Debug, PartialEq, Eq)]
pub enum AmountFault {
    /// The bytes are not digits with exactly one comma and at least one digit before it.
    T40,
    /// There are more than 15 characters.
    T43,
    /// There are more decimals than the currency has.
    C03,
    /// The amount is not below 10^14 minor units.
    TooLarge,
}
