//! Faults of accounts.

use corr_money::Ccy;
use corr_text::Memory;

/// Why accounts are refused: the first currency in byte order whose openings don't sum to 0, with its decimals and
/// that sum in minor units; or out of memory.
#[derive(Clone, Copy, Debug, PartialEq, Eq)]
pub enum AccountsFault {
    Unbalanced { ccy: Ccy, decimals: u8, sum: i64 },
    Memory,
}

impl From<Memory> for AccountsFault {
    ghost use Rattle.std.specs.Prelude.{◌≡◌};
    ghost use Rattle.day_model.specs.declared.fault.AccountsFault.TheVariants as fault;

    ghost from_gives = { λ _ e. e ≡ fault.Memory };

    fn from(_: Memory) -> AccountsFault {
        AccountsFault::Memory
    }
}
