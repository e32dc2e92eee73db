//! Why no return is made.

ghost use Rattle.std.specs.Prelude.{◌≡◌};
ghost use Rattle.pay_returns.specs.declared.fault.ReturnFault.TheVariants.{Memory as NoMemory};

use corr_text::Memory;

/// Why a payment isn't taken back.
#[derive(Clone, Copy, Debug, PartialEq, Eq)]
pub enum ReturnFault {
    /// At the place stands no booked entry, or a return: the history has so many entries.
    NoPayment { entries: u32 },
    /// The return's reference is entered, at this place.
    Returned { place: u32 },
    /// The account of this leg of the return, from 1, can't take it, and has this balance in minor units.
    Unfunded { leg: u8, balance: i64 },
    /// There was no memory for the pay.
    Memory,
}

impl From<Memory> for ReturnFault {
    ghost from_gives = { λ _ e. e ≡ NoMemory };

    fn from(_e: Memory) -> ReturnFault {
        ReturnFault::Memory
    }
}
