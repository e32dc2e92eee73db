//! Why a row has no answer.

use corr_text::Memory;

/// Why a call gave no answer.
#[derive(Clone, Copy, Debug, PartialEq, Eq)]
pub enum Stop {
    /// The row's words don't fit the call, or a condition of the call isn't met.
    Unreadable,
    /// There was no room.
    Memory,
}

impl From<Memory> for Stop {
    fn from(_e: Memory) -> Stop {
        Stop::Memory
    }
}
