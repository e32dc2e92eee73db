//! Why bytes are refused.

ghost use Rattle.std.specs.Prelude.{◌≡◌};
ghost use Rattle.jrn_codec.specs.declared.fault.EntryFault.TheVariants as faults;

use corr_text::Memory;

/// Why a record was not read: the bytes are not one, or out of memory.
#[derive(Clone, Copy, Debug, PartialEq, Eq, Drop)]
pub enum EntryFault {
    NoEntry,
    Memory,
}

impl From<Memory> for EntryFault {
    ghost from_gives = { λ _ e. e ≡ faults.Memory };

    fn from(_: Memory) -> EntryFault {
        EntryFault::Memory
    }
}
