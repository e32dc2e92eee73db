//! Why a file can't be cut.

use corr_text::Memory as NoMemory;

/// What is wrong with a file of messages. Places are counted in bytes, from 0.
#[derive(Clone, Copy, Debug, PartialEq, Eq)]
pub enum FrameFault {
    /// A byte that can't stand outside a group: neither `{` nor a line end, a space or the one `$` of a gap; or the
    /// `{` of a group after a gap or at the front that doesn't begin `{1:`.
    Stray { at: u64 },
    /// The message that begins here passes 16,384 bytes.
    TooLong { at: u64 },
    /// The input ends within a group of the message that begins here.
    Unbalanced { at: u64 },
    /// There was no room.
    Memory,
}

impl From<NoMemory> for FrameFault {
    ghost use Rattle.std.specs.Prelude.{◌≡◌};
    ghost use Rattle.fin_frame.specs.declared.fault.FrameFault.TheVariants.{Memory};

    ghost from_gives = { λ _ e. e ≡ Memory };

    fn from(_e: NoMemory) -> FrameFault {
        FrameFault::Memory
    }
}
