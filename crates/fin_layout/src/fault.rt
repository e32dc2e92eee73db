//! Why a field or a message is not read.

ghost use Rattle.std.specs.Prelude.{◌≡◌};
ghost use Rattle.fin_layout.specs.declared.fault.MtFault.TheVariants.{Memory as NoMemory};
ghost use Rattle.fin_layout.specs.declared.fault.Refusal.TheVariants.{Memory as NoRoom};

use corr_text::{Code, Fault, Memory};

/// A field that the order of its message type does not allow at its place.
pub const P22: Code = Code(*b"P22");

/// A mandatory field that is missing.
pub const P23: Code = Code(*b"P23");

/// A content that is not in its format.
pub const P24: Code = Code(*b"P24");

/// Why the content of a field is not read.
#[derive(Clone, Copy, Debug, PartialEq, Eq)]
pub enum Refusal {
    /// It is refused with this code.
    Bad(Code),
    /// There was no memory for what it says.
    Memory,
}

impl From<Memory> for Refusal {
    ghost from_gives = { λ _ e. e ≡ NoRoom };

    fn from(_e: Memory) -> Refusal {
        Refusal::Memory
    }
}

/// Why the fields of a message are not read.
#[derive(Clone, Copy, Debug, PartialEq, Eq)]
pub enum MtFault {
    /// The first test that they fail, with the field that it is told of.
    Bad(Fault),
    /// There was no memory for the message.
    Memory,
}

impl From<Memory> for MtFault {
    ghost from_gives = { λ _ e. e ≡ NoMemory };

    fn from(_e: Memory) -> MtFault {
        MtFault::Memory
    }
}
