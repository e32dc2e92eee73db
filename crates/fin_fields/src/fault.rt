//! Why a text could not be cut into fields.

ghost use Rattle.std.specs.Prelude.{◌≡◌};
ghost use Rattle.fin_fields.specs.declared.fault.FieldFault.TheVariants.{Memory as NoMemory};

use corr_text::Memory;

/// The first fault of a text.
#[derive(Clone, Copy, Debug, PartialEq, Eq)]
pub enum FieldFault {
    /// A line, from 1, that is empty, begins with `-`, begins with `:` and no field, or is the first and begins no
    /// field; 0 where there is no line.
    P20 { line: u16 },
    /// A field with a byte outside X: its tag (a space for no letter) and which of that tag it is, from 1.
    P21 { tag: [u8; 3], nth: u16 },
    /// There was no memory for the fields.
    Memory,
}

impl From<Memory> for FieldFault {
    ghost from_gives = { λ _ e. e ≡ NoMemory };

    fn from(_e: Memory) -> FieldFault {
        FieldFault::Memory
    }
}
