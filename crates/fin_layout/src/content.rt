//! Kinds of content.

ghost use Rattle.std.specs.Prelude.{◌≡◌, IfOk, Result};
ghost use Rattle.corr_text.specs.First.{fault_of};
ghost use Rattle.corr_text.specs.declared.fault.Code.{Code as CodeSeen};
ghost use Rattle.fin_fields.specs.declared.field.Field.{Field as FieldSeen};
ghost use Rattle.fin_layout.specs.Reading.{Reads, Refills};

use crate::fault::Refusal;
use corr_text::{Code, Memory};
use fin_fields::FieldLines;
use std::alloc::Global;

/// A kind of content, as a reference or an amount: what a field of it says.
pub trait Content {
    /// What is read.
    type Value: Drop;

    /// What a field says, or the code of what is wrong with it.
    ghost meaning: { Self → FieldSeen → Result Self.Value CodeSeen };

    /// Reads a field. `Bad` comes exactly where the content is wrong, with the code of the first test that it fails.
    fn read(&self, alloc: Global, f: &FieldLines<'_>) -> Result<Self::Value, Refusal>
        ensures { Reads result (meaning self.now f.now) };
}

/// A kind of content whose values are read into the memory of other ones.
pub trait Refill: Content {
    /// As `read`, but what the field says is put into `value`, in the memory of what that was, as far as it goes. After a
    /// refusal it may be anything.
    fn refill(
        &self,
        alloc: Global,
        f: &FieldLines<'_>,
        value: &mut Self::Value,
    ) -> Result<(), Refusal>
        ensures { Refills result value.new (Self.meaning self.now f.now) };
}

/// The code of what is wrong with a field of some kind of content, none where nothing is.
pub fn refusal<C: Content>(
    alloc: Global,
    content: &C,
    f: &FieldLines<'_>,
) -> Result<Option<Code>, Memory>
    ensures { IfOk result (λ o. o ≡ fault_of (C.meaning content.now f.now)) }
{
    match content.read(alloc, f) {
        Ok(_) => Ok(None),
        Err(Refusal::Bad(code)) => Ok(Some(code)),
        Err(Refusal::Memory) => Err(Memory),
    }
}
