//! One line of text: field 25, and 21 of an advice.

ghost use Rattle.std.specs.Prelude.{◌≡◌, ◌≤◌, ℕ, IfOk, None, Ok};
ghost use Rattle.fin_contents.specs.Plain.{short_line_of};
ghost use Rattle.fin_contents.specs.Writing.{line_field};
ghost use Rattle.fin_fields.specs.Writing.{IsField};
ghost use Rattle.fin_fields.specs.declared.field.Field.{Field as FieldSeen};
ghost use Rattle.fin_layout.specs.Reading.{Reads};

use crate::line::{line_field, one_line};
use corr_text::{Memory, Set, Text};
use fin_fields::{Field, FieldLines, is_run_of};
use fin_layout::{Content, P24, Refusal};
use std::alloc::Global;

/// One line of 1 to `most` characters of X, as the account of field 25 with `most` 35. P24: the field is not one such line.
#[derive(Clone, Copy)]
pub struct ShortLine {
    pub most: u8,
}

#[tactic(auto, unfolding(crate::specs::Plain::short_line_of))]
fn read_short_line(alloc: Global, most: u8, f: &FieldLines<'_>) -> Result<Text, Refusal>
    ensures { Reads result (short_line_of most f.now) }
{
    match one_line(f) {
        Some(line) if is_run_of(Set::X, most, line) => Ok(Text::from_bytes(alloc, line)?),
        _ => Err(Refusal::Bad(P24)),
    }
}

impl Content for ShortLine {
    type Value = Text;

    ghost meaning = { λ c f. short_line_of c.most f };

    fn read(&self, alloc: Global, f: &FieldLines<'_>) -> Result<Text, Refusal> {
        read_short_line(alloc, self.most, f)
    }
}

/// Writes one line as a field of this tag. What was read is read again from it, and the field may stand in a text where the
/// one that was read did.
pub fn put_short_line(alloc: Global, tag: u8, line: &Text) -> Result<Field, Memory>
    ensures field { IfOk result (λ f. f ≡ line_field tag None line.now) }
    ensures again { IfOk result (λ f. (most : ℕ) (read : FieldSeen) → short_line_of most read ≡ Ok line.now → short_line_of most f ≡ Ok line.now) }
    ensures fit { IfOk result (λ f. (most : ℕ) (read : FieldSeen) → short_line_of most read ≡ Ok line.now → IsField read → tag ≤ 99 → IsField f) }
{
    line_field(alloc, tag, None, line.bytes())
}
