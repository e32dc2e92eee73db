//! Lines of text: fields 70, 72 and 77B.

ghost use Rattle.std.specs.Prelude.{◌≡◌, ℕ, [], IfOk, Ok, unwrap_or};
ghost use Rattle.fin_contents.specs.Plain.{texts_of};
ghost use Rattle.fin_contents.specs.Writing.{IsHeading, lines_field};
ghost use Rattle.fin_fields.specs.Writing.{IsField};
ghost use Rattle.fin_fields.specs.declared.field.Field.{Field as FieldSeen};
ghost use Rattle.fin_layout.specs.Reading.{Reads};

use corr_text::{List, Memory, Text, copy_texts};
use fin_fields::{Field, FieldLines, are_x_runs, copy_lines};
use fin_layout::{Content, P24, Refusal};
use std::alloc::Global;

/// 1 to `most` lines of 1 to 35 characters of X. P24: the field has other lines.
#[derive(Clone, Copy)]
pub struct Texts {
    pub most: u8,
}

#[tactic(auto, unfolding(crate::specs::Plain::texts_of))]
fn read_texts(alloc: Global, most: u8, f: &FieldLines<'_>) -> Result<List<Text>, Refusal>
    ensures { Reads result (texts_of most f.now) }
{
    if !are_x_runs(most, 35, f.lines(), f.is_plain()) {
        return Err(Refusal::Bad(P24));
    }
    Ok(copy_lines(alloc, f.lines())?)
}

impl Content for Texts {
    type Value = List<Text>;

    ghost meaning = { λ c f. texts_of c.most f };

    fn read(&self, alloc: Global, f: &FieldLines<'_>) -> Result<List<Text>, Refusal> {
        read_texts(alloc, self.most, f)
    }
}

/// The lines of a field that may be missing, none where it is.
pub fn or_none(alloc: Global, texts: Option<List<Text>>) -> List<Text>
    ensures { result ≡ unwrap_or texts [] }
{
    match texts {
        Some(texts) => texts,
        None => List::new(alloc),
    }
}

/// Writes lines of text as a field of this tag and letter. What was read is read again from it, and the field may stand in a
/// text where the one that was read did.
pub fn put_texts(
    alloc: Global,
    tag: u8,
    letter: Option<u8>,
    lines: &[Text],
) -> Result<Field, Memory>
    ensures field { IfOk result (λ f. f ≡ lines_field tag letter lines.now) }
    ensures again { IfOk result (λ f. (most : ℕ) (read : FieldSeen) → texts_of most read ≡ Ok lines.now → texts_of most f ≡ Ok lines.now) }
    ensures fit { IfOk result (λ f. (most : ℕ) (read : FieldSeen) → texts_of most read ≡ Ok lines.now → IsField read → IsHeading tag letter → IsField f) }
{
    Ok(Field {
        tag,
        letter,
        lines: copy_texts(alloc, lines)?,
    })
}
