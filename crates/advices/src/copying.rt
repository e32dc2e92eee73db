//! Fields that are copied from the message that came, and fields of banks.

ghost use Rattle.std.specs.Prelude.{◌≡◌, ◌++◌, ◌==◌, IfOk, OnOk, find, option_map};
ghost use Rattle.std.specs.List.{list_any};
ghost use Rattle.fin_fields.specs.Faults.{letter_of};
ghost use Rattle.advices.specs.Fields.{bank_field, copied, copied_as, is_named};

use corr_ids::{Bic, put_bic};
use corr_text::{List, Memory, Text};
use fin_contents::line_field;
use fin_fields::{Field, FieldLines, copy_lines, letter_of};
use std::alloc::Global;

fn has_letter(f: &FieldLines<'_>, letters: &[u8]) -> bool
    ensures { result ≡ list_any (λ letter. letter == letter_of f.now) letters.now }
{
    let letter = letter_of(f);
    letters.iter().any(|l| *l == letter)
}

/// Whether a field has this tag and one of these letters; a space stands for no letter.
pub fn is_named(f: &FieldLines<'_>, tag: u8, letters: &[u8]) -> bool
    ensures { result ≡ is_named tag letters.now f.now }
{
    f.tag() == tag && has_letter(f, letters)
}

/// The first field of this tag and one of these letters, none where there is none.
pub fn first_named<'a, 't>(
    fields: &'a [FieldLines<'t>],
    tag: u8,
    letters: &[u8],
) -> Option<&'a FieldLines<'t>>
    ensures { option_map (λ f. f.now) result ≡ find (is_named tag letters.now) fields.now }
{
    fields.iter().find(|f| is_named(f, tag, letters))
}

/// Adds the first field of this tag and one of these letters, where there is one.
pub fn push_copied(
    alloc: Global,
    fields: &[FieldLines<'_>],
    tag: u8,
    letters: &[u8],
    out: &mut List<Field>,
) -> Result<(), Memory>
    ensures { OnOk result (out.new ≡ out.old ++ copied tag letters.now fields.now) }
{
    match first_named(fields, tag, letters) {
        Some(f) => out.push(f.to_owned(alloc)?),
        None => Ok(()),
    }
}

/// Adds the lines of the first field of this tag, where there is one, as a field of another tag.
pub fn push_copied_as(
    alloc: Global,
    fields: &[FieldLines<'_>],
    tag: u8,
    other: u8,
    out: &mut List<Field>,
) -> Result<(), Memory>
    ensures { OnOk result (out.new ≡ out.old ++ copied_as tag other fields.now) }
{
    match first_named(fields, tag, b" ") {
        Some(f) => out.push(Field {
            tag: other,
            letter: None,
            lines: copy_lines(alloc, f.lines())?,
        }),
        None => Ok(()),
    }
}

/// A bank by its BIC: option A.
pub fn bank_field(alloc: Global, tag: u8, bic: &Bic) -> Result<Field, Memory>
    ensures { IfOk result (λ f. f ≡ bank_field tag bic.now) }
{
    let mut line = Text::from_bytes(alloc, b"")?;
    put_bic(bic, &mut line)?;
    line_field(alloc, tag, Some(b'A'), line.bytes())
}
