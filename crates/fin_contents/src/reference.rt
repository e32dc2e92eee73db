//! References: fields 20 and 21.

ghost use Rattle.std.specs.Prelude.{◌≡◌, ◌==◌, ◌&&◌, ◌≤◌, Err, IfErr, IfOk, None, Ok};
ghost use Rattle.std.specs.List.{list_any, zip};
ghost use Rattle.corr_text.specs.Slashes.{has_double_slash, has_stray_slash};
ghost use Rattle.fin_contents.specs.Plain.{reference_of};
ghost use Rattle.fin_contents.specs.Writing.{line_field};
ghost use Rattle.fin_fields.specs.Writing.{IsField};
ghost use Rattle.fin_fields.specs.declared.field.Field.{Field as FieldSeen};
ghost use Rattle.fin_layout.specs.Reading.{Reads, Refills};

use crate::codes::T26;
use crate::line::{line_field, one_line};
use corr_text::{Code, Memory, Text};
use fin_fields::{Field, FieldLines, is_x_run};
use fin_layout::{Content, P24, Refill, Refusal};
use std::alloc::Global;

/// A reference, `16x`. P24: the field is not one line of 1 to 16 characters of X. T26: it begins or ends with a slash, or
/// has two slashes in a row.
///
/// Example: `REF/1` is one, and `/REF1`, `REF1/` and `REF//1` are refused with T26.
#[derive(Clone, Copy)]
pub struct Reference;

fn are_slashes(b: &[u8], next: &[u8]) -> bool
    ensures { result ≡ list_any (λ p. (p.0 == 47) && (p.1 == 47)) (zip b.now next.now) }
{
    b.iter()
        .zip(next.iter())
        .any(|(c, d)| *c == b'/' && *d == b'/')
}

fn has_double_slash(line: &[u8]) -> bool
    ensures { result ≡ has_double_slash line.now }
{
    match line {
        [] => false,
        [_, rest @ ..] => are_slashes(line, rest),
    }
}

fn has_stray_slash(line: &[u8]) -> bool
    ensures { result ≡ has_stray_slash line.now }
{
    match line {
        [] => false,
        [.., last] => line.starts_with(b"/") || *last == b'/' || has_double_slash(line),
    }
}

/// The bytes of a reference where they stand in their field.
#[tactic(auto, unfolding(crate::specs::Plain::reference_of))]
fn reference_in<'a>(f: &FieldLines<'a>) -> Result<&'a [u8], Code>
    ensures ok { IfOk result (λ line. reference_of f.now ≡ Ok line.now) }
    ensures err { IfErr result (λ code. reference_of f.now ≡ Err code) }
{
    let Some(line) = one_line(f) else {
        return Err(P24);
    };
    if !is_x_run(16, line, f.is_plain()) {
        return Err(P24);
    }
    if has_stray_slash(line) {
        return Err(T26);
    }
    Ok(line)
}

fn read_reference(alloc: Global, f: &FieldLines<'_>) -> Result<Text, Refusal>
    ensures { Reads result (reference_of f.now) }
{
    match reference_in(f) {
        Ok(line) => Ok(Text::from_bytes(alloc, line)?),
        Err(code) => Err(Refusal::Bad(code)),
    }
}

fn refill_reference(f: &FieldLines<'_>, value: &mut Text) -> Result<(), Refusal>
    ensures { Refills result value.new (reference_of f.now) }
{
    match reference_in(f) {
        Ok(line) => Ok(value.refill(line)?),
        Err(code) => Err(Refusal::Bad(code)),
    }
}

impl Content for Reference {
    type Value = Text;

    ghost meaning = { λ _ f. reference_of f };

    fn read(&self, alloc: Global, f: &FieldLines<'_>) -> Result<Text, Refusal> {
        read_reference(alloc, f)
    }
}

impl Refill for Reference {
    fn refill(&self, _alloc: Global, f: &FieldLines<'_>, value: &mut Text) -> Result<(), Refusal> {
        refill_reference(f, value)
    }
}

/// Writes a reference as a field of this tag. What was read is read again from it, and the field may stand in a text where
/// the one that was read did.
pub fn put_reference(alloc: Global, tag: u8, reference: &Text) -> Result<Field, Memory>
    ensures field { IfOk result (λ f. f ≡ line_field tag None reference.now) }
    ensures again { IfOk result (λ f. (read : FieldSeen) → reference_of read ≡ Ok reference.now → reference_of f ≡ Ok reference.now) }
    ensures fit { IfOk result (λ f. (read : FieldSeen) → reference_of read ≡ Ok reference.now → IsField read → tag ≤ 99 → IsField f) }
{
    line_field(alloc, tag, None, reference.bytes())
}
