//! What a customer is told of a payment.

ghost use Rattle.std.specs.Prelude.{◌≡◌, ◌≤◌, ◌++◌, ◌==◌, All, IfOk, OnOk, codes, find, length, option_map, position, take};
ghost use Rattle.std.specs.List.{filter, list_any};
ghost use Rattle.advices.specs.Fields.{is_named};
ghost use Rattle.advices.specs.Received.{fields_in, first_fields, is_payer, sequence_b};
ghost use Rattle.day_model.specs.Shape.{most_text};
ghost use Rattle.fin_fields.specs.Faults.{letter_of};
ghost use Rattle.fin_fields.specs.Writing.{IsField};
ghost use Rattle.mt940_out.specs.Notes.{lines_named, may_continue, note_in, note_of, transfer_fields};
ghost use Rattle.mt940_out.specs.inner.Writing.{IsNote};

use corr_text::{List, Memory, Text};
use day_model::{Mt, Pay};
use fin_fields::{FieldFault, FieldLines, Line, cut_lines, letter_of};
use std::alloc::Global;

/// The fields of a text, which stay there; none where it can't be cut into fields.
fn fields_in(alloc: Global, text: &[u8]) -> Result<List<FieldLines<'_>>, Memory>
    requires { length text.now ≤ most_text }
    ensures value { IfOk result (λ fields. fields ≡ fields_in text.now) }
    ensures fit { IfOk result (All IsField) }
{
    match cut_lines(alloc, text) {
        Ok(fields) => Ok(fields),
        Err(FieldFault::Memory) => Err(Memory),
        Err(_) => Ok(List::new(alloc)),
    }
}

fn has_letter(f: &FieldLines<'_>, letters: &[u8]) -> bool
    ensures { result ≡ list_any (λ letter. letter == letter_of f.now) letters.now }
{
    let letter = letter_of(f);
    letters.iter().any(|l| *l == letter)
}

/// Whether a field has this tag and one of these letters; a space stands for no letter.
fn is_named(f: &FieldLines<'_>, tag: u8, letters: &[u8]) -> bool
    ensures { result ≡ is_named tag letters.now f.now }
{
    f.tag() == tag && has_letter(f, letters)
}

fn first_payer(fields: &[FieldLines<'_>]) -> Option<usize>
    ensures { result ≡ position is_payer fields.now }
{
    fields.iter().position(|f| is_named(f, 50, b"AFK"))
}

fn first_fields(fields: &[FieldLines<'_>]) -> usize
    ensures value { result ≡ first_fields fields.now }
    ensures within { result ≤ length fields.now }
{
    match first_payer(fields) {
        Some(at) => at,
        None => fields.len(),
    }
}

/// The second sequence of a cover, which its first 50a begins.
fn sequence_b<'a, 't>(fields: &'a [FieldLines<'t>]) -> &'a [FieldLines<'t>]
    ensures { result.now ≡ sequence_b fields.now }
{
    &fields[first_fields(fields)..]
}

/// The fields that tell of the transfer: all of an MT103, the second sequence of a cover.
fn transfer_fields<'a, 't>(mt: Mt, fields: &'a [FieldLines<'t>]) -> &'a [FieldLines<'t>]
    ensures { result.now ≡ transfer_fields mt fields.now }
{
    match mt {
        Mt::Transfer => fields,
        Mt::Cover => sequence_b(fields),
    }
}

/// The first field of this tag and one of these letters, none where there is none.
fn first_named<'a, 't>(
    fields: &'a [FieldLines<'t>],
    tag: u8,
    letters: &[u8],
) -> Option<&'a FieldLines<'t>>
    ensures { option_map (λ f. f.now) result ≡ find (is_named tag letters.now) fields.now }
{
    fields.iter().find(|f| is_named(f, tag, letters))
}

/// Whether a line may continue a field.
fn may_continue(line: &[u8]) -> bool
    ensures { result ≡ may_continue line.now }
{
    !matches!(line, [] | [b':' | b'-', ..])
}

/// At most the first two lines.
fn first_two<'a, 't>(lines: &'a [Line<'t>]) -> &'a [Line<'t>]
    ensures { result.now ≡ take 2 lines.now }
{
    if lines.len() <= 2 {
        return lines;
    }
    &lines[..2]
}

/// Adds lines.
fn push_lines(alloc: Global, lines: &[Line<'_>], note: &mut List<Text>) -> Result<(), Memory>
    ensures { OnOk result (note.new ≡ note.old ++ lines.now) }
{
    for line in lines {
        note.push(line.copy(alloc)?)?;
    }
    Ok(())
}

/// Adds the lines that may continue a field.
fn push_further(alloc: Global, lines: &[Line<'_>], note: &mut List<Text>) -> Result<(), Memory>
    ensures { OnOk result (note.new ≡ note.old ++ filter may_continue lines.now) }
{
    for line in lines {
        if may_continue(line.bytes()) {
            note.push(line.copy(alloc)?)?;
        }
    }
    Ok(())
}

/// Adds the first two lines of 50a.
fn push_payer(alloc: Global, fields: &[FieldLines<'_>], note: &mut List<Text>) -> Result<(), Memory>
    ensures { OnOk result (note.new ≡ note.old ++ take 2 (lines_named 50 (codes "AFK") fields.now)) }
{
    match first_named(fields, 50, b"AFK") {
        Some(f) => push_lines(alloc, first_two(f.lines()), note),
        None => Ok(()),
    }
}

/// Adds the lines of 70 that may continue a field.
fn push_remittance(
    alloc: Global,
    fields: &[FieldLines<'_>],
    note: &mut List<Text>,
) -> Result<(), Memory>
    ensures { OnOk result (note.new ≡ note.old ++ filter may_continue (lines_named 70 (codes " ") fields.now)) }
{
    match first_named(fields, 70, b" ") {
        Some(f) => push_further(alloc, f.lines(), note),
        None => Ok(()),
    }
}

/// What fields tell a customer.
fn note_in(alloc: Global, fields: &[FieldLines<'_>]) -> Result<List<Text>, Memory>
    ensures { IfOk result (λ note. note ≡ note_in fields.now) }
{
    let mut note = List::new(alloc);
    push_payer(alloc, fields, &mut note)?;
    push_remittance(alloc, fields, &mut note)?;
    Ok(note)
}

/// The note of a payment: the first two lines of its 50a, and the lines of its 70 that may continue a field. Of a cover these are
/// the fields of its second sequence. A return has neither.
pub fn note_of(alloc: Global, pay: &Pay) -> Result<List<Text>, Memory>
    requires { length pay.now.text ≤ most_text }
    ensures value { IfOk result (λ note. note ≡ note_of pay.now) }
    ensures fit { IfOk result IsNote }
{
    let fields = fields_in(alloc, pay.text.bytes())?;
    note_in(alloc, transfer_fields(pay.mt, fields.as_slice()))
}
