//! The fields of an MT940, and those of the MT950 beside its 86.

ghost use Rattle.std.specs.Prelude.{◌≡◌, ◌==◌, ◌&&◌, ◌≤◌, ◌<◌, IfOk, IfSome, false, length};
ghost use Rattle.fin_fields.specs.Faults.{letter_of};
ghost use Rattle.mt940_out.specs.Order.{fields_beside, is_line, is_note, note_behind, notes_of};
ghost use Rattle.mt940_out.specs.inner.Faults.{first_bad_note, place_beside};

use corr_text::{List, Memory, Text, copy_texts};
use fin_fields::{Field, FieldLines, Pattern, lend_field, matches};
use std::alloc::Global;

/// What an 86 is: 1 to 6 lines of 65 characters of X.
const NOTE: Pattern = Pattern::Lines { max: 6, len: 65 };

/// Whether a field has this number and no letter.
fn is_bare(f: &Field, number: u8) -> bool
    ensures { result ≡ ((f.now.tag == number) && (letter_of f.now == 32)) }
{
    f.tag == number && f.letter.unwrap_or(b' ') == b' '
}

/// Whether a field is a 61.
pub fn is_line(f: &Field) -> bool
    ensures { result ≡ is_line f.now }
{
    is_bare(f, 61)
}

/// Whether a field is an 86.
fn is_note(f: &Field) -> bool
    ensures { result ≡ is_note f.now }
{
    is_bare(f, 86)
}

/// Whether a field is the 86 of a 61, where `behind` tells whether the field before is a 61.
fn is_note_behind(behind: bool, f: &Field) -> bool
    ensures { result ≡ (behind && is_note f.now) }
{
    behind && is_note(f)
}

/// The fields without each 86 that stands directly behind a 61.
pub fn fields_beside(alloc: Global, fields: &[Field]) -> Result<List<FieldLines<'_>>, Memory>
    ensures value { IfOk result (λ beside. beside ≡ fields_beside fields.now) }
    ensures few { IfOk result (λ beside. length beside ≤ length fields.now) }
{
    let mut beside = List::with_room(alloc, fields.len())?;
    let mut behind = false;
    for f in fields {
        if is_note_behind(behind, f) {
            behind = false;
            continue;
        }
        beside.push(lend_field(alloc, f)?)?;
        behind = is_line(f);
    }
    Ok(beside)
}

/// Where among all fields the field stands that has so many ahead of it beside each 86 behind a 61; the number of the fields where
/// there is none.
pub fn place_beside(fields: &[Field], ahead: usize) -> usize
    ensures { result ≡ place_beside false fields.now ahead }
{
    let mut left = ahead;
    let mut behind = false;
    for (at, f) in fields.iter().enumerate() {
        if is_note_behind(behind, f) {
            behind = false;
            continue;
        }
        if left == 0 {
            return at;
        }
        left -= 1;
        behind = is_line(f);
    }
    fields.len()
}

/// Where the first 86 behind a 61 stands that has another form than an 86 has.
pub fn first_bad_note(fields: &[Field]) -> Option<usize>
    ensures value { result ≡ first_bad_note 0 false fields.now }
    ensures within { IfSome result (λ at. at < length fields.now) }
{
    let mut behind = false;
    for (at, f) in fields.iter().enumerate() {
        if is_note_behind(behind, f) {
            if !matches(f, NOTE) {
                return Some(at);
            }
            behind = false;
            continue;
        }
        behind = is_line(f);
    }
    None
}

/// The lines of the 86 that fields begin with; none where they begin with another one.
fn note_behind(alloc: Global, fields: &[Field]) -> Result<List<Text>, Memory>
    ensures { IfOk result (λ note. note ≡ note_behind fields.now) }
{
    match fields {
        [next, ..] if is_note(next) => copy_texts(alloc, next.lines.as_slice()),
        _ => Ok(List::new(alloc)),
    }
}

/// Of each 61 the lines of the 86 behind it.
pub fn notes_of(alloc: Global, fields: &[Field]) -> Result<List<List<Text>>, Memory>
    ensures { IfOk result (λ notes. notes ≡ notes_of fields.now) }
{
    let mut notes = List::new(alloc);
    for (at, f) in fields.iter().enumerate() {
        if is_line(f) {
            notes.push(note_behind(alloc, &fields[at + 1..])?)?;
        }
    }
    Ok(notes)
}
