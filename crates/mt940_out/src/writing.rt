//! A page of a customer's statement written as block 4's lines.

ghost use Rattle.std.specs.Prelude.{◌≡◌, ◌++◌, All, IfOk, List as Items, None, Ok, OnOk, drop};
ghost use Rattle.fin_contents.specs.Writing.{IsReadable, lines_fields};
ghost use Rattle.fin_fields.specs.Faults.{field_fault};
ghost use Rattle.fin_fields.specs.Fields.{fields_of};
ghost use Rattle.fin_fields.specs.Writing.{fields_text};
ghost use Rattle.fin_fields.specs.declared.field.Field.{Field as FieldSeen};
ghost use Rattle.mt940_out.specs.Order.{fields_beside};
ghost use Rattle.mt940_out.specs.Page.{mt940_of};
ghost use Rattle.mt940_out.specs.Writing.{fields_940, first_note, with_notes};
ghost use Rattle.mt940_out.specs.inner.Writing.{IsNote};
ghost use Rattle.mt950.specs.Page.{mt950_of};
ghost use Rattle.mt950.specs.Writing.{fields_950};
ghost use Rattle.ref_tables.specs.Seen.{Tables};

use crate::beside::is_line;
use crate::page::Page940;
use corr_text::{List, Memory, Text, copy_texts};
use fin_contents::push_texts;
use fin_fields::{Field, put_fields};
use mt950::{Page950, fields_950};
use std::alloc::Global;

/// Adds the note at a place, from 0, as an 86; nothing where it has no line, or there is no note.
fn push_note(
    alloc: Global,
    notes: &[List<Text>],
    at: usize,
    fields: &mut List<Field>,
) -> Result<(), Memory>
    ensures { OnOk result (fields.new ≡ fields.old ++ lines_fields 86 None (first_note (drop at notes.now))) }
{
    match notes.get(at) {
        Some(note) => push_texts(alloc, 86, None, note.as_slice(), fields),
        None => Ok(()),
    }
}

fn copy_field(alloc: Global, f: &Field) -> Result<Field, Memory>
    ensures { IfOk result (λ copy. copy ≡ f.now) }
{
    Ok(Field {
        tag: f.tag,
        letter: f.letter,
        lines: copy_texts(alloc, f.lines.as_slice())?,
    })
}

/// Fields, each 61 with its note behind it.
fn with_notes(alloc: Global, fields: &[Field], notes: &[List<Text>]) -> Result<List<Field>, Memory>
    ensures { IfOk result (λ all. all ≡ with_notes notes.now fields.now) }
{
    let mut all = List::with_room(alloc, fields.len())?;
    let mut next = 0;
    for f in fields {
        all.push(copy_field(alloc, f)?)?;
        if is_line(f) {
            push_note(alloc, notes, next, &mut all)?;
            next += 1;
        }
    }
    Ok(all)
}

/// Writes a page and the notes of its lines as block 4's lines: the fields of the page's MT950, each 61 with its note behind it.
pub fn put_noted(alloc: Global, page: &Page950, notes: &[List<Text>]) -> Result<Text, Memory>
    requires readable { IsReadable mt950_of page.now }
    requires notes { All IsNote notes.now }
    ensures text { IfOk result (λ text. text ≡ fields_text (with_notes notes.now (fields_950 page.now))) }
    ensures sound { IfOk result (λ text. field_fault text ≡ None) }
    ensures back { IfOk result (λ text. fields_of text ≡ with_notes notes.now (fields_950 page.now)) }
{
    let fields = fields_950(alloc, page)?;
    let all = with_notes(alloc, fields.as_slice(), notes)?;
    put_fields(alloc, all.as_slice())
}

/// Writes the page of a customer's statement as block 4's lines: the fields of its MT950 in their order, and behind each 61 its note
/// as an 86, if it has lines. Each amount has all decimals of the currency, and a balance of 0 the mark C.
///
/// The page is one that `read_mt940` gives of fields that were cut from a text (its clause `written`). Its fields without each 86
/// are those of its MT950 (`beside`). The lines are cut into fields without fault (`sound`), and under all tables under which the
/// page may be read they read as the same one (`again`).
pub fn put_mt940(alloc: Global, p: &Page940) -> Result<Text, Memory>
    requires { IsReadable mt940_of p.now }
    ensures text { IfOk result (λ text. text ≡ fields_text (fields_940 p.now)) }
    ensures beside { fields_beside (fields_940 p.now) ≡ fields_950 p.now.page }
    ensures sound { IfOk result (λ text. field_fault text ≡ None) }
    ensures again { IfOk result (λ text. (t : Tables) (fs : Items FieldSeen) → mt940_of t fs ≡ Ok p.now → mt940_of t (fields_of text) ≡ Ok p.now) }
{
    put_noted(alloc, &p.page, p.notes.as_slice())
}
