//! The lines of block 4 cut into fields.

ghost use Rattle.std.specs.Prelude.{◌≡◌, ◌≢◌, ◌≤◌, ◌<◌, ◌+◌, [], ◌∷◌, None, true, false, All, IfOk, IfErr, OnOk, length, not, option_map, position};
ghost use Rattle.std.specs.List.{list_any};
ghost use Rattle.corr_text.specs.Lines.{lines_of};
ghost use Rattle.fin_fields.specs.Fields.{Grouped, fields_of, field_begun, grouped, heading_of, with_line, most_text_lines};
ghost use Rattle.fin_fields.specs.inner.Fields.{so_far};
ghost use Rattle.fin_fields.specs.Headings.{heading_in};
ghost use Rattle.fin_fields.specs.Writing.{IsField};
ghost use Rattle.fin_fields.specs.Faults.{faulty_line, field_fault, has_other_byte, is_misplaced, TellsFieldFault};
ghost use Rattle.fin_fields.specs.inner.Faults.{TellsLineFault};

use crate::fault::FieldFault;
use crate::field::Field;
use crate::field_lines::FieldLines;
use crate::heading_line::{HeadingLine, heading};
use crate::lending::own_fields;
use crate::outside::first_outside_x;
use corr_text::{List, Memory, first_line, plain_line};
use std::alloc::Global;

/// For how many fields there is room at first.
const ROOM: usize = 8;

/// A text cut after its first line, and whether the lines so far are known to have bytes of set X alone.
#[derive(Clone, Copy)]
struct NextLine<'a> {
    line: &'a [u8],
    rest: &'a [u8],
    plain: bool,
}

/// The fields of lines, and whether these are known to have bytes of set X alone.
#[derive(Drop)]
struct ReadLines<'a> {
    fields: List<FieldLines<'a>>,
    plain: bool,
}

fn next_line(text: &[u8], plain: bool) -> NextLine<'_>
    requires { text.now ≢ [] }
    ensures cut { lines_of text.now ≡ result.line.now ∷ lines_of result.rest.now }
    ensures shorter { length result.rest.now < length text.now }
    ensures plain { result.plain ≡ true → (plain ≡ true) × (has_other_byte result.line.now ≡ false) }
{
    match plain_line(text) {
        Some(first) => NextLine {
            line: first.line,
            rest: first.rest,
            plain,
        },
        None => {
            let first = first_line(text);
            NextLine {
                line: first.line,
                rest: first.rest,
                plain: false,
            }
        }
    }
}

fn begin_field(heading: HeadingLine<'_>, plain: bool) -> FieldLines<'_>
    requires { plain ≡ true → has_other_byte heading.content.now ≡ false }
    ensures { result ≡ field_begun (heading_in heading.entry) [] }
{
    FieldLines::of_known(heading.tag, heading.letter, heading.content, plain)
}

/// Whether a line that begins no field may not continue one either.
fn breaks_off(line: &[u8]) -> bool
    requires { heading_of line.now ≡ None }
    ensures { result ≡ is_misplaced line.now }
{
    matches!(line, [] | [b':' | b'-', ..])
}

/// Adds a line to the last field.
fn continue_last<'a>(
    alloc: Global,
    fields: &mut List<FieldLines<'a>>,
    line: &'a [u8],
    plain: bool,
) -> Result<(), Memory>
    requires some { fields.old ≢ [] }
    requires plain { plain ≡ true → has_other_byte line.now ≡ false }
    ensures some { OnOk result (fields.new ≢ []) }
    ensures added { OnOk result ((g : Grouped) → so_far fields.new g ≡ so_far fields.old (with_line line.now None g)) }
{
    let Some(mut last) = fields.pop() else {
        unreachable!()
    };
    last.add_known(alloc, line, plain)?;
    fields.push(last)
}

/// Takes the next line, unless it is misplaced: it begins a new field, or continues the last one.
fn add_line<'a>(
    alloc: Global,
    fields: &mut List<FieldLines<'a>>,
    line: &'a [u8],
    plain: bool,
) -> Result<bool, Memory>
    requires some { fields.old ≢ [] }
    requires plain { plain ≡ true → has_other_byte line.now ≡ false }
    ensures some { OnOk result (fields.new ≢ []) }
    ensures taken { IfOk result (λ taken. taken ≡ not (is_misplaced line.now)) }
    ensures added { IfOk result (λ taken. taken ≡ true → (g : Grouped) →
        so_far fields.new g ≡ so_far fields.old (with_line line.now (heading_of line.now) g)) }
{
    match heading(line) {
        Some(heading) => {
            fields.push(begin_field(heading, plain))?;
            Ok(true)
        }
        None if breaks_off(line) => Ok(false),
        None => {
            continue_last(alloc, fields, line, plain)?;
            Ok(true)
        }
    }
}

/// The fields of the lines after the first, which begins `first`.
fn group_lines<'a>(
    alloc: Global,
    text: &'a [u8],
    first: FieldLines<'a>,
    plain: bool,
) -> Result<ReadLines<'a>, FieldFault>
    requires few { length (lines_of text.now) < most_text_lines }
    ensures fields { IfOk result (λ read. read.fields ≡ so_far (first.entry ∷ []) (grouped (lines_of text.now))) }
    ensures plain { IfOk result (λ read. read.plain ≡ true → (plain ≡ true) × (list_any has_other_byte (lines_of text.now) ≡ false)) }
    ensures sound { IfOk result (λ _. position is_misplaced (lines_of text.now) ≡ None) }
    ensures fault { IfErr result (TellsLineFault (option_map (λ i. i + 2) (position is_misplaced (lines_of text.now)))) }
{
    let mut fields = List::with_room(alloc, ROOM)?;
    fields.push(first)?;
    let mut rest = text;
    let mut plain = plain;
    let mut number = 1u16;
    while !rest.is_empty() {
        let next = next_line(rest, plain);
        number += 1;
        if !add_line(alloc, &mut fields, next.line, next.plain)? {
            return Err(FieldFault::P20 { line: number });
        }
        rest = next.rest;
        plain = next.plain;
    }
    Ok(ReadLines { fields, plain })
}

/// The fields of a text whose lines are none at fault.
fn read_lines(alloc: Global, text: &[u8]) -> Result<ReadLines<'_>, FieldFault>
    requires few { length (lines_of text.now) ≤ most_text_lines }
    ensures fields { IfOk result (λ read. read.fields ≡ fields_of text.now) }
    ensures plain { IfOk result (λ read. read.plain ≡ true → list_any has_other_byte (lines_of text.now) ≡ false) }
    ensures sound { IfOk result (λ _. faulty_line (lines_of text.now) ≡ None) }
    ensures fault { IfErr result (TellsLineFault (faulty_line (lines_of text.now))) }
{
    if text.is_empty() {
        return Err(FieldFault::P20 { line: 0 });
    }
    let first = next_line(text, true);
    match heading(first.line) {
        Some(heading) => {
            let begun = begin_field(heading, first.plain);
            group_lines(alloc, first.rest, begun, first.plain)
        }
        None => Err(FieldFault::P20 { line: 1 }),
    }
}

/// Cuts the lines of block 4 into fields as `cut_fields` does; the lines stay in the text.
#[inline(never)]
pub fn cut_lines(alloc: Global, text: &[u8]) -> Result<List<FieldLines<'_>>, FieldFault>
    requires { length (lines_of text.now) ≤ most_text_lines }
    ensures fields { IfOk result (λ fields. (field_fault text.now ≡ None) × (fields ≡ fields_of text.now)) }
    ensures fit { IfOk result (λ fields. (fields ≢ []) × All IsField fields) }
    ensures fault { IfErr result (TellsFieldFault text.now) }
{
    let read = read_lines(alloc, text)?;
    if read.plain {
        return Ok(read.fields);
    }
    match first_outside_x(read.fields.as_slice()) {
        Some(fault) => Err(fault),
        None => Ok(read.fields),
    }
}

/// Cuts the lines of block 4 into fields, each begun by a line `:20:` or `:50K:` and continued by the lines after it.
///
/// P20 comes with the first line, from 1, that begins with `:` without this form, begins with `-`, is empty, or is the
/// first and begins no field, and with line 0 where there is no line. P21 comes, where no line is at fault, with the
/// first field that has a byte outside X (docs/messages.md, "Fields"). `put_fields` takes the fields that are cut. The text
/// has at most 65,535 lines.
pub fn cut_fields(alloc: Global, text: &[u8]) -> Result<List<Field>, FieldFault>
    requires { length (lines_of text.now) ≤ most_text_lines }
    ensures fields { IfOk result (λ fields. (field_fault text.now ≡ None) × (fields ≡ fields_of text.now)) }
    ensures fit { IfOk result (λ fields. (fields ≢ []) × All IsField fields) }
    ensures fault { IfErr result (TellsFieldFault text.now) }
{
    let fields = cut_lines(alloc, text)?;
    Ok(own_fields(alloc, fields.as_slice())?)
}
