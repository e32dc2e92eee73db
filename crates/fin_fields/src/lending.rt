//! Fields lent to readers, and fields that are kept.

ghost use Rattle.std.specs.Prelude.{◌≡◌, IfOk};

use crate::field::Field;
use crate::field_lines::FieldLines;
use crate::line::Line;
use corr_text::{List, Memory, Text};
use std::alloc::Global;

fn lend_lines(alloc: Global, texts: &[Text]) -> Result<List<Line<'_>>, Memory>
    ensures { IfOk result (λ lines. lines ≡ texts.now) }
{
    let mut lines = List::with_room(alloc, texts.len())?;
    for text in texts {
        lines.push(Line::of(text.bytes()))?;
    }
    Ok(lines)
}

/// The same field, its lines where they are.
pub fn lend_field(alloc: Global, f: &Field) -> Result<FieldLines<'_>, Memory>
    ensures { IfOk result (λ lent. lent ≡ f.now) }
{
    match f.lines.as_slice() {
        [line] => Ok(FieldLines::of_line(f.tag, f.letter, line.bytes())),
        lines => Ok(FieldLines::of_lines(f.tag, f.letter, lend_lines(alloc, lines)?)),
    }
}

/// The same fields in their order, the lines where they are.
pub fn lend_fields(alloc: Global, fields: &[Field]) -> Result<List<FieldLines<'_>>, Memory>
    ensures { IfOk result (λ lent. lent ≡ fields.now) }
{
    let mut lent = List::with_room(alloc, fields.len())?;
    for f in fields {
        lent.push(lend_field(alloc, f)?)?;
    }
    Ok(lent)
}

/// The same fields in their order, with lines of their own.
pub fn own_fields(alloc: Global, fields: &[FieldLines<'_>]) -> Result<List<Field>, Memory>
    ensures { IfOk result (λ owned. owned ≡ fields.now) }
{
    let mut owned = List::with_room(alloc, fields.len())?;
    for f in fields {
        owned.push(f.to_owned(alloc)?)?;
    }
    Ok(owned)
}
