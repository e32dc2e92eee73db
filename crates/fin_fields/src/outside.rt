//! Bytes outside set X.

ghost use Rattle.std.specs.Prelude.{◌≡◌, ◌≤◌, length, position};
ghost use Rattle.std.specs.List.{list_any};
ghost use Rattle.fin_fields.specs.Faults.{has_other_byte, is_outside_x, outside_x};
ghost use Rattle.fin_fields.specs.Fields.{most_text_lines};

use crate::fault::FieldFault;
use crate::field_lines::FieldLines;
use crate::line::Line;
use crate::tag::{nth_of, tag_of};
use corr_text::is_x;

fn has_byte_outside_x(line: &[u8]) -> bool
    ensures { result ≡ has_other_byte line.now }
{
    line.iter().any(|b| !is_x(*b))
}

fn lines_outside_x(lines: &[Line<'_>]) -> bool
    ensures { result ≡ list_any has_other_byte lines.now }
{
    lines.iter().any(|line| has_byte_outside_x(line.bytes()))
}

fn first_place(fields: &[FieldLines<'_>]) -> Option<usize>
    ensures { result ≡ position is_outside_x fields.now }
{
    fields.iter().position(|f| lines_outside_x(f.lines()))
}

/// The fault of the first field with a byte outside X, none where there is no such field.
pub fn first_outside_x(fields: &[FieldLines<'_>]) -> Option<FieldFault>
    requires few { length fields.now ≤ most_text_lines }
    ensures { result ≡ outside_x fields.now }
{
    let at = first_place(fields)?;
    Some(FieldFault::P21 {
        tag: tag_of(&fields[at]),
        nth: nth_of(fields, at),
    })
}
