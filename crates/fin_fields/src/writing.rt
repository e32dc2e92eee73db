//! Fields written as lines.

ghost use Rattle.std.specs.Prelude.{◌≡◌, ◌≢◌, [], ◌++◌, All, ◌≤◌, IfOk, OnOk};
ghost use Rattle.fin_fields.specs.Fields.{fields_of};
ghost use Rattle.fin_fields.specs.Faults.{field_fault};
ghost use Rattle.fin_fields.specs.Writing.{ended_lines, field_text, fields_text, heading_text, letter_text, IsField};

use crate::field::Field;
use corr_text::{Memory, Text};
use std::alloc::Global;

fn put_letter(letter: Option<u8>, out: &mut Text) -> Result<(), Memory>
    ensures { OnOk result (out.new ≡ out.old ++ letter_text letter) }
{
    match letter {
        Some(letter) => out.push(&[letter]),
        None => Ok(()),
    }
}

fn put_heading(f: &Field, out: &mut Text) -> Result<(), Memory>
    requires { f.now.tag ≤ 99 }
    ensures { OnOk result (out.new ≡ out.old ++ heading_text f.now) }
{
    out.push(&[b':', b'0' + f.tag / 10, b'0' + f.tag % 10])?;
    put_letter(f.letter, out)?;
    out.push(b":")
}

fn put_lines(lines: &[Text], out: &mut Text) -> Result<(), Memory>
    ensures { OnOk result (out.new ≡ out.old ++ ended_lines lines.now) }
{
    for line in lines {
        out.push(line.bytes())?;
        out.push(b"\r\n")?;
    }
    Ok(())
}

fn put_field(f: &Field, out: &mut Text) -> Result<(), Memory>
    requires { f.now.tag ≤ 99 }
    ensures { OnOk result (out.new ≡ out.old ++ field_text f.now) }
{
    put_heading(f, out)?;
    put_lines(f.lines.as_slice(), out)
}

/// Writes fields as the lines of block 4, each ended by CR LF. `cut_fields` of the text gives the same fields.
///
/// There is at least one field. Each has a number of at most 99, a capital letter or none, and at least one line; its lines are
/// of X, and none but the first is empty or begins with `:` or `-` (`fit`).
///
/// Example: tag 20 with the line `REF1` is written as `:20:REF1` and CR LF.
pub fn put_fields(alloc: Global, fields: &[Field]) -> Result<Text, Memory>
    requires some { fields.now ≢ [] }
    requires fit { All IsField fields.now }
    ensures text { IfOk result (λ text. text ≡ fields_text fields.now) }
    ensures again { fields_of (fields_text fields.now) ≡ fields.now }
    ensures sound { field_fault (fields_text fields.now) ≡ None }
{
    let mut out = Text::from_bytes(alloc, b"")?;
    for f in fields {
        put_field(f, &mut out)?;
    }
    Ok(out)
}
