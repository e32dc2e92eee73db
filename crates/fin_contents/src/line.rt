//! Lines and their parts.

ghost use Rattle.std.specs.Prelude.{◌≡◌, IfOk, option_map};
ghost use Rattle.std.specs.List.{position};
ghost use Rattle.fin_contents.specs.Plain.{is_slash, one_line, sized};
ghost use Rattle.fin_contents.specs.Writing.{line_field};

use corr_text::{List, Memory, Text};
use fin_fields::{Field, FieldLines};
use std::alloc::Global;

/// The line of a field that has one line; none of any other field.
pub fn one_line<'a>(f: &FieldLines<'a>) -> Option<&'a [u8]>
    ensures { option_map (λ b. b.now) result ≡ one_line f.now }
{
    match f.lines() {
        [line] => Some(line.bytes()),
        _ => None,
    }
}

/// Bytes as an array, none where their number is another.
pub fn array_of<const N: usize>(b: &[u8]) -> Option<[u8; N]>
    ensures { result ≡ sized N b.now }
{
    if b.len() != N {
        return None;
    }
    let mut array = [0; N];
    array.copy_from_slice(b);
    Some(array)
}

/// The place of the first slash, from 0; none where there is no slash.
pub fn first_slash(b: &[u8]) -> Option<usize>
    ensures { result ≡ position is_slash b.now }
{
    b.iter().position(|c| *c == b'/')
}

/// A field of one line.
pub fn line_field(alloc: Global, tag: u8, letter: Option<u8>, line: &[u8]) -> Result<Field, Memory>
    ensures { IfOk result (λ f. f ≡ line_field tag letter line.now) }
{
    let mut lines = List::new(alloc);
    lines.push(Text::from_bytes(alloc, line)?)?;
    Ok(Field { tag, letter, lines })
}
