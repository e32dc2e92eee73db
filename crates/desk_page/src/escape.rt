//! Texts in markup.

ghost use Rattle.std.specs.Prelude.{◌≡◌, ◌++◌, OnOk};
ghost use Rattle.desk_page.specs.Escaped.{escaped, escaped_byte, is_bare};

use corr_text::{Decimal, Memory, Text};

/// Whether a byte stands in markup as it is: it is printable, and none of `&`, `<`, `>`, `"` and `'`.
fn is_bare(b: u8) -> bool
    ensures { result ≡ is_bare b }
{
    b >= 32 && b <= 126 && b != b'&' && b != b'<' && b != b'>' && b != b'"' && b != b'\''
}

/// Adds a byte; one that can't stand as it is by its number: `&#60;`.
fn put_byte(b: u8, out: &mut Text) -> Result<(), Memory>
    ensures { OnOk result (out.new ≡ out.old ++ escaped_byte b) }
{
    if is_bare(b) {
        return out.push(&[b]);
    }
    let mut room = Decimal::new();
    out.push_all(&[b"&#", room.padded(b as u64, 1), b";"])
}

/// Adds a text of a message, of a table or of the journal, so that no byte of it is taken for markup.
pub(crate) fn put_escaped(text: &[u8], out: &mut Text) -> Result<(), Memory>
    ensures { OnOk result (out.new ≡ out.old ++ escaped text.now) }
{
    for b in text {
        put_byte(*b, out)?;
    }
    Ok(())
}
