//! Lines that stay in the text that they were cut from.

ghost use Rattle.std.specs.Prelude.{◌≡◌, IfOk, OnOk};

use corr_text::{List, Memory, Text};
use std::alloc::Global;
use std::marker::Model;

/// A line of a text that something else holds: its bytes, without the line's end.
#[derive(Debug, Drop)]
pub struct Line<'a> {
    bytes: &'a [u8],
}

impl<'a> Model for Line<'a> {
    ghost use Rattle.std.specs.Prelude.{List, ℕ};

    ghost Value = { List ℕ };

    ghost view = { λ l. l.bytes.now };
}

impl Default for Line<'_> {
    fn default() -> Self {
        Line { bytes: &[] }
    }
}

impl<'a> Line<'a> {
    /// These bytes as a line.
    pub fn of(bytes: &'a [u8]) -> Line<'a>
        ensures { result ≡ bytes.now }
    {
        Line { bytes }
    }

    /// The bytes.
    pub fn bytes(&self) -> &'a [u8]
        ensures { result.now ≡ self.now }
    {
        self.bytes
    }

    /// The line as a text of its own.
    pub fn copy(&self, alloc: Global) -> Result<Text, Memory>
        ensures { IfOk result (λ t. t ≡ self.now) }
    {
        Text::from_bytes(alloc, self.bytes())
    }
}

/// Lines as texts of their own, in their order.
pub fn copy_lines(alloc: Global, lines: &[Line<'_>]) -> Result<List<Text>, Memory>
    ensures { IfOk result (λ copies. copies ≡ lines.now) }
{
    let mut copies = List::with_room(alloc, lines.len())?;
    for line in lines {
        copies.push(line.copy(alloc)?)?;
    }
    Ok(copies)
}

/// As `copy_lines`, but into a list whose texts were others, in their memory as far as it goes. Where memory runs out, the
/// texts may be any.
pub fn refill_lines(
    alloc: Global,
    lines: &[Line<'_>],
    copies: &mut List<Text>,
) -> Result<(), Memory>
    ensures { OnOk result (copies.new ≡ lines.now) }
{
    for (at, line) in lines.iter().enumerate() {
        copies.put_at(alloc, at, line.bytes())?;
    }
    copies.truncate(lines.len());
    Ok(())
}
