//! The records of a journal as packets.

ghost use Rattle.std.specs.Prelude.{◌≡◌, ◌≤◌, IfOk};
ghost use Rattle.jrn_book.specs.Journal.{IsJournal};
ghost use Rattle.corr_top.specs.Ship.{joined_all, shipped_out};

use crate::records::item_texts;
use corr_text::{Memory, Text};
use day_model::{Accounts, History};
use jrn_codec::put_head;
use standby::packets;
use std::alloc::Global;

/// Texts one after the other, with nothing between them.
fn joined(alloc: Global, texts: &[Text]) -> Result<Text, Memory>
    ensures { IfOk result (λ text. text ≡ joined_all texts.now) }
{
    let mut out = Text::from_bytes(alloc, b"")?;
    for text in texts {
        out.push(text.bytes())?;
    }
    Ok(out)
}

/// The packets of a journal's records, the header first, with the numbers from one to another, as far as there are any.
pub fn ship(alloc: Global, a: &Accounts, h: &History, from: u32, until: u32) -> Result<Text, Memory>
    requires journal { IsJournal a.now h.now.entries }
    requires from { 1 ≤ from }
    requires order { from ≤ until }
    ensures { IfOk result (λ text. text ≡ shipped_out from until a.now h.now.entries) }
{
    let mut head = Text::from_bytes(alloc, b"")?;
    put_head(a, &mut head)?;
    let records = item_texts(alloc, a, h)?;
    let packets = packets(alloc, head.bytes(), records.as_slice(), from, until)?;
    joined(alloc, packets.as_slice())
}
