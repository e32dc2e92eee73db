//! The command `mend`: what the file of messages that leave should hold.

ghost use Rattle.std.specs.Prelude.{◌≡◌, ◌≤◌, IfErr, IfOk, List, ℕ};
ghost use Rattle.jrn_book.specs.Journal.{IsJournal};
ghost use Rattle.corr_top.specs.Commands.{meaning_of};
ghost use Rattle.corr_top.specs.inner.Commands.{IsSpelled};
ghost use Rattle.corr_top.specs.inner.Ends.{HasTexts};
ghost use Rattle.corr_top.specs.Mend.{mended_out};
ghost use Rattle.corr_top.specs.inner.Mend.{GivesMended};
ghost use Rattle.corr_top.specs.Passing.{HasSent, StopsAtSent};
ghost use Rattle.corr_top.specs.declared.words.Command.TheVariants.{Plain as PlainCommand};
ghost use Rattle.corr_top.specs.declared.words.Plain.TheVariants as plain;

use crate::cutting::FileStop;
use crate::opening::{close_journal, open_journal};
use crate::outgoing::outgoing;
use crate::reading::read_whole;
use crate::room::Room;
use crate::status::Status;
use crate::writing::Texts;
use corr_disk::Disk;
use corr_io::{Sink, Source};
use corr_text::{Memory, Text};
use day_model::{Accounts, History};
use out_file::mended;
use std::alloc::Global;

/// The most bytes of the file of messages that leave: 1 GiB.
const SENT_LIMIT: usize = 1_073_741_824;

/// The bytes of the file of messages that leave.
fn read_sent<S: Source>(alloc: Global, source: &mut S) -> Result<Text, FileStop>
    ensures read { IfOk result (HasSent S.Source source.old source.new) }
    ensures stopped { IfErr result (λ stop. (bytes : List ℕ) × StopsAtSent S.Source source.old source.new bytes stop) }
{
    let file = read_whole(alloc, source, SENT_LIMIT)?;
    let count = file.bytes().len();
    if count > SENT_LIMIT {
        return Err(FileStop::TooLarge {
            bytes: count as u64,
            messages: 0,
        });
    }
    Ok(file)
}

/// What a file should hold: its whole messages as they stand, then those of the entries of a history from one place to another that
/// don't stand whole in it, in their order.
fn mended_by(
    alloc: Global,
    a: &Accounts,
    h: &History,
    from: u32,
    until: u32,
    file: &[u8],
) -> Result<Text, Memory>
    requires journal { IsJournal a.now h.now.entries }
    requires from { 1 ≤ from }
    ensures { IfOk result (λ text. text ≡ mended_out from until a.now h.now.entries file.now) }
{
    let sent = outgoing(alloc, a, h, from, until)?;
    mended(alloc, file, sent.bytes())
}

/// Reads the file of messages that leave, and makes what it should hold.
fn tell_mended<S: Source>(
    alloc: Global,
    a: &Accounts,
    h: &History,
    from: u32,
    until: u32,
    source: &mut S,
) -> Result<Texts, Status>
    requires journal { IsJournal a.now h.now.entries }
    requires from { 1 ≤ from }
    ensures { GivesMended S.Source a.now h.now.entries from until source.old source.new result }
{
    let file = read_sent(alloc, source)?;
    Ok(Texts {
        report: mended_by(alloc, a, h, from, until, file.bytes())?,
        out: Text::from_bytes(alloc, b"")?,
    })
}

/// Opens the journal, reads the file of messages that leave, and makes what it should hold. Nothing is written to the disk.
pub fn mend<S: Source, K: Sink, D: Disk>(
    alloc: Global,
    from: u32,
    until: u32,
    room: Room<S, K, D>,
) -> (Room<S, K, D>, Result<Texts, Status>)
    requires { IsSpelled (PlainCommand (plain.Mend from until)) }
    ensures texts { HasTexts S.Source D.Disk (meaning_of (PlainCommand (plain.Mend from until))) room result.0 result.1 }
    ensures honest { D.honest result.0.disk ≡ D.honest room.disk }
{
    let mut room = room;
    let (book, _) = match open_journal(alloc, room.disk) {
        Ok(opened) => opened,
        Err((disk, fault)) => {
            room.disk = disk;
            return (room, Err(Status::from(fault)));
        }
    };
    let source = &mut room.sent;
    let texts = tell_mended(alloc, book.accounts(), book.history(), from, until, source);
    room.disk = close_journal(book);
    (room, texts)
}
