//! The command `page`: the messages of the file and the books, as a page for a desk.

ghost use Rattle.std.specs.Prelude.{◌≡◌, ◌≤◌, [], All, IfOk, IsTrue, length};
ghost use Rattle.corr_ids.specs.Day.{InCentury};
ghost use Rattle.fin_frame.specs.File.{most_bytes};
ghost use Rattle.ref_tables.specs.Seen.{few_decimals};
ghost use Rattle.corr_top.specs.Commands.{meaning_of};
ghost use Rattle.corr_top.specs.inner.Ends.{HasTexts};
ghost use Rattle.corr_top.specs.Page.{day_page};
ghost use Rattle.corr_top.specs.inner.Page.{GivesPage, GivesShown};
ghost use Rattle.corr_top.specs.declared.words.Command.TheVariants.{Plain as PlainCommand};
ghost use Rattle.corr_top.specs.declared.words.Plain.TheVariants as plain;

use crate::cutting::{cut_file, read_file};
use crate::directory::{Directory, read_directory};
use crate::opening::{close_journal, open_journal};
use crate::room::Room;
use crate::showing::rows_of;
use crate::status::Status;
use crate::writing::Texts;
use corr_disk::Disk;
use corr_ids::Day;
use corr_io::{Sink, Source};
use corr_text::{Memory, Text, let_go};
use fin_frame::Framed;
use jrn_book::JrnBook;
use std::alloc::Global;

/// The page of messages over a journal that was opened.
#[tactic(auto, unfolding(crate::specs::Page::day_page))]
fn page_texts<D: Disk>(
    alloc: Global,
    directory: &Directory,
    book: &JrnBook<D>,
    day: Day,
    messages: &[Framed<'_>],
) -> Result<Texts, Memory>
    requires decimals { IsTrue (few_decimals directory.now.tables.ccys) }
    requires day { InCentury day }
    requires short { All (λ m. length m ≤ most_bytes) messages.now }
    ensures report { IfOk result (λ texts. texts.report ≡ day_page directory.now book.now.accounts book.now.history day messages.now) }
    ensures out { IfOk result (λ texts. texts.out ≡ []) }
{
    let rows = rows_of(alloc, directory, book, messages)?;
    Ok(Texts {
        report: desk_page::page(alloc, book.accounts(), book.history(), day, rows.as_slice())?,
        out: Text::from_bytes(alloc, b"")?,
    })
}

/// Opens the journal of a disk, and makes the page of messages over it. Nothing is written to the disk.
fn show<D: Disk>(
    alloc: Global,
    directory: &Directory,
    day: Day,
    messages: &[Framed<'_>],
    disk: D,
) -> (D, Result<Texts, Status>)
    requires decimals { IsTrue (few_decimals directory.now.tables.ccys) }
    requires day { InCentury day }
    requires short { All (λ m. length m ≤ most_bytes) messages.now }
    ensures gives { GivesShown D.Disk directory.now day disk result.0 messages.now result.1 }
    ensures honest { D.honest result.0 ≡ D.honest disk }
{
    let (book, _) = match open_journal(alloc, disk) {
        Ok(opened) => opened,
        Err((disk, fault)) => return (disk, Err(Status::from(fault))),
    };
    let texts = page_texts(alloc, directory, &book, day, messages);
    let disk = close_journal(book);
    match texts {
        Ok(texts) => (disk, Ok(texts)),
        Err(Memory) => (disk, Err(Status::Memory)),
    }
}

/// Reads the message file, opens the journal, and makes the page. Nothing is written to the disk.
fn show_file<S: Source, D: Disk>(
    alloc: Global,
    directory: &Directory,
    day: Day,
    source: &mut S,
    disk: D,
) -> (D, Result<Texts, Status>)
    requires decimals { IsTrue (few_decimals directory.now.tables.ccys) }
    requires day { InCentury day }
    ensures gives { GivesPage S.Source D.Disk directory.now day source.old source.new disk result.0 result.1 }
    ensures honest { D.honest result.0 ≡ D.honest disk }
{
    let file = match read_file(alloc, source) {
        Ok(file) => file,
        Err(stop) => return (disk, Err(Status::from(stop))),
    };
    let messages = match cut_file(alloc, file.bytes()) {
        Ok(messages) => messages,
        Err(stop) => return (disk, Err(Status::from(stop))),
    };
    show(alloc, directory, day, messages.as_slice(), disk)
}

/// Reads the tables of banks, currencies, countries, instructions and charges and the message file, opens the journal, and makes the
/// page of a day. Nothing is booked.
pub fn page<S: Source, K: Sink, D: Disk>(
    alloc: Global,
    day: Day,
    room: Room<S, K, D>,
) -> (Room<S, K, D>, Result<Texts, Status>)
    requires { InCentury day }
    ensures texts { HasTexts S.Source D.Disk (meaning_of (PlainCommand (plain.Page day))) room result.0 result.1 }
    ensures honest { D.honest result.0.disk ≡ D.honest room.disk }
{
    let mut room = room;
    let directory = match read_directory(alloc, &mut room.tables) {
        Ok(directory) => directory,
        Err(stop) => return (room, Err(Status::from(stop))),
    };
    let disk = room.disk;
    let source = &mut room.messages;
    let (disk, texts) = show_file(alloc, &directory, day, source, disk);
    let_go(directory);
    room.disk = disk;
    (room, texts)
}
