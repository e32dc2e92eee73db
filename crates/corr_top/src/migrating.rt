//! The command `migrate`: a journal of version 1 is carried over to a second disk.

ghost use Rattle.std.specs.Prelude.{◌≡◌, ◌<◌, ◌≤◌, ◌∷◌, ◌^◌, [], All, IfOk, length, map};
ghost use Rattle.jrn_book.specs.declared.version.Version.TheVariants.{One};
ghost use Rattle.jrn_book.specs.Journal.{IsJournalIn, item_records};
ghost use Rattle.jrn_codec.specs.Header.{head_bytes};
ghost use Rattle.jrn_codec.specs.Record.{IsEntry, entry_bytes};
ghost use Rattle.jrn_file.specs.Journal.{journal_bytes};
ghost use Rattle.jrn_file.specs.Reading.{most_record_bytes};
ghost use Rattle.corr_top.specs.Commands.{meaning_of};
ghost use Rattle.corr_top.specs.inner.Copied.{GivesCarried, GivesCopied};
ghost use Rattle.corr_top.specs.inner.Ends.{HasTexts};
ghost use Rattle.corr_top.specs.Stops.{status_of_copying};
ghost use Rattle.corr_top.specs.declared.words.Command.TheVariants.{Plain as PlainCommand};
ghost use Rattle.corr_top.specs.declared.words.Plain.TheVariants as plain;

use crate::records::record_of;
use crate::room::Room;
use crate::status::Status;
use crate::writing::Texts;
use corr_disk::Disk;
use corr_io::{Sink, Source};
use corr_text::{Buf, Memory, Text};
use day_model::{Accounts, History};
use jrn_book::open_old;
use jrn_codec::put_head;
use jrn_file::{MakeFault, create_with};
use std::alloc::Global;

/// The records of a journal, and the texts of the command, which are empty.
#[derive(Drop)]
pub struct Prepared {
    pub head: Text,
    pub records: Vec<Text>,
    pub texts: Texts,
}

/// The records of the entries, in their order.
fn records_of(alloc: Global, h: &History) -> Result<Vec<Text>, Memory>
    requires { All IsEntry h.now.entries }
    ensures value { IfOk result (λ records. records.items ≡ map entry_bytes h.now.entries) }
    ensures few { IfOk result (λ records. All (λ r. length r ≤ most_record_bytes) records.items) }
{
    let mut room = Buf::new(alloc);
    let mut records = Vec::new(alloc);
    for place in 1..h.len() + 1 {
        records.push(record_of(alloc, h.get(place), &mut room)?)?;
    }
    Ok(records)
}

/// The records of a journal of accounts without changes and their history.
fn prepare(alloc: Global, a: &Accounts, h: &History) -> Result<Prepared, Memory>
    requires { IsJournalIn One a.now h.now.entries }
    ensures head { IfOk result (λ made. made.head ≡ head_bytes a.now) }
    ensures records { IfOk result (λ made. made.records.items ≡ item_records a.now h.now.entries) }
    ensures short { IfOk result (λ made. All (λ r. length r ≤ most_record_bytes) (made.head ∷ made.records.items)) }
    ensures size { IfOk result (λ made. length (journal_bytes made.head made.records.items) < 2 ^ 64) }
    ensures texts { IfOk result (λ made. (made.texts.report ≡ []) × (made.texts.out ≡ [])) }
{
    let mut head = Text::from_bytes(alloc, b"")?;
    put_head(a, &mut head)?;
    let records = records_of(alloc, h)?;
    let texts = Texts::none(alloc)?;
    Ok(Prepared {
        head,
        records,
        texts,
    })
}

/// The status of a journal that was not made on the second disk, of so many entries.
fn copy_status(entries: u32, fault: MakeFault) -> Status
    ensures { result ≡ status_of_copying entries fault }
{
    match fault {
        MakeFault::Exists { first } => Status::Exists { first },
        MakeFault::Full { end, need } => Status::Full { entries, end, need },
        MakeFault::DiskFault { before, after } => Status::SecondDiskFault { before, after },
        MakeFault::Memory => Status::Memory,
    }
}

/// Makes the journal of these accounts, which have no changes, and their history on a disk.
fn copy<D: Disk>(alloc: Global, a: &Accounts, h: &History, disk: D) -> (D, Result<Texts, Status>)
    requires { IsJournalIn One a.now h.now.entries }
    ensures gives { GivesCopied D.Disk disk result.0 a.now h.now.entries result.1 }
{
    let Prepared {
        head,
        records,
        texts,
    } = match prepare(alloc, a, h) {
        Ok(prepared) => prepared,
        Err(Memory) => return (disk, Err(Status::Memory)),
    };
    match create_with(alloc, disk, head.bytes(), records.as_slice()) {
        Ok(disk) => (disk, Ok(texts)),
        Err((disk, fault)) => (disk, Err(copy_status(h.len(), fault))),
    }
}

/// Opens the journal of version 1 of a disk, on which nothing is written, and makes one of the same accounts and history on a
/// second disk.
fn carry<D: Disk>(alloc: Global, disk: D, second: D) -> (D, D, Result<Texts, Status>)
    ensures gives { GivesCarried D.Disk disk result.0 second result.1 result.2 }
    ensures honest { D.honest result.0 ≡ D.honest disk }
{
    match open_old(alloc, disk) {
        Ok((accounts, history, disk)) => {
            let (second, texts) = copy(alloc, &accounts, &history, second);
            (disk, second, texts)
        }
        Err((disk, fault)) => (disk, second, Err(Status::from(fault))),
    }
}

/// Carries the journal of version 1 over to the second disk. The texts are empty.
pub fn migrate<S: Source, K: Sink, D: Disk>(
    alloc: Global,
    room: Room<S, K, D>,
) -> (Room<S, K, D>, Result<Texts, Status>)
    ensures texts { HasTexts S.Source D.Disk (meaning_of (PlainCommand plain.Migrate)) room result.0 result.1 }
    ensures honest { D.honest result.0.disk ≡ D.honest room.disk }
{
    let Room {
        tables,
        messages,
        received,
        sent,
        report,
        out,
        disk,
        disk2,
    } = room;
    let (disk, disk2, texts) = match disk2 {
        Some(second) => {
            let (disk, second, texts) = carry(alloc, disk, second);
            (disk, Some(second), texts)
        }
        None => (disk, None, Err(Status::NoSecond)),
    };
    let room = Room {
        tables,
        messages,
        received,
        sent,
        report,
        out,
        disk,
        disk2,
    };
    (room, texts)
}
