//! The command `init`: the journal of a home bank and its accounts is made.

ghost use Rattle.std.specs.Prelude.{◌≡◌, ◌≤◌, [], length, IfErr, IfOk, MatchResult};
ghost use Rattle.corr_ids.specs.Bic.{IsBic};
ghost use Rattle.day_model.specs.Chart.{Chart};
ghost use Rattle.jrn_codec.specs.Header.{IsHead, head_bytes};
ghost use Rattle.jrn_file.specs.Reading.{most_record_bytes};
ghost use Rattle.corr_top.specs.Commands.{meaning_of};
ghost use Rattle.corr_top.specs.inner.Ends.{HasTexts};
ghost use Rattle.corr_top.specs.OnDisk.{HasNotFailed, IsMakeable, IsOnDisk, MakesInTurn, StopsMaking};
ghost use Rattle.corr_top.specs.inner.Tables.{HasAccounts, StopsAccounts};
ghost use Rattle.corr_top.specs.declared.words.Command.TheVariants.{Plain as PlainCommand};
ghost use Rattle.corr_top.specs.declared.words.Plain.TheVariants.{Init};

use crate::accounts::open_accounts;
use crate::room::{Room, Tables};
use crate::status::Status;
use crate::writing::Texts;
use corr_disk::Disk;
use corr_ids::Bic;
use corr_io::{Sink, Source};
use corr_text::{Memory, Text};
use jrn_codec::put_head;
use jrn_file::{MakeFault, create};
use std::alloc::Global;

impl From<MakeFault> for Status {
    ghost use Rattle.corr_top.specs.Stops.{status_of_making};

    ghost from_gives = { λ fault status. status ≡ status_of_making fault };

    fn from(fault: MakeFault) -> Status {
        match fault {
            MakeFault::Exists { first } => Status::Exists { first },
            // `create` never says so: a journal without records is short.
            MakeFault::Full { .. } => Status::NotAJournal,
            MakeFault::DiskFault { before, after } => Status::DiskFault { before, after },
            MakeFault::Memory => Status::Memory,
        }
    }
}

/// What is prepared before the disk is touched: the header of the journal, and the texts, which are empty.
#[derive(Drop)]
pub struct Prepared {
    pub head: Text,
    pub texts: Texts,
}

/// Reads the tables, sums the openings, and writes the header of the journal.
pub fn prepare<S: Source>(
    alloc: Global,
    home: Bic,
    tables: &mut Tables<S>,
) -> Result<Prepared, Status>
    requires { IsBic home }
    ensures fine { IfOk result (λ prepared. (chart : Chart) × HasAccounts S.Source tables.old tables.new home chart
        × IsHead chart × (prepared.head ≡ head_bytes chart) × (prepared.texts.report ≡ []) × (prepared.texts.out ≡ [])) }
    ensures stopped { IfErr result (StopsAccounts S.Source tables.old tables.new home) }
{
    let accounts = open_accounts(alloc, home, tables)?;
    let mut head = Text::from_bytes(alloc, b"")?;
    put_head(&accounts, &mut head)?;
    let texts = Texts::none(alloc)?;
    Ok(Prepared { head, texts })
}

/// Makes the journal of this header on a disk, and hands the disk back. It is that of accounts without changes.
pub fn make<D: Disk>(alloc: Global, disk: D, head: &Text) -> (D, Result<(), MakeFault>)
    requires { length head.now ≤ most_record_bytes }
    ensures made { MatchResult result.1
        (λ _. (chart : Chart) → chart.changes ≡ [] → head.now ≡ head_bytes chart → IsMakeable D.Disk disk × IsOnDisk D.Disk result.0 chart [] × HasNotFailed D.Disk disk result.0 × MakesInTurn D.Disk disk result.0 chart)
        (λ fault. (chart : Chart) → head.now ≡ head_bytes chart → StopsMaking D.Disk disk result.0 chart fault) }
    ensures honest { D.honest result.0 ≡ D.honest disk }
{
    match create(alloc, disk, head.bytes()) {
        Ok(disk) => (disk, Ok(())),
        Err((disk, fault)) => (disk, Err(fault)),
    }
}

/// Reads the tables of banks, currencies, countries and accounts, and makes the journal of the home bank and its accounts.
/// Its texts are empty.
pub fn init<S: Source, K: Sink, D: Disk>(
    alloc: Global,
    home: Bic,
    room: Room<S, K, D>,
) -> (Room<S, K, D>, Result<Texts, Status>)
    requires { IsBic home }
    ensures texts { HasTexts S.Source D.Disk (meaning_of (PlainCommand (Init home))) room result.0 result.1 }
    ensures honest { D.honest result.0.disk ≡ D.honest room.disk }
{
    let mut room = room;
    let Prepared { head, texts } = match prepare(alloc, home, &mut room.tables) {
        Ok(prepared) => prepared,
        Err(status) => return (room, Err(status)),
    };
    let (disk, made) = make(alloc, room.disk, &head);
    room.disk = disk;
    match made {
        Ok(()) => (room, Ok(texts)),
        Err(fault) => (room, Err(Status::from(fault))),
    }
}
