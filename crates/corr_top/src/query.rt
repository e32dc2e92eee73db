//! The commands that read the journal and print what it says: `send`, `ship`, `bookings`, `statements`,
//! `customer-statements`, `balances` and `entries`.

ghost use Rattle.std.specs.Prelude.{◌≡◌, IfOk, OnOk};
ghost use Rattle.corr_top.specs.Commands.{meaning_of};
ghost use Rattle.corr_top.specs.inner.Commands.{IsSpelled};
ghost use Rattle.corr_top.specs.inner.Ends.{HasTexts};
ghost use Rattle.corr_top.specs.Query.{QuerySends, query_out, query_report};
ghost use Rattle.corr_top.specs.inner.Query.{GivesAsked};
ghost use Rattle.corr_top.specs.declared.words.Command.TheVariants.{Plain};
ghost use Rattle.corr_top.specs.declared.words.Plain.TheVariants as plain;
ghost use Rattle.jrn_book.specs.Journal.{IsJournal};

use crate::opening::{close_journal, open_journal};
use crate::outgoing::outgoing;
use crate::room::Room;
use crate::shipping::ship;
use crate::statements::statements;
use crate::status::Status;
use crate::words::Query;
use crate::writing::Texts;
use corr_disk::Disk;
use corr_io::{Sink, Source};
use corr_report::bookings;
use corr_text::{Memory, Text};
use day_model::{Accounts, History};
use desk_rows::{balances, entries};
use std::alloc::Global;

/// What a query prints of accounts and their history.
fn printed(alloc: Global, asked: Query, a: &Accounts, h: &History) -> Result<Texts, Memory>
    requires spelled { IsSpelled (Plain (plain.Query asked)) }
    requires journal { IsJournal a.now h.now.entries }
    ensures report { IfOk result (λ texts. texts.report ≡ query_report asked a.now h.now.entries) }
    ensures out { IfOk result (λ texts. texts.out ≡ query_out asked a.now h.now.entries) }
    ensures valid { OnOk result (QuerySends asked a.now h.now.entries) }
{
    match asked {
        Query::Send { from, until } => Ok(Texts {
            report: Text::from_bytes(alloc, b"")?,
            out: outgoing(alloc, a, h, from, until)?,
        }),
        Query::Ship { from, until } => Ok(Texts {
            report: Text::from_bytes(alloc, b"")?,
            out: ship(alloc, a, h, from, until)?,
        }),
        Query::Bookings => Ok(Texts {
            report: bookings(alloc, a, h)?,
            out: Text::from_bytes(alloc, b"")?,
        }),
        Query::Statements { owners, day } => Ok(Texts {
            report: Text::from_bytes(alloc, b"")?,
            out: statements(alloc, owners, a, h, day)?,
        }),
        Query::Balances { until } => Ok(Texts {
            report: balances(alloc, a, h, until)?,
            out: Text::from_bytes(alloc, b"")?,
        }),
        Query::Entries { from, until } => Ok(Texts {
            report: entries(alloc, a, h, from, until)?,
            out: Text::from_bytes(alloc, b"")?,
        }),
    }
}

/// Opens the journal of a disk and makes the texts that are asked for. Nothing is written to the disk.
fn ask<D: Disk>(alloc: Global, asked: Query, disk: D) -> (D, Result<Texts, Status>)
    requires { IsSpelled (Plain (plain.Query asked)) }
    ensures gives { GivesAsked D.Disk disk result.0 asked result.1 }
    ensures honest { D.honest result.0 ≡ D.honest disk }
{
    let (book, _) = match open_journal(alloc, disk) {
        Ok(opened) => opened,
        Err((disk, fault)) => return (disk, Err(Status::from(fault))),
    };
    let texts = printed(alloc, asked, book.accounts(), book.history());
    let disk = close_journal(book);
    match texts {
        Ok(texts) => (disk, Ok(texts)),
        Err(Memory) => (disk, Err(Status::Memory)),
    }
}

/// Opens the journal and makes the texts that are asked for.
pub fn query<S: Source, K: Sink, D: Disk>(
    alloc: Global,
    asked: Query,
    room: Room<S, K, D>,
) -> (Room<S, K, D>, Result<Texts, Status>)
    requires { IsSpelled (Plain (plain.Query asked)) }
    ensures texts { HasTexts S.Source D.Disk (meaning_of (Plain (plain.Query asked))) room result.0 result.1 }
    ensures honest { D.honest result.0.disk ≡ D.honest room.disk }
{
    let mut room = room;
    let (disk, texts) = ask(alloc, asked, room.disk);
    room.disk = disk;
    (room, texts)
}
