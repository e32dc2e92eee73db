//! The commands `open-account` and `set-limits`: the accounts of a journal change.

ghost use Rattle.std.specs.Prelude.{◌≡◌, [], None, IfErr, IfOk, OnOk};
ghost use Rattle.day_model.specs.Legal.{IsInForm};
ghost use Rattle.jrn_book.specs.Journal.{item_records};
ghost use Rattle.jrn_codec.specs.Header.{head_bytes};
ghost use Rattle.jrn_file.specs.File.{IsSettled, disk_of};
ghost use Rattle.ref_tables.specs.AccountList.{IsAccount};
ghost use Rattle.ref_tables.specs.Accounts.{account_fault, account_of};
ghost use Rattle.ref_tables.specs.Seen.{Tables as Known};
ghost use Rattle.ref_tables.specs.declared.fault.TableName.TheVariants as names;
ghost use Rattle.corr_top.specs.Changed.{cells_in, number_of_id};
ghost use Rattle.corr_top.specs.inner.Changed.{GivesChanged, GivesEntered, IsRowRefused};
ghost use Rattle.corr_top.specs.Commands.{meaning_of};
ghost use Rattle.corr_top.specs.inner.Ends.{HasTexts};
ghost use Rattle.corr_top.specs.Stops.{row_named, status_of_change};
ghost use Rattle.corr_top.specs.inner.Stops.{status_of_row};
ghost use Rattle.corr_top.specs.declared.account_words.AccountChange.TheVariants.{Open, Limit};
ghost use Rattle.corr_top.specs.declared.status.Status.TheVariants.{Table};
ghost use Rattle.corr_top.specs.declared.words.Command.TheVariants.{Plain as PlainCommand};
ghost use Rattle.corr_top.specs.declared.words.Plain.TheVariants as plain;

use crate::account_words::{AccountChange, AccountWords, Ends, Word};
use crate::accounts::open_account;
use crate::room::Room;
use crate::status::Status;
use crate::tables::read_lent;
use crate::writing::Texts;
use corr_disk::Disk;
use corr_ids::Bic;
use corr_io::{Sink, Source};
use corr_text::Memory;
use day_model::{Accounts, AcctNo, What};
use jrn_book::{ChangeFault, Past, change_opened, open_past};
use jrn_file::JFile;
use ref_tables::{AccountRow, RefTables, TableFault, TableName, Why, read_account_words};
use std::alloc::Global;

/// The row of the table of accounts that the words are, with opening 0, read for a home bank as row 1.
fn read_row(
    alloc: Global,
    words: &AccountWords<'_>,
    home: &Bic,
    known: &RefTables,
) -> Result<AccountRow, Status>
    ensures account { IfOk result (IsAccount home.now.head known.now) }
    ensures sound { OnOk result (account_fault home.now.head known.now [] (cells_in words.now) ≡ None) }
    ensures value { IfOk result (λ row. row ≡ account_of known.now (cells_in words.now)) }
    ensures refused { IfErr result (IsRowRefused (account_fault home.now.head known.now [] (cells_in words.now))) }
{
    let cells: [&[u8]; 7] = [
        words.id.bytes(),
        words.kind.bytes(),
        words.owner.bytes(),
        words.ccy.bytes(),
        words.floor.bytes(),
        words.ceil.bytes(),
        b"0",
    ];
    match read_account_words(alloc, &cells, home, known) {
        Ok(row) => Ok(row),
        Err(fault) => Err(row_status(fault)),
    }
}

/// The number of the account with this id, 0 where there is none.
fn number_of(a: &Accounts, id: &Word<'_>) -> AcctNo
    ensures { result ≡ number_of_id id.now a.now }
{
    match a.find(id.bytes()) {
        Some(number) => number,
        None => AcctNo(0),
    }
}

/// The row that a refusal tells: 1 where an account is opened, else the number of the account.
fn row_of(what: &What) -> u32
    ensures { result ≡ row_named what.now }
{
    match what {
        What::Opened(_) => 1,
        What::Limits { account, .. } => account.0,
    }
}

/// The status of a table of accounts whose row is refused.
fn refused(row: u32, why: Why) -> Status
    ensures { result ≡ Table names.Accounts row why }
{
    Status::Table {
        table: TableName::Accounts,
        row,
        why,
    }
}

/// The status of a row of words that is refused, which is row 1.
fn row_status(fault: TableFault) -> Status
    ensures { result ≡ status_of_row fault }
{
    match fault {
        TableFault::Bad { why, .. } => refused(1, why),
        TableFault::Memory => Status::Memory,
    }
}

/// The status of a change that was not made, in a journal of so many entries.
fn change_status(what: &What, entries: u32, fault: ChangeFault) -> Status
    ensures { result ≡ status_of_change what.now entries fault }
{
    let row = row_of(what);
    match fault {
        ChangeFault::Open(fault) => Status::from(fault),
        ChangeFault::Unknown => Status::Unknown,
        ChangeFault::Rows => refused(row, Why::Rows),
        ChangeFault::Double { row: earlier } => refused(row, Why::Double { row: earlier }),
        ChangeFault::Currency => refused(row, Why::Currency),
        ChangeFault::Limits { .. } => refused(row, Why::Limits),
        ChangeFault::Full { end, need } => Status::Full { entries, end, need },
        ChangeFault::DiskFault { before, after } => Status::DiskFault { before, after },
        ChangeFault::Memory => Status::Memory,
    }
}

/// Makes a change in an open journal, whose past this is. The texts are empty.
fn enter<D: Disk>(
    alloc: Global,
    past: &Past,
    file: JFile<D>,
    what: &What,
) -> (D, Result<Texts, Status>)
    requires form { IsInForm what.now }
    requires settled { IsSettled D.honest D.reads D.may_leave file (head_bytes past.now.accounts) (item_records past.now.accounts past.now.history) }
    ensures gives { GivesEntered D.Disk (disk_of file) result.0 past.now.accounts past.now.history what.now result.1 }
    ensures honest { D.honest result.0 ≡ D.honest (disk_of file) }
{
    let texts = match Texts::none(alloc) {
        Ok(texts) => texts,
        Err(Memory) => return (file.into_disk(), Err(Status::Memory)),
    };
    match change_opened(alloc, past, file, what) {
        Ok(disk) => (disk, Ok(texts)),
        Err((disk, fault)) => (disk, Err(change_status(what, past.history().len(), fault))),
    }
}

/// Opens the account that the words say in the journal of a disk, which is of the home bank for which they are read.
fn open_in<D: Disk>(
    alloc: Global,
    words: &AccountWords<'_>,
    known: &RefTables,
    disk: D,
) -> (D, Result<Texts, Status>)
    ensures gives { GivesChanged D.Disk disk result.0 known.now (Open words.now) result.1 }
    ensures honest { D.honest result.0 ≡ D.honest disk }
{
    let (past, file) = match open_past(alloc, disk) {
        Ok(opened) => opened,
        Err((disk, fault)) => return (disk, Err(Status::from(fault))),
    };
    match read_row(alloc, words, past.accounts().home(), known) {
        Ok(row) => {
            let what = What::Opened(open_account(row));
            enter(alloc, &past, file, &what)
        }
        Err(status) => (file.into_disk(), Err(status)),
    }
}

/// Gives the account with this id another floor and ceiling in the journal of a disk.
fn limit_in<D: Disk>(
    alloc: Global,
    id: &Word<'_>,
    ends: &Ends,
    disk: D,
) -> (D, Result<Texts, Status>)
    ensures gives { (known : Known) → GivesChanged D.Disk disk result.0 known (Limit id.now ends.now) result.1 }
    ensures honest { D.honest result.0 ≡ D.honest disk }
{
    let (past, file) = match open_past(alloc, disk) {
        Ok(opened) => opened,
        Err((disk, fault)) => return (disk, Err(Status::from(fault))),
    };
    let account = number_of(past.accounts(), id);
    let what = What::Limits {
        account,
        floor: ends.floor,
        ceil: ends.ceil,
    };
    enter(alloc, &past, file, &what)
}

/// `open-account`: reads the tables of banks and currencies, opens the journal, and opens the account.
fn open_with<S: Source, K: Sink, D: Disk>(
    alloc: Global,
    words: &AccountWords<'_>,
    room: Room<S, K, D>,
) -> (Room<S, K, D>, Result<Texts, Status>)
    ensures texts { HasTexts S.Source D.Disk (meaning_of (PlainCommand (plain.Change (Open words.now)))) room result.0 result.1 }
    ensures honest { D.honest result.0.disk ≡ D.honest room.disk }
{
    let mut room = room;
    let known = match read_lent(alloc, &mut room.tables) {
        Ok(known) => known,
        Err(stop) => return (room, Err(Status::from(stop))),
    };
    let (disk, texts) = open_in(alloc, words, &known, room.disk);
    room.disk = disk;
    (room, texts)
}

/// `set-limits`: opens the journal, and gives the account its limits.
fn limit_with<S: Source, K: Sink, D: Disk>(
    alloc: Global,
    id: &Word<'_>,
    ends: &Ends,
    room: Room<S, K, D>,
) -> (Room<S, K, D>, Result<Texts, Status>)
    ensures texts { HasTexts S.Source D.Disk (meaning_of (PlainCommand (plain.Change (Limit id.now ends.now)))) room result.0 result.1 }
    ensures honest { D.honest result.0.disk ≡ D.honest room.disk }
{
    let mut room = room;
    let (disk, texts) = limit_in(alloc, id, ends, room.disk);
    room.disk = disk;
    (room, texts)
}

/// Changes the accounts of the journal: what its commands read, and the change. The texts are empty.
pub fn change<S: Source, K: Sink, D: Disk>(
    alloc: Global,
    change: AccountChange<'_>,
    room: Room<S, K, D>,
) -> (Room<S, K, D>, Result<Texts, Status>)
    ensures texts { HasTexts S.Source D.Disk (meaning_of (PlainCommand (plain.Change change.entry))) room result.0 result.1 }
    ensures honest { D.honest result.0.disk ≡ D.honest room.disk }
{
    match change {
        AccountChange::Open(words) => open_with(alloc, &words, room),
        AccountChange::Limit { id, ends } => limit_with(alloc, &id, &ends, room),
    }
}
