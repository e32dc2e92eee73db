//! Calls go through functions that promise little: a test then carries none of what a book promises.

ghost use Rattle.std.specs.Prelude.{◌≡◌, ◌⊎◌, ◌<◌, All, IfOk};
ghost use Rattle.std.specs.Bool.{OnTrue};
ghost use Rattle.acct_locks.specs.Holdings.{HoldsOnce};
ghost use Rattle.day_model.specs.Laws.{IsLatest};
ghost use Rattle.day_model.specs.Legal.{IsLegal};
ghost use Rattle.jrn_codec.specs.Record.{IsEntry};
ghost use Rattle.jrn_book.specs.Opening.{HasPurses};

use crate::records::ENTRY;
use acct_locks::{Held, Held2, Loose, Name, Purses};
use corr_disk::{Disk, FuseDisk, MemDisk, OnceDisk};
use corr_ids::Day;
use corr_text::{Memory, Text, put_digits};
use day_model::{Accounts, AcctNo, Entry, History, Leg, Outcome};
use jrn_book::{CommitFault, Committed, JrnBook, open_book};
use jrn_codec::read_entry;
use jrn_file::OpenFault;
use std::alloc::Global;
use std::marker::Brand;
use std::sync::Wait;
use std::test::Fail;

// HOMEUS33 with a vostro account of ALPHDEFF and a nostro account with CORRBEBB: EUR 60,000.00 and as much less.
pub(crate) const HEAD: &[u8] =
    b"CORRJ2HOMEUS33XXX\0\x02\x08VALPHEURVALPHDEFFXXXEUR\x02\xff\xff\xff\xff\xffgi\x80\0\0\0\x14\xf4k\x04\0\0\0\0\0\0[\x8d\x80\x08NCORREURNCORRBEBBXXXEUR\x02\xff\xff\xff\xeb\x0b\x94\xfc\0\0\0\0\x14\xf4k\x04\0\xff\xff\xff\xff\xff\xa4r\x80";

// The entry of `records`, with another text.
const OTHER: &[u8] =
    b"\0240603ALPHDEFFAXXX0001000001\x01\0\0\0\x4d\xa5\0\0\x4d\xa5\0\x02\0\x01\0\0\0\0\0\0\x01\xe2\x40\0\x04REF1\0\x02\x01\0\0\0\0\0\x01\xe2\x40\x01\x01\x01\x04ALPHDEFFXXX\x01\0\0\0\x02--";

// That entry as one that account 1 could not take.
const UNFUNDED: &[u8] =
    b"\0240603ALPHDEFFAXXX0001000001\x01\0\0\0\x4d\xa5\0\0\x4d\xa5\x01\x01\0\0\0\0\0\x5b\x8d\x80\x02\0\x01\0\0\0\0\0\0\x01\xe2\x40\0\x04REF1\0\x02\x01\0\0\0\0\0\x01\xe2\x40\x01\x01\x01\x04ALPHDEFFXXX\x01\0\0\0\x02\r\n";

// A later message that was entered the day before.
const EARLIER: &[u8] =
    b"\0240603ALPHDEFFAXXX0001000002\x01\0\0\0\x4d\xa4\0\0\x4d\xa5\0\x02\0\x01\0\0\0\0\0\0\x01\xe2\x40\0\x04REF1\0\x02\x01\0\0\0\0\0\x01\xe2\x40\x01\x01\x01\x04ALPHDEFFXXX\x01\0\0\0\x02\r\n";

// What follows the reference in the record of a cent that was booked from account 1 to account 2.
const CENT: &[u8] =
    b"\x01\0\0\0\x4d\xa5\0\0\x4d\xa5\0\x02\0\x01\0\0\0\0\0\0\0\0\x01\0\x04REF1\0\x02\x01\0\0\0\0\0\0\0\x01\x01\x01\x01\x04ALPHDEFFXXX\x01\0\0\0\x02\r\n";

// Adds a record of fewer than 256 bytes after an open gate.
fn add_record(bytes: &mut Text, record: &[u8]) -> Result<(), Memory> {
    bytes.push(&[1, 0, 0, 0])?;
    bytes.push(&[(record.len() % 256) as u8])?;
    bytes.push(record)
}

// A journal of these records.
pub(crate) fn journal(alloc: Global, records: &[&[u8]]) -> Result<Text, Memory> {
    let mut bytes = Text::from_bytes(alloc, b"")?;
    for record in records {
        add_record(&mut bytes, record)?;
    }
    bytes.push(&[0])?;
    Ok(bytes)
}

pub(crate) fn entry_of(alloc: Global, bytes: &[u8]) -> Result<Entry, Fail>
    ensures { IfOk result IsEntry }
{
    match read_entry(alloc, bytes) {
        Ok(entry) => Ok(entry),
        Err(_) => Err("no entry".into()),
    }
}

// Accounts 1 and 2 are held.
pub(crate) fn hold<'a, N: Name, R: Wait>(rt: &R, purses: &'a Purses<N>) -> Held2<'a, N>
    requires two { purses.now ≡ 2 }
    ensures table { result.table ≡ N.table }
    ensures holds { HoldsOnce result.held 1 × HoldsOnce result.held 2 }
{
    purses.hold().take(rt, AcctNo(1)).take(rt, AcctNo(2))
}

// Whether each leg is of account 1 or 2.
pub(crate) fn is_between(legs: &[Leg]) -> bool
    ensures { OnTrue result (All (λ leg. (leg.account.0 ≡ 1) ⊎ (leg.account.0 ≡ 2)) legs.now) }
{
    for leg in legs {
        if leg.account.0 != 1 && leg.account.0 != 2 {
            return false;
        }
    }
    true
}

// Whether the last entry of a legal history has no later day.
pub(crate) fn is_latest(a: &Accounts, h: &History, day: Day) -> bool
    requires legal { IsLegal a.now h.now.entries }
    ensures { OnTrue result (IsLatest h.now.entries day) }
{
    let _ = a;
    let count = h.len();
    if count == 0 {
        return true;
    }
    let last = h.get(count).day;
    if last.0 > day.0 {
        return false;
    }
    true
}

// Enters the pay of an entry on its day, while accounts 1 and 2 are held; none where it may not be entered.
pub(crate) fn enter_held<H: Held, D: Disk>(
    book: &mut JrnBook<D>,
    held: &mut H,
    e: &Entry,
) -> Option<Result<Committed, CommitFault>>
    requires written { IsEntry e.now }
    requires table { book.old.table ≡ H.table held.old }
    requires holds { HoldsOnce (H.held held.old) 1 × HoldsOnce (H.held held.old) 2 }
    ensures { book.new.table ≡ book.old.table }
{
    let may = is_between(e.pay.legs.as_slice())
        && book.accounts().fits(&e.pay)
        && is_latest(book.accounts(), book.history(), e.day);
    if !may {
        return None;
    }
    Some(book.commit(held, &e.pay, e.day))
}

fn enter<N: Name, D: Disk, R: Wait>(
    rt: &R,
    book: &mut JrnBook<D>,
    purses: &Purses<N>,
    e: &Entry,
) -> Option<Result<Committed, CommitFault>>
    requires written { IsEntry e.now }
    requires table { book.old.table ≡ N.table }
    requires two { purses.now ≡ 2 }
    ensures { book.new.table ≡ book.old.table }
{
    let mut held = hold(rt, purses);
    let answer = enter_held(book, &mut held, e);
    held.give_back();
    answer
}

// What a pay answers when it is given twice, the place of its reference then, and the disk.
#[derive(Drop)]
struct Run<D: Disk> {
    first: Option<Result<Committed, CommitFault>>,
    second: Option<Result<Committed, CommitFault>>,
    place: Option<u32>,
    disk: D,
}

fn give_twice<N: Name, D: Disk + Drop, R: Wait>(
    rt: &R,
    alloc: Global,
    book: JrnBook<D>,
    loose: Loose,
    e: &Entry,
) -> Result<Run<D>, Fail>
    requires written { IsEntry e.now }
    requires table { book.table ≡ N.table }
    requires purses { HasPurses book loose }
{
    let mut book = book;
    if book.accounts().count() != 2 {
        return Err("other accounts".into());
    }
    let purses = loose.lock::<N>(alloc)?;
    book.reserve(&e.pay)?;
    let first = enter(rt, &mut book, &purses, e);
    let second = enter(rt, &mut book, &purses, e);
    let place = book.place_of(&e.pay.mir);
    let (_, _, disk) = book.into_parts();
    Ok(Run {
        first,
        second,
        place,
        disk,
    })
}

pub(crate) fn opened<D: Disk + Drop>(
    alloc: Global,
    disk: D,
) -> Result<(JrnBook<D>, Loose), OpenFault>
    ensures { IfOk result (λ r. HasPurses r.0 r.1) }
{
    match open_book(alloc, disk) {
        Ok(opened) => Ok(opened),
        Err((_, fault)) => Err(fault),
    }
}

// Opens the book of a disk and gives it the pay of an entry twice.
fn enter_twice<D: Disk + Drop, R: Wait>(
    rt: &R,
    alloc: Global,
    disk: D,
    bytes: &[u8],
) -> Result<Run<D>, Fail> {
    let e = entry_of(alloc, bytes)?;
    let (book, loose) = opened(alloc, disk)?;
    give_twice::<Brand, _, _>(rt, alloc, book, loose, &e)
}

pub(crate) fn is_new(answer: &Option<Result<Committed, CommitFault>>) -> bool {
    let new = Committed::New {
        place: 1,
        outcome: Outcome::Booked,
    };
    *answer == Some(Ok(new))
}

fn is_kept(answer: &Option<Result<Committed, CommitFault>>) -> bool {
    let kept = Committed::Kept {
        place: 1,
        outcome: Outcome::Booked,
    };
    *answer == Some(Ok(kept))
}

fn is_conflict(answer: &Option<Result<Committed, CommitFault>>) -> bool {
    *answer == Some(Err(CommitFault::Conflict { place: 1 }))
}

fn has_failed(answer: &Option<Result<Committed, CommitFault>>) -> bool {
    let fault = CommitFault::DiskFault {
        before: 0,
        after: 1,
    };
    *answer == Some(Err(fault))
}

fn is_broken(answer: &Option<Result<Committed, CommitFault>>) -> bool {
    *answer == Some(Err(CommitFault::Broken { at_open: 0, now: 1 }))
}

// The answers of the first run, of one with another pay under the reference, and of one with the same again.
#[test]
fn a_pay_is_entered_once_and_stands_after_a_restart(rt: HostRuntime) -> Result<(), Fail> {
    let alloc = rt.alloc();
    let disk = MemDisk::new(alloc, journal(alloc, &[HEAD])?);
    let run = enter_twice(&rt, alloc, disk, ENTRY)?;
    assert!(rt; is_new(&run.first) && is_kept(&run.second));
    assert_eq!(rt; run.place, Some(1));
    let run = enter_twice(&rt, alloc, run.disk, OTHER)?;
    assert!(rt; is_conflict(&run.first) && is_conflict(&run.second));
    let run = enter_twice(&rt, alloc, run.disk, ENTRY)?;
    assert!(rt; is_kept(&run.first) && is_kept(&run.second));
    Ok(())
}

// Whether a disk that stops after so many calls of the first commit answers so, and then opens with the history or the next.
fn resumes<R: Wait>(rt: &R, alloc: Global, calls: u64, torn: u64) -> Result<bool, Fail>
    requires { calls < 5 }
{
    let disk = FuseDisk::new(alloc, journal(alloc, &[HEAD])?, calls + 2, torn);
    let run = enter_twice(rt, alloc, disk, ENTRY)?;
    let answers = if calls == 4 {
        is_new(&run.first) && is_kept(&run.second)
    } else {
        has_failed(&run.first) && is_broken(&run.second)
    };
    let again = enter_twice(rt, alloc, MemDisk::new(alloc, run.disk.left()), ENTRY)?;
    Ok(answers && (is_new(&again.first) || is_kept(&again.first)) && is_kept(&again.second))
}

#[test]
fn a_commit_that_stops_leaves_the_history_or_the_next_one(rt: HostRuntime) -> Result<(), Fail> {
    for calls in 0..5u64 {
        for torn in 0..4u64 {
            let holds = resumes(&rt, rt.alloc(), calls, torn)?;
            assert!(rt; holds);
        }
    }
    Ok(())
}

// The second sync of the first commit fails: it is the sixth call.
#[test]
fn a_disk_that_fails_once_breaks_the_book(rt: HostRuntime) -> Result<(), Fail> {
    let alloc = rt.alloc();
    let disk = OnceDisk::new(alloc, journal(alloc, &[HEAD])?, 6);
    let run = enter_twice(&rt, alloc, disk, ENTRY)?;
    assert!(rt; has_failed(&run.first) && is_broken(&run.second));
    assert_eq!(rt; run.place, None);
    Ok(())
}

// Where an opening finds the records damaged; none where it doesn't.
pub(crate) fn damaged_at(alloc: Global, records: &[&[u8]]) -> Result<Option<u64>, Memory> {
    let disk = MemDisk::new(alloc, journal(alloc, records)?);
    match open_book(alloc, disk) {
        Err((_, OpenFault::Damaged { at })) => Ok(Some(at)),
        _ => Ok(None),
    }
}

fn is_no_journal(alloc: Global, records: &[&[u8]]) -> Result<bool, Memory> {
    let disk = MemDisk::new(alloc, journal(alloc, records)?);
    Ok(matches!(open_book(alloc, disk), Err((_, OpenFault::NotAJournal))))
}

#[test]
fn a_journal_without_a_header_is_none(rt: HostRuntime) -> Result<(), Fail> {
    let none = is_no_journal(rt.alloc(), &[ENTRY])?;
    assert!(rt; none);
    Ok(())
}

// The header has 117 bytes and the entry 91: each record stands after its gate and its length in 5 bytes.
#[test]
fn records_that_may_not_stand_next_are_refused(rt: HostRuntime) -> Result<(), Fail> {
    let alloc = rt.alloc();
    let header = damaged_at(alloc, &[HEAD, HEAD])?;
    assert_eq!(rt; header, Some(122));
    let outcome = damaged_at(alloc, &[HEAD, UNFUNDED])?;
    assert_eq!(rt; outcome, Some(122));
    let reference = damaged_at(alloc, &[HEAD, ENTRY, OTHER])?;
    assert_eq!(rt; reference, Some(218));
    let day = damaged_at(alloc, &[HEAD, ENTRY, EARLIER])?;
    assert_eq!(rt; day, Some(218));
    let whole = damaged_at(alloc, &[HEAD, ENTRY])?;
    assert_eq!(rt; whole, None);
    Ok(())
}

// The record of a cent of the message with this number.
pub(crate) fn cent(alloc: Global, number: u64) -> Result<Text, Memory> {
    let mut record = Text::from_bytes(alloc, b"\0240603ALPHDEFFAXXX0001")?;
    put_digits(alloc, number, 6, &mut record)?;
    record.push(CENT)?;
    Ok(record)
}

// A journal of as many entries as there may be: the cents of 100,000 messages.
fn full(alloc: Global) -> Result<Text, Memory> {
    let mut bytes = Text::from_bytes(alloc, b"")?;
    add_record(&mut bytes, HEAD)?;
    for number in 1..100_001u64 {
        let record = cent(alloc, number)?;
        add_record(&mut bytes, record.bytes())?;
    }
    bytes.push(&[0])?;
    Ok(bytes)
}

fn is_last(answer: &Option<Result<Committed, CommitFault>>) -> bool {
    let kept = Committed::Kept {
        place: 100_000,
        outcome: Outcome::Booked,
    };
    *answer == Some(Ok(kept))
}

// The records after the header take 96 bytes each, with gate and length, and one more takes another gate too.
fn is_full(answer: &Option<Result<Committed, CommitFault>>) -> bool {
    let fault = CommitFault::Full {
        entries: 100_000,
        end: 9_600_122,
        need: 97,
    };
    *answer == Some(Err(fault))
}

#[test]
fn a_full_journal_finds_its_entries_and_takes_no_other(rt: HostRuntime) -> Result<(), Fail> {
    let alloc = rt.alloc();
    let last = cent(alloc, 100_000)?;
    let run = enter_twice(&rt, alloc, MemDisk::new(alloc, full(alloc)?), last.bytes())?;
    assert!(rt; is_last(&run.first) && is_last(&run.second));
    assert_eq!(rt; run.place, Some(100_000));
    let next = cent(alloc, 100_001)?;
    let run = enter_twice(&rt, alloc, run.disk, next.bytes())?;
    assert!(rt; is_full(&run.first) && is_full(&run.second));
    assert_eq!(rt; run.place, None);
    Ok(())
}
