//! Commands that are stopped, given again and stopped within that run too: the third run makes all good.

use crate::migrations::{migrate, old_of};
use calls_room::{Ended, FILES, WHOLE, booked, call, call_plain, journal, long_lived};
use corr_disk::FuseDisk;
use corr_text::{Memory, Text};
use corr_top::Status;
use ref_tables::{TableName, Why};
use std::alloc::Global;
use std::sync::Wait;
use std::test::Fail;
use std::thread::Threads;

// After how many calls the first disk stops and the second, and what arrives of the writes behind the last sync.
#[derive(Clone, Copy)]
struct Stops {
    first: u64,
    second: u64,
    torn: u64,
}

// A journal, and what is printed of it.
#[derive(Drop)]
struct Whole {
    journal: Text,
    printed: Text,
}

const RUN: [&[u8]; 3] = [b"run", b"240603", b"1"];

const RETURN: [&[u8]; 3] = [b"return", b"1", b"240604"];

const WIDER: [&[u8]; 4] = [b"set-limits", b"VALPHEUR", b"-20000000", b"90000000000"];

const CUST3: [&[u8]; 7] = [
    b"open-account",
    b"CUST3",
    b"C",
    b"HOMEUS33",
    b"EUR",
    b"0",
    b"90000000000",
];

const DOUBLE: Status = Status::Table {
    table: TableName::Accounts,
    row: 1,
    why: Why::Double { row: 4 },
};

// What arrives goes round with the stops: all, the first half, or all with each byte turned over. Nothing is left of a write by a stop
// ahead of it. Promises nothing; likewise the others here.
fn stops_at(first: u64, second: u64) -> Stops {
    Stops {
        first,
        second,
        torn: first.wrapping_add(second) % 3 + 1,
    }
}

// What a command leaves on a disk that stops after so many calls.
fn left_of<R: Wait + Threads + Sync>(
    rt: &R,
    alloc: Global,
    words: &[&[u8]],
    bytes: &Text,
    calls: u64,
    torn: u64,
) -> Result<Text, Memory> {
    let disk = FuseDisk::new(alloc, bytes.copy(alloc)?, calls, torn);
    let ended = call(rt, alloc, words, WHOLE, FILES, disk)?;
    Ok(ended.disk.left())
}

// What a command leaves that is stopped twice.
fn left_twice<R: Wait + Threads + Sync>(
    rt: &R,
    alloc: Global,
    words: &[&[u8]],
    bytes: &Text,
    stops: Stops,
) -> Result<Text, Memory> {
    let once = left_of(rt, alloc, words, bytes, stops.first, stops.torn)?;
    left_of(rt, alloc, words, &once, stops.second, stops.torn)
}

// What `bookings` and `balances` print of a journal; none where either is refused.
fn seen(alloc: Global, bytes: &Text) -> Result<Option<Text>, Memory> {
    let entries = call_plain(
        alloc,
        &[b"bookings"],
        FILES,
        long_lived(alloc, bytes.bytes())?,
    )?;
    let accounts = call_plain(
        alloc,
        &[b"balances"],
        FILES,
        long_lived(alloc, bytes.bytes())?,
    )?;
    if entries.status != Status::Done || accounts.status != Status::Done {
        return Ok(None);
    }
    let mut all = entries.report;
    all.push(accounts.report.bytes())?;
    Ok(Some(all))
}

// A journal with what is printed of it; none where it can't be read.
fn whole_of(alloc: Global, journal: Text) -> Result<Option<Whole>, Memory> {
    match seen(alloc, &journal)? {
        Some(printed) => Ok(Some(Whole { journal, printed })),
        None => Ok(None),
    }
}

// Whether a journal has the bytes of this one, or the same is printed of both.
fn is_alike(alloc: Global, found: &Text, whole: &Whole) -> Result<bool, Memory> {
    if found.bytes() == whole.journal.bytes() {
        return Ok(true);
    }
    match seen(alloc, found)? {
        Some(printed) => Ok(printed.bytes() == whole.printed.bytes()),
        None => Ok(false),
    }
}

// What a command leaves that isn't stopped, with its status.
fn ended<R: Wait + Threads + Sync>(
    rt: &R,
    alloc: Global,
    words: &[&[u8]],
    bytes: &Text,
) -> Result<(Status, Text), Memory> {
    let ended: Ended<FuseDisk> = call(
        rt,
        alloc,
        words,
        WHOLE,
        FILES,
        long_lived(alloc, bytes.bytes())?,
    )?;
    let status = ended.status;
    Ok((status, ended.disk.left()))
}

// Whether a command that was stopped twice is done by the third, or was before, which then ends so; and leaves a journal like this one.
fn is_made_good<R: Wait + Threads + Sync>(
    rt: &R,
    alloc: Global,
    words: &[&[u8]],
    bytes: &Text,
    already: Status,
    whole: &Whole,
    stops: Stops,
) -> Result<bool, Memory> {
    let left = left_twice(rt, alloc, words, bytes, stops)?;
    let (status, found) = ended(rt, alloc, words, &left)?;
    let told = status == Status::Done || status == already;
    Ok(told && is_alike(alloc, &found, whole)?)
}

// Whether this holds wherever both runs stop, of what one run leaves that isn't stopped: an entry and a change are made by four calls,
// after two that open the journal and write nothing.
fn is_always_made_good<R: Wait + Threads + Sync>(
    rt: &R,
    alloc: Global,
    words: &[&[u8]],
    bytes: &Text,
    already: Status,
) -> Result<bool, Memory> {
    let (status, left) = ended(rt, alloc, words, bytes)?;
    let Some(whole) = whole_of(alloc, left)? else {
        return Ok(false);
    };
    for first in 2..6u64 {
        for second in 2..7u64 {
            let stops = stops_at(first, second);
            if !is_made_good(rt, alloc, words, bytes, already, &whole, stops)? {
                return Ok(false);
            }
        }
    }
    Ok(status == Status::Done)
}

#[test]
fn a_run_is_made_good(rt: HostRuntime) -> Result<(), Fail> {
    let journal = journal(&rt, rt.alloc(), FILES)?;
    assert!(rt; is_always_made_good(&rt, rt.alloc(), &RUN, &journal, Status::Done)?);
    Ok(())
}

#[test]
fn an_account_is_opened_all_the_same(rt: HostRuntime) -> Result<(), Fail> {
    let journal = booked(&rt, rt.alloc(), FILES)?;
    assert!(rt; is_always_made_good(&rt, rt.alloc(), &CUST3, &journal, DOUBLE)?);
    Ok(())
}

#[test]
fn limits_are_changed_all_the_same(rt: HostRuntime) -> Result<(), Fail> {
    let journal = booked(&rt, rt.alloc(), FILES)?;
    assert!(rt; is_always_made_good(&rt, rt.alloc(), &WIDER, &journal, Status::Done)?);
    Ok(())
}

#[test]
fn a_payment_is_taken_back_all_the_same(rt: HostRuntime) -> Result<(), Fail> {
    let journal = booked(&rt, rt.alloc(), FILES)?;
    let already = Status::Returned { place: 2 };
    assert!(rt; is_always_made_good(&rt, rt.alloc(), &RETURN, &journal, already)?);
    Ok(())
}

// Whether a journal that is made with two stops is made by the third run, or stands: what arrived of its gate is told then.
fn is_init_made_good<R: Wait + Threads + Sync>(
    rt: &R,
    alloc: Global,
    whole: &Whole,
    stops: Stops,
) -> Result<bool, Memory> {
    let init: [&[u8]; 2] = [b"init", b"HOMEUS33"];
    let left = left_twice(rt, alloc, &init, &Text::from_bytes(alloc, b"")?, stops)?;
    let (status, found) = ended(rt, alloc, &init, &left)?;
    let told = status == Status::Done || matches!(status, Status::Exists { .. });
    Ok(told && is_alike(alloc, &found, whole)?)
}

// The length, a closed gate and a sync, the record and a sync, the gate and a sync.
#[test]
fn a_journal_is_made_all_the_same(rt: HostRuntime) -> Result<(), Fail> {
    let Some(whole) = whole_of(rt.alloc(), journal(&rt, rt.alloc(), FILES)?)? else {
        return Err("not made".into());
    };
    for first in 0..7u64 {
        for second in 0..8u64 {
            assert!(rt; is_init_made_good(&rt, rt.alloc(), &whole, stops_at(first, second))?);
        }
    }
    Ok(())
}

// What a copy to a second disk of these bytes leaves there that stops after so many calls.
fn copied(alloc: Global, old: &Text, bytes: &[u8], calls: u64, torn: u64) -> Result<Text, Memory> {
    let second = FuseDisk::new(alloc, Text::from_bytes(alloc, bytes)?, calls, torn);
    let ended = migrate(alloc, old, second)?;
    Ok(ended.second)
}

// Whether a copy that was stopped twice is made by the third command, or stands.
fn is_copy_made_good(
    alloc: Global,
    old: &Text,
    whole: &Whole,
    stops: Stops,
) -> Result<bool, Memory> {
    let once = copied(alloc, old, b"", stops.first, stops.torn)?;
    let twice = copied(alloc, old, once.bytes(), stops.second, stops.torn)?;
    let ended = migrate(alloc, old, long_lived(alloc, twice.bytes())?)?;
    let told = ended.status == Status::Done || matches!(ended.status, Status::Exists { .. });
    let kept = ended.first.bytes() == old.bytes();
    Ok(told && kept && is_alike(alloc, &ended.second, whole)?)
}

#[test]
fn a_journal_is_carried_over_all_the_same(rt: HostRuntime) -> Result<(), Fail> {
    let alloc = rt.alloc();
    let journal = booked(&rt, alloc, FILES)?;
    let old = old_of(alloc, journal.bytes())?;
    let Some(whole) = whole_of(alloc, journal)? else {
        return Err("not booked".into());
    };
    for first in 0..7u64 {
        for second in 0..8u64 {
            assert!(rt; is_copy_made_good(alloc, &old, &whole, stops_at(first, second))?);
        }
    }
    Ok(())
}
