//! Journals of version 1 that are carried over.

use crate::changes::is_booked;
use calls_room::{Ended, FILES, booked, call_between, call_plain, long_lived, wrote};
use corr_disk::FuseDisk;
use corr_text::{Memory, Text};
use corr_top::Status;
use std::alloc::Global;
use std::test::Fail;

// The first record of these bytes, which an open gate and its length stand in front of, and the bytes behind it; none behind a
// closed gate.
pub(crate) fn first_record(journal: &[u8]) -> Option<(&[u8], &[u8])> {
    match journal {
        [1, a, b, c, d, rest @ ..] => {
            rest.split_at_checked(u32::from_be_bytes([*a, *b, *c, *d]) as usize)
        }
        _ => None,
    }
}

// An open gate, and the length of a record of fewer than 65,536 bytes.
fn put_front(length: usize, journal: &mut Text) -> Result<(), Memory> {
    journal.push(&[1, 0, 0])?;
    journal.push(&((length % 65_536) as u16).to_be_bytes())
}

// The record of version 1 for one of version 2: the header has another digit, and an entry no byte in front.
fn put_old(record: &[u8], journal: &mut Text) -> Result<(), Memory> {
    match record {
        [b'C', b'O', b'R', b'R', b'J', b'2', accounts @ ..] => {
            put_front(record.len(), journal)?;
            journal.push(b"CORRJ1")?;
            journal.push(accounts)
        }
        [_, entry @ ..] => {
            put_front(entry.len(), journal)?;
            journal.push(entry)
        }
        [] => Ok(()),
    }
}

// The journal of version 1 of the accounts and the entries of this one, which has no changes. Promises nothing; likewise the others here.
pub(crate) fn old_of(alloc: Global, journal: &[u8]) -> Result<Text, Memory> {
    let mut old = Text::from_bytes(alloc, b"")?;
    let mut rest = journal;
    for _ in 0..journal.len() {
        let Some((record, after)) = first_record(rest) else {
            break;
        };
        put_old(record, &mut old)?;
        rest = after;
    }
    old.push(b"\0")?;
    Ok(old)
}

// How a copy ended: its status, whether nothing was written to the sinks, and what is left on both disks.
#[derive(Drop)]
pub(crate) struct Carried {
    pub(crate) status: Status,
    pub(crate) silent: bool,
    pub(crate) first: Text,
    pub(crate) second: Text,
}

// What is left on a second disk, or a word where there is none.
fn left_of(alloc: Global, second: Option<FuseDisk>) -> Result<Text, Memory> {
    match second {
        Some(second) => Ok(second.left()),
        None => Text::from_bytes(alloc, b"none"),
    }
}

fn left_by(alloc: Global, ended: Ended<FuseDisk>) -> Result<Carried, Memory> {
    let silent = wrote(&ended, b"", b"");
    let status = ended.status;
    let first = ended.disk.left();
    Ok(Carried {
        status,
        silent,
        first,
        second: left_of(alloc, ended.second)?,
    })
}

// The journal of these bytes, carried over to a second disk.
pub(crate) fn migrate(alloc: Global, journal: &Text, second: FuseDisk) -> Result<Carried, Memory> {
    let disk = long_lived(alloc, journal.bytes())?;
    left_by(
        alloc,
        call_between(alloc, &[b"migrate"], FILES, disk, second)?,
    )
}

// Whether it ended so, wrote nothing, and left the first disk as it was.
fn ended_so(ended: &Carried, status: Status, old: &Text) -> bool {
    ended.status == status && ended.silent && ended.first.bytes() == old.bytes()
}

#[test]
fn a_journal_of_version_1_is_carried_over(rt: HostRuntime) -> Result<(), Fail> {
    let alloc = rt.alloc();
    let journal = booked(&rt, alloc, FILES)?;
    let old = old_of(alloc, journal.bytes())?;
    let ended = migrate(alloc, &old, long_lived(alloc, b"")?)?;
    assert!(rt; ended_so(&ended, Status::Done, &old));
    assert!(rt; ended.second.bytes() == journal.bytes());
    Ok(())
}

#[test]
fn a_journal_of_version_2_is_left(rt: HostRuntime) -> Result<(), Fail> {
    let alloc = rt.alloc();
    let journal = booked(&rt, alloc, FILES)?;
    let ended = migrate(alloc, &journal, long_lived(alloc, b"")?)?;
    assert!(rt; ended_so(&ended, Status::Version { found: 2 }, &journal));
    assert!(rt; ended.second.bytes().is_empty());
    Ok(())
}

#[test]
fn without_a_second_disk_nothing_is_read(rt: HostRuntime) -> Result<(), Fail> {
    let alloc = rt.alloc();
    let journal = booked(&rt, alloc, FILES)?;
    let disk = long_lived(alloc, journal.bytes())?;
    let ended = left_by(alloc, call_plain(alloc, &[b"migrate"], FILES, disk)?)?;
    assert!(rt; ended_so(&ended, Status::NoSecond, &journal));
    Ok(())
}

#[test]
fn a_second_journal_is_never_touched(rt: HostRuntime) -> Result<(), Fail> {
    let alloc = rt.alloc();
    let journal = booked(&rt, alloc, FILES)?;
    let old = old_of(alloc, journal.bytes())?;
    let second = long_lived(alloc, journal.bytes())?;
    let ended = migrate(alloc, &old, second)?;
    assert!(rt; ended_so(&ended, Status::Exists { first: 1 }, &old));
    assert!(rt; ended.second.bytes() == journal.bytes());
    Ok(())
}

// Whether a copy to a second disk that stops after so many calls tells it, and leaves the whole journal or may be given again.
fn is_made_good(
    alloc: Global,
    old: &Text,
    journal: &Text,
    calls: u64,
    torn: u64,
) -> Result<bool, Memory> {
    let second = FuseDisk::new(alloc, Text::from_bytes(alloc, b"")?, calls, torn);
    let stopped = migrate(alloc, old, second)?;
    let fault = Status::SecondDiskFault {
        before: 0,
        after: 1,
    };
    let told = ended_so(&stopped, fault, old);
    if is_booked(alloc, &stopped.second)? {
        return Ok(told);
    }
    let again = migrate(alloc, old, long_lived(alloc, stopped.second.bytes())?)?;
    let made = ended_so(&again, Status::Done, old);
    Ok(told && made && again.second.bytes().starts_with(journal.bytes()))
}

// The length, a closed gate and a sync, the records and a sync, the gate and a sync.
#[test]
fn a_copy_that_stops_may_be_given_again(rt: HostRuntime) -> Result<(), Fail> {
    let alloc = rt.alloc();
    let journal = booked(&rt, alloc, FILES)?;
    let old = old_of(alloc, journal.bytes())?;
    for calls in 0..7u64 {
        for torn in 0..4u64 {
            assert!(rt; is_made_good(alloc, &old, &journal, calls, torn)?);
        }
    }
    Ok(())
}
