//! The records of a journal as packets.

use crate::migrations::first_record;
use calls_room::{FILES, booked, call_plain, is_done, long_lived, wrote};
use corr_disk::FuseDisk;
use corr_text::{Memory, Text};
use corr_top::Status;
use std::alloc::Global;
use std::test::Fail;

// The packets of the records of a journal of at most 9 records, from this number on. Promises nothing; likewise the others here.
fn packets_from(alloc: Global, journal: &[u8], from: u32) -> Result<Text, Memory> {
    let mut packets = Text::from_bytes(alloc, b"")?;
    let mut rest = journal;
    for number in 1u32..10 {
        let Some((record, after)) = first_record(rest) else {
            break;
        };
        if number >= from {
            packets.push(&number.to_be_bytes())?;
            packets.push(&((record.len() % 65_536) as u32).to_be_bytes())?;
            packets.push(record)?;
        }
        rest = after;
    }
    Ok(packets)
}

// Whether these words send this, print nothing and leave the journal.
fn sends(alloc: Global, words: &[&[u8]], journal: &Text, out: &[u8]) -> Result<bool, Memory> {
    let disk = long_lived(alloc, journal.bytes())?;
    let ended = call_plain(alloc, words, FILES, disk)?;
    Ok(is_done(&ended, b"", out) && ended.disk.left().bytes() == journal.bytes())
}

#[test]
fn a_journal_is_shipped_whole(rt: HostRuntime) -> Result<(), Fail> {
    let alloc = rt.alloc();
    let journal = booked(&rt, alloc, FILES)?;
    let all = packets_from(alloc, journal.bytes(), 1)?;
    assert!(rt; !all.bytes().is_empty());
    assert!(rt; sends(alloc, &[b"ship", b"1", b"9"], &journal, all.bytes())?);
    Ok(())
}

#[test]
fn the_entries_are_shipped_alone(rt: HostRuntime) -> Result<(), Fail> {
    let alloc = rt.alloc();
    let journal = booked(&rt, alloc, FILES)?;
    let entries = packets_from(alloc, journal.bytes(), 2)?;
    assert!(rt; !entries.bytes().is_empty());
    assert!(rt;
        sends(
            alloc,
            &[b"ship", b"2", b"1000000"],
            &journal,
            entries.bytes()
        )?
    );
    Ok(())
}

#[test]
fn past_the_last_record_there_is_nothing(rt: HostRuntime) -> Result<(), Fail> {
    let alloc = rt.alloc();
    let journal = booked(&rt, alloc, FILES)?;
    assert!(rt; sends(alloc, &[b"ship", b"9", b"9"], &journal, b"")?);
    Ok(())
}

// Whether these words are no command.
fn is_usage(alloc: Global, words: &[&[u8]], journal: &Text) -> Result<bool, Memory> {
    let disk: FuseDisk = long_lived(alloc, journal.bytes())?;
    let ended = call_plain(alloc, words, FILES, disk)?;
    Ok(ended.status == Status::Usage && wrote(&ended, b"", b""))
}

#[test]
fn other_numbers_are_no_command(rt: HostRuntime) -> Result<(), Fail> {
    let alloc = rt.alloc();
    let journal = booked(&rt, alloc, FILES)?;
    assert!(rt; is_usage(alloc, &[b"ship", b"2", b"1"], &journal)?);
    assert!(rt; is_usage(alloc, &[b"ship", b"0", b"1"], &journal)?);
    assert!(rt; is_usage(alloc, &[b"ship", b"1", b"1000001"], &journal)?);
    Ok(())
}
