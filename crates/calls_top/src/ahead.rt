//! Batches have as many entries as they may have, also where a piece of the message file has fewer messages.

use crate::transfers::transfers;
use calls_room::{FILES, call_over, entries_in, journal};
use corr_disk::FuseDisk;
use corr_text::{Memory, Text};
use corr_top::Status;
use std::alloc::Global;
use std::sync::Wait;
use std::test::Fail;
use std::thread::Threads;

// How many transfers there are: two batches of 70.
const COUNT: u64 = 140;

// How many transfers stand together where they stand in groups, and ten times how many blanks stand behind a group: more than a piece has.
const GROUP: u64 = 10;

const TENS: u64 = 6_600;

// Two calls open the journal, and a batch takes four, as an entry of `run` does.
const OPENED: u64 = 2;

const BATCH: u64 = 4;

// The words of a batch.
type Words = [&'static [u8]; 4];

// Whether a batch over these transfers comes to its end, and enters all of them, by a disk that passes so many calls.
fn is_entered<R: Wait + Threads + Sync>(
    rt: &R,
    alloc: Global,
    words: Words,
    messages: &Text,
    calls: u64,
) -> Result<bool, Memory> {
    let disk = FuseDisk::new(alloc, journal(rt, alloc, FILES)?, calls, 0);
    let ended = call_over(rt, alloc, &words, messages.bytes(), 0, FILES, disk)?;
    let left = entries_in(alloc, FILES, ended.disk.left().bytes())?;
    Ok(ended.status == Status::Done && left == Some(COUNT))
}

#[test]
fn a_batch_takes_the_calls_of_one_entry(rt: HostRuntime) -> Result<(), Fail> {
    let alloc = rt.alloc();
    let messages = transfers(alloc, COUNT, COUNT, 0)?;
    let seventy: Words = [b"batch", b"240603", b"1", b"70"];
    assert!(rt; is_entered(&rt, alloc, seventy, &messages, OPENED + 2 * BATCH)?);
    assert!(rt; !is_entered(&rt, alloc, seventy, &messages, OPENED + 2 * BATCH - 1)?);
    let most: Words = [b"batch", b"240603", b"1", b"1024"];
    assert!(rt; is_entered(&rt, alloc, most, &messages, OPENED + BATCH)?);
    Ok(())
}

#[test]
fn a_batch_goes_past_its_piece(rt: HostRuntime) -> Result<(), Fail> {
    let alloc = rt.alloc();
    let messages = transfers(alloc, COUNT, GROUP, TENS)?;
    let seventy: Words = [b"batch", b"240603", b"1", b"70"];
    assert!(rt; is_entered(&rt, alloc, seventy, &messages, OPENED + 2 * BATCH)?);
    Ok(())
}

// Four workers share the transfers, so that each has some two batches.
#[test]
fn four_workers_enter_by_few_batches(rt: HostRuntime) -> Result<(), Fail> {
    let alloc = rt.alloc();
    let messages = transfers(alloc, COUNT, GROUP, TENS)?;
    let words: Words = [b"batch", b"240603", b"4", b"64"];
    assert!(rt; is_entered(&rt, alloc, words, &messages, OPENED + 10 * BATCH)?);
    Ok(())
}
