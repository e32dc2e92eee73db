//! Packets that are taken into the journal of a second machine.

use calls_room::{Ended, FILES, booked, call_plain, call_received, is_done, long_lived, wrote};
use corr_disk::FuseDisk;
use corr_text::{Memory, Text};
use corr_top::Status;
use std::alloc::Global;
use std::test::Fail;

// `follow` over this file of packets and a disk. Promises nothing; likewise the others here.
fn follow(alloc: Global, packets: &[u8], disk: FuseDisk) -> Result<Ended<FuseDisk>, Memory> {
    call_received(alloc, &[b"follow"], packets, FILES, disk)
}

// The packets of a journal with these numbers, in this order, as `ship` sends them.
fn packets_of(alloc: Global, journal: &Text, numbers: &[&[u8]]) -> Result<Text, Memory> {
    let mut packets = Text::from_bytes(alloc, b"")?;
    for number in numbers {
        let disk = long_lived(alloc, journal.bytes())?;
        let sent = call_plain(alloc, &[b"ship", *number, *number], FILES, disk)?;
        packets.push(sent.out.bytes())?;
    }
    Ok(packets)
}

// Whether these packets onto a disk of these bytes print this line, and leave these bytes.
fn prints(
    alloc: Global,
    packets: &Text,
    before: &[u8],
    line: &[u8],
    after: &[u8],
) -> Result<bool, Memory> {
    let ended = follow(alloc, packets.bytes(), long_lived(alloc, before)?)?;
    Ok(is_done(&ended, line, b"") && ended.disk.left().bytes() == after)
}

#[test]
fn packets_in_any_order_make_the_journal(rt: HostRuntime) -> Result<(), Fail> {
    let alloc = rt.alloc();
    let journal = booked(&rt, alloc, FILES)?;
    let packets = packets_of(alloc, &journal, &[b"2", b"1", b"2", b"1"])?;
    let line = b"PACKETS 000004 ADDED 000002 HAVE 00000002\n";
    assert!(rt; prints(alloc, &packets, b"", line, journal.bytes())?);
    Ok(())
}

#[test]
fn what_is_held_is_skipped(rt: HostRuntime) -> Result<(), Fail> {
    let alloc = rt.alloc();
    let journal = booked(&rt, alloc, FILES)?;
    let packets = packets_of(alloc, &journal, &[b"1", b"2"])?;
    let line = b"PACKETS 000002 ADDED 000000 HAVE 00000002\n";
    assert!(rt; prints(alloc, &packets, journal.bytes(), line, journal.bytes())?);
    Ok(())
}

#[test]
fn without_the_header_nothing_is_added(rt: HostRuntime) -> Result<(), Fail> {
    let alloc = rt.alloc();
    let journal = booked(&rt, alloc, FILES)?;
    let packets = packets_of(alloc, &journal, &[b"2"])?;
    let line = b"PACKETS 000001 ADDED 000000 HAVE 00000000\n";
    assert!(rt; prints(alloc, &packets, b"", line, b"")?);
    Ok(())
}

// Whether these packets onto an empty disk end so, and print nothing.
fn ends(alloc: Global, packets: &[u8], status: Status) -> Result<bool, Memory> {
    let ended = follow(alloc, packets, long_lived(alloc, b"")?)?;
    Ok(ended.status == status && wrote(&ended, b"", b""))
}

#[test]
fn a_file_that_is_cut_short_is_not_taken(rt: HostRuntime) -> Result<(), Fail> {
    let alloc = rt.alloc();
    let journal = booked(&rt, alloc, FILES)?;
    let packets = packets_of(alloc, &journal, &[b"1"])?;
    let short: &[u8] = match packets.bytes() {
        [short @ .., _] => short,
        [] => b"",
    };
    assert!(rt; ends(alloc, short, Status::Framing { at: 0 })?);
    Ok(())
}

#[test]
fn a_record_that_may_not_stand_next_is_refused(rt: HostRuntime) -> Result<(), Fail> {
    let alloc = rt.alloc();
    let journal = booked(&rt, alloc, FILES)?;
    let mut packets = packets_of(alloc, &journal, &[b"1"])?;
    packets.push(b"\0\0\0\x02\0\0\0\x02AB")?;
    let ended = follow(alloc, packets.bytes(), long_lived(alloc, b"")?)?;
    assert!(rt; ended.status == Status::NotNext { number: 2 });
    assert!(rt; wrote(&ended, b"", b""));
    let again = packets_of(alloc, &journal, &[b"2"])?;
    let line = b"PACKETS 000001 ADDED 000001 HAVE 00000002\n";
    let left = ended.disk.left();
    assert!(rt; prints(alloc, &again, left.bytes(), line, journal.bytes())?);
    Ok(())
}

// What packets leave on a disk of these bytes that stops after so many calls.
fn left_by(
    alloc: Global,
    packets: &Text,
    before: &[u8],
    calls: u64,
    torn: u64,
) -> Result<Text, Memory> {
    let disk = FuseDisk::new(alloc, Text::from_bytes(alloc, before)?, calls, torn);
    let stopped = follow(alloc, packets.bytes(), disk)?;
    Ok(stopped.disk.left())
}

// Whether packets onto what a stop left tell that both records are held, and the journal that they make ships the same packets.
fn comes_on(alloc: Global, packets: &Text, left: &[u8]) -> Result<bool, Memory> {
    let ended = follow(alloc, packets.bytes(), long_lived(alloc, left)?)?;
    if ended.status != Status::Done || !ended.report.bytes().ends_with(b" HAVE 00000002\n") {
        return Ok(false);
    }
    let made = ended.disk.left();
    let shipped = call_plain(
        alloc,
        &[b"ship", b"1", b"9"],
        FILES,
        long_lived(alloc, made.bytes())?,
    )?;
    Ok(is_done(&shipped, b"", packets.bytes()))
}

#[test]
fn after_a_stop_at_each_call_the_packets_make_the_journal(rt: HostRuntime) -> Result<(), Fail> {
    let alloc = rt.alloc();
    let journal = booked(&rt, alloc, FILES)?;
    let packets = packets_of(alloc, &journal, &[b"1", b"2"])?;
    for calls in 0..20 {
        for torn in 0..4 {
            let left = left_by(alloc, &packets, b"", calls, torn)?;
            assert!(rt; comes_on(alloc, &packets, left.bytes())?);
        }
    }
    Ok(())
}

// What arrives of the writes behind the last sync goes round with the stops.
#[test]
fn after_two_stops_the_packets_make_the_journal(rt: HostRuntime) -> Result<(), Fail> {
    let alloc = rt.alloc();
    let journal = booked(&rt, alloc, FILES)?;
    let packets = packets_of(alloc, &journal, &[b"1", b"2"])?;
    for first in 0..16u64 {
        for second in 0..16u64 {
            let torn = first.wrapping_add(second) % 4;
            let once = left_by(alloc, &packets, b"", first, torn)?;
            let twice = left_by(alloc, &packets, once.bytes(), second, torn)?;
            assert!(rt; comes_on(alloc, &packets, twice.bytes())?);
        }
    }
    Ok(())
}
