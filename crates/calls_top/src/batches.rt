//! Batches over disks that fail or stop: of what comes under one sync all entries stand, or none.

use calls_room::{Ended, Files, WHOLE, call, entries_in, is_done, journal, long_lived, run, wrote};
use corr_disk::{Disk, FuseDisk, OnceDisk};
use corr_text::{Memory, Text};
use corr_top::Status;
use std::alloc::Global;
use std::sync::Wait;
use std::test::Fail;
use std::thread::Threads;

// Four transfers from one account to another.
const FILES: Files = Files {
    tables: [
        b"HOMEUS33\nALPHDEFF\n",
        b"EUR,2\n",
        b"DE,Y\nUS,N\n",
        b"VALPHEUR,V,ALPHDEFF,EUR,-10000000,90000000000,0\nCUST1,C,HOMEUS33,EUR,0,90000000000,0\n",
        b"EUR,ALPHDEFF,BOOK,,VALPHEUR,240101,791231\n",
        b"",
    ],
    messages: b"{1:F01HOMEUS33AXXX0001000001}{2:O1031200240603ALPHDEFFAXXX00010000012406031205N}{4:\r\n:20:REF1\r\n:23B:CRED\r\n:32A:240603EUR1234,5\r\n:50K:A PAYER\r\n:59:/CUST1\r\nA PAYEE\r\n:71A:SHA\r\n-}${1:F01HOMEUS33AXXX0001000002}{2:O1031200240603ALPHDEFFAXXX00010000022406031205N}{4:\r\n:20:REF2\r\n:23B:CRED\r\n:32A:240603EUR20,\r\n:50K:A PAYER\r\n:59:/CUST1\r\nA PAYEE\r\n:71A:SHA\r\n-}${1:F01HOMEUS33AXXX0001000003}{2:O1031200240603ALPHDEFFAXXX00010000032406031205N}{4:\r\n:20:REF3\r\n:23B:CRED\r\n:32A:240603EUR3,\r\n:50K:A PAYER\r\n:59:/CUST1\r\nA PAYEE\r\n:71A:SHA\r\n-}${1:F01HOMEUS33AXXX0001000004}{2:O1031200240603ALPHDEFFAXXX00010000042406031205N}{4:\r\n:20:REF4\r\n:23B:CRED\r\n:32A:240603EUR0,04\r\n:50K:A PAYER\r\n:59:/CUST1\r\nA PAYEE\r\n:71A:SHA\r\n-}",
    received: b"",
};

const REPORT: &[u8] =
    b"000001 240603ALPHDEFFAXXX0001000001 BOOKED 00000001 EUR 1234,50\n000002 240603ALPHDEFFAXXX0001000002 BOOKED 00000002 EUR 20,00\n000003 240603ALPHDEFFAXXX0001000003 BOOKED 00000003 EUR 3,00\n000004 240603ALPHDEFFAXXX0001000004 BOOKED 00000004 EUR 0,04\nMESSAGES 000004 ENTRIES 00000004\nTOTAL EUR DEBIT 1257,54 CREDIT 1257,54\n";

// Two entries come under one sync: so the four come in two batches.
const BATCH: [&[u8]; 4] = [b"batch", b"240603", b"1", b"2"];

// After how many calls the disk stops, and what arrives of the writes behind the last sync.
#[derive(Clone, Copy)]
struct Stop {
    calls: u64,
    torn: u64,
}

// A batch over a disk that stops.
fn stopped<R: Wait + Threads + Sync>(
    rt: &R,
    alloc: Global,
    bytes: &Text,
    stop: Stop,
) -> Result<Ended<FuseDisk>, Memory> {
    let disk = FuseDisk::new(alloc, bytes.copy(alloc)?, stop.calls, stop.torn);
    call(rt, alloc, &BATCH, WHOLE, FILES, disk)
}

// Whether a command told that its disk failed, and wrote nothing.
fn is_refused<D: Disk + Drop>(ended: &Ended<D>) -> bool {
    let fault = Status::DiskFault {
        before: 0,
        after: 1,
    };
    ended.status == fault && wrote(ended, b"", b"")
}

// How many entries stand after a stop. Two calls open the journal, and each batch takes four: the fourth and the eighth after those are
// the second syncs, before which the gate may have arrived with its batch, or not.
fn entries_after(stop: Stop) -> u64 {
    let gate_arrived = stop.torn == 1 || stop.torn == 3;
    match stop.calls {
        0..=4 => 0,
        5 if gate_arrived => 2,
        5 => 0,
        6..=8 => 2,
        9 if gate_arrived => 4,
        9 => 2,
        _ => 4,
    }
}

// Whether a batch tells that its disk stopped, and leaves whole batches alone.
fn leaves_whole_batches<R: Wait + Threads + Sync>(
    rt: &R,
    alloc: Global,
    journal: &Text,
    stop: Stop,
) -> Result<bool, Memory> {
    let ended = stopped(rt, alloc, journal, stop)?;
    let told = if stop.calls < 10 {
        is_refused(&ended)
    } else {
        ended.status == Status::Done
    };
    Ok(told && entries_in(alloc, FILES, ended.disk.left().bytes())? == Some(entries_after(stop)))
}

#[test]
fn a_batch_stands_whole_or_not_at_all(rt: HostRuntime) -> Result<(), Fail> {
    let journal = journal(&rt, rt.alloc(), FILES)?;
    for calls in 0..12u64 {
        for torn in 0..4u64 {
            let stop = Stop { calls, torn };
            assert!(rt; leaves_whole_batches(&rt, rt.alloc(), &journal, stop)?);
        }
    }
    Ok(())
}

// Whether a batch over a disk that fails at this call alone is refused.
fn fails_at<R: Wait + Threads + Sync>(
    rt: &R,
    alloc: Global,
    journal: &Text,
    call_at: u64,
) -> Result<bool, Memory> {
    let disk = OnceDisk::new(alloc, journal.copy(alloc)?, call_at);
    Ok(is_refused(&call(rt, alloc, &BATCH, WHOLE, FILES, disk)?))
}

#[test]
fn a_disk_that_fails_once_ends_a_batch(rt: HostRuntime) -> Result<(), Fail> {
    let journal = journal(&rt, rt.alloc(), FILES)?;
    for call_at in 1..11u64 {
        assert!(rt; fails_at(&rt, rt.alloc(), &journal, call_at)?);
    }
    Ok(())
}

// Whether a batch over these bytes comes to its end with the whole report, and leaves all entries.
fn is_made_good<R: Wait + Threads + Sync>(
    rt: &R,
    alloc: Global,
    bytes: &Text,
) -> Result<bool, Memory> {
    let ended = call(
        rt,
        alloc,
        &BATCH,
        WHOLE,
        FILES,
        long_lived(alloc, bytes.bytes())?,
    )?;
    let told = ended.status == Status::Done && ended.report.bytes() == REPORT;
    Ok(told && entries_in(alloc, FILES, ended.disk.left().bytes())? == Some(4))
}

// Whether what a batch leaves that is stopped twice is made good by the third.
fn is_made_good_twice<R: Wait + Threads + Sync>(
    rt: &R,
    alloc: Global,
    journal: &Text,
    first: Stop,
    second: Stop,
) -> Result<bool, Memory> {
    let once = stopped(rt, alloc, journal, first)?;
    let twice = stopped(rt, alloc, &once.disk.left(), second)?;
    is_made_good(rt, alloc, &twice.disk.left())
}

#[test]
fn a_batch_that_is_stopped_twice_is_made_good(rt: HostRuntime) -> Result<(), Fail> {
    let journal = journal(&rt, rt.alloc(), FILES)?;
    for calls in 2..11u64 {
        for again in 2..11u64 {
            let torn = calls.wrapping_add(again) % 4;
            let first = Stop { calls, torn };
            let second = Stop { calls: again, torn };
            assert!(rt; is_made_good_twice(&rt, rt.alloc(), &journal, first, second)?);
        }
    }
    Ok(())
}

// Whether a batch of so many entries under one sync writes what a run of one worker writes, and leaves the same journal.
fn is_as_a_run<R: Wait + Threads + Sync>(
    rt: &R,
    alloc: Global,
    journal: &Text,
    entries: &[u8],
) -> Result<bool, Memory> {
    let words: [&[u8]; 4] = [b"batch", b"240603", b"1", entries];
    let ran = run(rt, alloc, WHOLE, FILES, long_lived(alloc, journal.bytes())?)?;
    let disk = long_lived(alloc, journal.bytes())?;
    let ended = call(rt, alloc, &words, WHOLE, FILES, disk)?;
    let wrote = is_done(&ended, REPORT, ran.out.bytes()) && ran.report.bytes() == REPORT;
    Ok(wrote && ended.disk.left().bytes() == ran.disk.left().bytes())
}

#[test]
fn a_batch_writes_what_a_run_writes(rt: HostRuntime) -> Result<(), Fail> {
    let journal = journal(&rt, rt.alloc(), FILES)?;
    let sizes: [&[u8]; 6] = [b"1", b"2", b"3", b"4", b"5", b"1024"];
    for entries in sizes {
        assert!(rt; is_as_a_run(&rt, rt.alloc(), &journal, entries)?);
    }
    Ok(())
}
