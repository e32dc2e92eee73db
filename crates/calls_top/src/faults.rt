//! Commands in which one read or one write fails.

use calls_room::{Ended, Failing, Files, WHOLE, call, journal, long_lived, run};
use corr_disk::FuseDisk;
use corr_text::{Memory, Text};
use corr_top::Status;
use std::alloc::Global;
use std::sync::Wait;
use std::test::Fail;
use std::thread::Threads;

const FILES: Files = Files {
    tables: [
        b"HOMEUS33\nALPHDEFF\n",
        b"EUR,2\n",
        b"US,N\nDE,Y\n",
        b"VALPH,V,ALPHDEFF,EUR,-900000,900000,0\nCUST,C,HOMEUS33,EUR,0,900000,0\nFEE,F,HOMEUS33,EUR,0,900000,0\n",
        b"EUR,ALPHDEFF,BOOK,,VALPH,240101,791231\n",
        b"EUR,500\n",
    ],
    messages: b"{1:F01HOMEUS33AXXX0001000007}{2:O1031200240603ALPHDEFFAXXX00010000012406031205N}{4:\r\n:20:REF1\r\n:23B:CRED\r\n:32A:240603EUR9,5\r\n:50K:A PAYER\r\n:59:/CUST\r\nA PAYEE\r\n:71A:SHA\r\n-}",
    received: b"",
};

// The counts of faults where that at one place is 1, and each other 0.
fn one_fault(place: usize) -> [u64; 9] {
    let mut faults = [0; 9];
    if let Some(fault) = faults.get_mut(place) {
        *fault = 1;
    }
    faults
}

// Whether the read at this place was told, was the only fault, and nothing was written.
fn is_refused(ended: &Ended<FuseDisk>, place: usize) -> bool {
    let fault = Status::ReadFault {
        before: 0,
        after: 1,
    };
    ended.status == fault
        && ended.faults == one_fault(place)
        && ended.report.bytes().is_empty()
        && ended.out.bytes().is_empty()
}

fn read_at(place: usize, read: u64) -> Failing {
    Failing {
        place,
        read,
        ..WHOLE
    }
}

// Whether `init` ends where a read fails, and leaves an empty disk.
fn is_left_unmade<R: Wait + Threads + Sync>(
    rt: &R,
    alloc: Global,
    place: usize,
    read: u64,
) -> Result<bool, Memory> {
    let words: [&[u8]; 2] = [b"init", b"HOMEUS33"];
    let disk = long_lived(alloc, b"")?;
    let ended = call(rt, alloc, &words, read_at(place, read), FILES, disk)?;
    Ok(is_refused(&ended, place) && ended.disk.left().bytes().is_empty())
}

// The tables of `init` are the first four; each has one read of its bytes and one that finds its end.
#[test]
fn each_failed_read_ends_init(rt: HostRuntime) -> Result<(), Fail> {
    for place in 0..4usize {
        assert!(rt; is_left_unmade(&rt, rt.alloc(), place, 1)?);
        assert!(rt; is_left_unmade(&rt, rt.alloc(), place, 2)?);
    }
    Ok(())
}

// A run over a journal.
fn run_over<R: Wait + Threads + Sync>(
    rt: &R,
    alloc: Global,
    failing: Failing,
    journal: &Text,
) -> Result<Ended<FuseDisk>, Memory> {
    run(
        rt,
        alloc,
        failing,
        FILES,
        long_lived(alloc, journal.bytes())?,
    )
}

// Whether a run ends where a read fails.
fn is_ended<R: Wait + Threads + Sync>(
    rt: &R,
    alloc: Global,
    journal: &Text,
    place: usize,
    read: u64,
) -> Result<bool, Memory> {
    let ended = run_over(rt, alloc, read_at(place, read), journal)?;
    Ok(is_refused(&ended, place))
}

// A run reads no accounts.
#[test]
fn each_failed_read_ends_a_run(rt: HostRuntime) -> Result<(), Fail> {
    let journal = journal(&rt, rt.alloc(), FILES)?;
    for place in [0, 1, 2, 4, 5, 6usize] {
        assert!(rt; is_ended(&rt, rt.alloc(), &journal, place, 1)?);
        assert!(rt; is_ended(&rt, rt.alloc(), &journal, place, 2)?);
    }
    Ok(())
}

// Whether a failed write was told, was the only fault, and nothing was sent; and the report that was written.
fn cut<R: Wait + Threads + Sync>(
    rt: &R,
    alloc: Global,
    journal: &Text,
    failing: Failing,
    place: usize,
) -> Result<(bool, Text), Memory> {
    let ended = run_over(rt, alloc, failing, journal)?;
    let fault = Status::WriteFault {
        before: 0,
        after: 1,
    };
    let told = ended.status == fault && ended.faults == one_fault(place);
    Ok((told && ended.out.bytes().is_empty(), ended.report))
}

#[test]
fn a_failed_write_ends_a_run(rt: HostRuntime) -> Result<(), Fail> {
    let alloc = rt.alloc();
    let journal = journal(&rt, alloc, FILES)?;
    let (told, report) = cut(&rt, alloc, &journal, Failing { report: 1, ..WHOLE }, 7)?;
    assert!(rt; told && report.bytes().is_empty());
    let (told, report) = cut(&rt, alloc, &journal, Failing { out: 1, ..WHOLE }, 8)?;
    assert!(rt; told && report.bytes().starts_with(b"000001 "));
    Ok(())
}

// A message, and a byte that begins no other.
const BROKEN: Files = Files {
    messages: b"{1:F01HOMEUS33AXXX0001000007}{2:O1031200240603ALPHDEFFAXXX00010000012406031205N}{4:\r\n:20:REF1\r\n:23B:CRED\r\n:32A:240603EUR9,5\r\n:50K:A PAYER\r\n:59:/CUST\r\nA PAYEE\r\n:71A:SHA\r\n-}$x",
    ..FILES
};

// Whether a run of so many workers tells where its file can't be cut, and writes nothing.
fn is_uncut<R: Wait + Threads + Sync>(
    rt: &R,
    alloc: Global,
    journal: &Text,
    workers: &[u8],
) -> Result<bool, Memory> {
    let words: [&[u8]; 3] = [b"run", b"240603", workers];
    let disk = long_lived(alloc, journal.bytes())?;
    let ended = call(rt, alloc, &words, WHOLE, BROKEN, disk)?;
    let place = Status::Framing {
        at: BROKEN.messages.len() as u64 - 1,
    };
    Ok(ended.status == place && ended.report.bytes().is_empty() && ended.out.bytes().is_empty())
}

#[test]
fn a_file_that_cannot_be_cut_ends_a_run(rt: HostRuntime) -> Result<(), Fail> {
    let journal = journal(&rt, rt.alloc(), FILES)?;
    assert!(rt; is_uncut(&rt, rt.alloc(), &journal, b"1")?);
    assert!(rt; is_uncut(&rt, rt.alloc(), &journal, b"4")?);
    Ok(())
}
