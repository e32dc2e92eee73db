//! A journal of version 1 is refused, and stays.

use calls_room::{Ended, Files, WHOLE, call, journal, long_lived, run, wrote};
use corr_disk::FuseDisk;
use corr_text::{Memory, Text};
use corr_top::Status;
use std::alloc::Global;
use std::sync::Wait;
use std::test::Fail;
use std::thread::Threads;

const FILES: Files = Files {
    tables: [
        b"HOMEUS33\nALPHDEFF\n",
        b"EUR,2\n",
        b"DE,Y\nUS,N\n",
        b"CUST1,C,HOMEUS33,EUR,0,90000000000,0\n",
        b"",
        b"",
    ],
    messages: b"",
    received: b"",
};

// A gate, the length of the header in four bytes, and five letters stand ahead of the version.
const VERSION_AT: usize = 10;

// A new journal, as version 1 had it: their headers differ in one letter. Promises nothing; likewise the others here.
fn old_journal<R: Wait + Threads + Sync>(rt: &R, alloc: Global) -> Result<Text, Memory> {
    let made = journal(rt, alloc, FILES)?;
    let mut old = Text::from_bytes(alloc, b"")?;
    for (at, byte) in made.bytes().iter().enumerate() {
        let byte = if at == VERSION_AT { b'1' } else { *byte };
        old.push(&[byte])?;
    }
    Ok(old)
}

// Whether a command told version 1, wrote nothing, and left these bytes.
fn is_refused(ended: Ended<FuseDisk>, old: &Text) -> bool {
    let told = ended.status == Status::Version { found: 1 } && wrote(&ended, b"", b"");
    told && ended.disk.left().bytes() == old.bytes()
}

fn run_is_refused<R: Wait + Threads + Sync>(
    rt: &R,
    alloc: Global,
    old: &Text,
) -> Result<bool, Memory> {
    let ended = run(rt, alloc, WHOLE, FILES, long_lived(alloc, old.bytes())?)?;
    Ok(is_refused(ended, old))
}

fn bookings_is_refused<R: Wait + Threads + Sync>(
    rt: &R,
    alloc: Global,
    old: &Text,
) -> Result<bool, Memory> {
    let disk = long_lived(alloc, old.bytes())?;
    let ended = call(rt, alloc, &[b"bookings"], WHOLE, FILES, disk)?;
    Ok(is_refused(ended, old))
}

#[test]
fn a_journal_of_version_1_is_refused_and_stays(rt: HostRuntime) -> Result<(), Fail> {
    let old = old_journal(&rt, rt.alloc())?;
    assert!(rt; run_is_refused(&rt, rt.alloc(), &old)?);
    assert!(rt; bookings_is_refused(&rt, rt.alloc(), &old)?);
    Ok(())
}
