//! Disks that fail once or stop.

use calls_room::{Ended, FILES, SENT, WHOLE, booked, call, is_done, journal, run, wrote};
use corr_disk::{Disk, FuseDisk, MemDisk, OnceDisk};
use corr_text::{Memory, Text};
use corr_top::Status;
use std::alloc::Global;
use std::sync::Wait;
use std::test::Fail;
use std::thread::Threads;

const REPORT: &[u8] =
    b"000001 240603ALPHDEFFAXXX0001000001 BOOKED 00000001 EUR 1234,50\nMESSAGES 000001 ENTRIES 00000001\nTOTAL EUR DEBIT 1234,50 CREDIT 1234,50\n";

const STATEMENT: &[u8] =
    b"{1:F01HOMEUS33AXXX0000000000}{2:I950ALPHDEFFXXXXN}{4:\r\n:20:S2406030001P0001\r\n:25:VALPHEUR\r\n:28C:155/1\r\n:60F:C240602EUR50000,00\r\n:61:2406030603D1234,50S103REF1//P00000001\r\n:62F:C240603EUR48765,50\r\n-}$";

// Whether a command told that its disk failed, and wrote nothing.
fn is_refused<D: Disk + Drop>(ended: &Ended<D>) -> bool {
    let fault = Status::DiskFault {
        before: 0,
        after: 1,
    };
    ended.status == fault && wrote(ended, b"", b"")
}

// Whether the run over a disk that fails at this call alone is refused.
fn fails_at<R: Wait + Threads + Sync>(
    rt: &R,
    alloc: Global,
    journal: Text,
    call: u64,
) -> Result<bool, Memory> {
    let failed = run(rt, alloc, WHOLE, FILES, OnceDisk::new(alloc, journal, call))?;
    Ok(is_refused(&failed))
}

// Two calls open the journal, so the second sync of the first entry is the sixth.
#[test]
fn a_disk_that_fails_once_ends_the_run(rt: HostRuntime) -> Result<(), Fail> {
    let journal = journal(&rt, rt.alloc(), FILES)?;
    assert!(rt; fails_at(&rt, rt.alloc(), journal, 6)?);
    Ok(())
}

// Whether a run over a disk that stops after so many calls tells it, and what the disk holds then.
fn stopped<R: Wait + Threads + Sync>(
    rt: &R,
    alloc: Global,
    journal: &Text,
    calls: u64,
    torn: u64,
) -> Result<(bool, Text), Memory> {
    let disk = FuseDisk::new(alloc, journal.copy(alloc)?, calls, torn);
    let ended = run(rt, alloc, WHOLE, FILES, disk)?;
    let told = if calls < 6 {
        is_refused(&ended)
    } else {
        is_done(&ended, REPORT, SENT)
    };
    Ok((told, ended.disk.left()))
}

// Whether a run over these bytes comes to its end, as the first or after one.
fn is_run_whole<R: Wait + Threads + Sync>(
    rt: &R,
    alloc: Global,
    journal: Text,
) -> Result<bool, Memory> {
    let ended = run(rt, alloc, WHOLE, FILES, MemDisk::new(alloc, journal))?;
    Ok(is_done(&ended, REPORT, SENT) || is_done(&ended, REPORT, b""))
}

// Whether a run over a disk that stops after so many calls, and the same over what it leaves, come out as they must.
fn is_made_good<R: Wait + Threads + Sync>(
    rt: &R,
    alloc: Global,
    journal: &Text,
    calls: u64,
    torn: u64,
) -> Result<bool, Memory> {
    let (told, left) = stopped(rt, alloc, journal, calls, torn)?;
    Ok(told && is_run_whole(rt, alloc, left)?)
}

// The third call writes the record, the fifth its gate: what arrives of them differs.
#[test]
fn the_same_command_over_what_a_stop_leaves_gives_the_same_report(
    rt: HostRuntime,
) -> Result<(), Fail> {
    let journal = journal(&rt, rt.alloc(), FILES)?;
    for calls in 0..7u64 {
        assert!(rt; is_made_good(&rt, rt.alloc(), &journal, calls, 0)?);
    }
    for torn in 1..4u64 {
        assert!(rt; is_made_good(&rt, rt.alloc(), &journal, 3, torn)?);
        assert!(rt; is_made_good(&rt, rt.alloc(), &journal, 5, torn)?);
    }
    Ok(())
}

fn statements<R: Wait + Threads + Sync, D: Disk + Drop + Send>(
    rt: &R,
    alloc: Global,
    disk: D,
) -> Result<Ended<D>, Memory> {
    call(rt, alloc, &[b"statements", b"240603"], WHOLE, FILES, disk)
}

// Whether nothing is sent of a journal whose first read fails.
fn is_unread<R: Wait + Threads + Sync>(
    rt: &R,
    alloc: Global,
    journal: Text,
) -> Result<bool, Memory> {
    let failed = statements(rt, alloc, OnceDisk::new(alloc, journal, 1))?;
    Ok(is_refused(&failed))
}

// Whether the statement of the entry is sent.
fn is_stated<R: Wait + Threads + Sync>(
    rt: &R,
    alloc: Global,
    journal: Text,
) -> Result<bool, Memory> {
    let done = statements(rt, alloc, MemDisk::new(alloc, journal))?;
    Ok(is_done(&done, b"", STATEMENT))
}

#[test]
fn statements_are_sent_of_a_journal_that_can_be_read(rt: HostRuntime) -> Result<(), Fail> {
    let alloc = rt.alloc();
    let journal = booked(&rt, alloc, FILES)?;
    assert!(rt; is_unread(&rt, alloc, journal.copy(alloc)?)?);
    assert!(rt; is_stated(&rt, alloc, journal)?);
    Ok(())
}
