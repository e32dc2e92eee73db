//! Many records under one sync, over disks in memory.

ghost use Rattle.std.specs.Prelude.{◌<◌, [], ◌∷◌};
ghost use Rattle.jrn_file.specs.File.{IsOpen};
ghost use Rattle.jrn_file.specs.Journal.{AreFrames};

use crate::files::{HEAD, count, front_of, fuse, memory, open};
use corr_disk::Disk;
use jrn_file::{AppendFault, JFile};
use std::alloc::Global;
use std::test::Fail;

// A journal with the header record H and the records AB, none and C.
pub(crate) const FOUR: &[u8] = b"\x01\0\0\0\x01H\x01\0\0\0\x02AB\x01\0\0\0\0\x01\0\0\0\x01C\0";

// The records AB, none and C as they are appended together.
fn batch() -> [u8; 18]
    ensures { AreFrames result (65 ∷ 66 ∷ []) ([] ∷ (67 ∷ []) ∷ []) }
{
    *b"\0\0\0\x02AB\x01\0\0\0\0\x01\0\0\0\x01C\0"
}

// Appends the three of them.
pub(crate) fn add_batch<D: Disk>(file: &mut JFile<D>) -> Result<(), AppendFault>
    requires { IsOpen D.honest D.reads D.may_leave file.old }
{
    file.append_all(&batch())
}

#[test]
fn three_records_are_appended_together(rt: HostRuntime) -> Result<(), Fail> {
    let alloc = rt.alloc();
    let (mut file, _) = open(alloc, memory(alloc, HEAD)?)?;
    add_batch(&mut file)?;
    assert_eq!(rt; file.end(), 24);
    assert_eq!(rt; front_of(alloc, &mut file.into_disk())?.bytes(), FOUR);
    Ok(())
}

// What an append of three records answers on a disk that passes so many calls after an opening, and how many records it leaves.
fn append_all_with(
    alloc: Global,
    calls: u64,
    torn: u64,
) -> Result<(Result<(), AppendFault>, Option<usize>), Fail>
    requires { calls < 5 }
{
    let (mut file, _) = open(alloc, fuse(alloc, HEAD, calls + 2, torn)?)?;
    let answer = add_batch(&mut file);
    let left = count(alloc, file.into_disk().left())?;
    Ok((answer, left))
}

// Four calls of the disk append them all: a write of the frames, a sync, a write of the gate, a sync.
#[test]
fn a_batch_that_stops_leaves_all_of_its_records_or_none(rt: HostRuntime) -> Result<(), Fail> {
    let failed = AppendFault::DiskFault {
        before: 0,
        after: 1,
    };
    for calls in 0..5u64 {
        for torn in 0..12u64 {
            let (answer, left) = append_all_with(rt.alloc(), calls, torn)?;
            assert!(rt; answer == if calls == 4 { Ok(()) } else { Err(failed) });
            let arrived = calls == 4 || calls == 3 && torn != 0 && torn != 2;
            assert_eq!(rt; left, Some(if arrived { 4 } else { 1 }));
        }
    }
    Ok(())
}
