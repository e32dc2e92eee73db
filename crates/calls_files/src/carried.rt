//! Journals that are made with records in them, over disks in memory.

ghost use Rattle.std.specs.Prelude.{◌≡◌, ◌<◌, ◌^◌, ◌∷◌, [], length, IfOk};
ghost use Rattle.jrn_file.specs.File.{IsOpen};
ghost use Rattle.jrn_file.specs.Journal.{journal_bytes};

use crate::batches::{FOUR, add_batch};
use crate::files::{HEAD, count, front_of, fuse, memory, open};
use corr_disk::Disk;
use corr_text::{Memory, Text};
use jrn_file::{JFile, MakeFault, create, create_with};
use std::alloc::Global;
use std::test::Fail;

// The records AB, none and C.
fn three(alloc: Global) -> Result<[Text; 3], Memory>
    ensures { IfOk result (λ records. records ≡ (65 ∷ 66 ∷ []) ∷ [] ∷ (67 ∷ []) ∷ []) }
{
    Ok([
        Text::from_bytes(alloc, b"AB")?,
        Text::from_bytes(alloc, b"")?,
        Text::from_bytes(alloc, b"C")?,
    ])
}

// Makes a journal of the header record H and these three.
fn carry<D: Disk>(alloc: Global, disk: D, records: &[Text; 3]) -> Result<D, (D, MakeFault)>
    requires { records.now ≡ (65 ∷ 66 ∷ []) ∷ [] ∷ (67 ∷ []) ∷ [] }
{
    create_with(alloc, disk, b"H", records)
}

// The bytes in front of a disk on which it was made, and the first byte that kept it from being made.
fn carried_over(alloc: Global, bytes: &[u8]) -> Result<(Text, Option<u8>), Fail> {
    let records = three(alloc)?;
    let (mut disk, other) = match carry(alloc, memory(alloc, bytes)?, &records) {
        Ok(disk) => (disk, None),
        Err((disk, fault)) => match fault {
            MakeFault::Exists { first } => (disk, Some(first)),
            fault => return Err(fault.into()),
        },
    };
    let front = front_of(alloc, &mut disk)?;
    Ok((front, other))
}

#[test]
fn a_journal_is_made_with_three_records_and_read_back(rt: HostRuntime) -> Result<(), Fail> {
    let alloc = rt.alloc();
    let disk = carry(alloc, memory(alloc, b"")?, &three(alloc)?).map_err(|e| e.1)?;
    let (file, records) = open(alloc, disk)?;
    assert_eq!(rt; (file.end(), records.len()), (24, 4));
    assert_eq!(rt; records[0].bytes(), b"H".as_slice());
    assert_eq!(rt; records[1].bytes(), b"AB".as_slice());
    assert_eq!(rt; records[2].bytes(), b"".as_slice());
    assert_eq!(rt; records[3].bytes(), b"C".as_slice());
    assert_eq!(rt; front_of(alloc, &mut file.into_disk())?.bytes(), FOUR);
    Ok(())
}

#[test]
fn it_is_made_where_nothing_is_made_yet_alone(rt: HostRuntime) -> Result<(), Fail> {
    // the bytes, the first byte where they stay, and what is in front afterwards
    let rows: [(&[u8], Option<u8>, &[u8]); 5] = [
        (b"\x01\0", Some(1), b"\x01\0"),
        (HEAD, Some(1), HEAD),
        (b"\xff", None, FOUR),
        (b"\0\x02", None, FOUR),
        (
            b"\0 a journal that was cut short",
            None,
            b"\x01\0\0\0\x01H\x01\0\0\0\x02AB\x01\0\0\0\0\x01\0\0\0\x01C\0short",
        ),
    ];
    for (bytes, other, after) in rows {
        let (front, first) = carried_over(rt.alloc(), bytes)?;
        assert_eq!(rt; first, other);
        assert!(rt; front.bytes() == after);
    }
    Ok(())
}

// Whether it is made on an empty disk that passes so many calls, and what it leaves.
fn carry_with(alloc: Global, calls: u64, torn: u64) -> Result<(bool, Text), Fail> {
    let records = three(alloc)?;
    match carry(alloc, fuse(alloc, b"", calls, torn)?, &records) {
        Ok(disk) => Ok((true, disk.left())),
        Err((disk, fault)) => match fault {
            MakeFault::DiskFault {
                before: 0,
                after: 1,
            } => Ok((false, disk.left())),
            fault => Err(fault.into()),
        },
    }
}

// On an empty disk it looks, writes the gate and syncs it, writes the records in one piece and syncs them, and opens the gate and
// syncs it: seven calls.
#[test]
fn one_that_stops_leaves_nothing_or_all_of_its_records(rt: HostRuntime) -> Result<(), Fail> {
    let alloc = rt.alloc();
    for calls in 0..8u64 {
        for torn in 0..4u64 {
            let (made, left) = carry_with(alloc, calls, torn)?;
            assert_eq!(rt; made, calls == 7);
            let arrived = calls == 7 || calls == 6 && torn != 0 && torn != 2;
            assert_eq!(rt; count(alloc, left)?, if arrived { Some(4) } else { None });
        }
    }
    Ok(())
}

// The half of each piece is on the disk, and of the gate nothing.
#[test]
fn one_that_stopped_is_made_again(rt: HostRuntime) -> Result<(), Fail> {
    let alloc = rt.alloc();
    for calls in 0..7u64 {
        let (made, left) = carry_with(alloc, calls, 2)?;
        assert!(rt; !made);
        let (front, other) = carried_over(alloc, left.bytes())?;
        assert!(rt; other.is_none() && front.bytes().starts_with(FOUR));
    }
    Ok(())
}

// The file of a journal that is made without records.
fn make_file<D: Disk + Drop>(alloc: Global, disk: D) -> Result<JFile<D>, MakeFault>
    ensures { IfOk result (IsOpen D.honest D.reads D.may_leave) }
{
    match create(alloc, disk, b"H") {
        Ok(disk) => Ok(JFile::made(disk, b"H")),
        Err((_, fault)) => Err(fault),
    }
}

#[test]
fn a_file_is_appended_to_as_it_was_made(rt: HostRuntime) -> Result<(), Fail> {
    let alloc = rt.alloc();
    let mut file = make_file(alloc, memory(alloc, b"")?)?;
    assert_eq!(rt; file.end(), 6);
    add_batch(&mut file)?;
    assert_eq!(rt; file.end(), 24);
    assert_eq!(rt; front_of(alloc, &mut file.into_disk())?.bytes(), FOUR);
    Ok(())
}
