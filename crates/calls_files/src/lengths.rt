//! Journals with a length that no record has, over disks in memory.

ghost use Rattle.std.specs.Prelude.{◌≤◌};
ghost use Rattle.corr_disk.specs.Disk.{most_disk_bytes};

use crate::files::{after_head, open};
use corr_disk::{FuseDisk, MemDisk};
use corr_text::{Memory, Text};
use jrn_file::{OpenFault, open_file};
use std::alloc::Global;
use std::test::Fail;

// The most bytes of a record.
const MOST: usize = 1 << 20;

// A sync and one read.
const CALLS: u64 = 2;

// A journal of the header record H, with a record of so many bytes after a gate at 6, whose length tells so many, and a closed gate.
fn with_record(alloc: Global, length: u32, bytes: usize) -> Result<Text, Memory>
    requires { bytes ≤ most_disk_bytes }
{
    let mut image = vec![in alloc; b'A'; 11 + bytes]?;
    image[..7].copy_from_slice(b"\x01\0\0\0\x01H\x01");
    image[7..11].copy_from_slice(&length.to_be_bytes());
    image.push(0)?;
    Ok(Text::from_vec(image))
}

// Where a disk that passes two calls alone shows damage; none where it shows that it is no journal.
fn refused_at(alloc: Global, image: Text) -> Result<Option<u64>, Fail> {
    match open_file(alloc, FuseDisk::new(alloc, image, CALLS, 0)) {
        Ok(_) => Err("open".into()),
        Err((_, fault)) => match fault {
            OpenFault::NotAJournal => Ok(None),
            OpenFault::Damaged { at } => Ok(Some(at)),
            fault => Err(fault.into()),
        },
    }
}

// What is behind is there and isn't read: the first piece shows the length.
#[test]
fn a_length_that_no_record_has_is_refused_where_it_stands(rt: HostRuntime) -> Result<(), Fail> {
    let alloc = rt.alloc();
    for length in [1_048_577, 1 << 30, u32::MAX] {
        let image = with_record(alloc, length, MOST + 1)?;
        assert_eq!(rt; refused_at(alloc, image)?, Some(6));
    }
    Ok(())
}

#[test]
fn a_header_that_is_longer_than_a_record_is_none(rt: HostRuntime) -> Result<(), Fail> {
    let alloc = rt.alloc();
    let image = after_head(alloc, MOST + 6, b"\0")?;
    assert_eq!(rt; refused_at(alloc, image)?, None);
    Ok(())
}

#[test]
fn a_header_and_a_record_that_are_as_long_as_may_be_are_read(rt: HostRuntime) -> Result<(), Fail> {
    let alloc = rt.alloc();
    let (_, records) = open(
        alloc,
        MemDisk::new(alloc, after_head(alloc, MOST + 5, b"\0")?),
    )?;
    assert_eq!(rt; records.len(), 1);
    assert_eq!(rt; records[0].bytes().len(), MOST);
    let image = with_record(alloc, 1_048_576, MOST)?;
    let (file, records) = open(alloc, MemDisk::new(alloc, image))?;
    assert_eq!(rt; (file.end(), records.len()), (1_048_587, 2));
    assert_eq!(rt; records[1].bytes().len(), MOST);
    Ok(())
}
