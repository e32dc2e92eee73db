//! Calls go through functions that promise nothing: a test then carries none of what a disk promises.

ghost use Rattle.std.specs.Prelude.{◌≤◌, ◌+◌, IsTrue, length};
ghost use Rattle.corr_disk.specs.Disk.{most_disk_bytes};

use corr_disk::{Disk, FileDisk, FileWatch, FuseDisk, MemDisk, OnceDisk, Trouble};
use corr_text::{Memory, Text};
use std::alloc::Global;
use std::fs;
use std::fs::File;
use std::io::Write;
use std::test::Fail;

fn memory_disk(alloc: Global, bytes: &[u8]) -> Result<MemDisk, Memory> {
    Ok(MemDisk::new(alloc, Text::from_bytes(alloc, bytes)?))
}

fn fuse_disk(alloc: Global, calls: u64, torn: u64) -> Result<FuseDisk, Memory> {
    Ok(FuseDisk::new(alloc, Text::from_bytes(alloc, b"abcd")?, calls, torn))
}

fn once_disk(alloc: Global, call: u64) -> Result<OnceDisk, Memory> {
    Ok(OnceDisk::new(alloc, Text::from_bytes(alloc, b"abcd")?, call))
}

fn file_disk<'a>(rt: &'a HostRuntime, path: &[u8]) -> Result<FileDisk<'a, HostRuntime>, Memory> {
    Ok(FileDisk::new(rt, Text::from_bytes(rt.alloc(), path)?))
}

fn shared_disk<'a>(rt: &'a HostRuntime) -> Result<FileDisk<'a, HostRuntime>, Memory> {
    Ok(FileDisk::shared(rt, Text::from_bytes(rt.alloc(), FILE.as_bytes())?))
}

fn len<D: Disk>(disk: &mut D) -> Option<u64> {
    disk.len().ok()
}

fn is_synced<D: Disk>(disk: &mut D) -> bool {
    disk.sync().is_ok()
}

fn is_begun<D: Disk>(disk: &mut D) -> bool {
    disk.write_at(0, b"x").is_ok()
}

// Reads four bytes at most.
fn read<D: Disk>(disk: &mut D, at: u64, bytes: &mut [u8; 4]) -> Option<usize> {
    disk.read_at(at, bytes).ok()
}

// Whether a read of four bytes gives these.
fn holds<D: Disk>(disk: &mut D, at: u64, want: &[u8]) -> bool {
    let mut bytes = [0; 4];
    match read(disk, at, &mut bytes) {
        Some(n) => n <= 4 && &bytes[..n] == want,
        None => false,
    }
}

fn write<D: Disk>(disk: &mut D, at: u64, bytes: &[u8]) -> bool
    requires no_gap { IsTrue (D.honest disk.old) → at ≤ length (D.reads disk.old) }
    requires room { at + length bytes.now ≤ most_disk_bytes }
{
    disk.write_at(at, bytes).is_ok()
}

// Asks for the length, and then writes; whether both calls succeed.
fn put<D: Disk>(disk: &mut D, at: u64, bytes: &[u8]) -> bool {
    match disk.len() {
        Ok(n) if at <= n && at <= 1000 && bytes.len() <= 1000 => write(disk, at, bytes),
        _ => false,
    }
}

// Whether each call fails.
fn is_stopped<D: Disk>(disk: &mut D) -> bool {
    len(disk).is_none()
        && read(disk, 0, &mut [0; 4]).is_none()
        && !is_begun(disk)
        && !is_synced(disk)
}

#[test]
fn a_memory_disk_keeps_what_was_written(rt: HostRuntime) -> Result<(), Fail> {
    let mut disk = memory_disk(rt.alloc(), b"abc")?;
    assert!(rt; put(&mut disk, 1, b"XYZ"));
    assert!(rt; is_synced(&mut disk) && is_synced(&mut disk));
    assert!(rt; put(&mut disk, 4, b"!"));
    assert_eq!(rt; len(&mut disk), Some(5));
    assert!(rt; holds(&mut disk, 0, b"aXYZ"));
    assert!(rt; holds(&mut disk, 3, b"Z!"));
    assert!(rt; holds(&mut disk, 5, b""));
    assert!(rt; holds(&mut disk, u64::MAX, b""));
    assert_eq!(rt; disk.faults(), 0);
    Ok(())
}

#[test]
fn an_empty_disk_has_no_bytes(rt: HostRuntime) -> Result<(), Fail> {
    let mut disk = memory_disk(rt.alloc(), b"")?;
    assert!(rt; put(&mut disk, 0, b""));
    assert_eq!(rt; len(&mut disk), Some(0));
    assert!(rt; put(&mut disk, 0, b"a"));
    assert_eq!(rt; len(&mut disk), Some(1));
    Ok(())
}

// Writes "1234" at place 2 of "abcd", syncs it, and writes "Z" at place 0: five calls.
fn run<D: Disk>(disk: &mut D) -> bool {
    put(disk, 2, b"1234") && is_synced(disk) && put(disk, 0, b"Z")
}

// What a run leaves that stops after so many calls; none where its faults are not one for a call that fails.
fn left(alloc: Global, calls: u64, torn: u64) -> Result<Option<Text>, Memory> {
    let mut disk = fuse_disk(alloc, calls, torn)?;
    let is_done = run(&mut disk);
    let faults = disk.faults();
    let left = disk.left();
    if is_done == (calls >= 5) && faults == u64::from(calls < 5) {
        Ok(Some(left))
    } else {
        Ok(None)
    }
}

fn leaves(alloc: Global, calls: u64, torn: u64, want: &[u8]) -> Result<bool, Memory> {
    match left(alloc, calls, torn)? {
        Some(left) => Ok(left.bytes() == want),
        None => Ok(false),
    }
}

#[test]
fn a_fuse_disk_leaves_each_torn_image(rt: HostRuntime) -> Result<(), Fail> {
    // calls that pass, the pick, and what is left
    let rows: [(u64, u64, &[u8]); 12] = [
        (0, 0, b"abcd"),
        (1, 1, b"abcd"),
        (2, 0, b"abcd"),
        (2, 1, b"ab1234"),
        (2, 2, b"ab12"),
        (2, 3, b"ab\xce\xcd\xcc\xcb"),
        (2, 4, b"ab1d"),
        (2, 99, b"ab1234"),
        (3, 0, b"ab1234"),
        (5, 0, b"ab1234"),
        (5, 1, b"Zb1234"),
        (5, 3, b"\xa5b1234"),
    ];
    for (calls, torn, want) in rows {
        assert!(rt; leaves(rt.alloc(), calls, torn, want)?);
    }
    Ok(())
}

#[test]
fn a_fuse_disk_fails_every_call_once_it_has_stopped(rt: HostRuntime) -> Result<(), Fail> {
    let mut disk = fuse_disk(rt.alloc(), 2, 1)?;
    assert_eq!(rt; len(&mut disk), Some(4));
    assert!(rt; holds(&mut disk, 1, b"bcd"));
    assert!(rt; is_stopped(&mut disk));
    assert_eq!(rt; disk.faults(), 4);
    assert_eq!(rt; disk.left().bytes(), b"abcd".as_slice());
    Ok(())
}

#[test]
fn a_once_disk_fails_at_one_call_without_effect(rt: HostRuntime) -> Result<(), Fail> {
    let mut disk = once_disk(rt.alloc(), 2)?;
    assert!(rt; !put(&mut disk, 0, b"wx"));
    assert!(rt; is_synced(&mut disk) && put(&mut disk, 0, b"y"));
    assert!(rt; holds(&mut disk, 0, b"ybcd"));
    assert_eq!(rt; disk.faults(), 1);
    Ok(())
}

const FILE: &str = "corr_disk_test.jrn";

const FOLDER: &str = "corr_disk_test.folder";

#[test]
fn a_file_disk_keeps_what_was_written(rt: HostRuntime) -> Result<(), Fail> {
    let _ = fs::remove_file(&rt, FILE);
    let mut disk = file_disk(&rt, FILE.as_bytes())?;
    assert!(rt; fs::metadata(&rt, FILE).is_err());
    assert!(rt; put(&mut disk, 0, b"abc") && is_synced(&mut disk) && put(&mut disk, 2, b"XY"));
    assert_eq!(rt; len(&mut disk), Some(4));
    assert!(rt; holds(&mut disk, 1, b"bXY") && holds(&mut disk, 4, b""));
    assert_eq!(rt; disk.faults(), 0);
    drop(disk);
    let mut again = file_disk(&rt, FILE.as_bytes())?;
    assert_eq!(rt; len(&mut again), Some(4));
    assert!(rt; again.faults() == 0 && again.trouble().is_none());
    fs::remove_file(&rt, FILE)?;
    Ok(())
}

// Whether each call fails and is counted, because the file is held.
fn is_in_use(disk: &mut FileDisk<'_, HostRuntime>) -> bool {
    let faults = disk.faults();
    is_stopped(disk)
        && disk.faults() == faults.saturating_add(4)
        && disk.trouble() == Some(Trouble::InUse)
}

#[test]
fn a_file_disk_holds_its_file(rt: HostRuntime) -> Result<(), Fail> {
    let _ = fs::remove_file(&rt, FILE);
    let mut alone = file_disk(&rt, FILE.as_bytes())?;
    let mut second = file_disk(&rt, FILE.as_bytes())?;
    let mut reader = shared_disk(&rt)?;
    assert!(rt; put(&mut alone, 0, b"abc"));
    assert!(rt; is_in_use(&mut second) && is_in_use(&mut reader));
    assert!(rt; holds(&mut alone, 0, b"abc") && len(&mut alone) == Some(3));
    drop(alone);
    let mut beside = shared_disk(&rt)?;
    assert!(rt; holds(&mut reader, 0, b"abc") && holds(&mut beside, 1, b"bc"));
    assert!(rt; is_in_use(&mut second));
    drop(reader);
    drop(beside);
    assert!(rt; holds(&mut second, 2, b"c"));
    fs::remove_file(&rt, FILE)?;
    Ok(())
}

// Writes these bytes into the file in place of what it has.
fn refill(rt: &HostRuntime, bytes: &[u8]) -> Result<(), Fail> {
    File::create(rt, FILE)?.write_all(bytes)?;
    Ok(())
}

fn is_gone(disk: &mut FileDisk<'_, HostRuntime>) -> bool {
    len(disk).is_none() && disk.trouble() == Some(Trouble::Gone)
}

#[test]
fn a_file_disk_misses_what_was_removed_or_cut(rt: HostRuntime) -> Result<(), Fail> {
    let _ = fs::remove_file(&rt, FILE);
    let path = Text::from_bytes(rt.alloc(), FILE.as_bytes())?;
    let watch = FileWatch::new();
    let mut disk = file_disk(&rt, FILE.as_bytes())?.watched(&watch);
    assert!(rt; watch.is_there(&rt, &path));
    assert!(rt; put(&mut disk, 0, b"abc") && is_synced(&mut disk) && watch.is_there(&rt, &path));
    refill(&rt, b"ab")?;
    assert!(rt; is_gone(&mut disk) && !watch.is_there(&rt, &path));
    // a write past the end would hide the cut
    assert!(rt; write(&mut disk, 0, b"xy") && !write(&mut disk, 0, b"abcd"));
    assert!(rt; disk.trouble() == Some(Trouble::Gone));
    refill(&rt, b"abc")?;
    assert!(rt; len(&mut disk) == Some(3) && watch.is_there(&rt, &path));
    fs::remove_file(&rt, FILE)?;
    assert!(rt; is_gone(&mut disk) && !watch.is_there(&rt, &path));
    refill(&rt, b"abc")?;
    assert!(rt; is_gone(&mut disk) && !watch.is_there(&rt, &path));
    fs::remove_file(&rt, FILE)?;
    Ok(())
}

// Whether each call fails on the file at this path, and is counted.
fn is_no_file(rt: &HostRuntime, path: &[u8]) -> Result<bool, Memory> {
    let mut disk = file_disk(rt, path)?;
    Ok(is_stopped(&mut disk) && disk.faults() == 4)
}

#[test]
fn a_file_disk_fails_where_there_can_be_no_file(rt: HostRuntime) -> Result<(), Fail> {
    let _ = fs::remove_dir(&rt, FOLDER);
    fs::create_dir(&rt, FOLDER)?;
    let paths: [&[u8]; 5] = [
        b"\xff",
        b"",
        b"no/such/folder/a.jrn",
        FOLDER.as_bytes(),
        b"/dev/full",
    ];
    for path in paths {
        assert!(rt; is_no_file(&rt, path)?);
    }
    fs::remove_dir(&rt, FOLDER)?;
    Ok(())
}
