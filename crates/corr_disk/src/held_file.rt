//! An open file that is held against other programs, and what is known of it.

ghost use Rattle.std.specs.Prelude.{◌≤◌, length, IfOk, IsTrue, OnOk};
ghost use Rattle.std.specs.Str.{is_utf8};

use crate::file_watch::FileWatch;
use corr_io::{open_at, read_some_at};
use corr_text::Text;
use std::fs;
use std::fs::{File, Metadata, OpenOptions, TryLockError};
use std::io::{Seek, SeekFrom};
use std::os::unix::fs::{FileExt, MetadataExt};
use std::rt::Files;

/// What is wrong with a file, where a call failed for more than that the system refused it.
#[derive(Clone, Copy, Debug, PartialEq, Eq)]
pub enum Trouble {
    /// Another program, or another disk of this one, holds the file.
    InUse,
    /// The file's system has no locks.
    NoLocks,
    /// The file isn't found at its path any more, or is shorter than it was: it was removed, renamed or cut while it was held.
    Gone,
}

/// Why a call failed; none where the system refused it, or where the path names no regular file.
pub(crate) type Cause = Option<Trouble>;

/// How a file is held.
#[derive(Clone, Copy, Debug, PartialEq, Eq)]
pub(crate) enum Hold {
    /// Against all others.
    Alone,
    /// Beside others that hold it so, and against those that hold it alone.
    Shared,
}

/// Which file is open, and how long it must be at least, in bytes.
#[derive(Clone, Copy)]
pub(crate) struct Known {
    pub(crate) device: u64,
    pub(crate) node: u64,
    pub(crate) len: u64,
}

impl Known {
    /// The length of the file at a path, where it is this one and not shorter than it must be.
    pub(crate) fn find<R: Files>(&self, rt: &R, path: &Text) -> Result<u64, Cause> {
        let there = metadata_at(rt, path)?;
        let is_same = there.dev() == self.device && there.ino() == self.node;
        if is_same && there.len() >= self.len {
            Ok(there.len())
        } else {
            Err(Some(Trouble::Gone))
        }
    }
}

/// A file that is open and held until this value ends, and who is told what is known of it.
#[derive(Drop)]
pub(crate) struct HeldFile<'a> {
    file: File,
    known: Known,
    watch: Option<&'a FileWatch>,
}

impl<'a> HeldFile<'a> {
    /// Opens or makes the file at a path, and holds it. What is no regular file, as a folder or a pipe, is refused.
    ///
    /// It waits for nobody: where another program holds the file it is `InUse`, and nothing was written.
    pub(crate) fn open<R: Files<File = File>>(
        rt: &R,
        path: &Text,
        hold: Hold,
        watch: Option<&'a FileWatch>,
    ) -> Result<HeldFile<'a>, Cause>
        ensures { OnOk result (IsTrue (is_utf8 path.now)) }
    {
        let file = open_regular(rt, path)?;
        take_hold(&file, hold)?;
        let metadata = metadata_of(&file)?;
        let mut known = Known {
            device: metadata.dev(),
            node: metadata.ino(),
            len: 0,
        };
        known.len = known.find(rt, path)?;
        if let Some(watch) = watch {
            watch.note(known);
        }
        Ok(HeldFile { file, known, watch })
    }

    /// Its length, where it still stands at the path and wasn't cut.
    pub(crate) fn look<R: Files>(&mut self, rt: &R, path: &Text) -> Result<u64, Cause> {
        let len = self.known.find(rt, path)?;
        self.know_len(len);
        Ok(len)
    }

    /// Keeps how long the file is, where that is longer than it was known to be.
    fn know_len(&mut self, len: u64) {
        if len > self.known.len {
            self.known.len = len;
            if let Some(watch) = self.watch {
                watch.note(self.known);
            }
        }
    }

    /// Reads from a place on, until the buffer is full or the file ends.
    pub(crate) fn fill(&self, at: u64, buf: &mut [u8]) -> Result<usize, Cause>
        ensures { IfOk result (λ n. n ≤ length buf.old) }
    {
        let mut count = 0;
        for _ in 0..u64::MAX {
            if count == buf.len() {
                break;
            }
            let place = at.wrapping_add(count as u64);
            match read_some_at(&self.file, place, &mut buf[count..]) {
                Ok(0) => break,
                Ok(more) => count += more,
                Err(_) => return Err(None),
            }
        }
        Ok(count)
    }

    /// Writes all of these bytes from a place on, and again what a signal kept from being written, as often as one does.
    /// Ahead of a write past the end the length is asked: such a write would hide that the file was cut.
    pub(crate) fn put(&mut self, at: u64, bytes: &[u8]) -> Result<(), Cause> {
        let end = at.saturating_add(bytes.len() as u64);
        if end > self.known.len {
            self.demand_len()?;
        }
        self.file.write_all_at(bytes, at).map_err(|_| None)?;
        self.know_len(end);
        Ok(())
    }

    /// Makes sure that what was written is kept.
    pub(crate) fn settle(&self) -> Result<(), Cause> {
        self.file.sync_all().map_err(|_| None)
    }

    /// Demands that the file is as long as it must be.
    fn demand_len(&mut self) -> Result<(), Cause> {
        match self.file.seek(SeekFrom::End(0)) {
            Ok(len) if len >= self.known.len => Ok(()),
            Ok(_) => Err(Some(Trouble::Gone)),
            Err(_) => Err(None),
        }
    }
}

fn open_regular<R: Files<File = File>>(rt: &R, path: &Text) -> Result<File, Cause>
    ensures { OnOk result (IsTrue (is_utf8 path.now)) }
{
    let mut how = OpenOptions::new();
    how.read(true).write(true).create(true);
    let file = open_at(rt, path, &how).map_err(|_| None)?;
    if metadata_of(&file)?.is_file() {
        Ok(file)
    } else {
        Err(None)
    }
}

fn take_hold(file: &File, hold: Hold) -> Result<(), Cause> {
    let taken = match hold {
        Hold::Alone => file.try_lock(),
        Hold::Shared => file.try_lock_shared(),
    };
    match taken {
        Ok(()) => Ok(()),
        Err(TryLockError::WouldBlock) => Err(Some(Trouble::InUse)),
        Err(TryLockError::Error(_)) => Err(Some(Trouble::NoLocks)),
    }
}

fn metadata_of(file: &File) -> Result<Metadata, Cause> {
    file.metadata().map_err(|_| None)
}

fn metadata_at<R: Files>(rt: &R, path: &Text) -> Result<Metadata, Cause> {
    match str::from_utf8(path.bytes()) {
        Ok(path) => fs::metadata(rt, path).map_err(|_| Some(Trouble::Gone)),
        Err(_) => Err(None),
    }
}
