//! Where a follower stands on its disk.

ghost use Rattle.std.specs.Prelude.{◌≡◌, ◌+◌, ◌≤◌, length};
ghost use Rattle.day_model.specs.Changes.{most_changes};
ghost use Rattle.day_model.specs.Log.{most_entries};
ghost use Rattle.standby.specs.Following.{disk_in, held_in};
ghost use Rattle.standby.specs.Held.{count_of, entries_of, journal};

use corr_disk::Disk;
use jrn_book::Past;
use jrn_file::JFile;

/// Where a follower stands: a disk on which a journal may be made, or the journal there and what its records say.
#[derive(Drop)]
pub(crate) enum Place<D: Disk> {
    Bare(D),
    Journal(Past, JFile<D>),
}

/// The header, so many changes and so many entries.
fn total(changes: usize, entries: u32) -> u32
    requires changes { changes ≤ most_changes }
    requires entries { entries ≤ most_entries }
    ensures { result ≡ changes + entries + 1 }
{
    changes as u32 + entries + 1
}

/// How many records a past is of.
fn count(past: &Past) -> u32
    ensures { result ≡ count_of (journal past.now.accounts past.now.history) }
{
    total(past.accounts().changes().len(), past.history().len())
}

impl<D: Disk> Place<D> {
    /// How many records are held.
    pub(crate) fn count(&self) -> u32
        ensures { result ≡ count_of (held_in self.now) }
    {
        match self {
            Place::Bare(_) => 0,
            Place::Journal(past, _) => count(past),
        }
    }

    /// How many of them are entries.
    pub(crate) fn entries(&self) -> u32
        ensures { result ≡ length (entries_of (held_in self.now)) }
    {
        match self {
            Place::Bare(_) => 0,
            Place::Journal(past, _) => past.history().len(),
        }
    }

    /// The disk's count of faults.
    pub(crate) fn faults(&self) -> u64
        ensures { result ≡ D.faults (disk_in self.now) }
    {
        match self {
            Place::Bare(disk) => disk.faults(),
            Place::Journal(_, file) => file.faults(),
        }
    }

    /// The disk.
    pub(crate) fn into_disk(self) -> D
        ensures { result ≡ disk_in self }
    {
        match self {
            Place::Bare(disk) => disk,
            Place::Journal(_, file) => file.into_disk(),
        }
    }
}
