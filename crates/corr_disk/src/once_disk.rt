//! A disk that fails once.

ghost use Rattle.std.specs.Prelude.{◌≡◌, ◌+◌, ◌==◌, ℕ, Some, IsTrue, true, length};
ghost use Rattle.corr_disk.specs.Calls.{fails_at};
ghost use Rattle.corr_disk.specs.Disk.{Only};
ghost use Rattle.corr_disk.specs.Laws.{now_counts, no_other, reads_stay};
ghost use Rattle.corr_disk.specs.Past.{bytes_after, Image, LeftSince};

use crate::plan::Plan;
use crate::planned_disk::PlannedDisk;
use crate::{Disk, Failed};
use corr_text::Text;
use std::alloc::Global;

/// A disk in memory of which one call fails, without effect. Else it fails only where it finds no memory for a
/// write.
#[derive(Drop)]
pub struct OnceDisk {
    disk: PlannedDisk,
}

impl OnceDisk {
    /// A disk that holds these bytes, all of them synced. Its call number `fail` fails; the first call has
    /// number 1, and none has number 0.
    pub fn new(alloc: Global, bytes: Text, fail: u64) -> OnceDisk
        ensures honest { IsTrue (⟦<OnceDisk as Disk>⟧.honest result) }
        ensures reads { ⟦<OnceDisk as Disk>⟧.reads result ≡ bytes }
        ensures images { Only bytes (⟦<OnceDisk as Disk>⟧.may_leave result) }
        ensures faults { ⟦<OnceDisk as Disk>⟧.faults result ≡ 0 }
        ensures plan { (k : ℕ) → ⟦<OnceDisk as Disk>⟧.plan result k ≡ Some (k + 1 == fail) }
    {
        OnceDisk {
            disk: PlannedDisk::new(alloc, bytes, Plan::one(fail)),
        }
    }
}

impl Disk for OnceDisk {
    ghost honest = { λ _. true };

    ghost reads = { λ d. bytes_after d.disk.past.first d.disk.past.steps };

    ghost may_leave = { λ d. Image d.disk.past.first d.disk.past.steps };

    ghost moment = { λ d. length d.disk.past.steps };

    ghost left_since = { λ d. LeftSince d.disk.past.first d.disk.past.steps };

    ghost faults = { λ d. d.disk.faults };

    ghost plan = { λ d k. Some (fails_at d.disk.plan k) };

    ghost counts_now = { λ d t c le now. now_counts d.disk.past.first d.disk.past.steps t c now };

    ghost only_now = { λ d c left. no_other d.disk.past.first d.disk.past.steps c left };

    ghost reads_may_stay = { λ d honest. reads_stay d.disk.past.first d.disk.past.steps };

    fn faults(&self) -> u64 {
        self.disk.faults()
    }

    fn len(&mut self) -> Result<u64, Failed> {
        self.disk.len()
    }

    fn read_at(&mut self, at: u64, buf: &mut [u8]) -> Result<usize, Failed> {
        self.disk.read_at(at, buf)
    }

    fn write_at(&mut self, at: u64, bytes: &[u8]) -> Result<(), Failed> {
        self.disk.write_at(at, bytes)
    }

    fn sync(&mut self) -> Result<(), Failed> {
        self.disk.sync()
    }
}
