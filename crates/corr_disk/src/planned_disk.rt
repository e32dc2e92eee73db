//! A disk in memory that fails by a plan.

ghost use Rattle.std.specs.Prelude.{◌≡◌, ◌+◌, [], ℕ, true, Some, length, is_err};
ghost use Rattle.corr_disk.specs.Calls.{fails_at};
ghost use Rattle.corr_disk.specs.Disk.{ReadsAt};
ghost use Rattle.corr_disk.specs.Laws.{now_counts, no_other, reads_stay};
ghost use Rattle.corr_disk.specs.Past.{bytes_after, Image, LeftSince};
ghost use Rattle.corr_text.specs.Faults.{HasCause};

use crate::past::Past;
use crate::plan::Plan;
use crate::{Disk, Failed};
use corr_io::count_fault;
use corr_text::{Memory, Text};
use std::alloc::Global;

/// A disk in memory. It fails at the calls that its plan says, and else only where it finds no memory for a write.
#[derive(Drop)]
pub(crate) struct PlannedDisk {
    pub(crate) past: Past,
    pub(crate) plan: Plan,
    pub(crate) faults: u64,
}

impl PlannedDisk {
    /// A disk that holds these bytes, all of them synced.
    pub(crate) fn new(alloc: Global, bytes: Text, plan: Plan) -> PlannedDisk
        ensures first { result.past.first ≡ bytes }
        ensures steps { result.past.steps ≡ [] }
        ensures plan { result.plan ≡ plan }
        ensures faults { result.faults ≡ 0 }
    {
        PlannedDisk {
            past: Past::new(alloc, bytes),
            plan,
            faults: 0,
        }
    }

    /// Counts a call, which fails where the plan says so.
    pub(crate) fn begin(&mut self) -> Result<(), Failed>
        ensures fails { is_err result ≡ fails_at self.old.plan 0 }
        ensures next { (k : ℕ) → fails_at self.new.plan k ≡ fails_at self.old.plan (1 + k) }
        ensures cause { HasCause self.old.faults self.new.faults result }
        ensures past { self.new.past ≡ self.old.past }
    {
        if self.plan.fails_next() {
            return Err(count_fault(&mut self.faults));
        }
        Ok(())
    }
}

impl Disk for PlannedDisk {
    ghost honest = { λ _. true };

    ghost reads = { λ d. bytes_after d.past.first d.past.steps };

    ghost may_leave = { λ d. Image d.past.first d.past.steps };

    ghost moment = { λ d. length d.past.steps };

    ghost left_since = { λ d. LeftSince d.past.first d.past.steps };

    ghost faults = { λ d. d.faults };

    ghost plan = { λ d k. Some (fails_at d.plan k) };

    ghost counts_now = { λ d t c le now. now_counts d.past.first d.past.steps t c now };

    ghost only_now = { λ d c left. no_other d.past.first d.past.steps c left };

    ghost reads_may_stay = { λ d honest. reads_stay d.past.first d.past.steps };

    fn faults(&self) -> u64 {
        self.faults
    }

    fn len(&mut self) -> Result<u64, Failed> {
        self.begin()?;
        Ok(self.past.bytes().len() as u64)
    }

    fn read_at(&mut self, at: u64, buf: &mut [u8]) -> Result<usize, Failed> {
        self.begin()?;
        Ok(copy_out(self.past.bytes(), at, buf))
    }

    fn write_at(&mut self, at: u64, bytes: &[u8]) -> Result<(), Failed> {
        self.begin()?;
        match self.past.write(at, bytes) {
            Ok(()) => Ok(()),
            Err(Memory) => Err(count_fault(&mut self.faults)),
        }
    }

    fn sync(&mut self) -> Result<(), Failed> {
        self.begin()?;
        self.past.sync();
        Ok(())
    }
}

/// Copies the bytes from place `at` on to the buffer, as many as there are and it holds.
pub(crate) fn copy_out(bytes: &[u8], at: u64, buf: &mut [u8]) -> usize
    ensures { ReadsAt bytes.now at result buf.old buf.new }
{
    if at >= bytes.len() as u64 {
        return 0;
    }
    let rest = &bytes[at as usize..];
    let count = buf.len().min(rest.len());
    buf[..count].copy_from_slice(&rest[..count]);
    count
}
