//! A disk that stops.

ghost use Rattle.std.specs.Prelude.{◌≡◌, ◌+◌, ◌-◌, ◌≤◌, ◌∷◌, ℕ, nat_le, IsTrue, Some, true, length, map, unwrap_or, option_map, IfOk, OnOk, OnErr};
ghost use Rattle.corr_disk.specs.Calls.{fails_at};
ghost use Rattle.corr_disk.specs.Disk.{Only, most_disk_bytes};
ghost use Rattle.corr_disk.specs.Past.{bytes_after, Image, LeftSince};
ghost use Rattle.corr_disk.specs.Laws.{now_counts, no_other, reads_stay};
ghost use Rattle.corr_disk.specs.Tearing.{arrived, torn_write, left_of};

use crate::past::overwrite;
use crate::plan::Plan;
use crate::planned_disk::{PlannedDisk, copy_out};
use crate::{Disk, Failed};
use corr_io::count_fault;
use corr_text::{Memory, Text};
use std::alloc::Global;

/// A disk in memory that passes so many calls and then fails every one. Before that it fails only where it finds no memory for
/// a write. It leaves one image of that moment.
#[derive(Drop)]
pub struct FuseDisk {
    disk: PlannedDisk,
    /// What a crash leaves, where it isn't what a read gives.
    image: Option<Vec<u8>>,
    alloc: Global,
    torn: u64,
    ghost left: { unwrap_or (option_map (λ v. v.items) image) (bytes_after disk.past.first disk.past.steps) ≡ left_of torn disk.past.first disk.past.steps },
}

impl FuseDisk {
    /// A disk that holds these bytes, all of them synced, and passes this number of calls.
    ///
    /// `torn` picks the image that it leaves. Of each write since the last sync nothing arrived (0), all (1), its
    /// first half, rounded down (2), all, but with each byte `b` as `255 - b` (3), or its first `torn - 3` bytes. A write that
    /// would begin past the image's end didn't arrive.
    pub fn new(alloc: Global, bytes: Text, calls: u64, torn: u64) -> FuseDisk
        ensures honest { IsTrue (⟦<FuseDisk as Disk>⟧.honest result) }
        ensures reads { ⟦<FuseDisk as Disk>⟧.reads result ≡ bytes }
        ensures images { Only bytes (⟦<FuseDisk as Disk>⟧.may_leave result) }
        ensures faults { ⟦<FuseDisk as Disk>⟧.faults result ≡ 0 }
        ensures plan { (k : ℕ) → ⟦<FuseDisk as Disk>⟧.plan result k ≡ Some (nat_le calls k) }
    {
        FuseDisk {
            disk: PlannedDisk::new(alloc, bytes, Plan::After(calls)),
            image: None,
            alloc,
            torn,
        }
    }

    /// One image of this moment. Takes no memory.
    pub fn left(self) -> Text
        ensures image { ⟦<FuseDisk as Disk>⟧.may_leave self result }
        ensures picked { result ≡ left_of self.torn self.disk.past.first self.disk.past.steps }
    {
        let FuseDisk { disk, image, .. } = self;
        match image {
            Some(image) => Text::from_vec(image),
            None => disk.past.into_bytes(),
        }
    }

    /// Writes, and tears the image too.
    fn write(&mut self, at: u64, bytes: &[u8]) -> Result<(), Memory>
        requires no_gap { at ≤ length (bytes_after self.old.disk.past.first self.old.disk.past.steps) }
        requires room { at + length bytes.now ≤ most_disk_bytes }
        ensures first { self.new.disk.past.first ≡ self.old.disk.past.first }
        ensures ok { OnOk result (self.new.disk.past.steps ≡ Some (at, bytes.now) ∷ self.old.disk.past.steps) }
        ensures err { OnErr result (self.new.disk.past.steps ≡ self.old.disk.past.steps) }
        ensures plan { self.new.disk.plan ≡ self.old.disk.plan }
        ensures faults { self.new.disk.faults ≡ self.old.disk.faults }
    {
        let image = match &self.image {
            Some(image) => torn_copy(self.alloc, image.as_slice(), at, bytes, self.torn)?,
            None => torn_copy(self.alloc, self.disk.past.bytes(), at, bytes, self.torn)?,
        };
        self.disk.past.write(at, bytes)?;
        self.image = Some(image);
        Ok(())
    }
}

impl Disk for FuseDisk {
    ghost honest = { λ _. true };

    ghost reads = { λ d. bytes_after d.disk.past.first d.disk.past.steps };

    ghost may_leave = { λ d. Image d.disk.past.first d.disk.past.steps };

    ghost moment = { λ d. length d.disk.past.steps };

    ghost left_since = { λ d. LeftSince d.disk.past.first d.disk.past.steps };

    ghost faults = { λ d. d.disk.faults };

    ghost plan = { λ d k. Some (fails_at d.disk.plan k) };

    ghost counts_now = { λ d t c le now. now_counts d.disk.past.first d.disk.past.steps t c now };

    ghost only_now = { λ d c left. no_other d.disk.past.first d.disk.past.steps c left };

    ghost reads_may_stay = { λ d honest. reads_stay d.disk.past.first d.disk.past.steps };

    fn faults(&self) -> u64 {
        self.disk.faults
    }

    fn len(&mut self) -> Result<u64, Failed> {
        self.disk.begin()?;
        Ok(self.disk.past.bytes().len() as u64)
    }

    fn read_at(&mut self, at: u64, buf: &mut [u8]) -> Result<usize, Failed> {
        self.disk.begin()?;
        Ok(copy_out(self.disk.past.bytes(), at, buf))
    }

    fn write_at(&mut self, at: u64, bytes: &[u8]) -> Result<(), Failed> {
        self.disk.begin()?;
        match self.write(at, bytes) {
            Ok(()) => Ok(()),
            Err(Memory) => Err(count_fault(&mut self.disk.faults)),
        }
    }

    fn sync(&mut self) -> Result<(), Failed> {
        self.disk.begin()?;
        self.disk.past.sync();
        self.image = None;
        Ok(())
    }
}

/// The image after a torn write.
fn torn_copy(
    alloc: Global,
    image: &[u8],
    at: u64,
    bytes: &[u8],
    torn: u64,
) -> Result<Vec<u8>, Memory>
    requires room { at + length bytes.now ≤ most_disk_bytes }
    ensures { IfOk result (λ next. next.items ≡ torn_write torn at bytes.now image.now) }
{
    let mut next = Vec::from_slice(alloc, image)?;
    if at <= image.len() as u64 {
        let part = part_of(alloc, bytes, torn)?;
        overwrite(&mut next, at as usize, part.as_slice())?;
    }
    Ok(next)
}

/// What of a piece arrives.
fn part_of(alloc: Global, piece: &[u8], torn: u64) -> Result<Vec<u8>, Memory>
    requires room { length piece.now ≤ most_disk_bytes }
    ensures part { IfOk result (λ part. part.items ≡ arrived torn piece.now) }
    ensures length { IfOk result (λ part. length part.items ≤ length piece.now) }
{
    if torn == 3 {
        return turned(alloc, piece);
    }
    let count = match torn {
        0 => 0,
        1 => piece.len(),
        2 => piece.len() / 2,
        _ => piece.len().min((torn - 3) as usize),
    };
    Ok(Vec::from_slice(alloc, &piece[..count])?)
}

/// The piece with each byte turned over.
fn turned(alloc: Global, piece: &[u8]) -> Result<Vec<u8>, Memory>
    ensures { IfOk result (λ turned. turned.items ≡ map (λ b. 255 - b) piece.now) }
{
    let turned = piece.iter().map(|&byte| 255 - byte).collect(alloc)?;
    Ok(turned)
}
