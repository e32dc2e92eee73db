//! Bytes on their way to a disk, in pieces of one length.

ghost use Rattle.std.specs.Prelude.{◌≡◌, ◌+◌, ◌-◌, ◌/◌, ◌<◌, ◌≤◌, ◌++◌, length, take, min, IsTrue, IfOk, OnOk};
ghost use Rattle.corr_disk.specs.Calls.{AtMostCalls, CallsMade};
ghost use Rattle.corr_disk.specs.Disk.{most_disk_bytes, written};
ghost use Rattle.corr_text.specs.Faults.{HasCause};
ghost use Rattle.jrn_file.specs.inner.Sending.{IsSent, LeavesShut, SendsBy, StartsAt, StaysShut, place_of, waiting};

use corr_disk::{Disk, Failed};
use std::alloc::{AllocError, Global};

/// Bytes that are not on the disk yet: they wait in front of a buffer of one piece, until that is full.
#[derive(Drop)]
pub(crate) struct Sender {
    buffer: Vec<u8>,
    filled: usize,
    /// The place of the first of them on the disk.
    at: u64,
}

impl Sender {
    /// A sender of pieces of so many bytes, from this place on.
    pub(crate) fn new(alloc: Global, piece: usize, at: u64) -> Result<Sender, AllocError>
        requires { 0 < piece }
        ensures { IfOk result (StartsAt piece at) }
    {
        let mut buffer = Vec::new(alloc);
        buffer.resize(piece, 0)?;
        Ok(Sender {
            buffer,
            filled: 0,
            at,
        })
    }

    /// Takes as many of these bytes as there is room for, and answers how many.
    fn take_in(&mut self, bytes: &[u8]) -> usize
        requires { self.old.filled ≤ length self.old.buffer.items }
        ensures count { result ≡ min (length bytes.now) (length self.old.buffer.items - self.old.filled) }
        ensures taken { waiting self.new ≡ waiting self.old ++ take result bytes.now }
        ensures filled { self.new.filled ≡ self.old.filled + result }
        ensures size { length self.new.buffer.items ≡ length self.old.buffer.items }
        ensures place { self.new.at ≡ self.old.at }
    {
        let count = bytes.len().min(self.buffer.len() - self.filled);
        let end = self.filled + count;
        self.buffer[self.filled..end].copy_from_slice(&bytes[..count]);
        self.filled = end;
        count
    }

    /// Takes as many of these bytes as there is room for, writes the piece where it is full, and answers how many it took.
    fn give_some<D: Disk>(&mut self, disk: &mut D, bytes: &[u8]) -> Result<usize, Failed>
        requires by { SendsBy (length self.old.buffer.items) self.old }
        requires no_gap { IsTrue (D.honest disk.old) → place_of self.old ≤ length (D.reads disk.old) }
        requires room { place_of self.old + self.old.filled + length bytes.now ≤ most_disk_bytes }
        ensures count { IfOk result (λ n. n ≡ min (length bytes.now) (length self.old.buffer.items - self.old.filled)) }
        ensures sent { IfOk result (λ n. IsSent (length self.old.buffer.items) self.old self.new (take n bytes.now)
            (D.honest disk.old) (D.reads disk.old) (D.reads disk.new) (D.plan disk.old) (D.plan disk.new)) }
        ensures shut { 0 < place_of self.old → LeavesShut (D.may_leave disk.old) → StaysShut D.may_leave D.moment D.left_since disk.old disk.new }
        ensures honest { D.honest disk.new ≡ D.honest disk.old }
        ensures cause { HasCause (D.faults disk.old) (D.faults disk.new) result }
        ensures no_more_calls { AtMostCalls ((self.old.filled + length bytes.now) / length self.old.buffer.items) (D.plan disk.old) (D.plan disk.new) }
    {
        let count = self.take_in(bytes);
        if self.filled == self.buffer.len() {
            disk.write_at(self.at, self.buffer.as_slice())?;
            self.at += self.filled as u64;
            self.filled = 0;
        }
        Ok(count)
    }

    /// Gives bytes to the disk: writes the pieces that become full, and keeps the rest.
    pub(crate) fn give<D: Disk>(&mut self, disk: &mut D, bytes: &[u8]) -> Result<(), Failed>
        requires by { SendsBy (length self.old.buffer.items) self.old }
        requires no_gap { IsTrue (D.honest disk.old) → place_of self.old ≤ length (D.reads disk.old) }
        requires room { place_of self.old + self.old.filled + length bytes.now ≤ most_disk_bytes }
        ensures sent { OnOk result (IsSent (length self.old.buffer.items) self.old self.new bytes.now
            (D.honest disk.old) (D.reads disk.old) (D.reads disk.new) (D.plan disk.old) (D.plan disk.new)) }
        ensures shut { 0 < place_of self.old → LeavesShut (D.may_leave disk.old) → StaysShut D.may_leave D.moment D.left_since disk.old disk.new }
        ensures honest { D.honest disk.new ≡ D.honest disk.old }
        ensures cause { HasCause (D.faults disk.old) (D.faults disk.new) result }
        ensures no_more_calls { AtMostCalls ((self.old.filled + length bytes.now) / length self.old.buffer.items) (D.plan disk.old) (D.plan disk.new) }
    {
        let mut given = 0;
        while given < bytes.len() {
            given += self.give_some(disk, &bytes[given..])?;
        }
        Ok(())
    }

    /// Writes what waits.
    pub(crate) fn finish<D: Disk>(&mut self, disk: &mut D) -> Result<(), Failed>
        requires by { SendsBy (length self.old.buffer.items) self.old }
        requires no_gap { IsTrue (D.honest disk.old) → place_of self.old ≤ length (D.reads disk.old) }
        requires room { place_of self.old + self.old.filled ≤ most_disk_bytes }
        ensures written { IsTrue (D.honest disk.old) → OnOk result (D.reads disk.new ≡ written (place_of self.old) (waiting self.old) (D.reads disk.old)) }
        ensures shut { 0 < place_of self.old → LeavesShut (D.may_leave disk.old) → StaysShut D.may_leave D.moment D.left_since disk.old disk.new }
        ensures honest { D.honest disk.new ≡ D.honest disk.old }
        ensures cause { HasCause (D.faults disk.old) (D.faults disk.new) result }
        ensures calls { OnOk result (CallsMade (min 1 self.old.filled) (D.plan disk.old) (D.plan disk.new)) }
        ensures no_more_calls { AtMostCalls (min 1 self.old.filled) (D.plan disk.old) (D.plan disk.new) }
    {
        if self.filled > 0 {
            disk.write_at(self.at, &self.buffer[..self.filled])?;
        }
        Ok(())
    }
}
