//! An open journal.

ghost use Rattle.std.specs.Prelude.{◌≡◌, ◌+◌, ◌<◌, ◌↔◌, ◌∷◌, [], ◌++◌, ℕ, List, length, IsTrue, OnOk, OnErr, IfErr, IsErrOf};
ghost use Rattle.corr_disk.specs.Calls.{CallsMade, AtMostCalls};
ghost use Rattle.corr_disk.specs.Disk.{written, LeavesOnly, Only, most_disk_bytes};
ghost use Rattle.jrn_file.specs.Journal.{IsFrame, AreFrames, StandsFor, record_in, IsBeforeOrAfter, IsBeforeOrAll};
ghost use Rattle.jrn_file.specs.File.{disk_of, end_of, IsSettled, IsOpen};
ghost use Rattle.jrn_file.specs.Faults.{AppendCause};

use crate::entering::enter;
use crate::fault::AppendFault;
use corr_disk::{Disk, Failed, MOST_DISK_BYTES};

/// A journal that was opened, ready for more records.
#[derive(Drop)]
pub struct JFile<D: Disk> {
    disk: D,
    /// The place of the closed gate.
    end: u64,
}

/// How the records of a disk end.
#[derive(Drop)]
pub enum Ending<D: Disk> {
    /// With a closed gate: more records may be appended.
    Open(JFile<D>),
    /// With an open gate at this place that has no whole record after it.
    Damaged { disk: D, at: u64 },
}

impl<D: Disk> JFile<D> {
    /// The file of a disk that holds a journal of this header record and no record, all of it synced, as `create` leaves it: ready for
    /// records without being opened. It makes no call of the disk and takes no memory.
    pub fn made(disk: D, head: &[u8]) -> JFile<D>
        requires stands { IsTrue (D.honest disk) → StandsFor (D.reads disk) head.now [] }
        requires durable { IsTrue (D.honest disk) → Only (D.reads disk) (D.may_leave disk) }
        ensures disk { disk_of result ≡ disk }
        ensures settled { IsSettled D.honest D.reads D.may_leave result head.now [] }
    {
        JFile::at(disk, head.len() as u64 + 5)
    }

    /// A file whose closed gate stands at this place.
    pub(crate) fn at(disk: D, end: u64) -> JFile<D>
        ensures disk { disk_of result ≡ disk }
        ensures end { end_of result ≡ end }
    {
        JFile { disk, end }
    }

    /// Appends one record, given as its length in four bytes (most significant first), the record and a byte 0.
    /// It makes four calls of the disk and takes no memory. At Ok the record is on the disk.
    ///
    /// `Full` comes exactly where the file would pass 2^30 bytes; `need` is the record's length plus 6. Nothing
    /// is written then. `DiskFault` comes only where the disk's count of faults rose, and tells that count before
    /// and after: open the file again. The count rises at nothing else.
    pub fn append(&mut self, frame: &[u8]) -> Result<(), AppendFault>
        requires settled { IsOpen D.honest D.reads D.may_leave self.old }
        requires frame { IsFrame frame.now }

        ensures ok { OnOk result ((head : List ℕ) (records : List (List ℕ)) → IsSettled D.honest D.reads D.may_leave self.old head records
            → IsSettled D.honest D.reads D.may_leave self.new head (records ++ record_in frame.now ∷ [])) }

        // The record stands after the gate that was closed, which is 1 now.
        ensures bytes { IsTrue (D.honest (disk_of self.old)) → OnOk result (D.reads (disk_of self.new) ≡ written (end_of self.old) (1 ∷ []) (written (end_of self.old + 1) frame.now (D.reads (disk_of self.old)))) }

        // A crash at any moment of the call leaves the records from before it, with the new one or without.
        ensures any_moment { (head : List ℕ) (records : List (List ℕ)) → IsSettled D.honest D.reads D.may_leave self.old head records
            → IsTrue (D.honest (disk_of self.old))
            → LeavesOnly D.moment D.left_since (disk_of self.old) (disk_of self.new) (IsBeforeOrAfter head records (record_in frame.now)) }

        // The closed gate stands after the record, and after a fault where it stood.
        ensures moved { OnOk result (end_of self.new ≡ end_of self.old + length frame.now) }
        ensures place { OnErr result (end_of self.new ≡ end_of self.old) }

        // It makes four calls of the disk, and no more where it fails.
        ensures calls { OnOk result (CallsMade 4 (D.plan (disk_of self.old)) (D.plan (disk_of self.new))) }
        ensures no_more_calls { AtMostCalls 4 (D.plan (disk_of self.old)) (D.plan (disk_of self.new)) }

        ensures full { IsErrOf result (AppendFault.Full (end_of self.old) (length frame.now + 1)) ↔ (most_disk_bytes < end_of self.old + (length frame.now + 1)) }
        ensures cause { IfErr result (AppendCause (D.faults (disk_of self.old)) (D.faults (disk_of self.new)) (end_of self.old) (length frame.now + 1) (self.new ≡ self.old)) }
        ensures kept { OnOk result (D.faults (disk_of self.new) ≡ D.faults (disk_of self.old)) }
        ensures honest { D.honest (disk_of self.new) ≡ D.honest (disk_of self.old) }
    {
        self.append_all(frame)
    }

    /// Appends records, at least one, under one sync: given as one after another, each after its length in four bytes
    /// (most significant first), with a byte 1 in front of each but the first, and a byte 0 at the end.
    /// It makes four calls of the disk and takes no memory, however many records there are. At Ok all of them are on
    /// the disk.
    ///
    /// `Full` comes exactly where the file would pass 2^30 bytes; `need` is the length of what was given, and 1. Nothing
    /// is written then. `DiskFault` comes only where the disk's count of faults rose, and tells that count before
    /// and after: open the file again, and it holds all of these records or none. The count rises at nothing else.
    pub fn append_all(&mut self, frames: &[u8]) -> Result<(), AppendFault>
        requires settled { IsOpen D.honest D.reads D.may_leave self.old }
        requires frames { (first : List ℕ) × (more : List (List ℕ)) × AreFrames frames.now first more }

        ensures ok { OnOk result ((head : List ℕ) (records : List (List ℕ)) (first : List ℕ) (more : List (List ℕ))
            → IsSettled D.honest D.reads D.may_leave self.old head records → AreFrames frames.now first more
            → IsSettled D.honest D.reads D.may_leave self.new head (records ++ first ∷ more)) }

        // The records stand after the gate that was closed, which is 1 now.
        ensures bytes { IsTrue (D.honest (disk_of self.old)) → OnOk result (D.reads (disk_of self.new) ≡ written (end_of self.old) (1 ∷ []) (written (end_of self.old + 1) frames.now (D.reads (disk_of self.old)))) }

        // A crash at any moment of the call leaves the records from before it, with all of the new ones or with none.
        ensures any_moment { (head : List ℕ) (records : List (List ℕ)) (first : List ℕ) (more : List (List ℕ))
            → IsSettled D.honest D.reads D.may_leave self.old head records → AreFrames frames.now first more
            → IsTrue (D.honest (disk_of self.old))
            → LeavesOnly D.moment D.left_since (disk_of self.old) (disk_of self.new) (IsBeforeOrAll head records (first ∷ more)) }

        // The closed gate stands after the records, and after a fault where it stood.
        ensures moved { OnOk result (end_of self.new ≡ end_of self.old + length frames.now) }
        ensures place { OnErr result (end_of self.new ≡ end_of self.old) }

        // It makes four calls of the disk, and no more where it fails.
        ensures calls { OnOk result (CallsMade 4 (D.plan (disk_of self.old)) (D.plan (disk_of self.new))) }
        ensures no_more_calls { AtMostCalls 4 (D.plan (disk_of self.old)) (D.plan (disk_of self.new)) }

        ensures full { IsErrOf result (AppendFault.Full (end_of self.old) (length frames.now + 1)) ↔ (most_disk_bytes < end_of self.old + (length frames.now + 1)) }
        ensures cause { IfErr result (AppendCause (D.faults (disk_of self.old)) (D.faults (disk_of self.new)) (end_of self.old) (length frames.now + 1) (self.new ≡ self.old)) }
        ensures kept { OnOk result (D.faults (disk_of self.new) ≡ D.faults (disk_of self.old)) }
        ensures honest { D.honest (disk_of self.new) ≡ D.honest (disk_of self.old) }
    {
        let need = frames.len() as u64 + 1;
        if need > MOST_DISK_BYTES.saturating_sub(self.end) {
            return Err(AppendFault::Full {
                end: self.end,
                need,
            });
        }
        let before = self.disk.faults();
        match enter(&mut self.disk, self.end, frames) {
            Ok(()) => {
                self.end += need - 1;
                Ok(())
            }
            Err(Failed) => {
                let after = self.disk.faults();
                Err(AppendFault::DiskFault { before, after })
            }
        }
    }

    /// The disk's count of faults. Takes no memory.
    pub fn faults(&self) -> u64
        ensures { result ≡ D.faults (disk_of self.now) }
    {
        self.disk.faults()
    }

    /// The place of the closed gate, in bytes from 0. Takes no memory.
    pub fn end(&self) -> u64
        ensures { result ≡ end_of self.now }
    {
        self.end
    }

    /// The disk. Takes no memory.
    pub fn into_disk(self) -> D
        ensures { result ≡ disk_of self }
    {
        self.disk
    }
}
