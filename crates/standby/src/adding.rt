//! A record more.

ghost use Rattle.std.specs.Prelude.{◌≡◌, ◌+◌, ◌<◌, ◌≤◌, false, IsTrue, IfErr, IfOk, length};
ghost use Rattle.corr_disk.specs.Disk.{LeavesOnly};
ghost use Rattle.day_model.specs.declared.change.Item.{Item as TheItem};
ghost use Rattle.jrn_file.specs.File.{IsSettled, disk_of};
ghost use Rattle.jrn_file.specs.Journal.{frame_of};
ghost use Rattle.jrn_codec.specs.Header.{head_bytes};
ghost use Rattle.jrn_codec.specs.Items.{item_bytes};
ghost use Rattle.jrn_book.specs.declared.version.Version.TheVariants.{Two};
ghost use Rattle.jrn_book.specs.Journal.{IsJournal, item_records};
ghost use Rattle.jrn_book.specs.Opening.{IsNextOf};
ghost use Rattle.jrn_book.specs.Reading.{IsReady, IsReadyFor, IsSameRead};
ghost use Rattle.standby.specs.Following.{IsKept, disk_in, held_in};
ghost use Rattle.standby.specs.Held.{IsHeld, count_of, journal};
ghost use Rattle.standby.specs.inner.Held.{IsBeforeOrWith};
ghost use Rattle.standby.specs.Taking.{AddShows, broken_after, is_disk_fault};
ghost use Rattle.standby.specs.inner.Taking.{RefusesRecord};

use crate::answer::TakeFault;
use crate::making::make;
use crate::place::Place;
use corr_disk::Disk;
use corr_text::{Memory, Text};
use jrn_book::{Past, Ready};
use jrn_codec::EntryFault;
use jrn_file::{AppendFault, JFile};
use std::alloc::Global;

/// A record as it is appended: its length in four bytes, the record, and a closed gate.
fn framed(alloc: Global, body: &[u8]) -> Result<Text, Memory>
    requires { length body.now ≤ 1048576 }
    ensures { IfOk result (λ frame. frame ≡ frame_of body.now) }
{
    let size = (body.len() as u32).to_be_bytes();
    let mut frame = Text::with_room(alloc, &size, body.len() + 1)?;
    frame.push(body)?;
    frame.push(&[0])?;
    Ok(frame)
}

/// What a record becomes that may stand next, with the memory that it takes, and its frame.
fn read_next(
    alloc: Global,
    past: &mut Past,
    number: u32,
    record: &[u8],
) -> Result<(Ready, Text), TakeFault>
    ensures same { IsSameRead past.old past.new }
    ensures room { IfOk result (λ next. 1 ≤ past.new.spare) }
    ensures ready { IfOk result (λ next. IsReady past.new next.0) }
    ensures next { IfOk result (λ next. (item : TheItem) × IsNextOf Two past.old.accounts past.old.history item × (record.now ≡ item_bytes item) × IsReadyFor past.new item next.0) }
    ensures frame { IfOk result (λ next. next.1 ≡ frame_of record.now) }
    ensures refused { IfErr result (RefusesRecord (journal past.old.accounts past.old.history) number record.now) }
{
    let item = match past.fits(alloc, record) {
        Ok(item) => item,
        Err(EntryFault::NoEntry) => return Err(TakeFault::NotNext { number }),
        Err(EntryFault::Memory) => return Err(TakeFault::Memory),
    };
    let frame = framed(alloc, record)?;
    let ready = past.reserve(alloc, item)?;
    Ok((ready, frame))
}

/// Appends the record of an item that may stand next to the journal that is held.
fn enter<D: Disk>(
    alloc: Global,
    past: &mut Past,
    file: &mut JFile<D>,
    number: u32,
    record: &[u8],
) -> Result<(), TakeFault>
    requires good { IsJournal past.old.accounts past.old.history }
    requires settled { IsSettled D.honest D.reads D.may_leave file.old (head_bytes past.old.accounts) (item_records past.old.accounts past.old.history) }
    ensures shows { AddShows (journal past.old.accounts past.old.history) number record.now (D.faults (disk_of file.old)) (D.faults (disk_of file.new)) (journal past.new.accounts past.new.history) result }
    ensures good { IsJournal past.new.accounts past.new.history }
    ensures settled { broken_after false result ≡ false → IsSettled D.honest D.reads D.may_leave file.new (head_bytes past.new.accounts) (item_records past.new.accounts past.new.history) }
    ensures any_moment { IsTrue (D.honest (disk_of file.old)) → LeavesOnly D.moment D.left_since (disk_of file.old) (disk_of file.new) (IsBeforeOrWith (journal past.old.accounts past.old.history) record.now) }
    ensures same { IfErr result (λ fault. is_disk_fault fault ≡ false → file.new ≡ file.old) }
    ensures honest { D.honest (disk_of file.new) ≡ D.honest (disk_of file.old) }
{
    let (ready, frame) = read_next(alloc, past, number, record)?;
    match file.append(frame.bytes()) {
        Ok(()) => {
            past.note(ready);
            // What always holds of a past: its accounts and its history are those of a journal.
            let _ = past.history();
            Ok(())
        }
        Err(AppendFault::Full { end, need }) => Err(TakeFault::Full { end, need }),
        Err(AppendFault::DiskFault { before, after }) => {
            Err(TakeFault::DiskFault { before, after })
        }
    }
}

impl<D: Disk> Place<D> {
    /// Adds the record with the next number.
    pub(crate) fn add(&mut self, alloc: Global, number: u32, record: &[u8]) -> Result<(), TakeFault>
        requires number { number ≡ count_of (held_in self.old) + 1 }
        requires kept { IsKept D.honest D.reads D.may_leave self.old }
        ensures shows { AddShows (held_in self.old) number record.now (D.faults (disk_in self.old)) (D.faults (disk_in self.new)) (held_in self.new) result }
        ensures good { IsHeld (held_in self.new) }
        ensures kept { broken_after false result ≡ false → IsKept D.honest D.reads D.may_leave self.new }
        ensures any_moment { IsTrue (D.honest (disk_in self.old)) → LeavesOnly D.moment D.left_since (disk_in self.old) (disk_in self.new) (IsBeforeOrWith (held_in self.old) record.now) }
        ensures same { IfErr result (λ fault. is_disk_fault fault ≡ false → IsTrue (D.honest (disk_in self.old)) → disk_in self.new ≡ disk_in self.old) }
        ensures honest { D.honest (disk_in self.new) ≡ D.honest (disk_in self.old) }
    {
        match self {
            Place::Bare(_) => make(alloc, self, record),
            Place::Journal(past, file) => enter(alloc, past, file, number, record),
        }
    }
}
