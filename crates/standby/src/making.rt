//! The first record: a new journal.

ghost use Rattle.std.specs.Prelude.{◌≡◌, false, IsTrue, IfErr, IfOk};
ghost use Rattle.corr_disk.specs.Disk.{LeavesOnly};
ghost use Rattle.standby.specs.Following.{IsKept, disk_in, held_in};
ghost use Rattle.standby.specs.inner.Following.{IsBare};
ghost use Rattle.standby.specs.Held.{ComesNext, IsHeld, IsOnDisk, journal, nothing};
ghost use Rattle.standby.specs.inner.Held.{IsBeforeOrWith};
ghost use Rattle.standby.specs.Taking.{AddShows, broken_after, is_disk_fault};
ghost use Rattle.standby.specs.inner.Taking.{RefusesRecord, fault_of};

use crate::answer::TakeFault;
use crate::place::Place;
use core::mem::replace_with;
use corr_disk::Disk;
use corr_text::Text;
use jrn_book::Past;
use jrn_codec::EntryFault;
use jrn_file::{JFile, MakeFault, create};
use std::alloc::Global;

/// A header record, and the past that it begins.
#[derive(Drop)]
struct Making {
    alloc: Global,
    past: Past,
    head: Text,
}

/// The past that a header record begins.
fn read_first(alloc: Global, head: &[u8]) -> Result<Making, TakeFault>
    ensures head { IfOk result (λ making. making.head ≡ head.now) }
    ensures past { IfOk result (λ making. ComesNext nothing head.now (journal making.past.accounts making.past.history)) }
    ensures refused { IfErr result (RefusesRecord nothing 1 head.now) }
{
    let past = match Past::of_head(alloc, head) {
        Ok(past) => past,
        Err(EntryFault::NoEntry) => return Err(TakeFault::NotNext { number: 1 }),
        Err(EntryFault::Memory) => return Err(TakeFault::Memory),
    };
    let head = Text::from_bytes(alloc, head)?;
    Ok(Making { alloc, past, head })
}

/// What it is to a follower that a journal was not made. One that somebody else put there since is never met on a disk of ours.
fn fault_of(fault: MakeFault) -> TakeFault
    ensures { result ≡ fault_of fault }
{
    match fault {
        MakeFault::DiskFault { before, after } => TakeFault::DiskFault { before, after },
        _ => TakeFault::Memory,
    }
}

/// Makes a journal of this header on a disk where one may be made.
fn make_on<D: Disk>(disk: D, making: Making) -> (Place<D>, Result<(), TakeFault>)
    requires kept { IsOnDisk D.honest D.reads D.may_leave disk nothing }
    requires next { ComesNext nothing making.head (journal making.past.accounts making.past.history) }
    ensures shows { AddShows nothing 1 making.head (D.faults disk) (D.faults (disk_in result.0)) (held_in result.0) result.1 }
    ensures good { IsHeld (held_in result.0) }
    ensures kept { broken_after false result.1 ≡ false → IsKept D.honest D.reads D.may_leave result.0 }
    ensures any_moment { IsTrue (D.honest disk) → LeavesOnly D.moment D.left_since disk (disk_in result.0) (IsBeforeOrWith nothing making.head) }
    ensures same { IfErr result.1 (λ fault. is_disk_fault fault ≡ false → IsTrue (D.honest disk) → disk_in result.0 ≡ disk) }
    ensures honest { D.honest (disk_in result.0) ≡ D.honest disk }
{
    let Making { alloc, past, head } = making;
    // What always holds of a past: its accounts and its history are those of a journal.
    let _ = past.history();
    let bytes = head.bytes();
    match create(alloc, disk, bytes) {
        Ok(disk) => {
            let file = JFile::made(disk, bytes);
            (Place::Journal(past, file), Ok(()))
        }
        Err((disk, fault)) => (Place::Bare(disk), Err(fault_of(fault))),
    }
}

fn make_in<D: Disk>(place: Place<D>, making: Making) -> (Place<D>, Result<(), TakeFault>)
    requires bare { IsBare place }
    requires kept { IsKept D.honest D.reads D.may_leave place }
    requires next { ComesNext nothing making.head (journal making.past.accounts making.past.history) }
    ensures shows { AddShows nothing 1 making.head (D.faults (disk_in place)) (D.faults (disk_in result.0)) (held_in result.0) result.1 }
    ensures good { IsHeld (held_in result.0) }
    ensures kept { broken_after false result.1 ≡ false → IsKept D.honest D.reads D.may_leave result.0 }
    ensures any_moment { IsTrue (D.honest (disk_in place)) → LeavesOnly D.moment D.left_since (disk_in place) (disk_in result.0) (IsBeforeOrWith nothing making.head) }
    ensures same { IfErr result.1 (λ fault. is_disk_fault fault ≡ false → IsTrue (D.honest (disk_in place)) → disk_in result.0 ≡ disk_in place) }
    ensures honest { D.honest (disk_in result.0) ≡ D.honest (disk_in place) }
{
    match place {
        Place::Bare(disk) => make_on(disk, making),
        Place::Journal(_, _) => unreachable!(),
    }
}

/// Makes a journal of this header record, where nothing is held.
pub(crate) fn make<D: Disk>(
    alloc: Global,
    place: &mut Place<D>,
    head: &[u8],
) -> Result<(), TakeFault>
    requires bare { IsBare place.old }
    requires kept { IsKept D.honest D.reads D.may_leave place.old }
    ensures shows { AddShows nothing 1 head.now (D.faults (disk_in place.old)) (D.faults (disk_in place.new)) (held_in place.new) result }
    ensures good { IsHeld (held_in place.new) }
    ensures kept { broken_after false result ≡ false → IsKept D.honest D.reads D.may_leave place.new }
    ensures any_moment { IsTrue (D.honest (disk_in place.old)) → LeavesOnly D.moment D.left_since (disk_in place.old) (disk_in place.new) (IsBeforeOrWith nothing head.now) }
    ensures same { IfErr result (λ fault. is_disk_fault fault ≡ false → IsTrue (D.honest (disk_in place.old)) → disk_in place.new ≡ disk_in place.old) }
    ensures honest { D.honest (disk_in place.new) ≡ D.honest (disk_in place.old) }
{
    let making = read_first(alloc, head)?;
    replace_with(place, making, make_in)
}
