//! The beginning of a follower.

ghost use Rattle.std.specs.Prelude.{◌≡◌, None, false, IsTrue, IfErr, IfOk, IfSome, MatchResult, OnOk};
ghost use Rattle.corr_disk.specs.Disk.{Only};
ghost use Rattle.corr_text.specs.Faults.{HasCause};
ghost use Rattle.jrn_file.specs.File.{IsSettled, disk_of};
ghost use Rattle.jrn_file.specs.Making.{IsUnmade};
ghost use Rattle.jrn_file.specs.Reading.{opened_of};
ghost use Rattle.jrn_file.specs.Untouched.{IsUntouched};
ghost use Rattle.jrn_codec.specs.Header.{head_bytes};
ghost use Rattle.jrn_book.specs.Journal.{IsJournal, item_records};
ghost use Rattle.jrn_book.specs.Opening.{BookOpenCause, Finding, IsFound, found_by};
ghost use Rattle.standby.specs.Following.{BeginsAs, begun_in};
ghost use Rattle.standby.specs.inner.Following.{TellsFront};
ghost use Rattle.standby.specs.Held.{IsHeld, IsOnDisk, journal, nothing};

use crate::follower::Follower;
use crate::place::Place;
use corr_disk::{Disk, Failed};
use jrn_book::{Past, open_past};
use jrn_file::{JFile, OpenFault};
use std::alloc::Global;

/// Syncs a disk, and tells its first byte where it has more than one.
fn front_of<D: Disk>(disk: &mut D) -> Result<Option<u8>, Failed>
    ensures front { IsTrue (D.honest disk.old) → IfOk result (λ front. TellsFront front (D.reads disk.old)) }
    ensures durable { OnOk result (Only (D.reads disk.new) (D.may_leave disk.new)) }
    ensures untouched { IsUntouched D.reads D.may_leave D.moment D.left_since disk.old disk.new }
    ensures honest { D.honest disk.new ≡ D.honest disk.old }
    ensures cause { HasCause (D.faults disk.old) (D.faults disk.new) result }
{
    disk.sync()?;
    if disk.len()? <= 1 {
        return Ok(None);
    }
    let mut first = [0];
    disk.read_at(0, &mut first)?;
    Ok(Some(first[0]))
}

/// A follower that holds no record, of a disk where a journal may be made.
fn bare<D: Disk>(alloc: Global, disk: D) -> Follower<D>
    requires kept { IsOnDisk D.honest D.reads D.may_leave disk nothing }
    ensures { result ≡ record { held = nothing; disk = disk; at_open = D.faults disk; broken = false } }
{
    let at_open = disk.faults();
    Follower {
        place: Place::Bare(disk),
        at_open,
        broken: false,
        alloc,
    }
}

/// A follower that holds a journal.
fn within<D: Disk>(alloc: Global, past: Past, file: JFile<D>) -> Follower<D>
    requires good { IsJournal past.accounts past.history }
    requires settled { IsSettled D.honest D.reads D.may_leave file (head_bytes past.accounts) (item_records past.accounts past.history) }
    ensures { result ≡ record { held = journal past.accounts past.history; disk = disk_of file; at_open = D.faults (disk_of file); broken = false } }
{
    let at_open = file.faults();
    Follower {
        place: Place::Journal(past, file),
        at_open,
        broken: false,
        alloc,
    }
}

impl<D: Disk> Follower<D> {
    /// The follower of a disk, which holds no record where the disk has at most one byte or its first byte is 0, and else those of the
    /// journal there. It syncs the disk first and writes nothing. It takes memory as `open_past` does.
    ///
    /// It refuses what `open_past` refuses, but where it holds no record, with the same fault. `DiskFault` comes only where a call of
    /// the disk failed, with its count of faults before and after.
    pub fn begin(alloc: Global, disk: D) -> Result<Follower<D>, (D, OpenFault)>
        // What is held is that of a journal, and on the disk, of which a crash leaves nothing else.
        ensures good { IfOk result (λ f. IsHeld f.held) }
        ensures durable { IfOk result (λ f. IsOnDisk D.honest D.reads D.may_leave f.disk f.held) }
        ensures fresh { IfOk result (λ f. (f.broken ≡ false) × (f.at_open ≡ D.faults disk) × (D.faults f.disk ≡ D.faults disk)) }

        // It is what the bytes are.
        ensures told { IsTrue (D.honest disk) → IfOk result (λ f. BeginsAs (D.reads disk) f.held) }

        // Where a journal may be made there, nothing but a fault of the disk or want of memory keeps it.
        ensures unmade { IsTrue (D.honest disk) → IsUnmade (D.reads disk) → IfErr result (λ e. found_by e.1 ≡ None) }

        // Elsewhere the answer is what the bytes are as the journal of a book, and what they are is the answer, unless the disk or memory
        // failed.
        ensures refused { IsTrue (D.honest disk) → IfErr result (λ e. IfSome (found_by e.1) (IsFound (opened_of (D.reads disk)))) }
        ensures only { IsTrue (D.honest disk) → (IsUnmade (D.reads disk) → ⊥) → (finding : Finding) → IsFound (opened_of (D.reads disk)) finding
            → IfSome (begun_in result) (λ found. found ≡ finding) }
        ensures cause { IfErr result (λ e. BookOpenCause (D.faults disk) (D.faults e.0) e.1) }

        // Nothing is written, whatever the answer.
        ensures untouched { MatchResult result
            (λ f. IsUntouched D.reads D.may_leave D.moment D.left_since disk f.disk)
            (λ e. IsUntouched D.reads D.may_leave D.moment D.left_since disk e.0) }
        ensures honest { MatchResult result (λ f. D.honest f.disk ≡ D.honest disk) (λ e. D.honest e.0 ≡ D.honest disk) }
    {
        let mut disk = disk;
        let before = disk.faults();
        match front_of(&mut disk) {
            Ok(None) => Ok(bare(alloc, disk)),
            Ok(Some(0)) => Ok(bare(alloc, disk)),
            Ok(Some(_)) => match open_past(alloc, disk) {
                Ok((past, file)) => Ok(within(alloc, past, file)),
                Err(refused) => Err(refused),
            },
            Err(Failed) => {
                let after = disk.faults();
                Err((disk, OpenFault::DiskFault { before, after }))
            }
        }
    }
}
