//! Opening a journal.

ghost use Rattle.std.specs.Prelude.{◌≡◌, length, IsTrue, IfOk, IfErr, MatchResult};
ghost use Rattle.corr_disk.specs.Calls.{CallsMade, AtMostCalls};
ghost use Rattle.jrn_file.specs.File.{disk_of, end_of};
ghost use Rattle.jrn_file.specs.Opening.{IsOpened, IsOpenEnding, OpensByCalls, OpenCause, ReadCause, disk_in, reading_in};
ghost use Rattle.jrn_file.specs.Pieces.{calls_to_open, piece_size};
ghost use Rattle.jrn_file.specs.Reading.{AreAt, opened_of, whole};
ghost use Rattle.jrn_file.specs.Untouched.{IsUntouched};

use crate::fault::OpenFault;
use crate::file::{Ending, JFile};
use crate::loading::{LoadFault, load};
use corr_disk::Disk;
use corr_text::Text;
use std::alloc::Global;

/// How many bytes each read of an opening asks for.
const PIECE: usize = 1 << 16;

/// Reads the journal that a stop at any moment may have left, or what is in front of its damage: gives the header
/// record and the records, and how they end. It syncs the disk first, reads pieces of 2^16 bytes in rising order up to
/// the first closed gate, and writes nothing.
///
/// `Damaged` tells the place of the open gate after them that has no whole record after it. `NotAJournal` comes exactly
/// where the disk is empty, its first byte is 0 or its first record is not whole: its length, that many bytes and one byte
/// after them. `DiskFault` comes exactly where a call of the disk failed: the count of faults rises at nothing else.
pub fn read_file<D: Disk>(alloc: Global, disk: D) -> Result<(Vec<Text>, Ending<D>), (D, OpenFault)>
    // What the bytes hold is what it gives.
    ensures told { IsTrue (D.honest disk) → IfOk result (λ r. opened_of (D.reads disk) ≡ reading_in r.0.items r.1) }
    // Each record stands at its place.
    ensures places { IsTrue (D.honest disk) → IfOk result (λ r. AreAt (D.reads disk) r.0.items) }
    ensures open { IfOk result (λ r. IsOpenEnding D.honest D.reads D.may_leave r.0.items r.1) }
    ensures cause { IfErr result (λ e. ReadCause (D.faults disk) (D.faults e.0) (D.honest disk) (D.reads disk) e.1) }

    // Nothing is written, whatever the answer.
    ensures untouched { MatchResult result
        (λ r. IsUntouched D.reads D.may_leave D.moment D.left_since disk (disk_in r.1))
        (λ e. IsUntouched D.reads D.may_leave D.moment D.left_since disk e.0) }

    // It makes as many calls as a sync and a read of each 2^16 bytes up to the closed gate are, and where there is none
    // no more than those up to the end.
    ensures calls { IfOk result (λ r. OpensByCalls D.plan piece_size disk r.1) }
    ensures no_more_calls { IsTrue (D.honest disk) → MatchResult result
        (λ r. AtMostCalls (calls_to_open piece_size (length (D.reads disk))) (D.plan disk) (D.plan (disk_in r.1)))
        (λ e. AtMostCalls (calls_to_open piece_size (length (D.reads disk))) (D.plan disk) (D.plan e.0)) }

    ensures honest { MatchResult result (λ r. D.honest (disk_in r.1) ≡ D.honest disk) (λ e. D.honest e.0 ≡ D.honest disk) }
    ensures kept { IfOk result (λ r. D.faults (disk_in r.1) ≡ D.faults disk) }
{
    let mut disk = disk;
    let before = disk.faults();
    match load(alloc, &mut disk, PIECE) {
        Ok((end, records)) => Ok((records, Ending::Open(JFile::at(disk, end)))),
        Err(LoadFault::Cut { at, records }) => Ok((records, Ending::Damaged { disk, at })),
        Err(LoadFault::NotAJournal) => Err((disk, OpenFault::NotAJournal)),
        Err(LoadFault::Memory) => Err((disk, OpenFault::Memory)),
        Err(LoadFault::Disk) => {
            let after = disk.faults();
            Err((disk, OpenFault::DiskFault { before, after }))
        }
    }
}

/// Opens a journal that a stop at any moment may have left, and gives its header record and its records up to
/// the first closed gate, as `read_file` does.
///
/// `Damaged` comes exactly where a later open gate has no whole record after it, and tells that gate's place; the
/// other faults are those of `read_file`.
pub fn open_file<D: Disk>(alloc: Global, disk: D) -> Result<(JFile<D>, Vec<Text>), (D, OpenFault)>
    // What the bytes hold is what it gives.
    ensures told { IsTrue (D.honest disk) → IfOk result (λ r. opened_of (D.reads disk) ≡ whole r.1.items) }
    ensures opened { IfOk result (λ r. IsOpened D.honest D.reads D.may_leave r.0 r.1.items) }
    ensures cause { IfErr result (λ e. OpenCause (D.faults disk) (D.faults e.0) (D.honest disk) (D.reads disk) e.1) }

    // Nothing is written, whatever the answer.
    ensures untouched { MatchResult result
        (λ r. IsUntouched D.reads D.may_leave D.moment D.left_since disk (disk_of r.0))
        (λ e. IsUntouched D.reads D.may_leave D.moment D.left_since disk e.0) }

    // It makes as many calls as a sync and a read of each 2^16 bytes up to the closed gate are; where it refuses
    // or fails, no more than those up to the end.
    ensures calls { IfOk result (λ r. CallsMade (calls_to_open piece_size (end_of r.0)) (D.plan disk) (D.plan (disk_of r.0))) }
    ensures no_more_calls { IsTrue (D.honest disk) → IfErr result (λ e. AtMostCalls (calls_to_open piece_size (length (D.reads disk))) (D.plan disk) (D.plan e.0)) }

    ensures honest { MatchResult result (λ r. D.honest (disk_of r.0) ≡ D.honest disk) (λ e. D.honest e.0 ≡ D.honest disk) }
    ensures kept { IfOk result (λ r. D.faults (disk_of r.0) ≡ D.faults disk) }
{
    match read_file(alloc, disk) {
        Ok((records, ending)) => match ending {
            Ending::Open(file) => Ok((file, records)),
            Ending::Damaged { disk, at } => Err((disk, OpenFault::Damaged { at })),
        },
        Err(refused) => Err(refused),
    }
}
