//! The records of a disk, read piece by piece.

ghost use Rattle.std.specs.Prelude.{◌≡◌, ◌+◌, ◌<◌, ◌≤◌, length, IsTrue, IfOk, IfErr, OnOk};
ghost use Rattle.corr_disk.specs.Calls.{CallsMade, AtMostCalls};
ghost use Rattle.corr_disk.specs.Disk.{Only, most_disk_bytes};
ghost use Rattle.jrn_file.specs.inner.Faults.{LoadCause};
ghost use Rattle.jrn_file.specs.inner.Opening.{IsReadAs, ExplainsLoad};
ghost use Rattle.jrn_file.specs.Pieces.{calls_to_open};
ghost use Rattle.jrn_file.specs.inner.Pieces.{OfBytes};
ghost use Rattle.jrn_file.specs.Untouched.{IsUntouched};

use crate::held::{Held, read_piece};
use crate::reading::{is_closed, is_last, refusal, take_records};
use corr_disk::{Disk, Failed};
use corr_text::{Memory, Text};
use std::alloc::{AllocError, Global};

/// Why the records up to a closed gate could not be had.
#[derive(Drop)]
pub(crate) enum LoadFault {
    /// A call of the disk failed.
    Disk,
    /// No whole record stands in front.
    NotAJournal,
    /// After these records, at this place, stands an open gate with no whole record after it.
    Cut { at: u64, records: Vec<Text> },
    /// Out of memory.
    Memory,
}

impl From<Failed> for LoadFault {
    ghost use Rattle.std.specs.Prelude.{◌≡◌};
    ghost use Rattle.jrn_file.specs.declared.loading.LoadFault.TheVariants as load;

    ghost from_gives = { λ _ e. e ≡ load.Disk };

    fn from(_: Failed) -> LoadFault {
        LoadFault::Disk
    }
}

impl From<Memory> for LoadFault {
    ghost use Rattle.std.specs.Prelude.{◌≡◌};
    ghost use Rattle.jrn_file.specs.declared.loading.LoadFault.TheVariants as load;

    ghost from_gives = { λ _ e. e ≡ load.Memory };

    fn from(_: Memory) -> LoadFault {
        LoadFault::Memory
    }
}

impl From<AllocError> for LoadFault {
    ghost use Rattle.std.specs.Prelude.{◌≡◌};
    ghost use Rattle.jrn_file.specs.declared.loading.LoadFault.TheVariants as load;

    ghost from_gives = { λ _ e. e ≡ load.Memory };

    fn from(_: AllocError) -> LoadFault {
        LoadFault::Memory
    }
}

/// Syncs the disk and reads its records up to the first closed gate, so many bytes by each read. Gives the place of
/// that gate and the records.
pub(crate) fn load<D: Disk>(
    alloc: Global,
    disk: &mut D,
    piece: usize,
) -> Result<(u64, Vec<Text>), LoadFault>
    requires some { 0 < piece }
    requires few { piece ≤ most_disk_bytes }
    ensures records { IfOk result (λ read. OfBytes (D.honest disk.old) (D.reads disk.old) (λ bytes. IsReadAs bytes read.0 read.1.items)) }
    ensures fault { IfErr result (ExplainsLoad (D.honest disk.old) (D.reads disk.old)) }
    ensures durable { OnOk result (Only (D.reads disk.new) (D.may_leave disk.new)) }
    ensures untouched { IsUntouched D.reads D.may_leave D.moment D.left_since disk.old disk.new }
    ensures honest { D.honest disk.new ≡ D.honest disk.old }
    ensures cause { IfErr result (LoadCause (D.faults disk.old) (D.faults disk.new)) }
    ensures kept { OnOk result (D.faults disk.new ≡ D.faults disk.old) }
    ensures calls { IfOk result (λ read. CallsMade (calls_to_open piece read.0) (D.plan disk.old) (D.plan disk.new)) }
    ensures no_more_calls { IsTrue (D.honest disk.old) → AtMostCalls (calls_to_open piece (length (D.reads disk.old))) (D.plan disk.old) (D.plan disk.new) }
{
    disk.sync()?;
    let mut records = Vec::new(alloc);
    let mut held = Held::new(alloc);
    for index in 0..u64::MAX / piece as u64 {
        let at = index * piece as u64;
        let count = read_piece(disk, at, piece, &mut held)?;
        take_records(alloc, &mut held, &mut records)?;
        let gate = at + count as u64 - held.len() as u64;
        if is_closed(held.bytes()) {
            if records.as_slice().is_empty() {
                return Err(LoadFault::NotAJournal);
            }
            return Ok((gate, records));
        }
        if is_last(count, piece, held.bytes()) {
            return Err(refusal(gate, records));
        }
    }
    Err(LoadFault::Memory)
}
