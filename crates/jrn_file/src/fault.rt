//! What can keep a journal from being made, opened or appended to.

ghost use Rattle.std.specs.Prelude.{◌≡◌};
ghost use Rattle.jrn_file.specs.declared.fault.OpenFault.TheVariants.{Memory};

use std::alloc::AllocFailed;
use thiserror::Error;

/// Why a journal was not opened.
#[derive(Debug, Drop, Error)]
pub enum OpenFault {
    /// The disk is empty, its first byte is a closed gate, or its first record is not whole. Whoever reads the records says so
    /// too where the first is no header.
    #[error("no journal")]
    NotAJournal,
    /// The header record is one of this version, which the call does not read. Only whoever reads the records says so.
    #[error("version {found}")]
    Version { found: u8 },
    /// The open gate at this place, in bytes from 0, has no whole record with a gate after it. Whoever reads the records says so
    /// too where the record after it is whole and may not stand there.
    #[error("damaged at {at}")]
    Damaged { at: u64 },
    /// A call of the disk failed: its count of faults before and after.
    #[error("disk fault {before} {after}")]
    DiskFault { before: u64, after: u64 },
    /// Out of memory.
    #[error("memory")]
    Memory,
}

/// Why a journal was not made.
#[derive(Debug, Drop, Error)]
pub enum MakeFault {
    /// The disk has more than one byte, and its first is this one, not 0.
    #[error("exists {first}")]
    Exists { first: u8 },
    /// The file would pass 2^30 bytes: `end` is 0, and `need` the length that it would have. Only `create_with` says so.
    #[error("full {end} {need}")]
    Full { end: u64, need: u64 },
    /// A call of the disk failed: its count of faults before and after.
    #[error("disk fault {before} {after}")]
    DiskFault { before: u64, after: u64 },
    /// Out of memory.
    #[error("memory")]
    Memory,
}

/// Why a record was not appended.
#[derive(Clone, Copy, Debug, PartialEq, Eq, Drop)]
pub enum AppendFault {
    /// The file would pass 2^30 bytes: `end` is the place of the closed gate, and `need` the length of the record and 6.
    Full { end: u64, need: u64 },
    /// A call of the disk failed: its count of faults before and after.
    DiskFault { before: u64, after: u64 },
}

impl From<corr_text::Memory> for OpenFault {
    ghost from_gives = { λ _ e. e ≡ Memory };

    fn from(_: corr_text::Memory) -> OpenFault {
        OpenFault::Memory
    }
}

impl<T: Drop> From<AllocFailed<T>> for OpenFault {
    ghost from_gives = { λ _ e. e ≡ Memory };

    fn from(_: AllocFailed<T>) -> OpenFault {
        OpenFault::Memory
    }
}
