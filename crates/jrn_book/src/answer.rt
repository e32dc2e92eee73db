//! What a commit answers.

use corr_ids::Day;
use day_model::Outcome;

/// A pay stands in the history, at this place from 1, with this outcome.
#[derive(Clone, Copy, Debug, PartialEq, Eq, Drop)]
pub enum Committed {
    /// It was entered by this call.
    New { place: u32, outcome: Outcome },
    /// The same pay stood there before.
    Kept { place: u32, outcome: Outcome },
}

/// Why a pay was not entered.
#[derive(Clone, Copy, Debug, PartialEq, Eq, Drop)]
pub enum CommitFault {
    /// Another pay with its reference stands at this place.
    Conflict { place: u32 },
    /// The history has 100,000 entries, or the file would pass 2^30 bytes: `entries` is how many there are, `end` the place of
    /// the closed gate, and `need` the length of the pay's record and 6.
    Full { entries: u32, end: u64, need: u64 },
    /// A call of the disk failed: its count of faults before and after.
    DiskFault { before: u64, after: u64 },
    /// An earlier commit, or a pay ahead of it in its batch, answered DiskFault: the disk's count of faults at the opening and now.
    Broken { at_open: u64, now: u64 },
    /// There was no memory.
    Memory,
}

/// A commit that the disk failed: on which day, and how many entries it was writing at most.
#[derive(Clone, Copy, Debug, PartialEq, Eq, Drop)]
pub struct Failed {
    pub day: Day,
    pub most: u32,
}

impl From<corr_text::Memory> for CommitFault {
    ghost use Rattle.std.specs.Prelude.{◌≡◌};
    ghost use Rattle.jrn_book.specs.declared.answer.CommitFault.TheVariants as commit_fault;

    ghost from_gives = { λ _ e. e ≡ commit_fault.Memory };

    fn from(_: corr_text::Memory) -> CommitFault {
        CommitFault::Memory
    }
}
