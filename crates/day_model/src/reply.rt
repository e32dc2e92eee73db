//! Replies to messages.

use corr_ids::Mir;
use corr_text::{Code, Fault};

/// What became of a message: entered at a place of the journal, in conflict with the entry at a place,
/// refused by a fault, or without a route by a code. Places count from 1. A refused message has a `mir` where its blocks 1 and 2
/// are read and block 2 is of output form.
#[derive(Clone, Copy, Debug, PartialEq, Eq)]
pub enum Reply {
    Entered { mir: Mir, place: u32 },
    Conflict { mir: Mir, place: u32 },
    Refused { mir: Option<Mir>, fault: Fault },
    Unrouted { mir: Mir, code: Code },
}
