//! The replies to messages, put together from what the workers made of them.

ghost use Rattle.std.specs.Prelude.{◌≡◌, List, IfErr, IfOk, IsFalse, IsTrue, Some, if◌then◌else◌, is_none};
ghost use Rattle.corr_text.specs.Faults.{Rose};
ghost use Rattle.corr_top.specs.inner.Collecting.{IsCalm, StopsAsServed, disk_fault_of};
ghost use Rattle.corr_top.specs.inner.Serving.{are_replies};
ghost use Rattle.day_model.specs.declared.reply.Reply.{Reply as TheReply};

use crate::desk::{Halt, Served};
use crate::status::Status;

/// Why the pays of a file were not all entered.
#[derive(Clone, Copy)]
pub enum BookStop {
    /// The disk failed: its count of faults when the books were opened, and when a pay was not entered for it.
    DiskFault { before: u64, after: u64 },
    /// A pay found no room: how many entries there were, the place of the closed gate, and the bytes that the pay needed.
    Full { entries: u32, end: u64, need: u64 },
    /// There was no memory.
    Memory,
}

impl From<BookStop> for Status {
    ghost use Rattle.corr_top.specs.Stops.{status_of_booking};

    ghost from_gives = { λ stop status. status ≡ status_of_booking stop };

    fn from(stop: BookStop) -> Status {
        match stop {
            BookStop::DiskFault { before, after } => Status::DiskFault { before, after },
            BookStop::Full { entries, end, need } => Status::Full { entries, end, need },
            BookStop::Memory => Status::Memory,
        }
    }
}

/// Whether a count of faults has risen by one. One that stands at its last value may have.
fn has_risen(before: u64, after: u64) -> bool
    ensures yes { IsTrue result → Rose before after }
    ensures no { IsFalse result → IsCalm before after }
{
    after == before.saturating_add(1)
}

/// The fault that a message tells, where it says that the disk failed over its pay.
fn disk_fault(one: &Served) -> Option<BookStop>
    ensures { result ≡ disk_fault_of one.now }
{
    match *one {
        Served::Stopped(Halt::Disk { before, after }) => {
            Some(BookStop::DiskFault { before, after })
        }
        Served::Stopped(Halt::Broken) | Served::Stopped(Halt::Memory) => None,
        Served::Reply(_) | Served::Full { .. } => None,
    }
}

/// Why pays were not entered, where the count has risen from `count` to `now`: the disk failed over the pay of a message, as the
/// first that says so tells, or memory ran out.
fn failed_stop(count: u64, now: u64, served: &[Served]) -> BookStop
    requires { Rose count now }
    ensures { StopsAsServed count now served.now result }
{
    for one in served {
        if let Some(stop) = disk_fault(one) {
            return stop;
        }
    }
    BookStop::Memory
}

/// The first of two.
fn first_full(first: Option<BookStop>, later: BookStop) -> Option<BookStop>
    ensures { result ≡ (if is_none first then Some later else first) }
{
    match first {
        Some(full) => Some(full),
        None => Some(later),
    }
}

/// Tests that each message has a reply; or tells why one has none: the disk failed, as the first message tells that says so, memory ran
/// out, or its pay, the first such, found no room. The disk's count of faults was `before` at the opening and is `after`.
///
/// A count that rose without a message that says so is told as out of memory, which tells nothing.
pub fn check_replies(before: u64, after: u64, served: &[Served]) -> Result<(), BookStop>
    ensures answered { IfOk result (λ _. (replies : List TheReply) × (served.now ≡ are_replies replies)) }
    ensures calm { IfOk result (λ _. IsCalm before after) }
    ensures stopped { IfErr result (StopsAsServed before after served.now) }
{
    if has_risen(before, after) {
        return Err(failed_stop(before, after, served));
    }
    let mut full = None;
    for one in served {
        match *one {
            Served::Reply(_) => {}
            Served::Full { entries, end, need } => {
                full = first_full(full, BookStop::Full { entries, end, need });
            }
            Served::Stopped(_) => return Err(BookStop::Memory),
        }
    }
    match full {
        Some(full) => Err(full),
        None => Ok(()),
    }
}
