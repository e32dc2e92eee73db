//! The memory of a run.

ghost use Rattle.std.specs.Prelude.{◌≡◌, ◌<◌, ◌≤◌, [], IfOk, vec_len, vec_capacity};
ghost use Rattle.work_pool.specs.inner.Tasks.{AreInHands};

use crate::dealing::deal;
use crate::hand::Hand;
use crate::seat::Seat;
use corr_text::Memory;
use std::alloc::Global;

/// All the memory that a run takes.
pub struct Room<P, J, R> {
    pub hands: Vec<Hand<J, R>>,
    pub seats: Vec<Seat<P, J, R>>,
    pub passes: Vec<P>,
    pub replies: Vec<R>,
}

/// Deals the jobs out, and makes room for so many seats and passes and a reply for each job.
pub fn make_room<P: Drop, J: Drop, R: Drop>(
    alloc: Global,
    workers: usize,
    jobs: Vec<J>,
) -> Result<Room<P, J, R>, Memory>
    requires { 0 < workers }
    ensures hands { IfOk result (λ room. AreInHands workers jobs.items room.hands.items) }
    ensures seats { IfOk result (λ room. (room.seats.items ≡ []) × (workers ≤ vec_capacity room.seats)) }
    ensures passes { IfOk result (λ room. (room.passes.items ≡ []) × (workers ≤ vec_capacity room.passes)) }
    ensures replies { IfOk result (λ room. (room.replies.items ≡ []) × (vec_len jobs ≤ vec_capacity room.replies)) }
{
    Ok(Room {
        seats: Vec::with_capacity(alloc, workers)?,
        passes: Vec::with_capacity(alloc, workers)?,
        replies: Vec::with_capacity(alloc, jobs.len())?,
        hands: deal(alloc, workers, jobs)?,
    })
}
