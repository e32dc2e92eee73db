//! Replies are collected, and passes given back.

ghost use Rattle.std.specs.Prelude.{◌≡◌, ℕ, ◌<◌, ◌≤◌, ◌/◌, ◌%◌, [], length, map, IsSome, None, slice_get, vec_len, vec_capacity};
ghost use Rattle.work_pool.specs.inner.Tasks.{reply_in, task_in};

use crate::seat::Seat;
use std::alloc::Global;

/// Takes the reply to each job, in the order of the jobs: those of a single seat where they are. There are so many jobs.
pub fn collect<P, J: Drop, R: Drop>(
    alloc: Global,
    seats: &mut [Seat<P, J, R>],
    count: usize,
    replies: &mut Vec<R>,
)
    requires seats { 0 < length seats.old }
    requires served { (i : ℕ) → i < count → IsSome (reply_in seats.old (i % length seats.old) (i / length seats.old)) }
    requires others { (i : ℕ) → count ≤ i → task_in seats.old (i % length seats.old) (i / length seats.old) ≡ None }
    requires empty { replies.old.items ≡ [] }
    requires room { count ≤ vec_capacity replies.old }
    ensures replies { (i : ℕ) → i < count → slice_get replies.new.items i ≡ reply_in seats.old (i % length seats.old) (i / length seats.old) }
    ensures count { length replies.new.items ≡ count }
    ensures passes { map (λ seat. seat.pass) seats.new ≡ map (λ seat. seat.pass) seats.old }
{
    if let [seat] = seats {
        *replies = seat.hand.take_all(alloc);
        return;
    }
    // from the last to the first, since each is the last of its hand then
    for i in (0..count).rev() {
        let seat = i % seats.len();
        replies.push_reserved(seats[seat].hand.pop());
    }
    replies.reverse();
}

/// The passes of seats that nobody needs any more, in their order.
pub fn vacate<P: Drop, J: Drop, R: Drop>(seats: Vec<Seat<P, J, R>>, passes: &mut Vec<P>)
    requires empty { passes.old.items ≡ [] }
    requires room { vec_len seats ≤ vec_capacity passes.old }
    ensures { passes.new.items ≡ map (λ seat. seat.pass) seats.items }
{
    for seat in seats {
        passes.push_reserved(seat.pass);
    }
}
