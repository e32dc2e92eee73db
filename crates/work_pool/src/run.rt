//! Runs workers over jobs.

ghost use Rattle.std.specs.Prelude.{◌≡◌, ◌<◌, ◌≤◌, length, map, IfOk, OnErr, vec_len};
ghost use Rattle.work_pool.specs.Served.{AllTaken, AreServed, most_workers};
ghost use Rattle.work_pool.specs.inner.Tasks.{ServedHand, ServedSeats};

use crate::collecting::{collect, vacate};
use crate::dealing::seat_all;
use crate::desk::Desk;
use crate::gate::Gate;
use crate::hand::serve_hand;
use crate::room::{Room, make_room};
use crate::seat::Seat;
use crate::worked::Worked;
use std::alloc::Global;
use std::sync::Wait;
use std::thread;
use std::thread::Threads;

// The hand of each seat is served, by a thread of its own.
fn serve_seats<K: Desk + Sync, G: Gate + Sync, R: Wait + Threads + Sync>(
    rt: &R,
    desk: &K,
    gate: &G,
    seats: &mut [Seat<K::Pass, K::Job, K::Reply>],
)
    requires some { 0 < length seats.old }
    requires taken { AllTaken (K.takes desk.now) (map (λ seat. seat.pass) seats.old) }
    ensures taken { AllTaken (K.takes desk.now) (map (λ seat. seat.pass) seats.new) }
    ensures served { ServedSeats (K.serves desk.now) seats.old seats.new }
{
    let threads = seats.len();
    let one = move |_: usize, seat: &mut Seat<K::Pass, K::Job, K::Reply>|
        requires { K.takes desk.now seat.now.pass }
        ensures taken { K.takes desk.entry.now seat.exit.now.pass }
        ensures served { ServedHand (K.serves desk.entry.now) seat.entry.now.pass seat.entry.now.hand seat.exit.now.pass seat.exit.now.hand }
    { serve_hand(rt, desk, gate, seat.worker, &mut seat.pass, &mut seat.hand) };
    thread::for_each_mut(rt, seats, threads, &one);
}

/// Serves each job once. Each pass has a worker, and a thread of its own where one can be made; job n goes to the pass at place
/// (n - 1) mod passes + 1. Returns once all jobs were served.
///
/// There are 1 to 16 passes, all of which the desk takes, before and after. `Memory` comes before any job is served.
pub fn run_jobs<K: Desk + Sync, G: Gate + Sync, R: Wait + Threads + Sync>(
    rt: &R,
    alloc: Global,
    desk: &K,
    passes: Vec<K::Pass>,
    jobs: Vec<K::Job>,
    gate: &G,
) -> Worked<K>
    requires passes { (1 ≤ vec_len passes) × (vec_len passes ≤ most_workers) }
    requires taken { AllTaken (K.takes desk.now) passes.items }
    ensures served { IfOk result.replies (λ replies. AreServed (K.serves desk.now) passes.items jobs.items result.passes.items replies.items) }
    ensures none { OnErr result.replies (result.passes.items ≡ passes.items) }
    ensures taken { AllTaken (K.takes desk.now) result.passes.items }
{
    let workers = passes.len();
    let count = jobs.len();
    let Room {
        hands,
        mut seats,
        passes: mut back,
        mut replies,
    } = match make_room(alloc, workers, jobs) {
        Ok(room) => room,
        Err(memory) => {
            return Worked {
                passes,
                replies: Err(memory),
            };
        }
    };
    seat_all(&mut seats, passes, hands);
    let all = seats.as_mut_slice();
    serve_seats(rt, desk, gate, all);
    collect(alloc, all, count, &mut replies);
    vacate(seats, &mut back);
    Worked {
        passes: back,
        replies: Ok(replies),
    }
}
