//! Jobs are dealt out, and workers seated.

ghost use Rattle.std.specs.Prelude.{◌≡◌, ◌<◌, ◌≤◌, [], IfOk, map, vec_len, vec_capacity};
ghost use Rattle.work_pool.specs.Served.{most_workers};
ghost use Rattle.work_pool.specs.inner.Tasks.{AreInHands, AreInLists, AreSeated};

use crate::hand::Hand;
use crate::seat::Seat;
use corr_text::Memory;
use std::alloc::Global;

/// Deals the jobs out in turn to so many hands, the first job to the first hand.
pub fn deal<J: Drop, R: Drop>(
    alloc: Global,
    count: usize,
    jobs: Vec<J>,
) -> Result<Vec<Hand<J, R>>, Memory>
    requires { 0 < count }
    ensures { IfOk result (λ hands. AreInHands count jobs.items hands.items) }
{
    let mut hands = Vec::with_capacity(alloc, count)?;
    for jobs in deal_lists(alloc, count, jobs)? {
        hands.push_reserved(Hand::of(alloc, jobs)?);
    }
    Ok(hands)
}

/// Deals the jobs out in turn into so many lists. A single list has them all where they are.
fn deal_lists<J: Drop>(alloc: Global, count: usize, jobs: Vec<J>) -> Result<Vec<Vec<J>>, Memory>
    requires { 0 < count }
    ensures { IfOk result (λ lists. AreInLists count jobs.items (map (λ list. list.items) lists.items)) }
{
    if count == 1 {
        let mut lists = Vec::with_capacity(alloc, 1)?;
        lists.push_reserved(jobs);
        return Ok(lists);
    }
    let most = (jobs.len() / count).saturating_add(1);
    let mut lists = empty_lists(alloc, count, most)?;
    let mut dealt = 0;
    for job in jobs {
        lists[dealt % count].push(job)?;
        dealt += 1;
    }
    Ok(lists)
}

// So many lists without a job, each with room for `most`.
fn empty_lists<J: Drop>(alloc: Global, count: usize, most: usize) -> Result<Vec<Vec<J>>, Memory>
    ensures { IfOk result (λ lists. AreInLists count [] (map (λ list. list.items) lists.items)) }
{
    let mut lists = Vec::with_capacity(alloc, count)?;
    for _ in 0..count {
        lists.push_reserved(Vec::with_capacity(alloc, most)?);
    }
    Ok(lists)
}

/// Seats a worker with each pass and the hand at the same place.
pub fn seat_all<P: Drop, J: Drop, R: Drop>(
    seats: &mut Vec<Seat<P, J, R>>,
    passes: Vec<P>,
    hands: Vec<Hand<J, R>>,
)
    requires empty { seats.old.items ≡ [] }
    requires room { vec_len passes ≤ vec_capacity seats.old }
    requires hands { vec_len hands ≡ vec_len passes }
    requires few { vec_len passes ≤ most_workers }
    ensures { AreSeated passes.items hands.items seats.new.items }
{
    let mut hands = hands.into_iter();
    for pass in passes {
        let worker = seats.len() as u32 + 1;
        let Some(hand) = hands.next() else {
            unreachable!()
        };
        seats.push_reserved(Seat { worker, pass, hand });
    }
}
