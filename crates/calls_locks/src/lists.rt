//! Lists of held accounts: taken in rising order, also by two threads, agreed and settled.

ghost use Rattle.std.specs.Prelude.{◌≡◌, ◌<◌, ◌≤◌, length};

use crate::locks::{Desk, is_alone, leg, opened, watched};
use acct_locks::{BookSides, Held, Loose, Name, Purses};
use corr_text::Memory;
use day_model::{AcctNo, Side};
use std::alloc::Global;
use std::marker::Brand;
use std::process::Abort;
use std::sync::atomic::AtomicBool;
use std::sync::{Mutex, Wait};
use std::test::*;
use std::thread::{Threads, join};
use std::time::Clock;

// The totals of accounts 1 to 3, after an agreement at the first take and the settling of two legs at the second.
fn settle_pair<N: Name>(
    rt: &impl Wait,
    alloc: Global,
    purses: &Purses<N>,
    mut sides: BookSides,
) -> Result<[(u64, u64); 3], Memory>
    requires { (purses.now ≡ 3) × (sides.table ≡ N.table) }
{
    let mut held = purses.hold_all(alloc, 3)?;
    held.take(rt, AcctNo(1));
    held.agree(&mut sides, AcctNo(1));
    held.take(rt, AcctNo(2));
    let before = [held.totals(AcctNo(1)), held.totals(AcctNo(2)), (0, 0)];
    if before != [(0, 25_000), (25_000, 0), (0, 0)] {
        held.give_back();
        return Ok(before);
    }
    let legs = [leg(1, Side::Debit, 700), leg(2, Side::Credit, 700)];
    held.settle(&mut sides, &legs);
    held.take(rt, AcctNo(3));
    held.agree(&mut sides, AcctNo(2));
    held.agree(&mut sides, AcctNo(3));
    let after = [
        held.totals(AcctNo(1)),
        held.totals(AcctNo(2)),
        held.totals(AcctNo(3)),
    ];
    held.give_back();
    Ok(after)
}

fn settled<N: Name + Send + Sync, R: Threads + Wait + Abort + Clock + Sync>(
    rt: &R,
    alloc: Global,
    loose: Loose,
    sides: BookSides,
) -> Result<(), Fail>
    requires { (loose.table ≡ N.table) × (sides.table ≡ N.table) × (length loose.purses ≡ 3) }
{
    let purses = loose.lock::<N>(alloc)?;
    let totals = watched(
        rt,
        || -> Result<[(u64, u64); 3], Memory>
            requires { (purses ≡ 3) × (sides.table ≡ N.table) }
        { settle_pair(rt, alloc, &purses, sides) },
    );
    assert_eq!(rt; totals?, [(0, 25_700), (25_700, 0), (0, 0)]);
    Ok(())
}

#[test]
fn legs_are_settled_on_a_list(rt: HostRuntime) -> Result<(), Fail> {
    let (loose, sides) = opened(&rt, rt.alloc())?;
    settled::<Brand, _>(&rt, rt.alloc(), loose, sides)
}

// How often each of two threads takes its accounts.
const ROUNDS: u32 = 1000;

// What two threads share: the sides, and whether one of them is inside account 2.
#[derive(Drop)]
struct Shared<N: Name> {
    desk: Mutex<Desk<N>>,
    inside: AtomicBool,
}

// Takes two accounts, of which one is account 2, and agrees, again and again: whether account 2 was this thread's alone each time,
// and nothing changed.
fn take_pairs<N: Name>(
    rt: &impl Wait,
    alloc: Global,
    purses: &Purses<N>,
    shared: &Shared<N>,
    low: AcctNo,
    high: AcctNo,
) -> Result<bool, Memory>
    requires { (0 < low.0) × (low.0 < high.0) × (high.0 ≤ purses.now) }
{
    for _ in 0..ROUNDS {
        let mut held = purses.hold_all(alloc, 2)?;
        held.take(rt, low);
        held.take(rt, high);
        let before = (held.totals(low), held.totals(high));
        let alone = is_alone(&shared.inside);
        shared.desk.lock(rt).agree(&mut held, low);
        shared.desk.lock(rt).agree(&mut held, high);
        let same = (held.totals(low), held.totals(high)) == before;
        held.give_back();
        if !alone || !same {
            return Ok(false);
        }
    }
    Ok(true)
}

// One thread takes accounts 1 and 2, another 2 and 3.
fn take_at_once<N: Name + Send + Sync, R: Threads + Wait + Sync>(
    rt: &R,
    alloc: Global,
    purses: &Purses<N>,
    shared: &Shared<N>,
) -> (Result<bool, Memory>, Result<bool, Memory>)
    requires { purses.now ≡ 3 }
{
    join(
        rt,
        || -> Result<bool, Memory>
            requires { purses.now ≡ 3 }
        { take_pairs(rt, alloc, purses, shared, AcctNo(1), AcctNo(2)) },
        || -> Result<bool, Memory>
            requires { purses.now ≡ 3 }
        { take_pairs(rt, alloc, purses, shared, AcctNo(2), AcctNo(3)) },
    )
}

fn in_two_threads<N: Name + Send + Sync, R: Threads + Wait + Abort + Clock + Sync>(
    rt: &R,
    alloc: Global,
    loose: Loose,
    sides: BookSides,
) -> Result<(), Fail>
    requires { (loose.table ≡ N.table) × (sides.table ≡ N.table) × (length loose.purses ≡ 3) }
{
    let purses = loose.lock::<N>(alloc)?;
    let shared = Shared {
        desk: Mutex::new(Desk::<N>::new(sides)),
        inside: AtomicBool::new(false),
    };
    let (one, two) = watched(
        rt,
        || -> (Result<bool, Memory>, Result<bool, Memory>)
            requires { purses ≡ 3 }
        { take_at_once(rt, alloc, &purses, &shared) },
    );
    let (one, two) = (one?, two?);
    assert!(rt; one && two);
    Ok(())
}

#[test]
fn two_threads_take_lists(rt: HostRuntime) -> Result<(), Fail> {
    let (loose, sides) = opened(&rt, rt.alloc())?;
    in_two_threads::<Brand, _>(&rt, rt.alloc(), loose, sides)
}
