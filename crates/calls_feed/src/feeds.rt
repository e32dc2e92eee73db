//! Workers over a feed: jobs are served as they come, each once, and answered in the order of the feed.

ghost use Rattle.std.specs.Prelude.{◌≡◌, ◌≤◌};
ghost use Rattle.work_pool.specs.Fed.{most_depth};
ghost use Rattle.work_pool.specs.Served.{most_workers};

use corr_ids::Mir;
use std::alloc::Global;
use std::sync::Wait;
use std::sync::atomic::Ordering::SeqCst;
use std::sync::atomic::{AtomicBool, AtomicU32};
use std::test::*;
use std::thread::{Threads, yield_now};
use work_pool::{Desk, Feed, Gate, OpenGate, Streamed, run_feed};

// Gives the numbers from 1 to `last`, the first one after some turns, each of which yields.
#[derive(Drop)]
struct Numbers {
    turns: u32,
    given: u32,
    last: u32,
    over: bool,
}

impl Feed for Numbers {
    ghost use Rattle.calls_feed.specs.inner.Feeds.{up_to};

    type Job = u32;

    ghost given = { λ f. up_to f.given };

    ghost ended = { λ f. f.over };

    fn next(&mut self) -> Option<u32> {
        if self.given == 0 {
            for _ in 0..self.turns {
                yield_now();
            }
        }
        if self.given >= self.last {
            self.over = true;
            return None;
        }
        self.given += 1;
        Some(self.given)
    }
}

// Counts the jobs of each pass, and adds them up. The reply is the worker's number and the job.
struct Adding;

impl Desk for Adding {
    type Pass = (u32, u64);

    type Job = u32;

    type Reply = (u32, u32);

    ghost takes = { λ _ _. Unit {0} };

    ghost serves = { λ _ _ job _ reply. reply.1 ≡ job };

    fn serve<R: Wait, G: Gate>(
        &self,
        _rt: &R,
        pass: &mut (u32, u64),
        worker: u32,
        job: &u32,
        gate: &G,
    ) -> (u32, u32) {
        gate.pass(worker, &Mir([0; 28]));
        pass.0 = pass.0.wrapping_add(1);
        pass.1 = pass.1.wrapping_mul(10).wrapping_add(u64::from(*job));
        (worker, *job)
    }
}

// Serves the jobs 1, 2, .. with new passes, in a line of this depth, under this gate; the first one comes after so many turns.
fn served_at<R: Wait + Threads + Sync, G: Gate + Sync>(
    rt: &R,
    alloc: Global,
    passes: usize,
    jobs: u32,
    depth: u32,
    turns: u32,
    gate: &G,
) -> Result<Streamed<Adding, Numbers>, Fail>
    requires passes { (1 ≤ passes) × (passes ≤ most_workers) }
    requires depth { (1 ≤ depth) × (depth ≤ most_depth) }
{
    let passes = vec![in alloc; (0u32, 0u64); passes]?;
    let feed = Numbers {
        turns,
        given: 0,
        last: jobs,
        over: false,
    };
    Ok(run_feed(rt, alloc, &Adding, passes, feed, depth, gate))
}

// Whether all these jobs were served once, and answered in their order, by as many passes.
fn is_whole<R: Wait + Threads + Sync>(
    rt: &R,
    alloc: Global,
    passes: usize,
    jobs: u32,
    depth: u32,
) -> Result<bool, Fail>
    requires passes { (1 ≤ passes) × (passes ≤ most_workers) }
    requires depth { (1 ≤ depth) × (depth ≤ most_depth) }
{
    let done = served_at(rt, alloc, passes, jobs, depth, 0, &OpenGate)?;
    let mut next = 0u32;
    for reply in done.replies? {
        next = next.wrapping_add(1);
        if reply.1 != next {
            return Ok(false);
        }
    }
    let mut served = 0u32;
    for pass in &done.passes {
        served = served.wrapping_add(pass.0);
    }
    Ok(next == jobs && served == jobs && done.feed.over && done.passes.len() == passes)
}

#[test]
fn each_job_is_served_once_and_answered_in_order(rt: HostRuntime) -> Result<(), Fail> {
    let alloc = rt.alloc();
    assert!(rt; is_whole(&rt, alloc, 1, 0, 64)?);
    assert!(rt; is_whole(&rt, alloc, 16, 0, 1)?);
    assert!(rt; is_whole(&rt, alloc, 1, 1, 1)?);
    assert!(rt; is_whole(&rt, alloc, 4, 1, 64)?);
    assert!(rt; is_whole(&rt, alloc, 1, 1_000, 1)?);
    assert!(rt; is_whole(&rt, alloc, 1, 1_000, 64)?);
    assert!(rt; is_whole(&rt, alloc, 4, 1_000, 1)?);
    assert!(rt; is_whole(&rt, alloc, 4, 1_000, 64)?);
    assert!(rt; is_whole(&rt, alloc, 16, 1_000, 1)?);
    assert!(rt; is_whole(&rt, alloc, 16, 1_000, 1_024)?);
    Ok(())
}

#[test]
fn one_pass_serves_in_the_order_of_the_feed(rt: HostRuntime) -> Result<(), Fail> {
    let alloc = rt.alloc();
    let shallow = served_at(&rt, alloc, 1, 9, 1, 0, &OpenGate)?;
    assert_eq!(rt; shallow.replies?.len(), 9);
    assert_eq!(rt; shallow.passes.as_slice(), [(9, 123_456_789)].as_slice());
    let deep = served_at(&rt, alloc, 1, 9, 64, 0, &OpenGate)?;
    assert_eq!(rt; deep.replies?.len(), 9);
    assert_eq!(rt; deep.passes.as_slice(), [(9, 123_456_789)].as_slice());
    let replies = [(1, 1), (1, 2), (1, 3)];
    let three = served_at(&rt, alloc, 1, 3, 2, 0, &OpenGate)?;
    assert_eq!(rt; three.replies?.as_slice(), replies.as_slice());
    Ok(())
}

// Holds each worker until sixteen have come. Counts them, notes the number of each as a bit, and whether one waited in vain.
#[derive(Drop)]
struct FullGate {
    come: AtomicU32,
    numbers: AtomicU32,
    late: AtomicBool,
}

impl FullGate {
    // Waits for at most 1,000,000 turns, each of which yields; whether sixteen have come then.
    fn is_full(&self) -> bool {
        for _ in 0..1_000_000 {
            if self.come.load(SeqCst) >= 16 {
                return true;
            }
            yield_now();
        }
        false
    }
}

impl Gate for FullGate {
    fn pass(&self, worker: u32, _mir: &Mir) {
        self.numbers.fetch_or(1u32.wrapping_shl(worker), SeqCst);
        self.come.fetch_add(1, SeqCst);
        if !self.is_full() {
            self.late.store(true, SeqCst);
        }
    }
}

// The workers look at an empty line for a while before the first job comes.
#[test]
fn sixteen_workers_are_at_the_gate_at_once(rt: HostRuntime) -> Result<(), Fail> {
    let gate = FullGate {
        come: AtomicU32::new(0),
        numbers: AtomicU32::new(0),
        late: AtomicBool::new(false),
    };
    let all = served_at(&rt, rt.alloc(), 16, 16, 16, 100_000, &gate)?;
    assert_eq!(rt; all.replies?.len(), 16);
    assert_eq!(rt; gate.come.load(SeqCst), 16);
    assert!(rt; !gate.late.load(SeqCst));
    // a bit for each number from 1 to 16
    assert_eq!(rt; gate.numbers.load(SeqCst), 0x1_fffe);
    Ok(())
}
