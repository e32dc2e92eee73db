//! Workers: jobs are dealt out to passes in turn, each by a worker of its own.

ghost use Rattle.std.specs.Prelude.{◌≡◌, ◌≤◌};
ghost use Rattle.work_pool.specs.Served.{most_workers};

use corr_ids::Mir;
use std::alloc::Global;
use std::sync::Wait;
use std::sync::atomic::Ordering::SeqCst;
use std::sync::atomic::{AtomicBool, AtomicU32};
use std::test::*;
use std::thread::{Threads, yield_now};
use work_pool::{Desk, Gate, OpenGate, Worked, run_jobs};

// Writes each job after the digits of its pass. The reply is the worker's number and what the pass is then.
struct Digits;

impl Desk for Digits {
    type Pass = u64;

    type Job = u32;

    type Reply = (u32, u64);

    ghost takes = { λ _ _. Unit {0} };

    ghost serves = { λ _ _ _ after reply. reply.1 ≡ after };

    fn serve<R: Wait, G: Gate>(
        &self,
        _rt: &R,
        pass: &mut u64,
        worker: u32,
        job: &u32,
        gate: &G,
    ) -> (u32, u64) {
        gate.pass(worker, &Mir([0; 28]));
        *pass = pass.wrapping_mul(10).wrapping_add(u64::from(*job));
        (worker, *pass)
    }
}

// Serves the jobs 1, 2, .. with new passes, under this gate.
fn served_at<R: Wait + Threads + Sync, G: Gate + Sync>(
    rt: &R,
    alloc: Global,
    passes: usize,
    jobs: u32,
    gate: &G,
) -> Result<Worked<Digits>, Fail>
    requires { (1 ≤ passes) × (passes ≤ most_workers) }
{
    let passes = vec![in alloc; 0u64; passes]?;
    let mut all = Vec::new(alloc);
    for job in 0..jobs {
        all.push(job + 1)?;
    }
    Ok(run_jobs(rt, alloc, &Digits, passes, all, gate))
}

// The same under an open gate.
fn served<R: Wait + Threads + Sync>(
    rt: &R,
    alloc: Global,
    passes: usize,
    jobs: u32,
) -> Result<Worked<Digits>, Fail>
    requires { (1 ≤ passes) × (passes ≤ most_workers) }
{
    served_at(rt, alloc, passes, jobs, &OpenGate)
}

#[test]
fn jobs_go_to_workers_in_turn(rt: HostRuntime) -> Result<(), Fail> {
    let alloc = rt.alloc();
    let one = served(&rt, alloc, 1, 3)?;
    assert_eq!(rt; one.passes.as_slice(), [123].as_slice());
    assert_eq!(rt;
        one.replies?.as_slice(),
        [(1, 1), (1, 12), (1, 123)].as_slice()
    );
    let none = served(&rt, alloc, 4, 0)?;
    assert_eq!(rt; none.passes.as_slice(), [0, 0, 0, 0].as_slice());
    assert_eq!(rt; none.replies?.len(), 0);
    let alone = served(&rt, alloc, 4, 1)?;
    assert_eq!(rt; alone.passes.as_slice(), [1, 0, 0, 0].as_slice());
    assert_eq!(rt; alone.replies?.as_slice(), [(1, 1)].as_slice());
    let six = served(&rt, alloc, 4, 6)?;
    assert_eq!(rt; six.passes.as_slice(), [15, 26, 3, 4].as_slice());
    let replies = [(1, 1), (2, 2), (3, 3), (4, 4), (1, 15), (2, 26)];
    assert_eq!(rt; six.replies?.as_slice(), replies.as_slice());
    let many = served(&rt, alloc, 16, 3)?;
    let passes = [1, 2, 3, 0, 0, 0, 0, 0, 0, 0, 0, 0, 0, 0, 0, 0];
    assert_eq!(rt; many.passes.as_slice(), passes.as_slice());
    assert_eq!(rt;
        many.replies?.as_slice(),
        [(1, 1), (2, 2), (3, 3)].as_slice()
    );
    Ok(())
}

// Holds each worker until sixteen have come. Counts them, notes the number of each as a bit, and whether one waited in vain.
#[derive(Drop)]
struct FullGate {
    come: AtomicU32,
    numbers: AtomicU32,
    late: AtomicBool,
}

impl FullGate {
    // Waits for at most 1,000,000 turns, each of which yields; whether sixteen have come then.
    fn is_full(&self) -> bool {
        for _ in 0..1_000_000 {
            if self.come.load(SeqCst) >= 16 {
                return true;
            }
            yield_now();
        }
        false
    }
}

impl Gate for FullGate {
    fn pass(&self, worker: u32, _mir: &Mir) {
        self.numbers.fetch_or(1u32.wrapping_shl(worker), SeqCst);
        self.come.fetch_add(1, SeqCst);
        if !self.is_full() {
            self.late.store(true, SeqCst);
        }
    }
}

#[test]
fn sixteen_workers_are_at_the_gate_at_once(rt: HostRuntime) -> Result<(), Fail> {
    let gate = FullGate {
        come: AtomicU32::new(0),
        numbers: AtomicU32::new(0),
        late: AtomicBool::new(false),
    };
    let all = served_at(&rt, rt.alloc(), 16, 16, &gate)?;
    assert_eq!(rt; all.replies?.len(), 16);
    assert_eq!(rt; gate.come.load(SeqCst), 16);
    assert!(rt; !gate.late.load(SeqCst));
    // a bit for each number from 1 to 16
    assert_eq!(rt; gate.numbers.load(SeqCst), 0x1_fffe);
    Ok(())
}
