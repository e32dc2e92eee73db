//! The jobs of a core's workers.

ghost use Rattle.std.specs.Prelude.{◌≡◌, ◌<◌, ◌≤◌, ◌^◌, [], Some, length, OnOk, OnErr, IfOk};
ghost use Rattle.std.specs.Option.{option_copied};
ghost use Rattle.std.specs.List.{position_from};
ghost use Rattle.day_model.specs.CoreSound.{AllIdle};
ghost use Rattle.day_model.specs.CoreStep.{also_holding, drawn, has_held, holder_of, holds, is_idle, job_at, least_unheld, lesser};
ghost use Rattle.day_model.specs.CoreStep.{marked, may_commit, may_give_back, may_take, wanted_by, with_job, with_worker, worker_at};

use crate::account::AcctNo;
use crate::pay::{Leg, Pay};
use corr_text::{List, Memory};
use std::alloc::Global;

/// What a Commit did with a job: its reference is in the history, or it could not enter any more.
#[derive(Clone, Copy, Debug, PartialEq, Eq)]
pub(crate) enum Mark {
    Entered,
    Refused,
}

/// A pay that a worker has drawn, the accounts that it holds for it, and what a Commit did with it.
#[derive(Debug, Drop)]
pub(crate) struct Job {
    pub pay: Pay,
    pub held: List<AcctNo>,
    pub mark: Option<Mark>,
}

fn the_lesser(n: u32, least: Option<u32>) -> u32
    ensures { result ≡ lesser n least }
{
    match least {
        Some(m) => { if m < n { m } else { n } }
        None => n,
    }
}

fn least_of(job: &Job, legs: &[Leg]) -> Option<u32>
    ensures { result ≡ least_unheld job.now legs.now }
{
    match legs {
        [] => None,
        [leg, others @ ..] => {
            let least = least_of(job, others);
            if job.holds(leg.account.0) {
                least
            } else {
                Some(the_lesser(leg.account.0, least))
            }
        }
    }
}

impl Job {
    pub(crate) fn new(alloc: Global, pay: Pay) -> Job
        ensures { result ≡ drawn pay }
    {
        Job {
            pay,
            held: List::new(alloc),
            mark: None,
        }
    }

    pub(crate) fn holds(&self, n: u32) -> bool
        ensures { result ≡ holds self.now n }
    {
        self.held.as_slice().iter().any(|account| account.0 == n)
    }

    /// The account that it must take next.
    pub(crate) fn wanted(&self) -> Option<u32>
        ensures { result ≡ wanted_by self.now }
    {
        least_of(self, self.pay.legs.as_slice())
    }

    /// Whether it holds all its accounts and has not been committed.
    pub(crate) fn is_whole(&self) -> bool
        ensures { result ≡ may_commit (Some self.now) }
    {
        self.wanted().is_none() && self.mark.is_none()
    }

    fn hold(&mut self, account: AcctNo) -> Result<(), Memory>
        ensures ok { OnOk result (self.new ≡ also_holding account self.old) }
        ensures err { OnErr result (self.new ≡ self.old) }
    {
        self.held.push(account)
    }
}

fn has_account(worker: &Option<Job>, n: u32) -> bool
    ensures { result ≡ has_held n worker.now }
{
    match worker {
        Some(job) => job.holds(n),
        None => false,
    }
}

fn first_with(workers: &[Option<Job>], n: u32) -> Option<usize>
    ensures { result ≡ position_from (has_held n) 0 workers.now }
{
    workers.iter().position(|worker| has_account(worker, n))
}

/// The number of the worker that holds an account.
pub(crate) fn holder(workers: &[Option<Job>], n: u32) -> Option<u32>
    requires { length workers.now < 2 ^ 32 }
    ensures { result ≡ holder_of workers.now n }
{
    let at = first_with(workers, n)?;
    Some(at as u32 + 1)
}

/// The job of a worker.
pub(crate) fn job_of(workers: &[Option<Job>], worker: u32) -> Option<&Job>
    ensures { option_copied result ≡ job_at workers.now worker }
{
    if worker == 0 {
        return None;
    }
    match workers.get(worker as usize - 1) {
        Some(Some(job)) => Some(job),
        _ => None,
    }
}

/// Whether there is a worker of this number, and it has no job.
pub(crate) fn idles(workers: &[Option<Job>], worker: u32) -> bool
    ensures { result ≡ is_idle (worker_at workers.now worker) }
{
    if worker == 0 {
        return false;
    }
    match workers.get(worker as usize - 1) {
        Some(None) => true,
        _ => false,
    }
}

/// Whether an account is the next one that a worker must take, and nobody holds it.
pub(crate) fn can_take(workers: &[Option<Job>], worker: u32, n: u32) -> bool
    requires { length workers.now < 2 ^ 32 }
    ensures { result ≡ may_take workers.now n (job_at workers.now worker) }
{
    match job_of(workers, worker) {
        Some(job) => job.wanted() == Some(n) && holder(workers, n).is_none(),
        None => false,
    }
}

/// The job holds an account more.
pub(crate) fn hold(
    workers: &mut Vec<Option<Job>>,
    worker: u32,
    account: AcctNo,
) -> Result<(), Memory>
    requires from_one { 1 ≤ worker }
    requires there { worker ≤ length workers.old.items }
    ensures ok { OnOk result (workers.new.items ≡ with_job workers.old.items worker (also_holding account)) }
    ensures err { OnErr result (workers.new.items ≡ workers.old.items) }
{
    match &mut workers[worker as usize - 1] {
        Some(job) => job.hold(account),
        None => Ok(()),
    }
}

/// The job has been committed.
pub(crate) fn set_mark(workers: &mut Vec<Option<Job>>, worker: u32, mark: Mark)
    requires from_one { 1 ≤ worker }
    requires there { worker ≤ length workers.old.items }
    ensures { workers.new.items ≡ with_job workers.old.items worker (marked mark) }
{
    if let Some(job) = &mut workers[worker as usize - 1] {
        job.mark = Some(mark);
    }
}

/// The worker has this job from now on, or none.
pub(crate) fn put(workers: &mut Vec<Option<Job>>, worker: u32, job: Option<Job>)
    requires from_one { 1 ≤ worker }
    requires there { worker ≤ length workers.old.items }
    ensures { workers.new.items ≡ with_worker workers.old.items worker job }
{
    workers[worker as usize - 1] = job;
}

/// Workers without a job.
pub(crate) fn idle_workers(alloc: Global, count: u32) -> Result<Vec<Option<Job>>, Memory>
    ensures count { IfOk result (λ workers. length workers.items ≡ count) }
    ensures idle { IfOk result (λ workers. AllIdle workers.items) }
{
    let mut workers = Vec::new(alloc);
    for _ in 0..count {
        workers.push(None)?;
    }
    Ok(workers)
}

/// Whether a worker's job has been committed.
pub(crate) fn can_give_back(workers: &[Option<Job>], worker: u32) -> bool
    ensures { result ≡ may_give_back (job_at workers.now worker) }
{
    match job_of(workers, worker) {
        Some(job) => job.mark.is_some(),
        None => false,
    }
}
