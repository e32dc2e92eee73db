//! Workers that enter pays into one history, as a machine that takes one event after another.

ghost use Rattle.std.specs.Prelude.{◌≡◌, ◌≤◌, ◌↔◌, ◌&&◌, ℕ, Some, IfOk, OnOk, OnErr, IfSome, IsNone};
ghost use Rattle.day_model.specs.Legal.{IsLegal};
ghost use Rattle.day_model.specs.Fit.{legs_fit};
ghost use Rattle.day_model.specs.CoreStep.{is_idle, step_of, worker_at};
ghost use Rattle.day_model.specs.CoreSound.{AllIdle, FaultFreezes, HasHeld, IsFirstState, MayGoOn, RunsAreKept};

use crate::account::AcctNo;
use crate::accounts::Accounts;
use crate::core_event::Event;
use crate::core_job::{
    Job, can_give_back, can_take, hold, holder, idle_workers, idles, job_of, put, set_mark,
};
use crate::core_ledger::Ledger;
use crate::core_ready::first_ready;
use crate::history::History;
use crate::pay::Pay;
use corr_text::Memory;
use std::alloc::Global;
use std::marker::Model;

/// Workers that enter pays into the history of some accounts. Each holds the accounts of its pay while it enters it.
///
/// It enters with one day, that of the history's last entry, or 1980-01-01 where there is none.
#[derive(Drop)]
pub struct Core {
    alloc: Global,
    ledger: Ledger,
    workers: Vec<Option<Job>>,
}

impl Model for Core {
    ghost use Rattle.day_model.specs.CoreStep.{CoreState};
    ghost use Rattle.day_model.specs.CoreSound.{IsSound};

    ghost Value = { CoreState };

    ghost view = { λ c. record { ledger = c.ledger; workers = c.workers.items } };

    ghost invariant = { λ c. IsSound (record { ledger = c.ledger; workers = c.workers.items }) };
}

fn can_draw(ledger: &Ledger, workers: &[Option<Job>], worker: u32, pay: &Pay) -> bool
    ensures { result ≡ (is_idle (worker_at workers.now worker) && legs_fit ledger.now.chart pay.now.legs) }
{
    idles(workers, worker) && ledger.accounts().fits(pay)
}

impl Core {
    /// The core of a history that is legal for the accounts: its workers, numbered from 1, have no job.
    pub fn new(alloc: Global, a: Accounts, h: History, workers: u32) -> Result<Core, Memory>
        requires { IsLegal a h.entries }
        ensures first { IfOk result (IsFirstState a h.entries workers) }
        ensures runs { IfOk result RunsAreKept }
    {
        Ok(Core {
            alloc,
            ledger: Ledger::new(alloc, a, h)?,
            workers: idle_workers(alloc, workers)?,
        })
    }

    fn draw(&mut self, worker: u32, pay: Pay)
        ensures { self.new ≡ step_of self.old (Event.Draw worker pay) }
    {
        if can_draw(&self.ledger, &self.workers, worker, &pay) {
            put(&mut self.workers, worker, Some(Job::new(self.alloc, pay)));
        }
    }

    fn take(&mut self, worker: u32, account: AcctNo) -> Result<(), Memory>
        ensures ok { OnOk result (self.new ≡ step_of self.old (Event.Take worker account)) }
        ensures err { OnErr result (self.new ≡ self.old) }
    {
        if can_take(&self.workers, worker, account.0) {
            hold(&mut self.workers, worker, account)?;
        }
        Ok(())
    }

    fn commit(&mut self, worker: u32) -> Result<(), Memory>
        ensures ok { OnOk result (self.new ≡ step_of self.old (Event.Commit worker)) }
        ensures err { OnErr result (self.new ≡ self.old) }
    {
        let Some(job) = job_of(&self.workers, worker) else {
            return Ok(());
        };
        if !job.is_whole() {
            return Ok(());
        }
        let mark = self.ledger.enter(self.alloc, &job.pay)?;
        set_mark(&mut self.workers, worker, mark);
        Ok(())
    }

    fn give_back(&mut self, worker: u32)
        ensures { self.new ≡ step_of self.old (Event.GiveBack worker) }
    {
        if can_give_back(&self.workers, worker) {
            put(&mut self.workers, worker, None);
        }
    }

    fn fail(&mut self)
        ensures { self.new ≡ step_of self.old Event.Fault }
    {
        self.ledger.fail();
    }

    fn apply(&mut self, e: Event) -> Result<(), Memory>
        ensures ok { OnOk result (self.new ≡ step_of self.old e) }
        ensures err { OnErr result (self.new ≡ self.old) }
    {
        match e {
            Event::Draw { worker, pay } => self.draw(worker, pay),
            Event::Take { worker, account } => self.take(worker, account)?,
            Event::Commit { worker } => self.commit(worker)?,
            Event::GiveBack { worker } => self.give_back(worker),
            Event::Fault => self.fail(),
        }
        Ok(())
    }

    /// Takes one event. One that isn't allowed changes nothing, nor does one for which memory runs out.
    ///
    /// Whatever events follow, in whatever order, the history stays legal and begins as before, purses are at their
    /// balances, no two workers hold one account, and some worker may go on where one has a job.
    pub fn step(&mut self, e: Event) -> Result<(), Memory>
        ensures ok { OnOk result (self.new ≡ step_of self.old e) }
        ensures err { OnErr result (self.new ≡ self.old) }
        ensures runs { RunsAreKept self.old }
        ensures frozen { FaultFreezes self.old }
    {
        // A look at a field tells the contract what every core keeps.
        let _ = &self.workers;
        self.apply(e)
    }

    /// The least worker to which a Take, a Commit or a GiveBack is allowed; none exactly where every worker is idle.
    pub fn ready(&self) -> Option<u32>
        ensures ready { IfSome result (MayGoOn self.now) }
        ensures least { IfSome result (λ worker. (w : ℕ) → MayGoOn self.now w → worker ≤ w) }
        ensures none { IsNone result ↔ AllIdle self.now.workers }
    {
        let at = first_ready(&self.workers)?;
        Some(at as u32 + 1)
    }

    /// The entries so far.
    pub fn history(&self) -> &History
        ensures entries { result.now.entries ≡ self.now.ledger.entries }
        ensures legal { IsLegal self.now.ledger.chart result.now.entries }
    {
        self.ledger.history()
    }

    /// The number of the worker that holds this account; none exactly where nobody does.
    pub fn holder(&self, n: AcctNo) -> Option<u32>
        ensures holds { IfSome result (λ worker. HasHeld self.now.workers worker n.0) }
        ensures only { (worker : ℕ) → HasHeld self.now.workers worker n.0 → result ≡ Some worker }
    {
        holder(&self.workers, n.0)
    }
}
