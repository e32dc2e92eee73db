//! What the workers of a core enter into.

ghost use Rattle.std.specs.Prelude.{◌≡◌, ◌<◌, true, false, length, IfOk, OnOk, OnErr, if◌then◌else◌};
ghost use Rattle.day_model.specs.Fit.{FitsAccounts};
ghost use Rattle.day_model.specs.Balance.{is_booked};
ghost use Rattle.day_model.specs.Legal.{IsLegal};
ghost use Rattle.day_model.specs.Log.{most_entries};
ghost use Rattle.day_model.specs.CoreLedger.{AreAtBalance, IsFirstLedger, IsSoundLedger, day_of_last, is_entered};
ghost use Rattle.day_model.specs.inner.CoreLedger.{CanAdd, CanAddAll};
ghost use Rattle.day_model.specs.CoreLedger.{ledger_after, mark_of, with_leg, with_legs};

use crate::account::AcctNo;
use crate::account_totals::{balance_with, totals};
use crate::accounts::Accounts;
use crate::core_job::Mark;
use crate::entry::{Entry, Outcome};
use crate::funds::{after_leg, decide};
use crate::history::{History, MOST_ENTRIES};
use crate::pay::{Leg, Pay};
use corr_ids::Day;
use corr_text::Memory;
use std::alloc::Global;
use std::marker::Model;

const FIRST_DAY: Day = Day(3652);

/// Accounts, their history, a purse per account that holds its balance, and whether a fault came.
#[derive(Debug, Drop)]
pub(crate) struct Ledger {
    accounts: Accounts,
    history: History,
    day: Day,
    purses: Vec<i64>,
    broken: bool,
}

fn add_leg(purses: &mut Vec<i64>, leg: &Leg)
    requires { CanAdd purses.old.items leg.now }
    ensures { purses.new.items ≡ with_leg purses.old.items leg.now }
{
    let at = leg.account.0 as usize - 1;
    purses[at] = after_leg(purses[at], leg);
}

fn add_legs(purses: &mut Vec<i64>, legs: &[Leg])
    requires { CanAddAll purses.old.items legs.now }
    ensures { purses.new.items ≡ with_legs purses.old.items legs.now }
{
    for leg in legs {
        add_leg(purses, leg);
    }
}

fn books(outcome: Outcome) -> bool
    ensures { result ≡ is_booked outcome }
{
    match outcome {
        Outcome::Booked => true,
        Outcome::Unfunded { .. } => false,
    }
}

/// Adds the legs of a booked pay to the purses.
fn settle(purses: &mut Vec<i64>, outcome: Outcome, legs: &[Leg])
    requires { CanAddAll purses.old.items legs.now }
    ensures { purses.new.items ≡ (if is_booked outcome then with_legs purses.old.items legs.now else purses.old.items) }
{
    if books(outcome) {
        add_legs(purses, legs);
    }
}

/// Each account's balance after a history.
fn balances(alloc: Global, a: &Accounts, h: &History) -> Result<Vec<i64>, Memory>
    requires { IsLegal a.now h.now.entries }
    ensures { IfOk result (λ purses. AreAtBalance a.now h.now.entries purses.items) }
{
    let pairs = totals(alloc, a, h)?;
    let mut purses = Vec::new(alloc);
    for at in 0..a.count() {
        let account = a.get(AcctNo(at + 1));
        purses.push(balance_with(account, pairs[at as usize]))?;
    }
    Ok(purses)
}

fn last_day(h: &History) -> Day
    ensures { result ≡ day_of_last h.now.entries }
{
    match h.entries().last() {
        Some(entry) => entry.day,
        None => FIRST_DAY,
    }
}

impl Model for Ledger {
    ghost use Rattle.day_model.specs.CoreLedger.{LedgerState};

    ghost Value = { LedgerState };

    ghost view = { λ l. record { chart = l.accounts; day = l.day; entries = l.history.entries; purses = l.purses.items; broken = l.broken } };
}

impl Ledger {
    pub(crate) fn new(alloc: Global, a: Accounts, h: History) -> Result<Ledger, Memory>
        requires { IsLegal a h.entries }
        ensures first { IfOk result (IsFirstLedger a h.entries) }
        ensures sound { IfOk result IsSoundLedger }
    {
        let purses = balances(alloc, &a, &h)?;
        Ok(Ledger {
            day: last_day(&h),
            accounts: a,
            history: h,
            purses,
            broken: false,
        })
    }

    pub(crate) fn accounts(&self) -> &Accounts
        ensures { result.now ≡ self.now.chart }
    {
        &self.accounts
    }

    pub(crate) fn history(&self) -> &History
        ensures { result.now.entries ≡ self.now.entries }
    {
        &self.history
    }

    /// Nothing is entered any more.
    pub(crate) fn fail(&mut self)
        ensures { self.new ≡ record self.old { broken = true } }
    {
        self.broken = true;
    }

    /// Adds a pay's entry, and its legs to the purses where it is booked.
    fn add(&mut self, alloc: Global, pay: &Pay) -> Result<(), Memory>
        requires sound { IsSoundLedger self.old }
        requires fits { FitsAccounts self.old.chart pay.now }
        requires new { is_entered self.old pay.now ≡ false }
        requires room { length self.old.entries < most_entries }
        requires whole { self.old.broken ≡ false }
        ensures ok { OnOk result (self.new ≡ ledger_after self.old pay.now) }
        ensures err { OnErr result (self.new ≡ self.old) }
    {
        let outcome = decide(&self.accounts, &self.history, pay);
        let entry = Entry {
            pay: pay.copy(alloc)?,
            day: self.day,
            outcome,
        };
        self.history.push(entry)?;
        settle(&mut self.purses, outcome, pay.legs.as_slice());
        Ok(())
    }

    /// Enters a pay, unless a fault came or a new reference finds the history full.
    pub(crate) fn enter(&mut self, alloc: Global, pay: &Pay) -> Result<Mark, Memory>
        requires sound { IsSoundLedger self.old }
        requires fits { FitsAccounts self.old.chart pay.now }
        ensures mark { IfOk result (λ mark. mark ≡ mark_of self.old pay.now) }
        ensures ok { OnOk result (self.new ≡ ledger_after self.old pay.now) }
        ensures err { OnErr result (self.new ≡ self.old) }
    {
        if self.broken {
            return Ok(Mark::Refused);
        }
        if self.history.find(&pay.mir).is_some() {
            return Ok(Mark::Entered);
        }
        if self.history.len() == MOST_ENTRIES {
            return Ok(Mark::Refused);
        }
        self.add(alloc, pay)?;
        Ok(Mark::Entered)
    }
}
