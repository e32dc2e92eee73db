//! What an index keeps of an account.

ghost use Rattle.std.specs.Prelude.{◌≡◌, ◌<◌, ◌≤◌, ◌-◌, ◌+ℤ◌, pos, true, false, [], drop, length, take, All, IfOk, OnErr, OnOk};
ghost use Rattle.std.specs.List.Sorted.{IsPartitionPoint};
ghost use Rattle.corr_money.specs.Amounts.{amount_end};
ghost use Rattle.day_model.specs.Balance.{changed};
ghost use Rattle.day_model.specs.Chart.{IsSmall, HasCode};
ghost use Rattle.corr_ids.specs.Day.{InCentury};
ghost use Rattle.statement.specs.Index.{ledger_with};
ghost use Rattle.statement.specs.inner.Index.{IsOnOneOf, Rise, balance_at, changed_at, is_of_earlier_day, last_balance, on_day, pushed, pushed_each, undone};

use crate::movement::{Movement, Movements, balance_after};
use corr_ids::{Bic, Day};
use corr_money::Ccy;
use corr_text::{List, Memory, Text};
use day_model::{Account, AcctNo, Leg, Side};
use std::alloc::Global;

/// An account with its movements, whose days never fall. `opening` is the balance before the first of them, in minor units,
/// credits positive.
#[derive(Debug, Drop)]
pub struct Ledger {
    pub id: Text,
    pub kind: u8,
    pub owner: Bic,
    pub ccy: Ccy,
    pub decimals: u8,
    pub opening: i64,
    pub movements: Movements,
}

/// A movement, and the account that it is on.
#[derive(Debug, Drop)]
pub struct Booking {
    pub account: AcctNo,
    pub movement: Movement,
}

impl Ledger {
    /// An account that has no movement yet.
    pub fn new(alloc: Global, account: &Account) -> Result<Ledger, Memory>
        ensures value { IfOk result (λ ledger. ledger ≡ ledger_with account.now []) }
        ensures code { OnOk result (HasCode account.now) }
    {
        let code: &[u8] = &account.ccy.0;
        prove!(code.len() == 3);
        Ok(Ledger {
            id: account.id.copy(alloc)?,
            kind: account.kind,
            owner: account.owner,
            ccy: account.ccy,
            decimals: account.decimals,
            opening: account.opening,
            movements: Movements::new(alloc),
        })
    }

    /// The balance after all movements and a leg.
    pub fn balance_with(&self, leg: &Leg) -> i64
        requires balance { IsSmall (last_balance self.now.opening self.now.movements) }
        requires amount { leg.now.amount.0 < amount_end }
        ensures { result ≡ changed leg.now.side leg.now.amount.0 (last_balance self.now.opening self.now.movements) }
    {
        let balance = balance_after(self.opening, self.movements.as_slice());
        match leg.side {
            Side::Credit => balance + leg.amount.0 as i64,
            Side::Debit => balance - leg.amount.0 as i64,
        }
    }

    /// How many movements are of days before this one.
    fn earlier(&self, day: Day) -> usize
        requires { Rise self.now.movements }
        ensures bound { result ≤ length self.now.movements }
        ensures parted { IsPartitionPoint (λ m. is_of_earlier_day day.0 m ≡ true) (λ m. is_of_earlier_day day.0 m ≡ false) self.now.movements result }
    {
        self.movements
            .as_slice()
            .partition_point(|m| m.day.0 < day.0)
    }

    /// The balance by the movements of earlier days. Takes no memory.
    pub fn balance_before(&self, day: Day) -> i64
        requires { Rise self.now.movements }
        ensures { result ≡ balance_at self.now day }
    {
        let movements = self.movements.as_slice();
        balance_after(self.opening, &movements[..self.earlier(day)])
    }

    /// The movements of a day. Takes no memory.
    pub fn on(&self, day: Day) -> &[Movement]
        requires rise { Rise self.now.movements }
        requires day { InCentury day }
        ensures { result.now ≡ on_day day self.now.movements }
    {
        between(
            self.movements.as_slice(),
            self.earlier(day),
            self.earlier(day_after(day)),
        )
    }
}

/// The day after a day.
pub fn day_after(day: Day) -> Day
    requires { InCentury day }
    ensures { result ≡ record { 0 = day.0 +ℤ pos 1 } }
{
    Day(day.0 + 1)
}

/// The movements from one place to another.
pub fn between(movements: &[Movement], from: usize, to: usize) -> &[Movement]
    requires order { from ≤ to }
    requires there { to ≤ length movements.now }
    ensures { result.now ≡ take (to - from) (drop from movements.now) }
{
    &movements[from..to]
}

/// The place of an account's ledger.
pub fn at(n: AcctNo) -> usize
    requires { 0 < n.0 }
    ensures { result ≡ n.0 - 1 }
{
    n.0 as usize - 1
}

/// Adds a movement to an account's ledger. Where memory runs out, the ledgers are as they were.
fn push(ledgers: &mut Vec<Ledger>, n: AcctNo, movement: Movement) -> Result<(), Memory>
    requires from_one { 0 < n.0 }
    requires there { n.0 - 1 < length ledgers.old.items }
    ensures ok { OnOk result (ledgers.new.items ≡ changed_at (n.0 - 1) (pushed movement) ledgers.old.items) }
    ensures err { OnErr result (ledgers.new.items ≡ ledgers.old.items) }
{
    ledgers[at(n)].movements.push(movement)
}

/// Takes the last movement of an account's ledger away.
fn undo(ledgers: &mut Vec<Ledger>, n: AcctNo)
    requires from_one { 0 < n.0 }
    requires there { n.0 - 1 < length ledgers.old.items }
    ensures { ledgers.new.items ≡ changed_at (n.0 - 1) undone ledgers.old.items }
{
    ledgers[at(n)].movements.undo();
}

/// Adds each movement to the ledger of its account, those of one account from the last to the first. Where memory runs out, the
/// ledgers are as they were.
pub fn push_each(ledgers: &mut Vec<Ledger>, mut bookings: List<Booking>) -> Result<(), Memory>
    requires { All (IsOnOneOf (length ledgers.old.items)) bookings }
    ensures ok { OnOk result (ledgers.new.items ≡ pushed_each bookings ledgers.old.items) }
    ensures err { OnErr result (ledgers.new.items ≡ ledgers.old.items) }
{
    let Some(last) = bookings.pop() else {
        return Ok(());
    };
    push(ledgers, last.account, last.movement)?;
    if let Err(memory) = push_each(ledgers, bookings) {
        undo(ledgers, last.account);
        return Err(memory);
    }
    Ok(())
}
