//! Balances, and the decision on funds.

ghost use Rattle.std.specs.Prelude.{◌≡◌, ◌+◌, ◌<◌, ◌≤◌, ◌^◌, true, sum_by, pos, ◌+ℤ◌, ◌-ℤ◌};
ghost use Rattle.corr_money.specs.Amounts.{amount_end};
ghost use Rattle.day_model.specs.declared.pay.Side.TheVariants.{Debit, Credit};
ghost use Rattle.day_model.specs.Chart.{IsListed, IsSmall, account_at};
ghost use Rattle.day_model.specs.Fit.{FitsAccounts};
ghost use Rattle.day_model.specs.Balance.{balance_of, changed, is_within, moved, moved_by, outcome_of};
ghost use Rattle.day_model.specs.Legal.{IsLegal};
ghost use Rattle.day_model.specs.Laws.{BalancesCancel, DebitsEqualCredits, StaysLegal, TotalsFit, WasWithin};

use crate::account::{Account, AcctNo};
use crate::accounts::Accounts;
use crate::entry::{Entry, Outcome};
use crate::history::History;
use crate::pay::{Leg, Pay, Side};

fn amount_on(side: Side, n: AcctNo, leg: &Leg) -> u64
    ensures { result ≡ moved side n.0 leg.now }
{
    if leg.side == side && leg.account == n {
        leg.amount.0
    } else {
        0
    }
}

fn booked_on(side: Side, n: AcctNo, entry: &Entry) -> u64
    requires { sum_by (moved side n.0) entry.now.pay.legs < 2 ^ 64 }
    ensures value { result ≡ moved_by side n.0 entry.now }
    ensures part { result ≤ sum_by (moved side n.0) entry.now.pay.legs }
{
    match entry.outcome {
        Outcome::Booked => entry
            .pay
            .legs
            .as_slice()
            .iter()
            .map(|leg| amount_on(side, n, leg))
            .sum(),
        Outcome::Unfunded { .. } => 0,
    }
}

fn after_entry(balance: i64, entry: &Entry, n: AcctNo) -> i64
    requires small { IsSmall balance }
    requires credits { sum_by (moved Credit n.0) entry.now.pay.legs < amount_end }
    requires debits { sum_by (moved Debit n.0) entry.now.pay.legs < amount_end }
    ensures { result ≡ (balance +ℤ pos (moved_by Credit n.0 entry.now)) -ℤ pos (moved_by Debit n.0 entry.now) }
{
    let credit = booked_on(Side::Credit, n, entry) as i64;
    let debit = booked_on(Side::Debit, n, entry) as i64;
    balance + credit - debit
}

/// The balance of an account after a history, in minor units: its opening, plus the credits and minus the debits
/// of the booked entries. It lies within the account's floor and ceiling, and at each time before it lay within those of
/// then. The balances of a currency sum to 0.
///
/// The history is legal for the accounts, and the account is one of them.
pub fn balance(a: &Accounts, h: &History, n: AcctNo) -> i64
    requires legal { IsLegal a.now h.now.entries }
    requires listed { IsListed a.now n.0 }
    ensures value { result ≡ balance_of a.now h.now.entries n.0 }
    ensures within { is_within (account_at a.now n.0) result ≡ true }
    ensures was { WasWithin a.now h.now.entries n.0 }
    ensures cancel { BalancesCancel a.now h.now.entries }
    ensures even { DebitsEqualCredits a.now h.now.entries }
    ensures totals { TotalsFit h.now.entries n.0 }
{
    let mut balance = a.get(n).opening;
    for entry in h.entries() {
        balance = after_entry(balance, entry, n);
    }
    balance
}

/// A balance with a leg, in minor units: a credit adds its amount, a debit takes it away.
pub fn after_leg(balance: i64, leg: &Leg) -> i64
    requires small { IsSmall balance }
    requires amount { leg.now.amount.0 < amount_end }
    ensures { result ≡ changed leg.now.side leg.now.amount.0 balance }
{
    match leg.side {
        Side::Credit => balance + leg.amount.0 as i64,
        Side::Debit => balance - leg.amount.0 as i64,
    }
}

/// Whether an account may have a balance: it lies within floor and ceiling.
pub fn may_hold(account: &Account, balance: i64) -> bool
    ensures { result ≡ is_within (Some account.now) balance }
{
    account.floor <= balance && balance <= account.ceil
}

/// What becomes of a pay after a history: booked where each leg leaves its account within floor and ceiling,
/// else unfunded, with the first leg that doesn't, from 1, and its account's balance before it, in minor units.
///
/// The history is legal for the accounts, and the pay fits them.
pub fn decide(a: &Accounts, h: &History, p: &Pay) -> Outcome
    requires legal { IsLegal a.now h.now.entries }
    requires fits { FitsAccounts a.now p.now }
    ensures value { result ≡ outcome_of a.now h.now.entries p.now }
    ensures next { StaysLegal a.now h.now.entries p.now }
{
    for (at, leg) in p.legs.as_slice().iter().enumerate() {
        let before = balance(a, h, leg.account);
        if !may_hold(a.get(leg.account), after_leg(before, leg)) {
            return Outcome::Unfunded {
                leg: at as u8 + 1,
                balance: before,
            };
        }
    }
    Outcome::Booked
}
