//! How changes are made, copied and refused.

ghost use Rattle.std.specs.Prelude.{◌≡◌, ◌≤◌, ◌↔◌, IfOk, IsNone, length, pos};
ghost use Rattle.std.specs.List.{list_all, position_from};
ghost use Rattle.day_model.specs.Changes.{changed_by};
ghost use Rattle.day_model.specs.Chart.{accounts_of, most_accounts};
ghost use Rattle.day_model.specs.Fit.{is_in};
ghost use Rattle.day_model.specs.Legal.{IsInForm, IsLegalChange};
ghost use Rattle.day_model.specs.Refusals.{begins_empty, met_by, refusal_of};
ghost use Rattle.day_model.specs.RowTests.{agrees, meets};

use crate::account::{Account, AcctNo};
use crate::accounts::{Accounts, MOST_ACCOUNTS};
use crate::change::{Change, Refusal, What};
use crate::rows::{agree, are_ends, has_limits, meet};
use corr_text::Memory;
use std::alloc::Global;

/// Puts a new floor and a new ceiling to an account.
pub(crate) fn set_ends(accounts: &mut Vec<Account>, n: AcctNo, floor: i64, ceil: i64)
    requires { (1 ≤ n.0) × (n.0 ≤ length accounts.old.items) }
    ensures { accounts.new.items ≡ changed_by (What.Limits n floor ceil) accounts.old.items }
{
    let account = &mut accounts[n.0 as usize - 1];
    account.floor = floor;
    account.ceil = ceil;
}

impl What {
    /// The same once more.
    pub fn copy(&self, alloc: Global) -> Result<What, Memory>
        ensures { IfOk result (λ what. what ≡ self.now) }
    {
        match self {
            What::Opened(account) => Ok(What::Opened(account.copy(alloc)?)),
            What::Limits {
                account,
                floor,
                ceil,
            } => Ok(What::Limits {
                account: *account,
                floor: *floor,
                ceil: *ceil,
            }),
        }
    }
}

/// The same changes once more.
pub(crate) fn copy_changes(alloc: Global, changes: &[Change]) -> Result<Vec<Change>, Memory>
    ensures { IfOk result (λ copies. copies.items ≡ changes.now) }
{
    let mut copies = Vec::new(alloc);
    for change in changes {
        copies.push(Change {
            after: change.after,
            what: change.what.copy(alloc)?,
        })?;
    }
    Ok(copies)
}

fn first_met(accounts: &[Account], new: &Account) -> Option<usize>
    ensures { result ≡ position_from (meets new.now) 0 accounts.now }
{
    accounts.iter().position(|account| meet(new, account))
}

fn double(accounts: &[Account], new: &Account) -> Option<Refusal>
    requires { length accounts.now ≤ most_accounts }
    ensures { result ≡ met_by new.now accounts.now }
{
    let at = first_met(accounts, new)?;
    Some(Refusal::Double { row: at as u32 + 1 })
}

fn agrees_with_all(accounts: &[Account], new: &Account) -> bool
    ensures { result ≡ list_all (agrees new.now) accounts.now }
{
    accounts.iter().all(|account| agree(new, account))
}

fn is_empty(new: &Account) -> bool
    ensures { result ≡ begins_empty new.now }
{
    new.opening == 0 && has_limits(new)
}

fn refuses_opening(accounts: &[Account], new: &Account) -> Option<Refusal>
    requires { length accounts.now ≤ most_accounts }
    ensures { result ≡ refusal_of accounts.now (pos 0) (What.Opened new.now) }
{
    if accounts.len() >= MOST_ACCOUNTS {
        return Some(Refusal::Rows);
    }
    if let Some(refusal) = double(accounts, new) {
        return Some(refusal);
    }
    if !agrees_with_all(accounts, new) {
        return Some(Refusal::Currency);
    }
    if !is_empty(new) {
        return Some(Refusal::Limits { account: 0 });
    }
    None
}

fn has(accounts: &[Account], n: AcctNo) -> bool
    ensures { result ≡ is_in accounts.now n.0 }
{
    1 <= n.0 && n.0 as usize <= accounts.len()
}

fn refuses_limits(
    accounts: &[Account],
    n: AcctNo,
    floor: i64,
    ceil: i64,
    balance: i64,
) -> Option<Refusal>
    ensures { result ≡ refusal_of accounts.now balance (What.Limits n floor ceil) }
{
    if !has(accounts, n) {
        return Some(Refusal::Unknown);
    }
    if !are_ends(floor, ceil, balance) {
        return Some(Refusal::Limits { account: n.0 });
    }
    None
}

fn refusal(accounts: &[Account], what: &What, balance: i64) -> Option<Refusal>
    requires { length accounts.now ≤ most_accounts }
    ensures { result ≡ refusal_of accounts.now balance what.now }
{
    match what {
        What::Opened(account) => refuses_opening(accounts, account),
        What::Limits {
            account,
            floor,
            ceil,
        } => refuses_limits(accounts, *account, *floor, *ceil, balance),
    }
}

impl Accounts {
    /// Why a change is refused, the first reason in the order of `Refusal`; none exactly where it is legal. `balance` is that of
    /// the account that limits name, in minor units, and any number for a new account.
    ///
    /// An account to open has the form of its columns, as `rows_hold` says it; its opening and its limits may be any.
    pub fn refuses(&self, what: &What, balance: i64) -> Option<Refusal>
        ensures value { result ≡ refusal_of (accounts_of self.now) balance what.now }
        ensures legal { IsInForm what.now → (IsNone result ↔ IsLegalChange (accounts_of self.now) balance what.now) }
    {
        refusal(self.after_changes(), what, balance)
    }
}
