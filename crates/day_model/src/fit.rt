//! Which pays fit a book's accounts.

ghost use Rattle.std.specs.Prelude.{◌≡◌, ◌<◌, ◌≤◌, ◌^◌, IsTrue, length};
ghost use Rattle.std.specs.List.{list_all};
ghost use Rattle.day_model.specs.Chart.{IsListed, accounts_of};
ghost use Rattle.day_model.specs.Fit.{amount_on, are_apart, are_even, are_legs, begin_with_debit, fit_in, has_amount, is_apart_from};
ghost use Rattle.day_model.specs.Fit.{is_beside, is_in, legs_fit, side_sum};

use crate::account::AcctNo;
use crate::accounts::Accounts;
use crate::pay::{Leg, Pay, Side};
use corr_money::AMOUNT_END;

/// The fewest legs of a pay.
const FEWEST_LEGS: usize = 2;

/// The most legs of a pay.
const MOST_LEGS: usize = 3;

fn amount_on(side: Side, leg: &Leg) -> u64
    ensures { result ≡ amount_on side leg.now }
{
    if leg.side == side { leg.amount.0 } else { 0 }
}

/// What legs have on one side together, in minor units: less than 2^64.
pub fn legs_sum(side: Side, legs: &[Leg]) -> u64
    requires { side_sum side legs.now < 2 ^ 64 }
    ensures { result ≡ side_sum side legs.now }
{
    legs.iter().map(|leg| amount_on(side, leg)).sum()
}

fn has_amount(leg: &Leg) -> bool
    ensures { result ≡ has_amount leg.now }
{
    0 < leg.amount.0 && leg.amount.0 < AMOUNT_END
}

fn have_amounts(legs: &[Leg]) -> bool
    ensures { result ≡ list_all has_amount legs.now }
{
    legs.iter().all(|leg| has_amount(leg))
}

fn is_apart_from(leg: &Leg, other: &Leg) -> bool
    ensures { result ≡ is_apart_from leg.now other.now }
{
    leg.account != other.account
}

fn is_apart_from_all(leg: &Leg, others: &[Leg]) -> bool
    ensures { result ≡ list_all (is_apart_from leg.now) others.now }
{
    others.iter().all(|other| is_apart_from(leg, other))
}

fn are_apart(legs: &[Leg]) -> bool
    ensures { result ≡ are_apart legs.now }
{
    match legs {
        [] => true,
        [leg, others @ ..] => is_apart_from_all(leg, others) && are_apart(others),
    }
}

fn begin_with_debit(legs: &[Leg]) -> bool
    ensures { result ≡ begin_with_debit legs.now }
{
    match legs {
        [] => false,
        [leg, ..] => leg.side == Side::Debit,
    }
}

fn are_even(legs: &[Leg]) -> bool
    requires few { length legs.now ≤ 3 }
    requires small { IsTrue (list_all has_amount legs.now) }
    ensures { result ≡ are_even legs.now }
{
    legs_sum(Side::Debit, legs) == legs_sum(Side::Credit, legs)
}

/// Whether these are the legs of a pay, whatever its accounts: two or three on distinct accounts, each amount above 0
/// and below 10^14, the first a debit, and the debits sum to what the credits sum to.
pub fn are_legs(legs: &[Leg]) -> bool
    ensures { result ≡ are_legs legs.now }
{
    FEWEST_LEGS <= legs.len()
        && legs.len() <= MOST_LEGS
        && begin_with_debit(legs)
        && have_amounts(legs)
        && are_apart(legs)
        && are_even(legs)
}

fn is_in(a: &Accounts, n: AcctNo) -> bool
    ensures value { result ≡ is_in (accounts_of a.now) n.0 }
    ensures listed { IsTrue result → IsListed a.now n.0 }
{
    1 <= n.0 && n.0 <= a.count()
}

fn is_beside(a: &Accounts, n: AcctNo, leg: &Leg) -> bool
    requires { IsListed a.now n.0 }
    ensures { result ≡ is_beside (accounts_of a.now) n.0 leg.now }
{
    is_in(a, leg.account) && a.get(n).ccy == a.get(leg.account).ccy
}

fn are_beside(a: &Accounts, n: AcctNo, legs: &[Leg]) -> bool
    requires { IsListed a.now n.0 }
    ensures { result ≡ list_all (is_beside (accounts_of a.now) n.0) legs.now }
{
    legs.iter().all(|leg| is_beside(a, n, leg))
}

fn fit_in(a: &Accounts, legs: &[Leg]) -> bool
    ensures { result ≡ fit_in (accounts_of a.now) legs.now }
{
    match legs {
        [] => true,
        [leg, others @ ..] => is_in(a, leg.account) && are_beside(a, leg.account, others),
    }
}

impl Accounts {
    /// Whether a pay fits these accounts: its legs are those of a pay (`are_legs`), on accounts of this book that have
    /// one currency.
    pub fn fits(&self, pay: &Pay) -> bool
        ensures { result ≡ legs_fit self.now pay.now.legs }
    {
        let legs = pay.legs.as_slice();
        are_legs(legs) && fit_in(self, legs)
    }
}
