//! Each account's totals after a history.

ghost use Rattle.std.specs.Prelude.{◌≡◌, ◌≤◌, [], ◌∷◌, pos, ◌+ℤ◌, ◌-ℤ◌, length, All, IfOk};
ghost use Rattle.day_model.specs.Chart.{IsSmall, accounts_of, most_accounts};
ghost use Rattle.day_model.specs.Legal.{IsLegal};
ghost use Rattle.day_model.specs.Totals.{Fits64, HasTotals, booked_legs, leg_pair, plus};
ghost use Rattle.day_model.specs.Pairs.{PairsFit, pairs_with};

use crate::account::Account;
use crate::accounts::Accounts;
use crate::entry::{Entry, Outcome};
use crate::history::History;
use crate::pay::{Leg, Side};
use corr_text::Memory;
use std::alloc::Global;

/// An account's credits and debits, in minor units, with a leg added. They stay below 2^64.
pub fn with_leg(totals: (u64, u64), leg: &Leg) -> (u64, u64)
    requires fits { Fits64 (plus totals (leg_pair leg.now)) }
    ensures value { result ≡ plus totals (leg_pair leg.now) }
{
    match leg.side {
        Side::Credit => (totals.0 + leg.amount.0, totals.1),
        Side::Debit => (totals.0, totals.1 + leg.amount.0),
    }
}

fn add_leg(pairs: &mut Vec<(u64, u64)>, leg: &Leg)
    requires listed { (1 ≤ leg.now.account.0) × (leg.now.account.0 ≤ length pairs.old.items) }
    requires fits { PairsFit (leg.now ∷ []) pairs.old.items }
    ensures { pairs.new.items ≡ pairs_with (leg.now ∷ []) pairs.old.items }
{
    let at = leg.account.0 as usize - 1;
    pairs[at] = with_leg(pairs[at], leg);
}

/// Adds legs to their accounts' credits and debits, in minor units, in a list that begins with those of account 1. The accounts
/// are in the list, and credits and debits stay below 2^64.
pub fn add_legs(pairs: &mut Vec<(u64, u64)>, legs: &[Leg])
    requires listed { All (λ leg. (1 ≤ leg.account.0) × (leg.account.0 ≤ length pairs.old.items)) legs.now }
    requires fits { PairsFit legs.now pairs.old.items }
    ensures { pairs.new.items ≡ pairs_with legs.now pairs.old.items }
{
    for leg in legs {
        add_leg(pairs, leg);
    }
}

/// The legs that an entry books: none where it is unfunded.
pub fn legs_booked(entry: &Entry) -> &[Leg]
    ensures { result.now ≡ booked_legs entry.now }
{
    match entry.outcome {
        Outcome::Booked => entry.pay.legs.as_slice(),
        Outcome::Unfunded { .. } => &[],
    }
}

/// An account's balance by its credits and debits, in minor units: each may pass what an `i64` holds, the balance may not.
pub fn balance_with(account: &Account, totals: (u64, u64)) -> i64
    requires { IsSmall ((account.now.opening +ℤ pos totals.0) -ℤ pos totals.1) }
    ensures { result ≡ (account.now.opening +ℤ pos totals.0) -ℤ pos totals.1 }
{
    (account.opening as i128 + totals.0 as i128 - totals.1 as i128) as i64
}

/// Each account's credits and debits over the booked entries of a history that is legal for the accounts, in minor units;
/// account 1's come first.
pub fn totals(alloc: Global, a: &Accounts, h: &History) -> Result<Vec<(u64, u64)>, Memory>
    requires legal { IsLegal a.now h.now.entries }
    ensures value { IfOk result (λ pairs. HasTotals pairs.items (length (accounts_of a.now)) h.now.entries) }
    ensures few { IfOk result (λ pairs. length pairs.items ≤ most_accounts) }
{
    let mut pairs = vec![in alloc; (0, 0); a.count() as usize]?;
    for at in 0..h.len() {
        add_legs(&mut pairs, legs_booked(h.get(at + 1)));
    }
    Ok(pairs)
}
