//! Decisions by the totals of accounts.

ghost use Rattle.std.specs.Prelude.{◌≡◌, ◌+◌, ◌<◌, ◌≤◌, All, IsTrue, IfNone, List, length, unwrap_or};
ghost use Rattle.corr_text.specs.First.{first_of};
ghost use Rattle.corr_money.specs.Amounts.{amount_end};
ghost use Rattle.day_model.specs.declared.entry.Entry.{Entry as TheEntry};
ghost use Rattle.day_model.specs.declared.entry.Outcome.TheVariants.{Booked};
ghost use Rattle.day_model.specs.Balance.{leg_test, leg_tests};
ghost use Rattle.day_model.specs.Chart.{IsChart, IsListed, IsSmall, accounts_of};
ghost use Rattle.day_model.specs.Fit.{legs_fit};
ghost use Rattle.day_model.specs.Legal.{IsLegal};
ghost use Rattle.day_model.specs.Pairs.{pairs_with};
ghost use Rattle.day_model.specs.Totals.{HasTotals, balance_with, booked_legs, totals_of};
ghost use Rattle.day_model.proofs.laws.Fitting.{Sound};
ghost use Rattle.acct_locks.specs.Holdings.{CanSettle, HoldsOnce, held_totals, held_with};
ghost use Rattle.jrn_book.specs.Deciding.{HoldsAll};
ghost use Rattle.jrn_book.specs.inner.Deciding.{leg_test_by};

use acct_locks::{BookSides, Held};
use day_model::{
    Accounts, Entry, History, Leg, Outcome, after_leg, balance_with, legs_booked, may_hold,
};

/// What leg `number` fails with, given the totals of its account.
pub(crate) fn leg_outcome(
    a: &Accounts,
    number: u8,
    leg: &Leg,
    totals: (u64, u64),
) -> Option<Outcome>
    requires listed { IsListed a.now leg.now.account.0 }
    requires small { IsSmall (balance_with a.now leg.now.account.0 totals) }
    requires amount { leg.now.amount.0 < amount_end }
    ensures value { result ≡ leg_test_by a.now totals number leg.now }
{
    let account = a.get(leg.account);
    let balance = balance_with(account, totals);
    if may_hold(account, after_leg(balance, leg)) {
        None
    } else {
        Some(Outcome::Unfunded {
            leg: number,
            balance,
        })
    }
}

// What a held leg fails with, whose account's totals agree with the sides.
fn held_outcome<H: Held>(
    a: &Accounts,
    h: &History,
    sides: &mut BookSides,
    held: &mut H,
    number: u8,
    leg: &Leg,
) -> Option<Outcome>
    requires chart { IsChart a.now }
    requires legal { IsLegal a.now h.now.entries }
    requires totals { HasTotals sides.old.pairs (length (accounts_of a.now)) h.now.entries }
    requires sound { Sound a.now leg.now }
    requires held { HoldsOnce (H.held held.old) leg.now.account.0 }
    requires table { sides.old.table ≡ H.table held.old }
    ensures value { result ≡ leg_test a.now h.now.entries number leg.now }
    ensures agreed { held_totals (H.held held.old) leg.now.account.0 ≡ totals_of leg.now.account.0 h.now.entries }
    ensures held_same { (H.held held.new ≡ H.held held.old) × (H.table held.new ≡ H.table held.old) × (H.count held.new ≡ H.count held.old) }
    ensures sides_same { sides.new ≡ sides.old }
{
    let _ = h;
    held.agree(sides, leg.account);
    leg_outcome(a, number, leg, held.totals(leg.account))
}

fn held_test<H: Held>(
    a: &Accounts,
    h: &History,
    sides: &mut BookSides,
    held: &mut H,
    number: u8,
    legs: &[Leg],
) -> Option<Outcome>
    requires chart { IsChart a.now }
    requires legal { IsLegal a.now h.now.entries }
    requires totals { HasTotals sides.old.pairs (length (accounts_of a.now)) h.now.entries }
    requires sound { All (Sound a.now) legs.now }
    requires few { number + length legs.now ≤ 255 }
    requires held { HoldsAll (H.held held.old) legs.now }
    requires table { sides.old.table ≡ H.table held.old }
    ensures value { result ≡ first_of (leg_tests a.now h.now.entries number legs.now) }
    ensures agreed { IfNone result (All (λ leg. held_totals (H.held held.old) leg.account.0 ≡ totals_of leg.account.0 h.now.entries) legs.now) }
    ensures held_same { (H.held held.new ≡ H.held held.old) × (H.table held.new ≡ H.table held.old) × (H.count held.new ≡ H.count held.old) }
    ensures sides_same { sides.new ≡ sides.old }
{
    match legs {
        [] => None,
        [leg, others @ ..] => match held_outcome(a, h, sides, held, number, leg) {
            Some(outcome) => Some(outcome),
            None => held_test(a, h, sides, held, number + 1, others),
        },
    }
}

/// Decides by the totals of held accounts, each of which agrees with the sides.
pub(crate) fn decide_held<H: Held>(
    a: &Accounts,
    h: &History,
    sides: &mut BookSides,
    held: &mut H,
    legs: &[Leg],
) -> Outcome
    requires chart { IsChart a.now }
    requires legal { IsLegal a.now h.now.entries }
    requires totals { HasTotals sides.old.pairs (length (accounts_of a.now)) h.now.entries }
    requires fits { IsTrue (legs_fit a.now legs.now) }
    requires held { HoldsAll (H.held held.old) legs.now }
    requires table { sides.old.table ≡ H.table held.old }
    ensures value { result ≡ unwrap_or (first_of (leg_tests a.now h.now.entries 1 legs.now)) Booked }
    ensures agreed { result ≡ Booked → All (λ leg. held_totals (H.held held.old) leg.account.0 ≡ totals_of leg.account.0 h.now.entries) legs.now }
    ensures held_same { (H.held held.new ≡ H.held held.old) × (H.table held.new ≡ H.table held.old) × (H.count held.new ≡ H.count held.old) }
    ensures sides_same { sides.new ≡ sides.old }
{
    match held_test(a, h, sides, held, 1, legs) {
        Some(outcome) => outcome,
        None => Outcome::Booked,
    }
}

// What a leg fails with, by the pair of its account after some history.
fn pair_outcome(a: &Accounts, pairs: &[(u64, u64)], number: u8, leg: &Leg) -> Option<Outcome>
    requires chart { IsChart a.now }
    requires past { (entries : List TheEntry) × IsLegal a.now entries × HasTotals pairs.now (length (accounts_of a.now)) entries }
    requires sound { Sound a.now leg.now }
    ensures value { (entries : List TheEntry) → IsLegal a.now entries → HasTotals pairs.now (length (accounts_of a.now)) entries → result ≡ leg_test a.now entries number leg.now }
{
    leg_outcome(a, number, leg, pairs[leg.account.0 as usize - 1])
}

fn pairs_test(a: &Accounts, pairs: &[(u64, u64)], number: u8, legs: &[Leg]) -> Option<Outcome>
    requires chart { IsChart a.now }
    requires past { (entries : List TheEntry) × IsLegal a.now entries × HasTotals pairs.now (length (accounts_of a.now)) entries }
    requires sound { All (Sound a.now) legs.now }
    requires few { number + length legs.now ≤ 255 }
    ensures value { (entries : List TheEntry) → IsLegal a.now entries → HasTotals pairs.now (length (accounts_of a.now)) entries
        → result ≡ first_of (leg_tests a.now entries number legs.now) }
{
    match legs {
        [] => None,
        [leg, others @ ..] => match pair_outcome(a, pairs, number, leg) {
            Some(outcome) => Some(outcome),
            None => pairs_test(a, pairs, number + 1, others),
        },
    }
}

/// Decides by the pairs that all accounts have after some history.
pub(crate) fn decide_by_pairs(a: &Accounts, pairs: &[(u64, u64)], legs: &[Leg]) -> Outcome
    requires chart { IsChart a.now }
    requires past { (entries : List TheEntry) × IsLegal a.now entries × HasTotals pairs.now (length (accounts_of a.now)) entries }
    requires fits { IsTrue (legs_fit a.now legs.now) }
    ensures value { (entries : List TheEntry) → IsLegal a.now entries → HasTotals pairs.now (length (accounts_of a.now)) entries
        → result ≡ unwrap_or (first_of (leg_tests a.now entries 1 legs.now)) Booked }
{
    match pairs_test(a, pairs, 1, legs) {
        Some(outcome) => outcome,
        None => Outcome::Booked,
    }
}

/// Decides by the pairs of all accounts after a history.
pub(crate) fn decide_by(a: &Accounts, h: &History, pairs: &[(u64, u64)], legs: &[Leg]) -> Outcome
    requires chart { IsChart a.now }
    requires legal { IsLegal a.now h.now.entries }
    requires totals { HasTotals pairs.now (length (accounts_of a.now)) h.now.entries }
    requires fits { IsTrue (legs_fit a.now legs.now) }
    ensures value { result ≡ unwrap_or (first_of (leg_tests a.now h.now.entries 1 legs.now)) Booked }
{
    let _ = h;
    decide_by_pairs(a, pairs, legs)
}

/// Adds what an entry books to the held totals and to the sides.
pub(crate) fn settle_entry<H: Held>(entry: &Entry, sides: &mut BookSides, held: &mut H)
    requires can { CanSettle (booked_legs entry.now) (H.held held.old) }
    requires table { sides.old.table ≡ H.table held.old }
    ensures held { H.held held.new ≡ held_with (booked_legs entry.now) (H.held held.old) }
    ensures held_same { (H.table held.new ≡ H.table held.old) × (H.count held.new ≡ H.count held.old) }
    ensures sides { sides.new ≡ record sides.old { pairs = pairs_with (booked_legs entry.now) sides.old.pairs } }
{
    held.settle(sides, legs_booked(entry));
}
