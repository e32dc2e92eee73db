//! Entries that are on the disk: their legs are added to the held totals, and they to the history.

ghost use Rattle.std.specs.Prelude.{◌≡◌, ◌+◌, ◌<◌, ◌≤◌, ◌++◌, ◌∷◌, [], All, Some, length};
ghost use Rattle.day_model.specs.Chart.{accounts_of};
ghost use Rattle.day_model.specs.Legal.{IsLegal};
ghost use Rattle.day_model.specs.Log.{most_entries};
ghost use Rattle.day_model.specs.Totals.{HasTotals, booked_legs, pair_at};
ghost use Rattle.acct_locks.specs.Holdings.{held_totals, held_with};
ghost use Rattle.jrn_book.specs.Batches.{all_booked};
ghost use Rattle.jrn_book.specs.Deciding.{HoldsAll};

use crate::deciding::settle_entry;
use crate::turning::turned;
use acct_locks::{BookSides, Held};
use day_model::{Accounts, Entry, History, Leg};

/// Tells that the totals of each leg's account are the pair that the sides have for it. Nothing changes.
fn agree_all<H: Held>(sides: &mut BookSides, held: &mut H, legs: &[Leg])
    requires held { HoldsAll (H.held held.old) legs.now }
    requires table { sides.old.table ≡ H.table held.old }
    ensures agreed { All (λ leg. pair_at sides.old.pairs leg.account.0 ≡ Some (held_totals (H.held held.old) leg.account.0)) legs.now }
    ensures held_same { (H.held held.new ≡ H.held held.old) × (H.table held.new ≡ H.table held.old) × (H.count held.new ≡ H.count held.old) }
    ensures sides_same { sides.new ≡ sides.old }
{
    for leg in legs {
        held.agree(sides, leg.account);
    }
}

/// Adds an entry to a history that has room for it.
fn put(history: &mut History, e: Entry)
    requires few { length history.old.entries < most_entries }
    requires room { 1 ≤ history.old.spare }
    ensures history { history.new.entries ≡ history.old.entries ++ e ∷ [] }
    ensures left { history.old.spare ≤ history.new.spare + 1 }
{
    history.push(e).unwrap();
}

/// Settles an entry that stands next in a history, and adds it.
fn settle_next<H: Held>(
    a: &Accounts,
    history: &mut History,
    sides: &mut BookSides,
    held: &mut H,
    e: Entry,
)
    requires legal { IsLegal a.now (history.old.entries ++ e ∷ []) }
    requires totals { HasTotals sides.old.pairs (length (accounts_of a.now)) history.old.entries }
    requires held { HoldsAll (H.held held.old) e.pay.legs }
    requires table { sides.old.table ≡ H.table held.old }
    requires room { 1 ≤ history.old.spare }
    ensures history { history.new.entries ≡ history.old.entries ++ e ∷ [] }
    ensures held { H.held held.new ≡ held_with (booked_legs e) (H.held held.old) }
    ensures held_same { (H.table held.new ≡ H.table held.old) × (H.count held.new ≡ H.count held.old) }
    ensures totals { HasTotals sides.new.pairs (length (accounts_of a.now)) history.new.entries }
    ensures sides { sides.new ≡ record sides.old { pairs = sides.new.pairs } }
    ensures left { history.old.spare ≤ history.new.spare + 1 }
{
    let _ = a;
    agree_all(sides, held, e.pay.legs.as_slice());
    settle_entry(&e, sides, held);
    put(history, e);
}

/// Settles entries that stand next in a history, one after another, and adds them.
pub(crate) fn settle_all<H: Held>(
    a: &Accounts,
    history: &mut History,
    sides: &mut BookSides,
    held: &mut H,
    entries: Vec<Entry>,
)
    requires front { IsLegal a.now history.old.entries }
    requires legal { IsLegal a.now (history.old.entries ++ entries.items) }
    requires totals { HasTotals sides.old.pairs (length (accounts_of a.now)) history.old.entries }
    requires held { All (λ e. HoldsAll (H.held held.old) e.pay.legs) entries.items }
    requires table { sides.old.table ≡ H.table held.old }
    requires room { length entries.items ≤ history.old.spare }
    ensures history { history.new.entries ≡ history.old.entries ++ entries.items }
    ensures held { H.held held.new ≡ held_with (all_booked entries.items) (H.held held.old) }
    ensures held_same { (H.table held.new ≡ H.table held.old) × (H.count held.new ≡ H.count held.old) }
    ensures totals { HasTotals sides.new.pairs (length (accounts_of a.now)) history.new.entries }
    ensures sides { sides.new ≡ record sides.old { pairs = sides.new.pairs } }
{
    let mut rest = turned(entries);
    while let Some(e) = rest.pop() {
        settle_next(a, history, sides, held, e);
    }
}
