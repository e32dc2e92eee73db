//! Which items may stand next.

ghost use Rattle.std.specs.Prelude.{◌≡◌, ◌<◌, ◌≤ℤ◌, ◌++◌, ◌∷◌, [], None, IsTrue, length, nat_lt};
ghost use Rattle.std.specs.Bool.{OnTrue};
ghost use Rattle.day_model.specs.Balance.{balance_of, outcome_of};
ghost use Rattle.day_model.specs.Changes.{most_changes};
ghost use Rattle.day_model.specs.Chart.{accounts_of, with_change};
ghost use Rattle.day_model.specs.Fit.{FitsAccounts, is_in};
ghost use Rattle.day_model.specs.Items.{IsNextItem};
ghost use Rattle.day_model.specs.Laws.{IsLatest};
ghost use Rattle.day_model.specs.Legal.{IsInForm, IsLegal, IsLegalChange, balance_named};
ghost use Rattle.day_model.specs.Log.{most_entries};
ghost use Rattle.day_model.specs.Next.{entered_at};
ghost use Rattle.jrn_codec.specs.Items.{IsItem};
ghost use Rattle.jrn_book.specs.Changing.{refused_now};
ghost use Rattle.jrn_book.specs.inner.Following.{IsBalanceFor, MayStandNext};

use crate::deciding::decide_by;
use crate::past::Past;
use corr_ids::Day;
use day_model::{Accounts, AcctNo, Entry, History, Item, MOST_ENTRIES, Outcome, Refusal, What};

/// How many changes the accounts of a book have at most.
const MOST_CHANGES: usize = 1_073_741_824;

fn is_no_later(a: Day, b: Day) -> bool
    ensures before { OnTrue result (a.0 ≤ℤ b.0) }
    ensures all { a.0 ≤ℤ b.0 → IsTrue result }
{
    a.0 <= b.0
}

/// Whether no entry of a legal history has a later day: the last one has none.
pub(crate) fn is_latest(a: &Accounts, h: &History, day: Day) -> bool
    requires legal { IsLegal a.now h.now.entries }
    ensures latest { OnTrue result (IsLatest h.now.entries day) }
    ensures all { IsLatest h.now.entries day → IsTrue result }
{
    let _ = a;
    let count = h.len();
    count == 0 || is_no_later(h.get(count).day, day)
}

fn is_outcome(a: Outcome, b: Outcome) -> bool
    ensures same { OnTrue result (a ≡ b) }
    ensures all { a ≡ b → IsTrue result }
{
    a == b
}

impl Past {
    /// Whether there is a place for an entry: there are fewer than 100,000, its pay fits, and its reference is new.
    fn has_place_for(&self, e: &Entry) -> bool
        ensures few { OnTrue result (length self.now.history < most_entries) }
        ensures fits { OnTrue result (FitsAccounts self.now.accounts e.now.pay) }
        ensures new { OnTrue result (entered_at e.now.pay.mir self.now.history ≡ None) }
        ensures all { MayStandNext self.now.accounts self.now.history e.now → IsTrue result }
    {
        self.history.len() < MOST_ENTRIES
            && self.accounts.fits(&e.pay)
            && self.index.place(&e.pay.mir).is_none()
    }

    /// Whether an entry may stand next.
    pub(crate) fn may_follow(&self, e: &Entry) -> bool
        ensures legal { OnTrue result (IsLegal self.now.accounts (self.now.history ++ e.now ∷ [])) }
        ensures only { IsLegal self.now.accounts (self.now.history ++ e.now ∷ []) → IsTrue result }
    {
        if !self.has_place_for(e) {
            return false;
        }
        if !is_latest(&self.accounts, &self.history, e.day) {
            return false;
        }
        self.decides(e)
    }

    /// Whether an entry has the outcome that the entries before it give.
    fn decides(&self, e: &Entry) -> bool
        requires fits { FitsAccounts self.now.accounts e.now.pay }
        ensures same { OnTrue result (e.now.outcome ≡ outcome_of self.now.accounts self.now.history e.now.pay) }
        ensures all { e.now.outcome ≡ outcome_of self.now.accounts self.now.history e.now.pay → IsTrue result }
    {
        let legs = e.pay.legs.as_slice();
        let pairs = self.pairs.as_slice();
        is_outcome(
            decide_by(&self.accounts, &self.history, pairs, legs),
            e.outcome,
        )
    }

    fn has(&self, n: AcctNo) -> bool
        ensures { result ≡ is_in (accounts_of self.now.accounts) n.0 }
    {
        1 <= n.0 && n.0 <= self.accounts.count()
    }

    /// The balance of the account that limits name; 0 for a new account, and where there is none of this number.
    fn balance_for(&self, what: &What) -> i64
        ensures { IsBalanceFor self.now.accounts self.now.history what.now result }
    {
        match what {
            What::Opened(_) => 0,
            What::Limits { account, .. } => {
                if self.has(*account) {
                    self.balance(*account)
                } else {
                    0
                }
            }
        }
    }

    /// Why the accounts refuse a change now: the first reason.
    pub(crate) fn refusal(&self, what: &What) -> Option<Refusal>
        ensures { result ≡ refused_now self.now.accounts self.now.history what.now }
    {
        self.accounts.refuses(what, self.balance_for(what))
    }

    fn has_change_left(&self) -> bool
        ensures { result ≡ nat_lt (length self.now.accounts.changes) most_changes }
    {
        self.accounts.changes().len() < MOST_CHANGES
    }

    fn is_not_refused(&self, what: &What) -> bool
        requires form { IsInForm what.now }
        ensures legal { OnTrue result (IsLegalChange (accounts_of self.now.accounts) (balance_named (balance_of self.now.accounts self.now.history) what.now) what.now) }
        ensures all { IsLegalChange (accounts_of self.now.accounts) (balance_named (balance_of self.now.accounts self.now.history) what.now) what.now → IsTrue result }
    {
        // What always holds of a past: its accounts are apart.
        let _ = self.accounts();
        self.refusal(what).is_none()
    }

    /// Whether a change may come next.
    fn may_change(&self, what: &What) -> bool
        requires form { IsInForm what.now }
        ensures legal { OnTrue result (IsLegal (with_change self.now.accounts (length self.now.history) what.now) self.now.history) }
        ensures only { IsLegal (with_change self.now.accounts (length self.now.history) what.now) self.now.history → IsTrue result }
    {
        if !self.has_change_left() {
            return false;
        }
        // What always holds of a past: its history is legal.
        let _ = self.history();
        self.is_not_refused(what)
    }

    /// Whether an item may stand next.
    pub(crate) fn may_stand(&self, item: &Item) -> bool
        requires written { IsItem item.now }
        ensures legal { OnTrue result (IsNextItem self.now.accounts self.now.history item.now) }
        ensures only { IsNextItem self.now.accounts self.now.history item.now → IsTrue result }
    {
        match item {
            Item::Entered(entry) => self.may_follow(entry),
            Item::Changed(what) => self.may_change(what),
        }
    }
}
