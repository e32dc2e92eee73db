//! The lock of one account, as whoever holds it has it.

ghost use Rattle.std.specs.Prelude.{◌≡◌, ◌<◌, Some, [], ◌∷◌};
ghost use Rattle.day_model.specs.Totals.{Fits64, leg_pair, pair_at, plus};
ghost use Rattle.day_model.specs.Pairs.{pairs_with};

use crate::name::Name;
use crate::purses::{Named, Purses};
use crate::sides::BookSides;
use day_model::Leg;
use std::marker::Model;
use std::sync::MutexGuard;

/// A held account's lock. Contracts see the purse behind it.
#[derive(Drop)]
pub(crate) struct Locked<'a, N: Name> {
    pub(crate) guard: MutexGuard<'a, Named<N>>,
}

impl<'a, N: Name> Model for Locked<'a, N> {
    ghost use Rattle.std.specs.Sync.Mutex.{mutex_guard_value};
    ghost use Rattle.acct_locks.specs.Holdings.{Holding};

    ghost Value = { Holding };

    ghost view = { λ l. (mutex_guard_value l.guard).purse };
}

impl<'a, N: Name> Locked<'a, N> {
    pub(crate) fn number(&self) -> u32
        ensures { result ≡ self.now.number }
    {
        self.guard.purse.number()
    }

    pub(crate) fn totals(&self) -> (u64, u64)
        ensures { result ≡ self.now.pair }
    {
        self.guard.purse.totals()
    }

    /// Tells that the totals are the pair that the sides have for the account.
    pub(crate) fn agree(&mut self, purses: &Purses<N>, sides: &mut BookSides)
        requires table { sides.old.table ≡ N.table }
        ensures agreed { pair_at sides.old.pairs self.old.number ≡ Some self.old.pair }
        ensures same { (self.new ≡ self.old) × (sides.new ≡ sides.old) }
    {
        self.guard.purse.agree(purses.seat_table(), sides);
    }

    /// Adds a leg of this account to the totals, and to the pair that the sides have for it.
    pub(crate) fn add(&mut self, purses: &Purses<N>, sides: &mut BookSides, leg: &Leg)
        requires table { sides.old.table ≡ N.table }
        requires account { leg.now.account.0 ≡ self.old.number }
        requires fits { Fits64 (plus self.old.pair (leg_pair leg.now)) }
        ensures purse { self.new ≡ record self.old { pair = plus self.old.pair (leg_pair leg.now) } }
        ensures sides { sides.new ≡ record sides.old { pairs = pairs_with (leg.now ∷ []) sides.old.pairs } }
    {
        self.guard.purse.add(purses.seat_table(), sides, leg);
    }
}
