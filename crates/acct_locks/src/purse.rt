//! One account's purse.

ghost use Rattle.std.specs.Prelude.{◌≡◌, ◌<◌, [], ◌∷◌, Some};
ghost use Rattle.day_model.specs.Totals.{Fits64, leg_pair, pair_at, plus};
ghost use Rattle.day_model.specs.Pairs.{pairs_with};
ghost use Rattle.day_model.specs.inner.Pairs.{with_pair};

use crate::seats::{SeatTable, View};
use crate::sides::BookSides;
use crate::steps::{hand_out, take_back};
use atomic_table::Badge;
use day_model::{Leg, with_leg};
use std::marker::Model;
use std::mem;

/// One account's totals, with the seat that agrees with them.
#[derive(Drop)]
pub(crate) struct Purse {
    pub(crate) number: u32,
    pub(crate) credit: u64,
    pub(crate) debit: u64,
    pub(crate) badge: Badge<View>,
}

impl Model for Purse {
    ghost use Rattle.std.specs.Prelude.{◌≡◌, [], ◌∷◌};
    ghost use Rattle.acct_locks.specs.Holdings.{Holding};
    ghost use Rattle.acct_locks.specs.declared.seats.View.TheVariants.{Purse};

    ghost Value = { Holding };

    ghost view = { λ p. record { table = p.badge.table_id; number = p.number; pair = (p.credit, p.debit) } };

    ghost invariant = { λ p. p.badge.views ≡ Purse p.number (p.credit, p.debit) ∷ [] };
}

impl Purse {
    pub(crate) fn number(&self) -> u32
        ensures { result ≡ self.now.number }
    {
        self.number
    }

    pub(crate) fn totals(&self) -> (u64, u64)
        ensures { result ≡ self.now.pair }
    {
        (self.credit, self.debit)
    }

    // Takes the seat back and hands it out again, with new totals. The take back tells that the old ones agreed.
    fn reseat(&mut self, seat_table: &SeatTable, sides: &mut BookSides, totals: (u64, u64))
        requires table { (self.old.table ≡ seat_table.now.shared.table_id) × (sides.old.table ≡ seat_table.now.shared.table_id) × (0 < seat_table.now.shared.table_id.words) }
        ensures agreed { pair_at sides.old.pairs self.old.number ≡ Some self.old.pair }
        ensures purse { self.new ≡ record self.old { pair = totals } }
        ensures sides { sides.new ≡ record sides.old { pairs = with_pair sides.old.pairs self.old.number totals } }
    {
        let badge = mem::replace(&mut self.badge, Badge::blank());
        take_back(seat_table, &mut sides.seat, badge.into_seat());
        let seat = hand_out(seat_table, &mut sides.seat, self.number, totals);
        self.badge = seat.into_badge();
        self.credit = totals.0;
        self.debit = totals.1;
    }

    /// Tells that the totals are the pair that the sides have for the account.
    pub(crate) fn agree(&mut self, seat_table: &SeatTable, sides: &mut BookSides)
        requires table { (self.old.table ≡ seat_table.now.shared.table_id) × (sides.old.table ≡ seat_table.now.shared.table_id) × (0 < seat_table.now.shared.table_id.words) }
        ensures agreed { pair_at sides.old.pairs self.old.number ≡ Some self.old.pair }
        ensures same { (self.new ≡ self.old) × (sides.new ≡ sides.old) }
    {
        let totals = self.totals();
        self.reseat(seat_table, sides, totals);
    }

    /// Adds a leg of this account to the totals, and to the pair that the sides have for it.
    pub(crate) fn add(&mut self, seat_table: &SeatTable, sides: &mut BookSides, leg: &Leg)
        requires table { (self.old.table ≡ seat_table.now.shared.table_id) × (sides.old.table ≡ seat_table.now.shared.table_id) × (0 < seat_table.now.shared.table_id.words) }
        requires account { leg.now.account.0 ≡ self.old.number }
        requires fits { Fits64 (plus self.old.pair (leg_pair leg.now)) }
        ensures purse { self.new ≡ record self.old { pair = plus self.old.pair (leg_pair leg.now) } }
        ensures sides { sides.new ≡ record sides.old { pairs = pairs_with (leg.now ∷ []) sides.old.pairs } }
    {
        let after = with_leg(self.totals(), leg);
        self.reseat(seat_table, sides, after);
    }
}
