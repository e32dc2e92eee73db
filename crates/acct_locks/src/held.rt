//! What a worker can do with the accounts that it holds.

use crate::sides::BookSides;
use day_model::{AcctNo, Leg};

/// What contracts see of a held value, and the settling of one leg. It is public for `Held` alone.
pub trait Holder {
    ghost use Rattle.std.specs.Prelude.{◌≡◌, ℕ, [], ◌∷◌, List};
    ghost use Rattle.atomic_table.specs.Seated.{TableId};
    ghost use Rattle.day_model.specs.Totals.{Fits64, leg_pair, plus};
    ghost use Rattle.day_model.specs.Pairs.{pairs_with};
    ghost use Rattle.acct_locks.specs.Holdings.{Holding, HoldsOnce, held_totals, held_with};

    /// The table of the purses.
    ghost table: { Self → TableId };

    /// How many accounts that table has.
    ghost count: { Self → ℕ };

    /// The held purses: those of `Held1` to `Held3` from the one taken last, those of `HeldAll` from the one taken first.
    ghost held: { Self → List Holding };

    /// For how many accounts in all there is room; 0 where a further one needs none.
    ghost most: { Self → ℕ };

    /// Adds one leg to the totals and to the sides.
    fn settle_one(&mut self, sides: &mut BookSides, leg: &Leg)
        requires once { HoldsOnce (held self.old) leg.now.account.0 }
        requires fits { Fits64 (plus (held_totals (held self.old) leg.now.account.0) (leg_pair leg.now)) }
        requires table { sides.old.table ≡ table self.old }
        ensures held { held self.new ≡ held_with (leg.now ∷ []) (held self.old) }
        ensures table { table self.new ≡ table self.old }
        ensures count { count self.new ≡ count self.old }
        ensures most { most self.new ≡ most self.old }
        ensures sides { sides.new ≡ record sides.old { pairs = pairs_with (leg.now ∷ []) sides.old.pairs } };
}

/// Accounts that a worker holds: `Held0` none, `Held1` one, `Held2` two and `Held3` three of them, and `HeldAll` a list of them. No
/// call takes memory.
pub trait Held: Holder {
    ghost use Rattle.std.specs.Prelude.{◌≡◌, Some};
    ghost use Rattle.day_model.specs.Totals.{pair_at};
    ghost use Rattle.day_model.specs.Pairs.{pairs_with};
    ghost use Rattle.acct_locks.specs.Holdings.{CanSettle, Holds, held_totals, held_with};

    /// The credits and the debits of a held account, in minor units.
    fn totals(&self, n: AcctNo) -> (u64, u64)
        requires held { Holds (Self.held self.now) n.0 }
        ensures value { result ≡ held_totals (Self.held self.now) n.0 };

    /// Tells that the totals of a held account are the pair that the sides have for it. Nothing changes.
    fn agree(&mut self, sides: &mut BookSides, n: AcctNo)
        requires held { Holds (Self.held self.old) n.0 }
        requires table { sides.old.table ≡ Self.table self.old }
        ensures agreed { pair_at sides.old.pairs n.0 ≡ Some (held_totals (Self.held self.old) n.0) }
        ensures held_same { Self.held self.new ≡ Self.held self.old }
        ensures table_same { Self.table self.new ≡ Self.table self.old }
        ensures count_same { Self.count self.new ≡ Self.count self.old }
        ensures most_same { Self.most self.new ≡ Self.most self.old }
        ensures sides_same { sides.new ≡ sides.old };

    /// Adds each leg to the totals of its account and to the pair that the sides have for it, and leaves all others.
    /// Each leg's account is held once, and no total passes `2^64 - 1`.
    fn settle(&mut self, sides: &mut BookSides, legs: &[Leg])
        requires can { CanSettle legs.now (Self.held self.old) }
        requires table { sides.old.table ≡ Self.table self.old }
        ensures held { Self.held self.new ≡ held_with legs.now (Self.held self.old) }
        ensures table { Self.table self.new ≡ Self.table self.old }
        ensures count { Self.count self.new ≡ Self.count self.old }
        ensures most { Self.most self.new ≡ Self.most self.old }
        ensures sides { sides.new ≡ record sides.old { pairs = pairs_with legs.now sides.old.pairs } }
    {
        for leg in legs {
            self.settle_one(sides, leg);
        }
    }
}
