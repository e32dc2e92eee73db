//! What the seats of the table know, and the rule that they keep.

use atomic_table::{Join, Play, Seat, Split, Table, TableRule};
use std::alloc::Global;
use std::collections::LinkedList;
use std::marker::{Brand, PhantomData};

/// What a seat knows. No value of it is made.
pub enum View {
    /// Each account's pair, the accounts that are handed out, and the account and pair that came back last.
    Book(LinkedList<(u64, u64)>, LinkedList<u32>, Option<(u32, (u64, u64))>),
    /// An account and its pair.
    Purse(u32, (u64, u64)),
    /// Nothing any more: the seat came back.
    Spent,
}

/// A purse's seat has the pair that the book's seat has for its account. The table is told the first pairs.
pub struct Agreement;

impl TableRule<u8, View, Vec<(u64, u64)>> for Agreement {
    ghost use Rattle.std.specs.Prelude.{[], None};
    ghost use Rattle.acct_locks.specs.declared.seats.View.TheVariants.{Book};
    ghost use Rattle.acct_locks.specs.inner.Seats.{RuleIsKept};

    ghost holds = { λ first s. RuleIsKept s };

    ghost first = { λ first. Book first.items [] None };
}

/// Tells that the pair which came back last is the book's.
pub struct Look;

impl Play<u8, View> for Look {
    ghost use Rattle.acct_locks.specs.inner.Seats.{Looked};

    ghost then = { Looked };
}

/// Which account is handed out, with which pair. Each call picks them.
pub trait Handing {
    ghost use Rattle.std.specs.Prelude.{ℕ};

    ghost account: { ℕ };

    ghost pair: { ℕ × ℕ };
}

impl Handing for Brand {
    ghost account = { 0 };

    ghost pair = { (0, 0) };
}

/// An account gets a seat of its own.
pub struct HandOut<K: Handing>(PhantomData<K>);

impl<K: Handing> Split<View> for HandOut<K> {
    ghost use Rattle.acct_locks.specs.declared.seats.View.TheVariants.{Purse};
    ghost use Rattle.acct_locks.specs.inner.Seats.{handed_out};

    ghost left = { handed_out K.account K.pair };

    ghost right = { λ v. Purse K.account K.pair };
}

/// A purse's seat comes back.
pub struct TakeBack;

impl Join<View> for TakeBack {
    ghost use Rattle.acct_locks.specs.declared.seats.View.TheVariants.{Spent};
    ghost use Rattle.acct_locks.specs.inner.Seats.{took_back};

    ghost both = { took_back };

    ghost spent = { Spent };
}

/// The table of the seats, which keep the rule.
pub type SeatTable = Table<u8, View, Vec<(u64, u64)>, Agreement, Global>;

/// A seat of that table.
pub type SeatOf = Seat<u8, View>;
