//! The sides of the book.

use crate::seats::SeatOf;
use std::marker::Model;

/// The book's pairs: for each account its credits and its debits, in minor units.
///
/// Contracts see the table that they are of, and the list of the pairs, which begins with account 1's. The totals of a
/// held account are the pair that stands here for it, which `Held::agree` tells.
#[derive(Drop)]
pub struct BookSides {
    pub(crate) seat: SeatOf,
}

impl Model for BookSides {
    ghost use Rattle.std.specs.Prelude.{◌≡◌, []};
    ghost use Rattle.acct_locks.specs.Sides.{Sides};
    ghost use Rattle.acct_locks.specs.Seats.{IsBookSeat, pairs_in};

    ghost Value = { Sides };

    ghost view = { λ b. record { table = b.seat.table_id; pairs = pairs_in b.seat.me.0 } };

    ghost invariant = { λ b. IsBookSeat b.seat.me.0 × (b.seat.me.1 ≡ []) };
}
