//! The purses before they have a name.

ghost use Rattle.std.specs.Prelude.{◌≡◌, ◌<◌, ◌^◌, ◌+◌, ℕ, [], length, Some, IfOk};
ghost use Rattle.day_model.specs.Chart.{accounts_of};
ghost use Rattle.day_model.specs.Legal.{IsLegal};
ghost use Rattle.day_model.specs.Totals.{HasTotals, pair_at};
ghost use Rattle.acct_locks.specs.Seats.{IsBookSeat, pairs_in};
ghost use Rattle.acct_locks.specs.inner.Seats.{away_in};
ghost use Rattle.acct_locks.specs.Holdings.{purse_at, purses_of};
ghost use Rattle.acct_locks.specs.inner.Holdings.{AwayUpTo};

use crate::name::Name;
use crate::purse::Purse;
use crate::purses::{Named, Purses};
use crate::seats::{SeatOf, SeatTable};
use crate::sides::BookSides;
use crate::steps::{hand_out, open};
use corr_text::Memory;
use day_model::{Accounts, History, totals};
use std::alloc::Global;
use std::marker::{Model, PhantomData};
use std::sync::Mutex;

/// The purses of an opening, one for each account, before they have a name and locks.
///
/// Contracts see the table that they are of, and each purse with its number and its totals.
#[derive(Drop)]
pub struct Loose {
    seat_table: SeatTable,
    purses: Vec<Purse>,
}

impl Model for Loose {
    ghost use Rattle.std.specs.Prelude.{◌≡◌, ◌<◌, ◌^◌, length, All};
    ghost use Rattle.acct_locks.specs.Holdings.{LooseHand};

    ghost Value = { LooseHand };

    ghost view = { λ l. record { table = l.seat_table.shared.table_id; purses = l.purses.items } };

    ghost invariant = { λ l. (l.seat_table.shared.table_id.words ≡ 1) × (length l.purses.items < 2 ^ 32) × All (λ p. p.table ≡ l.seat_table.shared.table_id) l.purses.items };
}

// The purse of the next account.
fn next_purse(seat_table: &SeatTable, seat: &mut SeatOf, number: u32, pair: (u64, u64)) -> Purse
    requires table { (seat.old.table_id ≡ seat_table.now.shared.table_id) × (seat_table.now.shared.table_id.words ≡ 1) }
    requires seat { IsBookSeat seat.old.me.0 × (seat.old.me.1 ≡ []) }
    requires next { (0 < number) × ((n : ℕ) → n + 1 ≡ number → AwayUpTo n (away_in seat.old.me.0)) }
    requires pair { pair_at (pairs_in seat.old.me.0) number ≡ Some pair }
    ensures book { (seat.new.table_id ≡ seat.old.table_id) × IsBookSeat seat.new.me.0 × (seat.new.me.1 ≡ []) × (pairs_in seat.new.me.0 ≡ pairs_in seat.old.me.0) × AwayUpTo number (away_in seat.new.me.0) }
    ensures purse { result ≡ purse_at seat_table.now.shared.table_id number pair }
{
    let purse = hand_out(seat_table, seat, number, pair);
    Purse {
        number,
        credit: pair.0,
        debit: pair.1,
        badge: purse.into_badge(),
    }
}

impl Loose {
    /// One purse for each account, with its totals after the history, and the sides of the book, which have the same.
    ///
    /// The history is legal for the accounts.
    pub fn new(alloc: Global, a: &Accounts, h: &History) -> Result<(Loose, BookSides), Memory>
        requires legal { IsLegal a.now h.now.entries }
        ensures table { IfOk result (λ r. r.0.table ≡ r.1.table) }
        ensures purses { IfOk result (λ r. r.0.purses ≡ purses_of r.0.table r.1.pairs) }
        ensures count { IfOk result (λ r. length r.0.purses ≡ length (accounts_of a.now)) }
        ensures sides { IfOk result (λ r. HasTotals r.1.pairs (length (accounts_of a.now)) h.now.entries) }
    {
        let pairs = totals(alloc, a, h)?;
        Loose::of_pairs(alloc, pairs)
    }

    // One purse for each pair.
    fn of_pairs(alloc: Global, pairs: Vec<(u64, u64)>) -> Result<(Loose, BookSides), Memory>
        requires { length pairs.items < 2 ^ 32 }
        ensures table { IfOk result (λ r. r.0.table ≡ r.1.table) }
        ensures purses { IfOk result (λ r. r.0.purses ≡ purses_of r.0.table pairs.items) }
        ensures count { IfOk result (λ r. length r.0.purses ≡ length pairs.items) }
        ensures sides { IfOk result (λ r. r.1.pairs ≡ pairs.items) }
    {
        let (seat_table, mut seat) = open(alloc, &pairs)?;
        let mut purses = Vec::new(alloc);
        let mut number = 0u32;
        for pair in &pairs {
            number += 1;
            let purse = next_purse(&seat_table, &mut seat, number, *pair);
            purses.push(purse)?;
        }
        Ok((Loose { seat_table, purses }, BookSides { seat }))
    }

    /// Puts each purse behind a lock of its own. `N` names the table of these purses.
    ///
    /// After `Memory` the purses are gone, and no purse agrees with the sides any more.
    pub fn lock<N: Name>(self, alloc: Global) -> Result<Purses<N>, Memory>
        requires named { self.table ≡ N.table }
        ensures count { IfOk result (λ p. p ≡ length self.purses) }
    {
        let Loose { seat_table, purses } = self;
        let mut locks = Vec::new(alloc);
        for purse in purses {
            locks.push(Mutex::new(Named {
                purse,
                of: PhantomData,
            }))?;
        }
        Ok(Purses { seat_table, locks })
    }
}
