//! The steps on the table of seats.

ghost use Rattle.std.specs.Prelude.{◌≡◌, ◌<◌, ◌≤◌, [], length, IfOk, None};
ghost use Rattle.acct_locks.specs.declared.seats.View.TheVariants.{Book, Purse};
ghost use Rattle.acct_locks.specs.Seats.{IsBookSeat, pairs_in};
ghost use Rattle.acct_locks.specs.inner.Seats.{IsPurse, IsIn, away_in, handed_out, took_back, KeepsRight};

use crate::seats::{HandOut, Handing, Look, SeatOf, SeatTable, TakeBack};
use corr_text::Memory;
use std::alloc::Global;
use std::marker::Brand;

/// A table, and the book's seat, which has these pairs.
pub(crate) fn open(alloc: Global, pairs: &Vec<(u64, u64)>) -> Result<(SeatTable, SeatOf), Memory>
    ensures { IfOk result (λ t. (t.0.shared.table_id.words ≡ 1) × (t.1.table_id ≡ t.0.shared.table_id) × (t.1.me ≡ (Book pairs.now.items [] None, []))) }
{
    let opened = SeatTable::of_words(alloc, &[0], pairs)?;
    Ok(opened)
}

fn hand_out_as<K: Handing>(
    seat_table: &SeatTable,
    book: &mut SeatOf,
    number: u32,
    pair: (u64, u64),
) -> SeatOf
    requires picked { (K.account ≡ number) × (K.pair ≡ pair) }
    requires table { (book.old.table_id ≡ seat_table.now.shared.table_id) × (0 < seat_table.now.shared.table_id.words) }
    requires seat { IsBookSeat book.old.me.0 }
    requires home { ¬ IsIn number (away_in book.old.me.0) }
    requires there { (0 < number) × (number ≤ length (pairs_in book.old.me.0)) }
    ensures book { (book.new.table_id ≡ book.old.table_id) × (book.new.me ≡ (handed_out number pair book.old.me.0, book.old.me.1)) }
    ensures purse { (result.table_id ≡ book.old.table_id) × (result.me ≡ (Purse number pair, [])) }
{
    seat_table.shared.split_seat::<HandOut<K>>(book)
}

/// Gives an account a seat of its own, with this pair.
pub(crate) fn hand_out(
    seat_table: &SeatTable,
    book: &mut SeatOf,
    number: u32,
    pair: (u64, u64),
) -> SeatOf
    requires table { (book.old.table_id ≡ seat_table.now.shared.table_id) × (0 < seat_table.now.shared.table_id.words) }
    requires seat { IsBookSeat book.old.me.0 }
    requires home { ¬ IsIn number (away_in book.old.me.0) }
    requires there { (0 < number) × (number ≤ length (pairs_in book.old.me.0)) }
    ensures book { (book.new.table_id ≡ book.old.table_id) × (book.new.me ≡ (handed_out number pair book.old.me.0, book.old.me.1)) }
    ensures purse { (result.table_id ≡ book.old.table_id) × (result.me ≡ (Purse number pair, [])) }
{
    hand_out_as::<Brand>(seat_table, book, number, pair)
}

/// Takes a purse's seat back. The look tells that it had the pair of the book's list.
pub(crate) fn take_back(seat_table: &SeatTable, book: &mut SeatOf, purse: SeatOf)
    requires table { (book.old.table_id ≡ seat_table.now.shared.table_id) × (purse.table_id ≡ seat_table.now.shared.table_id) × (0 < seat_table.now.shared.table_id.words) }
    requires seat { IsBookSeat book.old.me.0 × (book.old.me.1 ≡ []) }
    requires purse { IsPurse purse.me.0 × (purse.me.1 ≡ []) }
    ensures book { (book.new.table_id ≡ book.old.table_id) × (book.new.me ≡ (took_back book.old.me.0 purse.me.0, [])) }
    ensures right { KeepsRight book.new.me.0 }
{
    seat_table.shared.join_seat::<TakeBack>(book, purse);
    seat_table.shared.load::<Look>(book, 0);
}
