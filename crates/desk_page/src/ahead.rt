//! Entries that are booked ahead of their value date.

ghost use Rattle.std.specs.Prelude.{◌≡◌, ◌<◌, ◌≤◌, ◌++◌, All, OnOk, Some, slice_get};
ghost use Rattle.corr_money.specs.Amounts.{amount_end, most_decimals};
ghost use Rattle.day_model.specs.Chart.{IsListed, account_at};
ghost use Rattle.day_model.specs.Fit.{FitsAccounts};
ghost use Rattle.desk_page.specs.Ahead.{IsDated, ahead_if, ahead_line, ahead_section, is_ahead, leg_cells, paid_on};
ghost use Rattle.desk_page.specs.inner.Books.{AreSound, chart_in, entries_in};

use crate::books::Books;
use crate::cells::{put_amount, put_cell, put_day, put_place};
use crate::mark::{Piece, mark};
use corr_ids::Day;
use corr_money::{Amount, Minor};
use corr_text::{Memory, Text};
use day_model::{Account, Entry, Leg, Outcome};
use std::alloc::Global;

/// Whether an entry is booked on a day before its value date, which is this day or a later one.
fn is_ahead(day: Day, entry: &Entry) -> bool
    ensures { result ≡ is_ahead day entry.now }
{
    let booked = match entry.outcome {
        Outcome::Booked => true,
        Outcome::Unfunded { .. } => false,
    };
    booked && entry.day.0 < entry.pay.value.0 && day.0 <= entry.pay.value.0
}

/// Adds an account, and an amount in its currency.
fn put_paid(alloc: Global, amount: Minor, account: &Account, out: &mut Text) -> Result<(), Memory>
    requires decimals { account.now.decimals ≤ most_decimals }
    requires small { amount.0 < amount_end }
    ensures { OnOk result (out.new ≡ out.old ++ paid_on amount.0 (Some account.now)) }
{
    put_cell(account.id.bytes(), out)?;
    let paid = Amount {
        ccy: account.ccy,
        minor: amount,
        decimals: account.decimals,
    };
    put_amount(alloc, &paid, out)
}

/// Adds the account of a leg, and its amount.
fn put_leg(alloc: Global, books: Books<'_>, leg: &Leg, out: &mut Text) -> Result<(), Memory>
    requires listed { IsListed (chart_in books) leg.now.account.0 }
    requires small { leg.now.amount.0 < amount_end }
    ensures { OnOk result (out.new ≡ out.old ++ leg_cells (chart_in books.entry) (Some leg.now)) }
{
    put_paid(alloc, leg.amount, books.accounts.get(leg.account), out)
}

/// Adds the account and the amount of a pay's first leg.
fn put_first(alloc: Global, books: Books<'_>, entry: &Entry, out: &mut Text) -> Result<(), Memory>
    requires { FitsAccounts (chart_in books) entry.now.pay }
    ensures { OnOk result (out.new ≡ out.old ++ leg_cells (chart_in books.entry) (slice_get entry.now.pay.legs 0)) }
{
    put_leg(alloc, books, &entry.pay.legs.as_slice()[0], out)
}

/// Adds the row of the entry at a place.
#[tactic(auto, unfolding(crate::specs::Ahead::ahead_line))]
fn put_line(
    alloc: Global,
    books: Books<'_>,
    place: u32,
    entry: &Entry,
    out: &mut Text,
) -> Result<(), Memory>
    requires fits { FitsAccounts (chart_in books) entry.now.pay }
    requires dated { IsDated entry.now }
    ensures { OnOk result (out.new ≡ out.old ++ ahead_line (chart_in books.entry) place entry.now) }
{
    out.push(mark(Piece::RowBegin))?;
    put_place(Piece::CellBegin, place, out)?;
    put_cell(&entry.pay.mir.0, out)?;
    put_day(entry.day, out)?;
    put_day(entry.pay.value, out)?;
    put_first(alloc, books, entry, out)?;
    out.push(mark(Piece::RowEnd))
}

/// Adds the row of the entry at a place where it is booked ahead.
fn put_ahead(
    alloc: Global,
    books: Books<'_>,
    day: Day,
    place: u32,
    entry: &Entry,
    out: &mut Text,
) -> Result<(), Memory>
    requires fits { FitsAccounts (chart_in books) entry.now.pay }
    requires dated { IsDated entry.now }
    ensures { OnOk result (out.new ≡ out.old ++ ahead_if (chart_in books.entry) day place entry.now) }
{
    if is_ahead(day, entry) {
        return put_line(alloc, books, place, entry, out);
    }
    Ok(())
}

/// Adds the entries that are booked ahead of their value date, by their places.
pub(crate) fn put_section(
    alloc: Global,
    books: Books<'_>,
    day: Day,
    out: &mut Text,
) -> Result<(), Memory>
    requires sound { AreSound books }
    requires dated { All IsDated (entries_in books) }
    ensures { OnOk result (out.new ≡ out.old ++ ahead_section (chart_in books.entry) (entries_in books.entry) day) }
{
    out.push(mark(Piece::AheadBegin))?;
    for place in 1..books.history.len() + 1 {
        put_ahead(alloc, books, day, place, books.history.get(place), out)?;
    }
    out.push(mark(Piece::TableEnd))
}
