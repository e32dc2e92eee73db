//! Cells of a row.

ghost use Rattle.std.specs.Prelude.{◌≡◌, ◌<◌, ◌≤◌, ◌++◌, OnOk};
ghost use Rattle.corr_ids.specs.Day.{InCentury};
ghost use Rattle.corr_money.specs.Amounts.{amount_end, most_decimals};
ghost use Rattle.desk_page.specs.Cells.{amount_cell, bank_cell, bar_cell, bar_number, cell, day_cell, money_cell, number_cell, place_cell, sign_of, signed_number};

use crate::escape::put_escaped;
use crate::mark::{Piece, mark};
use corr_ids::{Bic, Day, put_yymmdd, with_branch};
use corr_money::{Amount, put_15d, put_signed};
use corr_text::{Decimal, Memory, Text};
use std::alloc::Global;

/// Adds a cell of a text.
pub(crate) fn put_cell(text: &[u8], out: &mut Text) -> Result<(), Memory>
    ensures { OnOk result (out.new ≡ out.old ++ cell text.now) }
{
    out.push(mark(Piece::CellBegin))?;
    put_escaped(text, out)?;
    out.push(mark(Piece::CellEnd))
}

/// Adds a cell of a bank.
pub(crate) fn put_bank(bank: &Bic, out: &mut Text) -> Result<(), Memory>
    ensures { OnOk result (out.new ≡ out.old ++ bank_cell bank.now) }
{
    if bank.branch == *b"XXX" {
        return put_cell(&bank.head, out);
    }
    put_cell(&with_branch(bank), out)
}

/// Adds a cell of a number.
pub(crate) fn put_number(n: u64, out: &mut Text) -> Result<(), Memory>
    ensures { OnOk result (out.new ≡ out.old ++ number_cell n) }
{
    let mut room = Decimal::new();
    out.push_all(&[
        mark(Piece::NumberBegin),
        room.padded(n, 1),
        mark(Piece::CellEnd),
    ])
}

/// Adds a cell of a day.
pub(crate) fn put_day(day: Day, out: &mut Text) -> Result<(), Memory>
    requires { InCentury day }
    ensures { OnOk result (out.new ≡ out.old ++ day_cell day) }
{
    out.push(mark(Piece::CellBegin))?;
    put_yymmdd(day, out)?;
    out.push(mark(Piece::CellEnd))
}

/// Adds a cell of an amount, its currency first.
pub(crate) fn put_amount(alloc: Global, amount: &Amount, out: &mut Text) -> Result<(), Memory>
    requires decimals { amount.now.decimals ≤ most_decimals }
    requires small { amount.now.minor.0 < amount_end }
    ensures { OnOk result (out.new ≡ out.old ++ amount_cell amount.now) }
{
    out.push(mark(Piece::NumberBegin))?;
    put_escaped(&amount.ccy.0, out)?;
    out.push(mark(Piece::Space))?;
    put_15d(alloc, amount.minor, amount.decimals, out)?;
    out.push(mark(Piece::CellEnd))
}

/// Adds a cell of a balance, in minor units of a currency with so many decimals.
pub(crate) fn put_money(alloc: Global, v: i64, decimals: u8, out: &mut Text) -> Result<(), Memory>
    requires { decimals ≤ most_decimals }
    ensures { OnOk result (out.new ≡ out.old ++ money_cell decimals v) }
{
    out.push(mark(Piece::NumberBegin))?;
    put_signed(alloc, v, decimals, out)?;
    out.push(mark(Piece::CellEnd))
}

/// Adds a cell that begins so, and ends with a place of the journal.
pub(crate) fn put_place(begin: Piece, place: u32, out: &mut Text) -> Result<(), Memory>
    ensures { OnOk result (out.new ≡ out.old ++ place_cell begin place) }
{
    let mut room = Decimal::new();
    out.push_all(&[
        mark(begin),
        room.padded(place as u64, 8),
        mark(Piece::CellEnd),
    ])
}

/// A minus where a number is below 0.
fn sign_of(v: i64) -> &'static [u8]
    ensures { result.now ≡ sign_of v }
{
    if v < 0 { b"-" } else { b"" }
}

/// Adds a number, with a minus before it where it is below 0.
#[tactic(auto, unfolding(crate::specs::Cells::signed_number))]
fn put_signed_number(v: i64, out: &mut Text) -> Result<(), Memory>
    ensures { OnOk result (out.new ≡ out.old ++ signed_number v) }
{
    let mut room = Decimal::new();
    out.push(sign_of(v))?;
    out.push(room.padded(v.unsigned_abs(), 1))
}

/// Adds a number of a bar, after what tells which.
fn put_bar_number(which: Piece, v: i64, out: &mut Text) -> Result<(), Memory>
    ensures { OnOk result (out.new ≡ out.old ++ bar_number which v) }
{
    out.push(mark(which))?;
    put_signed_number(v, out)
}

/// Adds a cell with a bar from a least number to a greatest, and a number between them.
#[tactic(auto, unfolding(crate::specs::Cells::bar_cell))]
pub(crate) fn put_bar(least: i64, greatest: i64, v: i64, out: &mut Text) -> Result<(), Memory>
    ensures { OnOk result (out.new ≡ out.old ++ bar_cell least greatest v) }
{
    put_bar_number(Piece::BarLeast, least, out)?;
    put_bar_number(Piece::BarGreatest, greatest, out)?;
    put_bar_number(Piece::BarValue, v, out)?;
    out.push(mark(Piece::BarEnd))
}
