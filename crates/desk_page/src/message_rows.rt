//! The row of a message.

ghost use Rattle.std.specs.Prelude.{◌≡◌, ◌++◌, OnOk};
ghost use Rattle.corr_report.specs.Report.{tag_text};
ghost use Rattle.desk_page.specs.inner.Books.{AreSound, chart_in, entries_in};
ghost use Rattle.desk_page.specs.Messages.{fault_cell, mir_cell, payment_cells, row_cells, row_line, standing_cell, told_cell, unrouted_cell};
ghost use Rattle.desk_page.specs.Row.{IsShown, IsShownPayment, IsShownStanding};

use crate::books::Books;
use crate::cells::{put_amount, put_bank, put_cell, put_day, put_number, put_place};
use crate::escape::put_escaped;
use crate::lacking::put_lacking_of;
use crate::mark::{Piece, mark};
use crate::reasons::reason;
use crate::row::{Payment, Row, Standing};
use corr_ids::Mir;
use corr_text::{Code, Decimal, Fault, Memory, Text};
use std::alloc::Global;

/// A tag without the space that a tag of two characters ends with.
fn plain_tag(tag: &[u8; 3]) -> &[u8]
    ensures { result.now ≡ tag_text tag.now }
{
    if tag[2] == b' ' {
        &tag[..2]
    } else {
        tag.as_slice()
    }
}

/// Adds the cells of what a payment says.
fn put_payment(alloc: Global, payment: &Payment, out: &mut Text) -> Result<(), Memory>
    requires { IsShownPayment payment.now }
    ensures { OnOk result (out.new ≡ out.old ++ payment_cells payment.now) }
{
    put_bank(&payment.sender, out)?;
    put_cell(payment.reference.bytes(), out)?;
    put_amount(alloc, &payment.amount, out)?;
    put_day(payment.value, out)?;
    put_cell(payment.payee.bytes(), out)
}

/// Adds a cell of a code and what it says.
fn put_unrouted(code: Code, out: &mut Text) -> Result<(), Memory>
    ensures { OnOk result (out.new ≡ out.old ++ unrouted_cell code) }
{
    out.push(mark(Piece::CellBegin))?;
    put_escaped(&code.0, out)?;
    out.push(mark(Piece::Comma))?;
    put_escaped(reason(code), out)?;
    out.push(mark(Piece::CellEnd))
}

/// Adds the cell of where a payment stands.
fn put_standing(
    alloc: Global,
    books: Books<'_>,
    standing: Standing,
    out: &mut Text,
) -> Result<(), Memory>
    requires sound { AreSound books }
    requires shown { IsShownStanding (chart_in books) standing }
    ensures { OnOk result (out.new ≡ out.old ++ standing_cell (chart_in books.entry) (entries_in books.entry) standing) }
{
    match standing {
        Standing::New => out.push(mark(Piece::NotEntered)),
        Standing::Booked { place } => put_place(Piece::BookedAt, place, out),
        Standing::Unfunded {
            place,
            account,
            side,
            amount,
        } => put_lacking_of(alloc, books, place, account, side, amount, out),
        Standing::Conflict { place } => put_place(Piece::ConflictAt, place, out),
        Standing::Unrouted { code } => put_unrouted(code, out),
    }
}

/// Adds the cell of a reference, if there is one.
fn put_mir(mir: &Option<Mir>, out: &mut Text) -> Result<(), Memory>
    ensures { OnOk result (out.new ≡ out.old ++ mir_cell mir.now) }
{
    match mir {
        Some(mir) => put_cell(&mir.0, out),
        None => out.push(mark(Piece::NoCell)),
    }
}

/// Adds the cell of a fault.
fn put_fault(fault: &Fault, out: &mut Text) -> Result<(), Memory>
    ensures { OnOk result (out.new ≡ out.old ++ fault_cell fault.now) }
{
    let mut room = Decimal::new();
    out.push(mark(Piece::CellBegin))?;
    put_escaped(&fault.code.0, out)?;
    out.push(mark(Piece::Space))?;
    put_escaped(plain_tag(&fault.tag), out)?;
    out.push_all(&[
        mark(Piece::Space),
        room.padded(fault.nth as u64, 1),
        mark(Piece::Comma),
    ])?;
    put_escaped(reason(fault.code), out)?;
    out.push(mark(Piece::CellEnd))
}

/// Adds the cell of a message that tells of an account.
fn put_told(account: &Option<Text>, out: &mut Text) -> Result<(), Memory>
    ensures { OnOk result (out.new ≡ out.old ++ told_cell account.now) }
{
    match account {
        Some(account) => {
            out.push(mark(Piece::PageOf))?;
            put_escaped(account.bytes(), out)?;
            out.push(mark(Piece::CellEnd))
        }
        None => out.push(mark(Piece::Advice)),
    }
}

/// Adds the cells of what is said of a message.
fn put_cells(alloc: Global, books: Books<'_>, row: &Row, out: &mut Text) -> Result<(), Memory>
    requires sound { AreSound books }
    requires shown { IsShown (chart_in books) row.now }
    ensures { OnOk result (out.new ≡ out.old ++ row_cells (chart_in books.entry) (entries_in books.entry) row.now) }
{
    match row {
        Row::Refused { mir, fault } => {
            put_mir(mir, out)?;
            out.push(mark(Piece::NoCells))?;
            put_fault(fault, out)
        }
        Row::Asks { payment, standing } => {
            put_cell(&payment.mir.0, out)?;
            put_payment(alloc, payment, out)?;
            put_standing(alloc, books, *standing, out)
        }
        Row::Told { mir, account } => {
            put_cell(&mir.0, out)?;
            out.push(mark(Piece::NoCells))?;
            put_told(account, out)
        }
    }
}

/// Adds the row of the `n`-th message.
pub(crate) fn put_row(
    alloc: Global,
    books: Books<'_>,
    n: u64,
    row: &Row,
    out: &mut Text,
) -> Result<(), Memory>
    requires sound { AreSound books }
    requires shown { IsShown (chart_in books) row.now }
    ensures { OnOk result (out.new ≡ out.old ++ row_line (chart_in books.entry) (entries_in books.entry) n row.now) }
{
    out.push(mark(Piece::RowBegin))?;
    put_number(n, out)?;
    put_cells(alloc, books, row, out)?;
    out.push(mark(Piece::RowEnd))
}
