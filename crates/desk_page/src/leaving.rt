//! Messages that leave, by receiver and type.

ghost use Rattle.std.specs.Prelude.{◌≡◌, ◌++◌, IfOk, OnOk, map};
ghost use Rattle.day_model.specs.Balance.{is_booked};
ghost use Rattle.desk_page.specs.inner.Books.{entries_in};
ghost use Rattle.desk_page.specs.Leaving.{is_same_kind, kind_of, kind_to, kinds_in, leaving, leaving_line, leaving_lines, leaving_section, type_cell};
ghost use Rattle.desk_page.specs.Tally.{tally_of};

use crate::books::Books;
use crate::cells::{put_bank, put_number};
use crate::mark::{Piece, mark};
use corr_ids::{Bic, Day};
use corr_text::{Decimal, Memory, Text};
use day_model::{Entry, Order, Outcome};
use indexmap::IndexMap;
use std::alloc::Global;

/// The bank that a message goes to, and the message's type: 103, 202 of a cover, 900 or 910.
#[derive(Clone, Copy, Debug, PartialEq, Eq, Hash)]
pub struct Kind {
    head: [u8; 8],
    branch: [u8; 3],
    mt: u16,
}

/// A bank and a type.
fn kind_to(to: Bic, mt: u16) -> Kind
    ensures { result ≡ kind_to to mt }
{
    let head = to.head;
    let branch = to.branch;
    Kind { head, branch, mt }
}

/// Those of an order's message.
fn kind_of(order: Order) -> Kind
    ensures { result ≡ kind_of order }
{
    match order {
        Order::Transfer { to, .. } => kind_to(to, 103),
        Order::Cover { to, .. } | Order::Pass { to, .. } => kind_to(to, 202),
        Order::Debit { to, .. } => kind_to(to, 900),
        Order::Credit { to, .. } => kind_to(to, 910),
    }
}

/// Adds those of orders.
fn push_all(orders: &[Order], kinds: &mut Vec<Kind>) -> Result<(), Memory>
    ensures { OnOk result (kinds.new.items ≡ kinds.old.items ++ map kind_of orders.now) }
{
    for order in orders {
        kinds.push(kind_of(*order))?;
    }
    Ok(())
}

/// Whether an entry is booked.
fn is_booked(entry: &Entry) -> bool
    ensures { result ≡ is_booked entry.now.outcome }
{
    match entry.outcome {
        Outcome::Booked => true,
        Outcome::Unfunded { .. } => false,
    }
}

/// Adds those of an entry, if it is booked on a day.
fn push_entry(day: Day, entry: &Entry, kinds: &mut Vec<Kind>) -> Result<(), Memory>
    ensures { OnOk result (kinds.new.items ≡ kinds.old.items ++ kinds_in day entry.now) }
{
    if is_booked(entry) && entry.day == day {
        return push_all(entry.pay.orders.as_slice(), kinds);
    }
    Ok(())
}

/// Those of all messages that leave for what is booked on a day, in the order of the entries.
fn kinds_on(alloc: Global, books: Books<'_>, day: Day) -> Result<Vec<Kind>, Memory>
    ensures { IfOk result (λ kinds. kinds.items ≡ leaving day (entries_in books.entry)) }
{
    let mut kinds = Vec::new(alloc);
    for place in 1..books.history.len() + 1 {
        push_entry(day, books.history.get(place), &mut kinds)?;
    }
    Ok(kinds)
}

/// How many there are of each, in the order of the first of each.
fn tally(alloc: Global, kinds: &[Kind]) -> Result<IndexMap<Kind, u64>, Memory>
    ensures { IfOk result (λ counts. counts.entries ≡ tally_of is_same_kind kinds.now) }
{
    let mut counts = IndexMap::new(alloc);
    for kind in kinds {
        let n = counts.get(kind).copied().unwrap_or(0);
        counts.insert(*kind, n + 1)?;
    }
    Ok(counts)
}

/// Adds a cell of a type.
fn put_type(mt: u16, out: &mut Text) -> Result<(), Memory>
    ensures { OnOk result (out.new ≡ out.old ++ type_cell mt) }
{
    let mut room = Decimal::new();
    out.push_all(&[
        mark(Piece::TypeBegin),
        room.padded(mt as u64, 3),
        mark(Piece::CellEnd),
    ])
}

/// Adds the row of a receiver and a type.
#[tactic(auto, unfolding(crate::specs::Leaving::leaving_line))]
fn put_line(kind: &Kind, n: u64, out: &mut Text) -> Result<(), Memory>
    ensures { OnOk result (out.new ≡ out.old ++ leaving_line kind.now n) }
{
    let to = Bic {
        head: kind.head,
        branch: kind.branch,
    };
    out.push(mark(Piece::RowBegin))?;
    put_bank(&to, out)?;
    put_type(kind.mt, out)?;
    put_number(n, out)?;
    out.push(mark(Piece::RowEnd))
}

/// Adds the rows of receivers and types.
fn put_lines(counts: &IndexMap<Kind, u64>, out: &mut Text) -> Result<(), Memory>
    ensures { OnOk result (out.new ≡ out.old ++ leaving_lines counts.now.entries) }
{
    for (kind, n) in counts.iter() {
        put_line(kind, *n, out)?;
    }
    Ok(())
}

/// Adds the messages that leave for what is booked on a day: how many of each type to each receiver.
pub(crate) fn put_section(
    alloc: Global,
    books: Books<'_>,
    day: Day,
    out: &mut Text,
) -> Result<(), Memory>
    ensures { OnOk result (out.new ≡ out.old ++ leaving_section (entries_in books.entry) day) }
{
    let kinds = kinds_on(alloc, books, day)?;
    let counts = tally(alloc, kinds.as_slice())?;
    out.push(mark(Piece::LeavingBegin))?;
    put_lines(&counts, out)?;
    out.push(mark(Piece::TableEnd))
}
