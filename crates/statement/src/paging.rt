//! The statement of an account on a day.

ghost use Rattle.std.specs.Prelude.{◌≡◌, ◌≤◌, All, IfOk, OnOk, drop, length, map, take};
ghost use Rattle.corr_ids.specs.Bic.{IsBic};
ghost use Rattle.corr_ids.specs.Day.{InCentury};
ghost use Rattle.day_model.specs.Chart.{IsListed};
ghost use Rattle.day_model.specs.Legal.{IsLegal};
ghost use Rattle.fin_contents.specs.Writing.{IsReadable};
ghost use Rattle.mt950.specs.Page.{mt950_of};
ghost use Rattle.statement.specs.Pages.{most_lines, pages_for, pages_of, placed_pages_of};
ghost use Rattle.statement.specs.inner.Running.{message_by};
ghost use Rattle.statement.specs.Seen.{SeenBook};
ghost use Rattle.statement.specs.Valid.{PagesAreAccepted, AreShaped, ClosesAtBalance, Prints};
ghost use Rattle.statement.specs.inner.Valid.{PageReadsBack};

use crate::index::HistoryIndex;
use crate::ledger::between;
use crate::movement::{Movement, balance_after};
use crate::page::{Heading, PlacedPage, page_message, placed_page};
use corr_ids::{Bic, Day};
use corr_text::{List, Memory, Text};
use day_model::{Accounts, AcctNo, History};
use std::alloc::Global;

/// How many lines a page has at most.
const LINES: usize = 25;

/// How many pages so many lines need: one for no lines too.
fn count_of(lines: usize) -> usize
    ensures { result ≡ pages_for lines }
{
    if lines == 0 {
        return 1;
    }
    (lines - 1) / LINES + 1
}

/// The movements of the page that begins after so many.
fn lines_from(movements: &[Movement], first: usize) -> &[Movement]
    requires { first ≤ length movements.now }
    ensures { result.now ≡ take most_lines (drop first movements.now) }
{
    let rest = &movements[first..];
    if rest.len() <= LINES {
        return rest;
    }
    between(rest, 0, LINES)
}

/// The pages of an account's statement of a day as values, from an index of the history, under the conditions of `pages`: each
/// with the places of the entries of its lines. `pages_with` prints them.
pub fn page_values(ix: &HistoryIndex, n: AcctNo, day: Day) -> Result<List<PlacedPage>, Memory>
    requires { (book : SeenBook) × Prints ix.now n.0 day book }
    ensures value { IfOk result (λ pages. (book : SeenBook) → Prints ix.now n.0 day book → pages ≡ placed_pages_of book.chart book.entries n.0 day) }
    ensures readable { IfOk result (All (λ placed. IsReadable mt950_of placed.page)) }
{
    let alloc = ix.alloc();
    let ledger = ix.ledger(n);
    let movements = ledger.on(day);
    let opening = ledger.balance_before(day);
    let count = count_of(movements.len());
    let mut pages = List::with_room(alloc, count)?;
    for k in 0..count {
        let first = k * LINES;
        let heading = Heading {
            account: n,
            day,
            page: k as u32 + 1,
            last: k + 1 == count,
        };
        let balance = balance_after(opening, &movements[..first]);
        let here = lines_from(movements, first);
        pages.push(placed_page(alloc, ledger, heading, balance, here)?)?;
    }
    Ok(pages)
}

/// The message of each page, from the home bank to the owner of its account.
fn messages_of(
    alloc: Global,
    home: &Bic,
    to: &Bic,
    pages: &[PlacedPage],
) -> Result<List<Text>, Memory>
    requires home { IsBic home.now }
    requires owner { IsBic to.now }
    requires readable { All (λ placed. IsReadable mt950_of placed.page) pages.now }
    ensures value { IfOk result (λ texts. texts ≡ map (λ placed. message_by home.now to.now placed.page) pages.now) }
    ensures back { OnOk result (All (λ placed. PageReadsBack home.now to.now placed.page) pages.now) }
{
    let mut texts = List::with_room(alloc, pages.len())?;
    for placed in pages {
        texts.push(page_message(alloc, home, to, &placed.page)?)?;
    }
    Ok(texts)
}

/// The statement of an account on a day, from an index of the history: what `pages` gives, under its conditions. Of the history
/// it looks at the account's entries alone.
pub fn pages_with(ix: &HistoryIndex, n: AcctNo, day: Day) -> Result<List<Text>, Memory>
    requires { (book : SeenBook) × Prints ix.now n.0 day book }
    ensures value { IfOk result (λ texts. (book : SeenBook) → Prints ix.now n.0 day book → texts ≡ pages_of book.chart book.entries n.0 day) }
    ensures closes { (book : SeenBook) → Prints ix.now n.0 day book → ClosesAtBalance book.chart book.entries n.0 day }
    ensures accepted { OnOk result ((book : SeenBook) → Prints ix.now n.0 day book → PagesAreAccepted book.chart book.entries n.0 day) }
{
    let pages = page_values(ix, n, day)?;
    messages_of(ix.alloc(), ix.home(), &ix.ledger(n).owner, pages.as_slice())
}

/// The statement of an account on a day as the messages that its owner is sent, page by page (docs/messages.md, "Statements").
///
/// A line is a booked entry of the day with a leg on the account, in the order of the journal; a page holds 25, and without lines
/// there is one page. The statement opens at the balance by the entries of earlier days, and each page closes at the balance after
/// the entry of its last line, which the next page opens at.
///
/// The pages are ones that `join_pages` accepts, opening at the balance before the day and closing at the balance by all entries
/// up to the day (`closes`). Each message is `accepted`: under all tables that hold the owner's head and the account's currency
/// with its decimals no test of a sent message fails, and the message says its page. Out of memory is the only error.
///
/// The history is legal for the accounts, of which `n` is one, and its pays can be written down; the home BIC meets its grammar;
/// the day lies in 1980 to 2079.
pub fn pages(
    alloc: Global,
    a: &Accounts,
    h: &History,
    n: AcctNo,
    day: Day,
) -> Result<List<Text>, Memory>
    requires legal { IsLegal a.now h.now.entries }
    requires shaped { AreShaped h.now.entries }
    requires home { IsBic a.now.home }
    requires listed { IsListed a.now n.0 }
    requires day { InCentury day }
    ensures value { IfOk result (λ texts. texts ≡ pages_of a.now h.now.entries n.0 day) }
    ensures closes { ClosesAtBalance a.now h.now.entries n.0 day }
    ensures accepted { OnOk result (PagesAreAccepted a.now h.now.entries n.0 day) }
{
    let index = HistoryIndex::new(alloc, a, h)?;
    pages_with(&index, n, day)
}
