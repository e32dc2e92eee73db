//! What is told of the pages that were received.

ghost use Rattle.std.specs.Prelude.{◌≡◌, ◌≤◌, ◌++◌, All, IfOk, IfSome, OnOk, length};
ghost use Rattle.corr_ids.specs.Day.{InCentury};
ghost use Rattle.day_model.specs.Chart.{IsListed};
ghost use Rattle.day_model.specs.Legal.{IsLegal};
ghost use Rattle.fin_contents.specs.Writing.{IsReadable};
ghost use Rattle.mt950.specs.Joining.{most_pages};
ghost use Rattle.mt950.specs.Page.{mt950_of};
ghost use Rattle.statement.specs.Seen.{SeenBook};
ghost use Rattle.statement.specs.Valid.{AreShaped};
ghost use Rattle.reconcile.specs.Bounds.{IsReceived};
ghost use Rattle.reconcile.specs.inner.Bounds.{Compares, IsIndexFor};
ghost use Rattle.reconcile.specs.Breaks.{breaks_of, is_of_statement, nostro_of, piece_left, piece_text, statement_heading, statement_left, statement_text};
ghost use Rattle.reconcile.specs.inner.Breaks.{Adds};
ghost use Rattle.reconcile.specs.Comparison.{compared_of, ours_of};
ghost use Rattle.reconcile.specs.Lines.{compared_lines};

use crate::comparing::compare_with;
use crate::grouping::pieces;
use crate::lines::{put_compared, put_fault};
use corr_ids::put_yymmdd;
use corr_report::put_word;
use corr_text::{Memory, Text};
use day_model::{Account, Accounts, AcctNo, History, Kind};
use mt950::{Page950, Statement, join_pages};
use statement::HistoryIndex;
use std::alloc::Global;

/// The most of our entries that all statements together are compared with.
const MOST_COMPARED: usize = 300_000;

/// Whether an account is a nostro account in the statement's currency, with its decimals.
fn is_of_statement(account: &Account, s: &Statement) -> bool
    ensures { result ≡ is_of_statement s.now account.now }
{
    account.kind == Kind::Nostro.letter() && account.ccy == s.ccy && account.decimals == s.decimals
}

/// Our account of which a statement is: a nostro account of its id, in its currency with its decimals.
fn nostro(a: &Accounts, s: &Statement) -> Option<AcctNo>
    ensures value { result ≡ nostro_of a.now s.now }
    ensures listed { IfSome result (λ n. IsListed a.now n.0) }
{
    let n = a.find(s.account.bytes())?;
    if !is_of_statement(a.get(n), s) {
        return None;
    }
    Some(n)
}

/// Adds the lines of a statement of our account against our entries.
fn put_lines(
    alloc: Global,
    ix: &HistoryIndex,
    n: AcctNo,
    s: &Statement,
    out: &mut Text,
) -> Result<(), Memory>
    requires book { (book : SeenBook) × Compares ix.now n.0 s.now book }
    ensures { OnOk result ((book : SeenBook) → Compares ix.now n.0 s.now book → out.new ≡ out.old ++ compared_lines s.now.decimals (ours_of book.chart n.0 book.entries s.now) s.now.lines (compared_of book.chart book.entries n.0 s.now)) }
{
    let compared = compare_with(alloc, ix, n, s)?;
    let entries = ix.booked_on(n, s.day);
    put_compared(
        alloc,
        &compared,
        entries,
        s.lines.as_slice(),
        s.decimals,
        out,
    )
}

/// Adds what is told of a statement after its name: that it is of no account of ours, that it is left out since more of our entries
/// would be compared than may be, or its lines against our entries. Answers how many may be compared after it.
fn put_statement(
    alloc: Global,
    a: &Accounts,
    ix: &HistoryIndex,
    s: &Statement,
    room: usize,
    out: &mut Text,
) -> Result<usize, Memory>
    requires book { (book : SeenBook) × IsIndexFor ix.now a.now book }
    requires received { IsReceived s.now }
    ensures { IfOk result (λ left. (book : SeenBook) → IsIndexFor ix.now a.now book → Adds out.old out.new (statement_text room book.chart book.entries s.now) left (statement_left room book.chart book.entries s.now)) }
{
    let Some(n) = nostro(a, s) else {
        out.push(b" UNKNOWN\n")?;
        return Ok(room);
    };
    let count = ix.booked_on(n, s.day).len();
    if room < count {
        out.push(b" LEFT OUT\n")?;
        return Ok(room);
    }
    out.push(b"\n")?;
    put_lines(alloc, ix, n, s, out)?;
    Ok(room - count)
}

/// Adds the name of pages that belong together: their account, and the day of the last closing.
fn put_heading(last: &Page950, out: &mut Text) -> Result<(), Memory>
    requires { InCentury last.now.closing.day }
    ensures { OnOk result (out.new ≡ out.old ++ statement_heading last.now) }
{
    out.push(b"STATEMENT")?;
    put_word(last.account.bytes(), out)?;
    out.push(b" ")?;
    put_yymmdd(last.closing.day, out)
}

/// Adds what is told of pages that belong together: their account and day, then the fault by which they are no statement, or what
/// is told of the statement. Answers how many entries may be compared after them.
fn put_piece(
    alloc: Global,
    a: &Accounts,
    ix: &HistoryIndex,
    pages: &[Page950],
    room: usize,
    out: &mut Text,
) -> Result<usize, Memory>
    requires book { (book : SeenBook) × IsIndexFor ix.now a.now book }
    requires few { length pages.now ≤ most_pages }
    requires given { All (IsReadable mt950_of) pages.now }
    ensures { IfOk result (λ left. (book : SeenBook) → IsIndexFor ix.now a.now book → Adds out.old out.new (piece_text room book.chart book.entries pages.now) left (piece_left room book.chart book.entries pages.now)) }
{
    let [first, ..] = pages else {
        return Ok(room);
    };
    put_heading(&pages[pages.len() - 1], out)?;
    match join_pages(alloc, pages) {
        Ok(statement) => put_statement(alloc, a, ix, &statement, room, out),
        Err(fault) => {
            put_fault(alloc, fault, first.decimals, out)?;
            out.push(b"\n")?;
            Ok(room)
        }
    }
}

/// What is told of pages that were received, in the order of the file (docs/operating.md, "Reconciliation"): of each statement that
/// they are, or should be, in the order of the first pages, its account and day, and on the same line that it has a gap, isn't
/// carried over, doesn't add up, or is of no account of ours. Else the lines and our entries that are pairs follow, what is left of
/// ours and of theirs, and the gaps. All statements together are compared with 300,000 of our entries at most, as many as a journal
/// has legs, and one that would pass that is told as left out: none where each account and day come once (`none_left_out`).
///
/// There are at most 50,000 pages, and each is one that `read_mt950` gives; the history is legal and its pays can be written down.
/// `Memory`: there was no room for the text.
pub fn breaks(alloc: Global, a: &Accounts, h: &History, pages: Vec<Page950>) -> Result<Text, Memory>
    requires legal { IsLegal a.now h.now.entries }
    requires shaped { AreShaped h.now.entries }
    requires few { length pages.items ≤ most_pages }
    requires given { All (IsReadable mt950_of) pages.items }
    ensures { IfOk result (λ text. text ≡ breaks_of a.now h.now.entries pages.items) }
{
    let index = HistoryIndex::new(alloc, a, h)?;
    let groups = pieces(alloc, pages)?;
    let mut out = Text::from_bytes(alloc, b"")?;
    let mut room = MOST_COMPARED;
    for piece in &groups {
        room = put_piece(alloc, a, &index, piece.as_slice(), room, &mut out)?;
    }
    Ok(out)
}
