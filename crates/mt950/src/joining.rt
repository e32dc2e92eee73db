//! The pages of a statement joined.

ghost use Rattle.std.specs.Prelude.{◌≡◌, ◌≤◌, ◌++◌, ◌+ℤ◌, All, IfOk, OnOk, length, option_map};
ghost use Rattle.std.specs.Ordering.{int_eq};
ghost use Rattle.corr_text.specs.First.{unless_fault};
ghost use Rattle.fin_contents.specs.Writing.{IsReadable};
ghost use Rattle.mt950.specs.Joining.{IsSmallLine, IsAddable, Joins, effects_of, first_gap, first_uncarried, follows, held, is_same_statement, joined_of, joined_with, lines_of_pages, most_pages, sum_test};
ghost use Rattle.mt950.specs.inner.Joining.{IsSum};
ghost use Rattle.mt950.specs.Page.{mt950_of};
ghost use Rattle.mt950.specs.declared.joining.PageFault.TheVariants.{Gap};

use crate::entry::Line61;
use crate::page::Page950;
use corr_ids::Day;
use corr_money::Ccy;
use corr_text::{List, Memory, Text};
use std::alloc::Global;

/// A statement: the pages of one account in their order, as one.
#[derive(Debug, Drop)]
pub struct Statement {
    /// Field 25, the account.
    pub account: Text,
    /// The currency of its balances and lines, and how many decimals it has.
    pub ccy: Ccy,
    pub decimals: u8,
    /// The balance before the lines, in minor units, credits positive.
    pub opening: i64,
    /// The lines of all pages in their order.
    pub lines: List<Line61>,
    /// The balance after the lines, likewise.
    pub closing: i64,
    /// The day of the last closing.
    pub day: Day,
}

/// Why pages are no statement. Pages are numbered from 1 by their place; balances and sums are in minor units, credits positive.
#[derive(Clone, Copy, Debug, PartialEq, Eq)]
pub enum PageFault {
    /// There is no page (1), or this one doesn't belong here: its account, currency, decimals or statement number is another than the
    /// first page's, its number doesn't follow, or it opens or closes the statement at another place than the first or the last.
    Gap {
        page: u32,
    },
    /// The page opens at another balance than the page before closed at.
    NotCarried {
        page: u32,
        closing: i64,
        opening: i64,
    },
    /// The opening and the lines don't give the closing; `sum` is what the lines add. A sum past the ends of 64 bits is told as
    /// that end.
    DoesNotAdd {
        opening: i64,
        sum: i64,
        closing: i64,
    },
    /// There was no memory for the statement.
    Memory,
}

impl From<Memory> for PageFault {
    ghost use Rattle.std.specs.Prelude.{◌≡◌};
    ghost use Rattle.mt950.specs.declared.joining.PageFault.TheVariants.{Memory as NoMemory};

    ghost from_gives = { λ _ e. e ≡ NoMemory };

    fn from(_e: Memory) -> PageFault {
        PageFault::Memory
    }
}

fn is_same_statement(first: &Page950, page: &Page950) -> bool
    ensures { result ≡ is_same_statement first.now page.now }
{
    page.account.bytes() == first.account.bytes()
        && page.ccy == first.ccy
        && page.decimals == first.decimals
        && page.number == first.number
}

/// Whether the page at a place, from 0, among so many belongs there after this first page.
fn follows(first: &Page950, count: usize, at: usize, page: &Page950) -> bool
    requires { at ≤ most_pages }
    ensures { result ≡ follows first.now count at page.now }
{
    is_same_statement(first, page)
        && page.page.unwrap_or(1) as u64 == first.page.unwrap_or(1) as u64 + at as u64
        && page.opening.last == (at == 0)
        && page.closing.last == (at + 1 == count)
}

fn first_gap(first: &Page950, pages: &[Page950]) -> Option<u32>
    requires { length pages.now ≤ most_pages }
    ensures { result ≡ first_gap first.now (length pages.now) 0 pages.now }
{
    for (at, page) in pages.iter().enumerate() {
        if !follows(first, pages.len(), at, page) {
            return Some(at as u32 + 1);
        }
    }
    None
}

fn opens_at(closing: i64, page: &Page950) -> bool
    ensures { result ≡ int_eq page.now.opening.signed closing }
{
    page.opening.signed == closing
}

/// Each page belongs at its place.
fn check_gaps(first: &Page950, pages: &[Page950]) -> Result<(), PageFault>
    requires { length pages.now ≤ most_pages }
    ensures { result ≡ unless_fault (option_map Gap (first_gap first.now (length pages.now) 0 pages.now)) }
{
    match first_gap(first, pages) {
        Some(page) => Err(PageFault::Gap { page }),
        None => Ok(()),
    }
}

/// Each page opens where the one before closed, the first as it does itself.
fn check_carried(first: &Page950, pages: &[Page950]) -> Result<(), PageFault>
    requires { length pages.now ≤ most_pages }
    ensures { result ≡ unless_fault (first_uncarried first.now pages.now) }
{
    let mut closing = first.opening.signed;
    for (at, page) in pages.iter().enumerate() {
        if !opens_at(closing, page) {
            return Err(PageFault::NotCarried {
                page: at as u32 + 1,
                closing,
                opening: page.opening.signed,
            });
        }
        closing = page.closing.signed;
    }
    Ok(())
}

fn push_lines(alloc: Global, lines: &[Line61], out: &mut List<Line61>) -> Result<(), Memory>
    ensures { OnOk result (out.new ≡ out.old ++ lines.now) }
{
    for line in lines {
        out.push(line.copy(alloc)?)?;
    }
    Ok(())
}

fn all_lines(alloc: Global, pages: &[Page950]) -> Result<List<Line61>, Memory>
    ensures { IfOk result (λ lines. lines ≡ lines_of_pages pages.now) }
{
    let mut lines = List::new(alloc);
    for page in pages {
        push_lines(alloc, page.lines.as_slice(), &mut lines)?;
    }
    Ok(lines)
}

fn effects_of(lines: &[Line61]) -> i128
    requires { All IsSmallLine lines.now }
    ensures sum { result ≡ effects_of lines.now }
    ensures bound { IsSum result }
{
    let mut sum = 0i128;
    for line in lines {
        sum += line.effect() as i128;
    }
    sum
}

/// A number held to the ends of 64 bits.
fn held(n: i128) -> i64
    ensures { result ≡ held n }
{
    if n <= i64::MIN as i128 {
        i64::MIN
    } else if i64::MAX as i128 <= n {
        i64::MAX
    } else {
        n as i64
    }
}

fn adds_up(opening: i64, sum: i128, closing: i64) -> bool
    requires { IsSum sum }
    ensures { result ≡ int_eq (opening +ℤ sum) closing }
{
    opening as i128 + sum == closing as i128
}

fn check_sum(first: &Page950, lines: &[Line61], last: &Page950) -> Result<(), PageFault>
    requires { All IsSmallLine lines.now }
    ensures { result ≡ sum_test first.now.opening.signed lines.now last.now.closing.signed }
{
    let sum = effects_of(lines);
    if adds_up(first.opening.signed, sum, last.closing.signed) {
        return Ok(());
    }
    Err(PageFault::DoesNotAdd {
        opening: first.opening.signed,
        sum: held(sum),
        closing: last.closing.signed,
    })
}

fn join_with(alloc: Global, first: &Page950, pages: &[Page950]) -> Result<Statement, PageFault>
    requires some { 1 ≤ length pages.now }
    requires few { length pages.now ≤ most_pages }
    requires small { All IsSmallLine (lines_of_pages pages.now) }
    ensures { Joins result (joined_with first.now pages.now) }
{
    check_gaps(first, pages)?;
    check_carried(first, pages)?;
    let last = &pages[pages.len() - 1];
    let lines = all_lines(alloc, pages)?;
    check_sum(first, lines.as_slice(), last)?;
    Ok(Statement {
        account: first.account.copy(alloc)?,
        ccy: first.ccy,
        decimals: first.decimals,
        opening: first.opening.signed,
        lines,
        closing: last.closing.signed,
        day: last.closing.day,
    })
}

/// The statement that pages are, in their order (docs/messages.md, "Pages of a statement").
///
/// `Gap`: there is no page (`page` 1), or the least page that doesn't belong at its place: its account, currency, decimals or
/// statement number differs from the first page's; its number isn't the first's plus its place less 1, where a number that isn't
/// given counts as 1; or it has the letter F in 60a and isn't the first, or M and is, or F in 62a and isn't the last, or M and is.
/// Else `NotCarried`: the least page that opens at another balance than the page before closed at. Else `DoesNotAdd`: the opening
/// of the first page and the effects of all lines don't give the closing of the last.
///
/// There are at most 50,000 pages, each of which `read_mt950` gives of fields that were cut from a text (its clause `written`).
/// So the statement's balances and amounts are below 10^14 minor units, with 4 decimals at most, and its lines give its closing
/// (`sound`).
#[tactic(auto, using(crate::proofs::Joins::small_pages), unfolding(crate::specs::Joining::joined_of))]
pub fn join_pages(alloc: Global, pages: &[Page950]) -> Result<Statement, PageFault>
    requires few { length pages.now ≤ most_pages }
    requires given { All (IsReadable mt950_of) pages.now }
    ensures joined { Joins result (joined_of pages.now) }
    ensures sound { IfOk result IsAddable }
{
    match pages {
        [first, ..] => join_with(alloc, first, pages),
        [] => Err(PageFault::Gap { page: 1 }),
    }
}
