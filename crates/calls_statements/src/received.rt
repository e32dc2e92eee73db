//! A received statement against the books of the small bank.

ghost use Rattle.std.specs.Prelude.{◌≤◌, All, IfOk, IsTrue, length};
ghost use Rattle.day_model.specs.Chart.{IsListed};
ghost use Rattle.fin_fields.specs.Writing.{IsField};
ghost use Rattle.mt950.specs.Joining.{most_pages};
ghost use Rattle.mt950.specs.Page.{mt950_of};
ghost use Rattle.fin_contents.specs.Writing.{IsReadable};
ghost use Rattle.ref_tables.specs.Seen.{few_decimals};
ghost use Rattle.reconcile.specs.Bounds.{IsReceived};
ghost use Rattle.calls_statements.specs.inner.Grown.{IsGrown};

use crate::given::{accounts, grown, returned};
use corr_text::{List, Memory, Text};
use day_model::{Accounts, AcctNo, History};
use fin_fields::{Field, cut_fields};
use mt950::{Page950, Statement, join_pages, read_mt950};
use reconcile::{Compared, breaks, compare, few_compared, none_left_out, pieces};
use ref_tables::{RefTables, read_tables};
use statement::HistoryIndex;
use std::alloc::Global;
use std::test::Fail;

const VOSTRO: &[u8] = b":20:R
:25:VALPHEUR
:28C:155/1
:60F:C240602EUR10,
:61:240603C1234,5S103REF1//P
:61:240603D2,S103X//Q
:62F:C240603EUR1242,5
";

const NOSTRO: &[u8] = b":20:R
:25:NCORREUR
:28C:155/1
:60F:C240602EUR60000,
:61:240603D10,S202X//Y
:62F:C240603EUR59990,
";

const TOLD: &[u8] = b"STATEMENT NCORREUR 240603
THEIRS 00001 D 10,00 X
GAP 0,00 -10,00
";

const TOLD_OF_A_RETURN: &[u8] = b"STATEMENT NCORREUR 240603
OURS 00000001 C 1234,50 P00000001K1
OURS 00000002 D 1234,50 P00000001K1
THEIRS 00001 D 10,00 X
GAP 0,00 -10,00
";

pub fn tables(alloc: Global) -> Result<RefTables, Fail>
    ensures { IfOk result (λ t. IsTrue (few_decimals t.ccys)) }
{
    match read_tables(alloc, b"ALPHDEFF\n", b"EUR,2\n", b"") {
        Ok(tables) => Ok(tables),
        Err(_) => Err("no tables".into()),
    }
}

/// The fields of a short text.
#[tactic(auto, using(fin_fields::proofs::laws::Bounds::lines_few))]
pub fn cut(alloc: Global, text: &[u8]) -> Result<List<Field>, Fail>
    ensures few { IfOk result (λ fields. length fields ≤ 1000) }
    ensures fit { IfOk result (λ fields. All IsField fields) }
{
    if text.len() > 1000 {
        return Err("no fields".into());
    }
    match cut_fields(alloc, text) {
        Ok(fields) if fields.as_slice().len() <= 1000 => Ok(fields),
        _ => Err("no fields".into()),
    }
}

/// The page that a text says.
fn page_in(alloc: Global, text: &[u8]) -> Result<Page950, Fail>
    ensures { IfOk result (IsReadable mt950_of) }
{
    let tables = tables(alloc)?;
    let fields = cut(alloc, text)?;
    match read_mt950(alloc, fields.as_slice(), &tables) {
        Ok(page) => Ok(page),
        Err(_) => Err("no page".into()),
    }
}

/// The statement that its pages are.
fn joined(alloc: Global, pages: &[Page950]) -> Result<Statement, Fail>
    requires few { length pages.now ≤ most_pages }
    requires given { All (IsReadable mt950_of) pages.now }
    ensures { IfOk result IsReceived }
{
    match join_pages(alloc, pages) {
        Ok(statement) => Ok(statement),
        Err(_) => Err("no statement".into()),
    }
}

// The statement against the entries of account 1.
fn compared(alloc: Global, a: &Accounts, h: &History, s: &Statement) -> Result<Compared, Memory>
    requires grown { (index : HistoryIndex) × IsGrown a.now h.now.entries index }
    requires listed { IsListed a.now 1 }
    requires received { IsReceived s.now }
{
    compare(alloc, a, h, AcctNo(1), s)
}

// What is told of pages.
fn told(alloc: Global, a: &Accounts, h: &History, pages: Vec<Page950>) -> Result<Text, Memory>
    requires grown { (index : HistoryIndex) × IsGrown a.now h.now.entries index }
    requires few { length pages.items ≤ most_pages }
    requires given { All (IsReadable mt950_of) pages.items }
{
    breaks(alloc, a, h, pages)
}

fn is_paired(compared: &Compared) -> bool {
    compared.pairs.as_slice() == [(1, 1)].as_slice()
        && compared.ours.as_slice() == [2].as_slice()
        && compared.theirs.as_slice() == [2].as_slice()
        && compared.opening_gap == 5_001_000
        && compared.closing_gap == 4_877_350
}

// Two entries of 1234,50 against a statement with one line for them: whether it takes the first.
fn takes_the_first(alloc: Global) -> Result<bool, Fail> {
    let a = accounts(alloc)?;
    let given = grown(alloc, &a, 2, 123_450)?;
    if a.count() < 1 {
        return Err("no account".into());
    }
    let pages = [page_in(alloc, VOSTRO)?];
    let statement = joined(alloc, &pages)?;
    Ok(is_paired(&compared(alloc, &a, &given.0, &statement)?))
}

#[test]
fn a_line_takes_the_first_of_two_entries(rt: HostRuntime) -> Result<(), Fail> {
    assert!(rt; takes_the_first(rt.alloc())?);
    Ok(())
}

// The laws are theorems, and their calls do nothing. Promises nothing, so that the test carries none of them.
fn laws() {
    few_compared();
    none_left_out();
}

// What is told of a statement with a line that no entry says.
fn told_of_a_line(alloc: Global) -> Result<Text, Fail> {
    laws();
    let a = accounts(alloc)?;
    let (h, _index) = grown(alloc, &a, 2, 123_450)?;
    let mut pages = Vec::new(alloc);
    pages.push(page_in(alloc, NOSTRO)?)?;
    Ok(told(alloc, &a, &h, pages)?)
}

#[test]
fn a_line_without_an_entry_is_told(rt: HostRuntime) -> Result<(), Fail> {
    let text = told_of_a_line(rt.alloc())?;
    assert!(rt; text.bytes() == TOLD);
    Ok(())
}

// What is told of that statement where an entry of ours and its return are on the account.
fn told_of_a_return(alloc: Global) -> Result<Text, Fail> {
    let a = accounts(alloc)?;
    let (h, _index) = returned(alloc, &a, 4)?;
    let mut pages = Vec::new(alloc);
    pages.push(page_in(alloc, NOSTRO)?)?;
    Ok(told(alloc, &a, &h, pages)?)
}

#[test]
fn a_return_is_told_by_its_side(rt: HostRuntime) -> Result<(), Fail> {
    let text = told_of_a_return(rt.alloc())?;
    assert!(rt; text.bytes() == TOLD_OF_A_RETURN);
    Ok(())
}

// How many statements the pages of two accounts are.
fn count_of_pieces(alloc: Global, pages: Vec<Page950>) -> Result<usize, Memory>
    requires { All (IsReadable mt950_of) pages.items }
{
    Ok(pieces(alloc, pages)?.len())
}

fn pieces_of_two(alloc: Global) -> Result<usize, Fail> {
    let mut pages = Vec::new(alloc);
    pages.push(page_in(alloc, VOSTRO)?)?;
    pages.push(page_in(alloc, NOSTRO)?)?;
    Ok(count_of_pieces(alloc, pages)?)
}

#[test]
fn pages_of_two_accounts_are_two_pieces(rt: HostRuntime) -> Result<(), Fail> {
    assert_eq!(rt; pieces_of_two(rt.alloc())?, 2);
    Ok(())
}
