//! Statements of small histories.

ghost use Rattle.std.specs.Prelude.{◌<◌, length};
ghost use Rattle.corr_ids.specs.Bic.{IsBic};
ghost use Rattle.day_model.specs.Chart.{IsListed};
ghost use Rattle.calls_statements.specs.inner.Grown.{IsGrown};

use crate::given::{DAY, accounts, charged, grown, is_only, returned};
use corr_ids::Day;
use corr_text::{List, Memory, Text};
use day_model::{Accounts, AcctNo, History};
use mt950::{Line61, Mark};
use statement::{HistoryIndex, PlacedPage, page_values, pages, pages_with};
use std::alloc::Global;
use std::test::Fail;

const DEBITED: &[u8] = b"{1:F01HOMEUS33AXXX0000000000}{2:I950ALPHDEFFXXXXN}{4:\r
:20:S2406030001P0001\r
:25:VALPHEUR\r
:28C:155/1\r
:60F:C240602EUR50000,00\r
:61:2406030603D1234,50S103REF1//P00000001\r
:62F:C240603EUR48765,50\r
-}";

const RETURNED: &[u8] = b"{1:F01HOMEUS33AXXX0000000000}{2:I950ALPHDEFFXXXXN}{4:\r
:20:S2406030001P0001\r
:25:VALPHEUR\r
:28C:155/1\r
:60F:C240602EUR50000,00\r
:61:2406030603D1234,50S103REF1//P00000001\r
:61:2406030603RD1234,50S202REF1//P00000002\r
:62F:C240603EUR50000,00\r
-}";

const QUIET: &[u8] = b"{1:F01HOMEUS33AXXX0000000000}{2:I950BETAFRPPXXXXN}{4:\r
:20:S2406030002P0001\r
:25:VBETAEUR\r
:28C:155/1\r
:60F:C240602EUR10000,00\r
:62F:C240603EUR10000,00\r
-}";

// The messages of an account, from its history.
fn printed(alloc: Global, a: &Accounts, h: &History, n: u32) -> Result<List<Text>, Memory>
    requires home { IsBic a.now.home }
    requires grown { (index : HistoryIndex) × IsGrown a.now h.now.entries index }
    requires listed { IsListed a.now n }
{
    pages(alloc, a, h, AcctNo(n), DAY)
}

// The same from its index.
fn printed_with(
    a: &Accounts,
    h: &History,
    index: &HistoryIndex,
    n: u32,
) -> Result<List<Text>, Memory>
    requires home { IsBic a.now.home }
    requires grown { IsGrown a.now h.now.entries index.now }
    requires listed { IsListed a.now n }
{
    pages_with(index, AcctNo(n), DAY)
}

// The messages of an account after so many entries of an amount: of their history, and of their index.
fn statements(
    alloc: Global,
    count: u32,
    amount: u64,
    n: u32,
) -> Result<(List<Text>, List<Text>), Fail> {
    let a = accounts(alloc)?;
    let (h, index) = grown(alloc, &a, count, amount)?;
    if n < 1 || a.count() < n {
        return Err("no account".into());
    }
    Ok((printed(alloc, &a, &h, n)?, printed_with(&a, &h, &index, n)?))
}

#[test]
fn a_payment_is_a_line(rt: HostRuntime) -> Result<(), Fail> {
    let (texts, with) = statements(rt.alloc(), 1, 123_450, 1)?;
    assert!(rt; is_only(&texts, DEBITED) && is_only(&with, DEBITED));
    Ok(())
}

#[test]
fn an_account_without_entries_has_a_page(rt: HostRuntime) -> Result<(), Fail> {
    let (texts, with) = statements(rt.alloc(), 1, 123_450, 2)?;
    assert!(rt; is_only(&texts, QUIET) && is_only(&with, QUIET));
    Ok(())
}

fn holds(text: &Text, part: &[u8]) -> bool
    requires { 0 < length part.now }
{
    text.bytes().windows(part.len()).any(|w| w == part)
}

// The messages of an account after an entry with a charge, from its index.
fn charged_statement(alloc: Global, n: u32) -> Result<List<Text>, Fail> {
    let a = accounts(alloc)?;
    let (h, index) = charged(alloc, &a)?;
    if n < 1 || a.count() < n {
        return Err("no account".into());
    }
    Ok(printed_with(&a, &h, &index, n)?)
}

// Whether there is one message, and it has a part.
fn only_holds(texts: &List<Text>, part: &[u8]) -> bool
    requires { 0 < length part.now }
{
    match texts.as_slice() {
        [only] => holds(only, part),
        _ => false,
    }
}

#[test]
fn a_payment_with_a_charge_is_a_line_of_each_account(rt: HostRuntime) -> Result<(), Fail> {
    let debited = charged_statement(rt.alloc(), 1)?;
    let credited = charged_statement(rt.alloc(), 3)?;
    let charged = charged_statement(rt.alloc(), 5)?;
    assert!(rt; is_only(&debited, DEBITED));
    assert!(rt;
        only_holds(
            &credited,
            b":61:2406030603C1229,50S103P00000001K1//P00000001"
        )
    );
    assert!(rt; only_holds(&charged, b":61:2406030603C5,00S103REF1//P00000001"));
    Ok(())
}

// The messages of an account after an entry and its return: of their history, and of their index.
fn returned_statements(alloc: Global, n: u32) -> Result<(List<Text>, List<Text>), Fail> {
    let a = accounts(alloc)?;
    let (h, index) = returned(alloc, &a, 3)?;
    if n < 1 || a.count() < n {
        return Err("no account".into());
    }
    Ok((printed(alloc, &a, &h, n)?, printed_with(&a, &h, &index, n)?))
}

#[test]
fn a_return_reverses_a_line(rt: HostRuntime) -> Result<(), Fail> {
    let (debited, with) = returned_statements(rt.alloc(), 1)?;
    assert!(rt; is_only(&debited, RETURNED) && is_only(&with, RETURNED));
    let (credited, with) = returned_statements(rt.alloc(), 3)?;
    let reversed = b":61:2406030603RC1234,50S202P00000001K1//P00000002";
    assert!(rt; only_holds(&credited, reversed) && only_holds(&with, reversed));
    Ok(())
}

// The pages of account 1 as values, from its index.
fn values(a: &Accounts, h: &History, index: &HistoryIndex) -> Result<List<PlacedPage>, Memory>
    requires home { IsBic a.now.home }
    requires grown { IsGrown a.now h.now.entries index.now }
    requires listed { IsListed a.now 1 }
{
    page_values(index, AcctNo(1), DAY)
}

fn are_reversed(lines: &[Line61]) -> bool {
    match lines {
        [paid, back] => paid.mark == Mark::D && back.mark == Mark::RD,
        _ => false,
    }
}

// One page, with the lines of the entries 1 and 2, of which the second reverses the first.
fn is_a_page_of_a_return(pages: &List<PlacedPage>) -> bool {
    match pages.as_slice() {
        [only] => {
            only.places.as_slice() == [1, 2].as_slice()
                && are_reversed(only.page.lines.as_slice())
                && only.page.closing.signed == 5_000_000
        }
        _ => false,
    }
}

fn values_of_a_return(alloc: Global) -> Result<List<PlacedPage>, Fail> {
    let a = accounts(alloc)?;
    let (h, index) = returned(alloc, &a, 3)?;
    if a.count() < 1 {
        return Err("no account".into());
    }
    Ok(values(&a, &h, &index)?)
}

#[test]
fn pages_are_values(rt: HostRuntime) -> Result<(), Fail> {
    let pages = values_of_a_return(rt.alloc())?;
    assert!(rt; is_a_page_of_a_return(&pages));
    Ok(())
}

// Two messages, each with these balances.
fn carries(texts: &List<Text>) -> bool {
    match texts.as_slice() {
        [first, second] => {
            holds(first, b":60F:C240602EUR50000,00")
                && holds(first, b":62M:C240603EUR49975,00")
                && holds(second, b":60M:C240603EUR49975,00")
                && holds(second, b":62F:C240603EUR49974,00")
        }
        _ => false,
    }
}

#[test]
fn pages_of_26_lines_carry_their_balance(rt: HostRuntime) -> Result<(), Fail> {
    let (texts, with) = statements(rt.alloc(), 26, 100, 1)?;
    assert!(rt; carries(&texts) && carries(&with));
    Ok(())
}

// The balance of account 1 before a day.
fn before(a: &Accounts, h: &History, index: &HistoryIndex, day: Day) -> i64
    requires grown { IsGrown a.now h.now.entries index.now }
    requires listed { IsListed a.now 1 }
{
    index.balance_before(AcctNo(1), day)
}

// Before the day of 26 entries, and before the next day.
fn balances(alloc: Global) -> Result<(i64, i64), Fail> {
    let a = accounts(alloc)?;
    let (h, index) = grown(alloc, &a, 26, 100)?;
    if a.count() < 1 {
        return Err("no account".into());
    }
    Ok((
        before(&a, &h, &index, DAY),
        before(&a, &h, &index, Day(19878)),
    ))
}

#[test]
fn an_index_tells_balances(rt: HostRuntime) -> Result<(), Fail> {
    let (first, next) = balances(rt.alloc())?;
    assert!(rt; first == 5_000_000 && next == 4_997_400);
    Ok(())
}

// The balance of account 1 up to and on the day, and how many movements are booked on it then.
fn on_the_day(a: &Accounts, h: &History, index: &HistoryIndex) -> (i64, usize)
    requires grown { IsGrown a.now h.now.entries index.now }
    requires listed { IsListed a.now 1 }
{
    let movements = index.booked_on(AcctNo(1), DAY);
    (index.balance_up_to(AcctNo(1), DAY), movements.len())
}

// The same after two entries.
fn of_two(alloc: Global) -> Result<(i64, usize), Fail> {
    let a = accounts(alloc)?;
    let (h, index) = grown(alloc, &a, 2, 100)?;
    if a.count() < 1 {
        return Err("no account".into());
    }
    Ok(on_the_day(&a, &h, &index))
}

#[test]
fn an_index_tells_a_day(rt: HostRuntime) -> Result<(), Fail> {
    let (balance, movements) = of_two(rt.alloc())?;
    assert!(rt; balance == 4_999_800 && movements == 2);
    Ok(())
}
