//! Accounts in euro, a pay of 0,03 between two of them, and its history.

ghost use Rattle.std.specs.Prelude.{◌≡◌, ◌∷◌, [], IfOk, OnOk, length};
ghost use Rattle.day_model.specs.Fit.{FitsAccounts};
ghost use Rattle.day_model.specs.Legal.{IsLegal};
ghost use Rattle.day_model.specs.Next.{entry_of};
ghost use Rattle.corr_report.specs.Bookings.{AreInCentury};
ghost use Rattle.desk_rows.specs.Entries.{AreValued};

use corr_ids::{Bic, Day, Mir};
use corr_money::{Ccy, Minor};
use corr_text::{List, Memory, Text};
use day_model::{
    Account, Accounts, AcctNo, Entry, History, Leg, Mt, Pay, Quote, Side, decide, rows_hold,
};
use std::alloc::Global;
use std::test::Fail;

pub(crate) const HOME: Bic = Bic {
    head: *b"HOMEUS33",
    branch: *b"XXX",
};

pub(crate) const OTHER: Bic = Bic {
    head: *b"ALPHDEFF",
    branch: *b"XXX",
};

pub(crate) const EUR: Ccy = Ccy(*b"EUR");

pub(crate) const FIRST: Mir = Mir(*b"240603ALPHDEFFAXXX0001000001");

// 3 June 2024.
pub(crate) const TODAY: Day = Day(19877);

fn account(
    alloc: Global,
    id: &[u8],
    kind: u8,
    owner: Bic,
    opening: i64,
) -> Result<Account, Memory> {
    Ok(Account {
        id: Text::from_bytes(alloc, id)?,
        kind,
        owner,
        ccy: EUR,
        decimals: 2,
        floor: -9,
        ceil: 9,
        opening,
    })
}

fn book(first: Account, second: Account, mut rows: List<Account>) -> Result<Accounts, Fail>
    ensures { IfOk result (λ a. a.changes ≡ []) }
{
    rows.push(first)?;
    rows.push(second)?;
    if !rows_hold(rows.as_slice()) {
        return Err("no rows")?;
    }
    Ok(Accounts::new(HOME, rows)?)
}

// Accounts A and B of customers, with 0,05 and as much less.
pub(crate) fn customers(alloc: Global) -> Result<Accounts, Fail>
    ensures { IfOk result (λ a. a.changes ≡ []) }
{
    let first = account(alloc, b"A", b'C', HOME, 5)?;
    let second = account(alloc, b"B", b'C', HOME, -5)?;
    book(first, second, List::new(alloc))
}

// Account F for charges, and accounts A and B of customers, with 0,05 and as much less.
pub(crate) fn customers_and_fees(alloc: Global) -> Result<Accounts, Fail>
    ensures { IfOk result (λ a. a.changes ≡ []) }
{
    let mut rows = List::new(alloc);
    rows.push(account(alloc, b"F", b'F', HOME, 0)?)?;
    let first = account(alloc, b"A", b'C', HOME, 5)?;
    let second = account(alloc, b"B", b'C', HOME, -5)?;
    book(first, second, rows)
}

// Account V of another bank, and account C of a customer.
pub(crate) fn bank_and_customer(alloc: Global) -> Result<Accounts, Fail> {
    let first = account(alloc, b"V", b'V', OTHER, 0)?;
    let second = account(alloc, b"C", b'C', HOME, 0)?;
    book(first, second, List::new(alloc))
}

// The same, and after them account F for charges.
pub(crate) fn bank_customer_and_fees(alloc: Global) -> Result<Accounts, Fail> {
    let mut rows = List::new(alloc);
    rows.push(account(alloc, b"V", b'V', OTHER, 0)?)?;
    let second = account(alloc, b"C", b'C', HOME, 0)?;
    let third = account(alloc, b"F", b'F', HOME, 0)?;
    book(second, third, rows)
}

pub(crate) fn leg(alloc: Global, account: u32, side: Side, amount: u64) -> Result<Leg, Memory> {
    Ok(Leg {
        account: AcctNo(account),
        side,
        amount: Minor(amount),
        quote: Quote::Theirs(Text::from_bytes(alloc, b"R")?),
    })
}

// 0,03 from the first account to the second.
pub(crate) fn pay(alloc: Global) -> Result<Pay, Memory>
    ensures { IfOk result (λ p. p.value ≡ TODAY) }
{
    let mut legs = List::new(alloc);
    legs.push(leg(alloc, 1, Side::Debit, 3)?)?;
    legs.push(leg(alloc, 2, Side::Credit, 3)?)?;
    pay_of(alloc, legs)
}

// 0,03 from the second account to the third, of which 0,01 are a charge and go to the first.
pub(crate) fn charged(alloc: Global) -> Result<Pay, Memory>
    ensures { IfOk result (λ p. p.value ≡ TODAY) }
{
    let mut legs = List::new(alloc);
    legs.push(leg(alloc, 2, Side::Debit, 3)?)?;
    legs.push(leg(alloc, 3, Side::Credit, 2)?)?;
    legs.push(leg(alloc, 1, Side::Credit, 1)?)?;
    pay_of(alloc, legs)
}

fn pay_of(alloc: Global, legs: List<Leg>) -> Result<Pay, Memory>
    ensures { IfOk result (λ p. p.value ≡ TODAY) }
{
    Ok(Pay {
        mir: FIRST,
        mt: Mt::Transfer,
        uetr: None,
        text: Text::from_bytes(alloc, b"-")?,
        value: TODAY,
        legs,
        orders: List::new(alloc),
    })
}

// Enters the first pay, with its outcome.
#[tactic(auto, using(day_model::proofs::laws::Growth::legal_here))]
fn enter(a: &Accounts, h: &mut History, pay: Pay) -> Result<(), Memory>
    requires bare { a.now.changes ≡ [] }
    requires empty { h.old.entries ≡ [] }
    requires fits { FitsAccounts a.now pay }
    ensures { OnOk result (h.new.entries ≡ entry_of a.now [] pay TODAY ∷ []) }
{
    h.reserve()?;
    let outcome = decide(a, h, &pay);
    h.push(Entry {
        pay,
        day: TODAY,
        outcome,
    })?;
    Ok(())
}

// The history of a pay.
#[tactic(auto, using(crate::proofs::One::only_legal, crate::proofs::One::only_day, crate::proofs::One::only_value))]
pub(crate) fn history_of(alloc: Global, a: &Accounts, pay: Pay) -> Result<History, Memory>
    requires bare { a.now.changes ≡ [] }
    requires fits { FitsAccounts a.now pay }
    requires value { pay.value ≡ TODAY }
    ensures legal { IfOk result (λ h. IsLegal a.now h.entries) }
    ensures one { IfOk result (λ h. length h.entries ≡ 1) }
    ensures days { IfOk result (λ h. AreInCentury h.entries) }
    ensures values { IfOk result (λ h. AreValued h.entries) }
{
    let mut h = History::new(alloc);
    enter(a, &mut h, pay)?;
    Ok(h)
}
