//! A small bank, and its history of a day.

ghost use Rattle.std.specs.Prelude.{◌≡◌, [], IfOk, OnOk};
ghost use Rattle.corr_ids.specs.Bic.{IsBic};
ghost use Rattle.day_model.specs.Shape.{HasShape};
ghost use Rattle.calls_statements.specs.inner.Grown.{IsGrown};

use corr_ids::{Bic, Day, read_bic};
use corr_money::Ccy;
use corr_text::{List, Memory, Text, put_digits};
use day_model::{Account, Accounts, Entry, History, Pay, decide, rows_hold};
use jrn_codec::read_entry;
use statement::HistoryIndex;
use std::alloc::Global;
use std::test::Fail;

/// 3 June 2024.
pub const DAY: Day = Day(19877);

/// The bank of account 1.
pub const ALPHA: Bic = Bic {
    head: *b"ALPHDEFF",
    branch: *b"XXX",
};

const BETA: Bic = Bic {
    head: *b"BETAFRPP",
    branch: *b"XXX",
};

const CORR: Bic = Bic {
    head: *b"CORRBEBB",
    branch: *b"XXX",
};

// The record of an entry with three legs: a debit of 1234,50, and credits of 1229,50 and 5,00.
const CHARGED: &[u8] = b"\0240603ALPHDEFFAXXX0001000001\x01\0\0\0\x4d\xa5\0\0\x4d\xa5\0\
\x03\0\x01\0\0\0\0\0\0\x01\xe2\x3a\0\x04REF1\0\x03\x01\0\0\0\0\0\x01\xe0\x46\x01\x01\
\0\x05\x01\0\0\0\0\0\0\x01\xf4\0\x04REF1\x01\x04ALPHDEFFXXX\x01\0\0\0\x0a:20:REF1\r\n";

// The record of such an entry that is sent on: 1229,50 of it go to account 2, for a customer of its bank.
const CHARGED_ONWARD: &[u8] = b"\0240603ALPHDEFFAXXX0001000001\x01\0\0\0\x4d\xa5\0\0\x4d\xa5\0\
\x03\0\x01\0\0\0\0\0\0\x01\xe2\x3a\0\x04REF1\0\x02\x01\0\0\0\0\0\x01\xe0\x46\x01\x01\
\0\x05\x01\0\0\0\0\0\0\x01\xf4\0\x04REF1\x02\x01BETAFRPPXXX\x02\0\x04ALPHDEFFXXX\x01\0\0\0\x67\
:20:REF1\r\n:23B:CRED\r\n:32A:240603EUR1234,5\r\n:50K:A PAYER\r\n:57A:BETAFRPP\r\n:59:/CUST9\r\nA PAYEE\r\n\
:71A:SHA\r\n";

fn row(alloc: Global, id: &[u8], kind: u8, owner: Bic, opening: i64) -> Result<Account, Memory> {
    Ok(Account {
        id: Text::from_bytes(alloc, id)?,
        kind,
        owner,
        ccy: Ccy(*b"EUR"),
        decimals: 2,
        floor: -90_000_000_000,
        ceil: 90_000_000_000,
        opening,
    })
}

fn rows(alloc: Global, home: Bic) -> Result<List<Account>, Memory> {
    let mut rows = List::new(alloc);
    rows.push(row(alloc, b"VALPHEUR", b'V', ALPHA, 5_000_000)?)?;
    rows.push(row(alloc, b"VBETAEUR", b'V', BETA, 1_000_000)?)?;
    rows.push(row(alloc, b"CUST1", b'C', home, 0)?)?;
    rows.push(row(alloc, b"NCORREUR", b'N', CORR, -6_000_000)?)?;
    rows.push(row(alloc, b"FEEEUR", b'F', home, 0)?)?;
    Ok(rows)
}

/// The accounts.
pub fn accounts(alloc: Global) -> Result<Accounts, Fail>
    ensures home { IfOk result (λ a. IsBic a.home) }
    ensures unchanged { IfOk result (λ a. a.changes ≡ []) }
{
    let Some(home) = read_bic(b"HOMEUS33") else {
        return Err("no home".into());
    };
    let rows = rows(alloc, home)?;
    if !rows_hold(rows.as_slice()) {
        return Err("no rows".into());
    }
    Ok(Accounts::new(home, rows)?)
}

// The record of an entry of the day: an amount in minor units from account 1 to another, booked. The number is that of its
// reference.
fn record(alloc: Global, number: u32, amount: u64, to: u8) -> Result<Text, Memory> {
    let amount = amount.to_be_bytes();
    let mut bytes = Text::from_bytes(alloc, b"\0240603ALPHDEFFAXXX0001")?;
    put_digits(alloc, u64::from(number), 6, &mut bytes)?;
    bytes.push(b"\x01\0\0\0\x4d\xa5\0\0\x4d\xa5\0\x02\0\x01\0")?;
    bytes.push(&amount)?;
    bytes.push(b"\0\x04REF1\0")?;
    bytes.push(&[to, 1])?;
    bytes.push(&amount)?;
    bytes.push(b"\x01\x01\x01\x04ALPHDEFFXXX\x01\0\0\0\x0a:20:REF1\r\n")?;
    Ok(bytes)
}

// The record of the return of that entry, where it is the first of the journal.
fn return_record(alloc: Global, amount: u64, to: u8) -> Result<Text, Memory> {
    let amount = amount.to_be_bytes();
    let mut bytes = Text::from_bytes(alloc, b"\0800101HOMEUS33RXXX0000000001")?;
    bytes.push(b"\x02\0\0\0\x4d\xa5\0\0\x4d\xa5\0\x02\0")?;
    bytes.push(&[to, 0])?;
    bytes.push(&amount)?;
    bytes.push(b"\0\x0bP00000001K1\0\x01\x01")?;
    bytes.push(&amount)?;
    bytes.push(b"\0\x04REF1\x01\x05ALPHDEFFXXX\x02\0\0\0\x1a:20:P00000001R\r\n:21:REF1\r\n")?;
    Ok(bytes)
}

/// The pay of that entry, to account 3.
pub fn pay(alloc: Global, number: u32, amount: u64) -> Result<Pay, Fail>
    ensures { IfOk result HasShape }
{
    let bytes = record(alloc, number, amount, 3)?;
    pay_in(alloc, bytes.bytes())
}

// The pay of the first entry, 1234,50 to an account.
fn pay_to(alloc: Global, to: u8) -> Result<Pay, Fail>
    ensures { IfOk result HasShape }
{
    let bytes = record(alloc, 1, 123_450, to)?;
    pay_in(alloc, bytes.bytes())
}

// The pay of its return.
fn return_pay(alloc: Global, to: u8) -> Result<Pay, Fail>
    ensures { IfOk result HasShape }
{
    let bytes = return_record(alloc, 123_450, to)?;
    pay_in(alloc, bytes.bytes())
}

/// The pay of an entry of the day with a charge: 1234,50 from account 1, 1229,50 of it to account 3 and 5,00 to account 5.
pub fn charged_pay(alloc: Global) -> Result<Pay, Fail>
    ensures { IfOk result HasShape }
{
    pay_in(alloc, CHARGED)
}

/// The pay of an entry of the day with a charge, which is sent on to the bank of account 2.
pub fn charged_onward(alloc: Global) -> Result<Pay, Fail>
    ensures { IfOk result HasShape }
{
    pay_in(alloc, CHARGED_ONWARD)
}

// The pay of an entry's record.
fn pay_in(alloc: Global, record: &[u8]) -> Result<Pay, Fail>
    ensures { IfOk result HasShape }
{
    match read_entry(alloc, record) {
        Ok(entry) => Ok(entry.pay),
        Err(_) => Err("no entry".into()),
    }
}

/// Enters a pay that fits, and adds its entry to the index.
pub fn enter(a: &Accounts, h: &mut History, index: &mut HistoryIndex, pay: Pay) -> Result<(), Fail>
    requires shape { HasShape pay }
    requires grown { IsGrown a.now h.old.entries index.old }
    ensures { OnOk result (IsGrown a.now h.new.entries index.new) }
{
    if !a.fits(&pay) || h.find(&pay.mir).is_some() || h.len() >= 100 {
        return Err("no entry".into());
    }
    let outcome = decide(a, h, &pay);
    let entry = Entry {
        pay,
        day: DAY,
        outcome,
    };
    index.add(&entry)?;
    h.push(entry)?;
    Ok(())
}

/// So many entries of the day, each of this amount from account 1 to account 3, and their index, which grew entry by entry.
#[tactic(auto, using(day_model::proofs::laws::Growth::legal_here))]
pub fn grown(
    alloc: Global,
    a: &Accounts,
    count: u32,
    amount: u64,
) -> Result<(History, HistoryIndex), Fail>
    requires { a.now.changes ≡ [] }
    ensures { IfOk result (λ g. IsGrown a.now g.0.entries g.1) }
{
    let mut h = History::new(alloc);
    let mut index = HistoryIndex::new(alloc, a, &h)?;
    for number in 0..count {
        enter(a, &mut h, &mut index, pay(alloc, number, amount)?)?;
    }
    Ok((h, index))
}

/// The entry of the day with a charge, and its index.
#[tactic(auto, using(day_model::proofs::laws::Growth::legal_here))]
pub fn charged(alloc: Global, a: &Accounts) -> Result<(History, HistoryIndex), Fail>
    requires { a.now.changes ≡ [] }
    ensures { IfOk result (λ g. IsGrown a.now g.0.entries g.1) }
{
    let mut h = History::new(alloc);
    let mut index = HistoryIndex::new(alloc, a, &h)?;
    enter(a, &mut h, &mut index, charged_pay(alloc)?)?;
    Ok((h, index))
}

/// An entry of the day, 1234,50 from account 1 to an account, and its return on that day, and their index.
#[tactic(auto, using(day_model::proofs::laws::Growth::legal_here))]
pub fn returned(alloc: Global, a: &Accounts, to: u8) -> Result<(History, HistoryIndex), Fail>
    requires { a.now.changes ≡ [] }
    ensures { IfOk result (λ g. IsGrown a.now g.0.entries g.1) }
{
    let mut h = History::new(alloc);
    let mut index = HistoryIndex::new(alloc, a, &h)?;
    enter(a, &mut h, &mut index, pay_to(alloc, to)?)?;
    enter(a, &mut h, &mut index, return_pay(alloc, to)?)?;
    Ok((h, index))
}

/// Whether there is one text, and it is this.
pub fn is_only(texts: &List<Text>, text: &[u8]) -> bool {
    match texts.as_slice() {
        [only] => only.bytes() == text,
        _ => false,
    }
}
