//! Accounts that change between entries: one is opened, limits change, and changes are refused. Copies, and equal pays.

ghost use Rattle.std.specs.Prelude.{◌≡◌, [], IfOk, OnOk};
ghost use Rattle.day_model.specs.Balance.{balance_of};
ghost use Rattle.day_model.specs.Chart.{IsFormed};
ghost use Rattle.day_model.specs.Fit.{FitsAccounts};
ghost use Rattle.day_model.specs.Legal.{IsInForm, IsLegal, balance_named};

use corr_ids::{Bic, Day, Mir, Uetr};
use corr_money::{Ccy, Minor};
use corr_text::{List, Memory, Text, put_digits};
use day_model::{
    Account, Accounts, AcctNo, Entry, History, Leg, Mt, Order, Outcome, Pay, Quote, Refusal, Side,
    What, balance, decide, has_form, rows_hold,
};
use std::alloc::Global;
use std::test::Fail;

const HOME: Bic = Bic {
    head: *b"HOMEUS33",
    branch: *b"XXX",
};

// 3 June 2024.
const TODAY: Day = Day(19877);

// A customer's account in euro, with limits of 0,09 on both sides.
fn account(alloc: Global, id: &[u8], opening: i64) -> Result<Account, Memory> {
    Ok(Account {
        id: Text::from_bytes(alloc, id)?,
        kind: b'C',
        owner: HOME,
        ccy: Ccy(*b"EUR"),
        decimals: 2,
        floor: -9,
        ceil: 9,
        opening,
    })
}

fn book(rows: List<Account>) -> Result<Accounts, Fail>
    ensures { IfOk result (λ a. a.changes ≡ []) }
{
    if !rows_hold(rows.as_slice()) {
        return Err("no rows")?;
    }
    Ok(Accounts::new(HOME, rows)?)
}

// Accounts A and B, with 0,05 and as much less.
fn two(alloc: Global) -> Result<Accounts, Fail>
    ensures { IfOk result (λ a. a.changes ≡ []) }
{
    let mut rows = List::new(alloc);
    rows.push(account(alloc, b"A", 5)?)?;
    rows.push(account(alloc, b"B", -5)?)?;
    book(rows)
}

// As many accounts as a book has.
fn thousand(alloc: Global) -> Result<Accounts, Fail> {
    let mut rows = List::new(alloc);
    for n in 0..1000_u64 {
        let mut id = Text::from_bytes(alloc, b"A")?;
        put_digits(alloc, n, 4, &mut id)?;
        rows.push(account(alloc, id.bytes(), 0)?)?;
    }
    book(rows)
}

fn limits(account: u32, floor: i64, ceil: i64) -> What {
    What::Limits {
        account: AcctNo(account),
        floor,
        ceil,
    }
}

// Why the opening of an account is refused. Promises nothing.
fn refused(a: &Accounts, account: Account) -> Option<Refusal> {
    a.refuses(&What::Opened(account), 0)
}

// Makes a change where it is legal, and says whether it is; the balance is that of the account that limits name.
fn change(a: &mut Accounts, h: &History, what: What, balance: i64) -> Result<bool, Fail>
    requires legal { IsLegal a.old h.now.entries }
    requires form { IsInForm what }
    requires named { balance ≡ balance_named (balance_of a.old h.now.entries) what }
    ensures { OnOk result (IsLegal a.new h.now.entries) }
{
    if a.changes().len() > 9 || a.refuses(&what, balance).is_some() {
        return Ok(false);
    }
    a.change(h, what)?;
    Ok(true)
}

// An account to open, in the form of its columns.
fn new_account(alloc: Global, id: &[u8]) -> Result<Account, Fail>
    ensures { IfOk result IsFormed }
{
    let account = account(alloc, id, 0)?;
    if !has_form(&account) {
        return Err("no account")?;
    }
    Ok(account)
}

// Opens an account with this id where it may be opened, and says whether it is.
fn open(alloc: Global, a: &mut Accounts, h: &History, id: &[u8]) -> Result<bool, Fail>
    requires { IsLegal a.old h.now.entries }
    ensures { OnOk result (IsLegal a.new h.now.entries) }
{
    let what = What::Opened(new_account(alloc, id)?);
    change(a, h, what, 0)
}

// Sets the limits of account 3 where they may be set, and says whether they are.
fn limit(a: &mut Accounts, h: &History, floor: i64, ceil: i64) -> Result<bool, Fail>
    requires { IsLegal a.old h.now.entries }
    ensures { OnOk result (IsLegal a.new h.now.entries) }
{
    if a.count() < 3 {
        return Ok(false);
    }
    let account = AcctNo(3);
    let before = balance(a, h, account);
    let what = What::Limits {
        account,
        floor,
        ceil,
    };
    change(a, h, what, before)
}

fn leg(account: u32, side: Side, amount: u64, quote: Quote) -> Leg {
    Leg {
        account: AcctNo(account),
        side,
        amount: Minor(amount),
        quote,
    }
}

// The first account pays to the third, which is quoted so; one notice is sent, of a leg.
fn pay_of(alloc: Global, amount: u64, quote: Quote, noticed: u8) -> Result<Pay, Memory> {
    let mut legs = List::new(alloc);
    let theirs = Quote::Theirs(Text::from_bytes(alloc, b"R")?);
    legs.push(leg(1, Side::Debit, amount, theirs))?;
    legs.push(leg(3, Side::Credit, amount, quote))?;
    let mut orders = List::new(alloc);
    orders.push(Order::Debit {
        to: HOME,
        leg: noticed,
    })?;
    Ok(Pay {
        mir: Mir(*b"240603ALPHDEFFAXXX0001000001"),
        mt: Mt::Transfer,
        uetr: None,
        text: Text::from_bytes(alloc, b"-")?,
        value: TODAY,
        legs,
        orders,
    })
}

// It pays 0,03.
fn pay(alloc: Global) -> Result<Pay, Memory> {
    pay_of(alloc, 3, Quote::Ours(1), 1)
}

// Enters a first pay, with its outcome.
#[tactic(auto, using(crate::proofs::Entering::first_entry))]
fn enter(a: &Accounts, h: &mut History, pay: Pay) -> Result<Outcome, Fail>
    requires legal { IsLegal a.now h.old.entries }
    requires empty { h.old.entries ≡ [] }
    requires fits { FitsAccounts a.now pay }
    ensures { OnOk result (IsLegal a.now h.new.entries) }
{
    h.reserve_for(1)?;
    let outcome = decide(a, h, &pay);
    h.push(Entry {
        pay,
        day: TODAY,
        outcome,
    })?;
    Ok(outcome)
}

// Where the change at a place, from 0, came, and what it says of limits.
fn limits_at(a: &Accounts, place: usize) -> Option<(u32, u32, i64, i64)> {
    let change = a.changes().get(place)?;
    match change.what {
        What::Opened(_) => None,
        What::Limits {
            account,
            floor,
            ceil,
        } => Some((change.after, account.0, floor, ceil)),
    }
}

// The id and the limits of the third account.
fn third(a: &Accounts) -> Option<(&[u8], i64, i64)> {
    if a.count() < 3 {
        return None;
    }
    let account = a.get(AcctNo(3));
    Some((account.id.bytes(), account.floor, account.ceil))
}

// Opens account C with room for 0,02 and then for 0,04, pays 0,03 to it, and sets its limits once more: what becomes of the
// pay before and after, and whether room for 0,02 is refused then.
#[tactic(auto, using(day_model::proofs::laws::Growth::legal_here))]
fn story(alloc: Global, a: &mut Accounts) -> Result<(Outcome, Outcome, bool), Fail>
    requires { a.old.changes ≡ [] }
{
    let mut h = History::new(alloc);
    let mut made = open(alloc, a, &h, b"C")? && limit(a, &h, 0, 2)?;
    let pay = pay(alloc)?;
    if !a.fits(&pay) {
        return Err("the pay fits")?;
    }
    let before = decide(a, &h, &pay);
    made = made && limit(a, &h, 0, 4)?;
    if !a.fits(&pay) {
        return Err("the pay fits still")?;
    }
    let after = enter(a, &mut h, pay)?;
    let refused = !limit(a, &h, 0, 2)?;
    if !made || !limit(a, &h, 3, 4)? {
        return Err("a change is refused")?;
    }
    Ok((before, after, refused))
}

#[test]
fn an_account_is_opened_and_its_limits_change(rt: HostRuntime) -> Result<(), Fail> {
    let mut a = two(rt.alloc())?;
    let unfunded = Outcome::Unfunded { leg: 2, balance: 0 };
    let told = story(rt.alloc(), &mut a)?;
    assert_eq!(rt; told, (unfunded, Outcome::Booked, true));
    let copy = a.copy(rt.alloc())?;
    for a in [a, copy] {
        assert_eq!(rt; (a.count(), a.first().len(), a.changes().len()), (3, 2, 4));
        assert_eq!(rt; third(&a), Some((b"C".as_slice(), 3, 4)));
        assert_eq!(rt; a.find(b"C"), Some(AcctNo(3)));
        assert_eq!(rt; limits_at(&a, 0), None);
        assert_eq!(rt; limits_at(&a, 1), Some((0, 3, 0, 2)));
        assert_eq!(rt; limits_at(&a, 2), Some((0, 3, 0, 4)));
        assert_eq!(rt; limits_at(&a, 3), Some((1, 3, 3, 4)));
    }
    Ok(())
}

#[test]
fn an_account_has_the_form_of_its_columns(rt: HostRuntime) -> Result<(), Fail> {
    let alloc = rt.alloc();
    assert!(rt; has_form(&account(alloc, b"C", 100)?));
    assert!(rt; !has_form(&account(alloc, b"c", 0)?) && !has_form(&account(alloc, b"", 0)?));
    let other = Account {
        kind: b'X',
        ..account(alloc, b"C", 0)?
    };
    assert!(rt; !has_form(&other));
    Ok(())
}

#[test]
fn a_change_is_refused(rt: HostRuntime) -> Result<(), Fail> {
    let alloc = rt.alloc();
    let a = two(alloc)?;
    assert_eq!(rt; a.refuses(&limits(3, 0, 0), 0), Some(Refusal::Unknown));
    assert_eq!(rt;
        a.refuses(&limits(2, -4, 4), -5),
        Some(Refusal::Limits { account: 2 })
    );
    assert_eq!(rt; a.refuses(&limits(2, -5, 4), -5), None);
    let there = account(alloc, b"B", 1)?;
    assert_eq!(rt; refused(&a, there), Some(Refusal::Double { row: 2 }));
    let cents = Account {
        decimals: 3,
        ..account(alloc, b"C", 1)?
    };
    assert_eq!(rt; refused(&a, cents), Some(Refusal::Currency));
    assert_eq!(rt;
        refused(&a, account(alloc, b"C", 1)?),
        Some(Refusal::Limits { account: 0 })
    );
    assert_eq!(rt; refused(&a, account(alloc, b"C", 0)?), None);
    Ok(())
}

#[test]
fn a_thousand_accounts_are_the_most(rt: HostRuntime) -> Result<(), Fail> {
    let a = thousand(rt.alloc())?;
    assert_eq!(rt;
        refused(&a, account(rt.alloc(), b"A0000", 0)?),
        Some(Refusal::Rows)
    );
    Ok(())
}

// Whether the copy of what changes has these limits, or this id of a new account.
fn is_copied(alloc: Global, what: &What, id: &[u8], limits: (i64, i64)) -> Result<bool, Memory> {
    match what.copy(alloc)? {
        What::Opened(account) => {
            Ok(account.id.bytes() == id && (account.floor, account.ceil) == limits)
        }
        What::Limits { floor, ceil, .. } => Ok((floor, ceil) == limits),
    }
}

#[test]
fn what_changes_is_copied(rt: HostRuntime) -> Result<(), Fail> {
    let opened = What::Opened(account(rt.alloc(), b"C", 0)?);
    assert!(rt; is_copied(rt.alloc(), &opened, b"C", (-9, 9))?);
    assert!(rt; is_copied(rt.alloc(), &limits(1, 2, 3), b"", (2, 3))?);
    Ok(())
}

// Pays that differ from that of 0,03 in one of the parts that are told apart by `is_same`.
fn other_stamps(alloc: Global) -> Result<List<Pay>, Memory> {
    let mut pays = List::new(alloc);
    let mir = Mir(*b"240603ALPHDEFFAXXX0001000002");
    pays.push(Pay { mir, ..pay(alloc)? })?;
    let mt = Mt::Cover;
    pays.push(Pay { mt, ..pay(alloc)? })?;
    let uetr = Some(Uetr(*b"11111111-1111-4111-8111-111111111111"));
    pays.push(Pay {
        uetr,
        ..pay(alloc)?
    })?;
    let text = Text::from_bytes(alloc, b"+")?;
    pays.push(Pay {
        text,
        ..pay(alloc)?
    })?;
    Ok(pays)
}

// Pays that differ from it in their value date, their legs or their orders.
fn other_parts(alloc: Global) -> Result<List<Pay>, Memory> {
    let mut pays = List::new(alloc);
    let value = Day(19878);
    pays.push(Pay {
        value,
        ..pay(alloc)?
    })?;
    pays.push(pay_of(alloc, 4, Quote::Ours(1), 1)?)?;
    pays.push(pay_of(alloc, 3, Quote::Ours(2), 1)?)?;
    let theirs = Quote::Theirs(Text::from_bytes(alloc, b"R")?);
    pays.push(pay_of(alloc, 3, theirs, 1)?)?;
    pays.push(pay_of(alloc, 3, Quote::Ours(1), 2)?)?;
    let orders = List::new(alloc);
    pays.push(Pay {
        orders,
        ..pay(alloc)?
    })?;
    let legs = List::new(alloc);
    pays.push(Pay {
        legs,
        ..pay(alloc)?
    })?;
    Ok(pays)
}

#[test]
fn pays_are_equal_in_all_parts(rt: HostRuntime) -> Result<(), Fail> {
    let first = pay(rt.alloc())?;
    assert!(rt; first.equals(&first.copy(rt.alloc())?));
    for other in other_stamps(rt.alloc())?.as_slice() {
        assert!(rt; !first.equals(other) && !other.equals(&first) && !first.is_same(other));
    }
    for other in other_parts(rt.alloc())?.as_slice() {
        assert!(rt; !first.equals(other) && !other.equals(&first) && first.is_same(other));
    }
    Ok(())
}
