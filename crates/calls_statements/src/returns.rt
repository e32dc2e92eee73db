//! Returned payments.

ghost use Rattle.std.specs.Prelude.{◌≡◌, ◌≤◌, [], IfOk, length};
ghost use Rattle.corr_ids.specs.Bic.{IsBic};
ghost use Rattle.day_model.specs.Fit.{FitsAccounts};
ghost use Rattle.day_model.specs.Shape.{HasShape};
ghost use Rattle.calls_statements.specs.inner.Grown.{IsGrown};

use crate::given::{ALPHA, accounts, charged_onward, enter, returned};
use advices::orders;
use corr_ids::Day;
use corr_text::{List, Memory, Text};
use day_model::{Accounts, Entry, History, Order, Outcome, Pay, Quote};
use pay_returns::{
    Lent, Notices, Origin, ReturnFault, first_credit, first_reference, is_opposite, named_place,
    own_reference, quote_text, return_laws, return_pay, returns, tag_laws,
};
use statement::HistoryIndex;
use std::alloc::Global;
use std::test::Fail;

/// 4 June 2024.
const NEXT: Day = Day(19878);

const CREDITED: &[u8] = b"{1:F01HOMEUS33AXXX0000000000}{2:I910ALPHDEFFXXXXN}{4:\r
:20:P00000002K1\r
:21:REF1\r
:25:VALPHEUR\r
:32A:240604EUR1234,50\r
:52A:HOMEUS33\r
-}";

const DEBITED: &[u8] = b"{1:F01HOMEUS33AXXX0000000000}{2:I900BETAFRPPXXXXN}{4:\r
:20:P00000002K2\r
:21:P00000001R\r
:25:VBETAEUR\r
:32A:240604EUR1229,50\r
-}";

const REFERENCE: &[u8] = b"800101HOMEUS33RXXX0000000001";

const NAMES: &[u8] = b":20:P00000001R\r\n:21:REF1\r\n";

// The laws are theorems, and their calls do nothing. Promises nothing, so that the test carries none of them.
fn laws() {
    return_laws();
    tag_laws();
}

// The entry with a charge that is sent on, and its index.
#[tactic(auto, using(day_model::proofs::laws::Growth::legal_here))]
fn onward(alloc: Global, a: &Accounts) -> Result<(History, HistoryIndex), Fail>
    requires { a.now.changes ≡ [] }
    ensures { IfOk result (λ g. IsGrown a.now g.0.entries g.1) }
{
    let mut h = History::new(alloc);
    let mut index = HistoryIndex::new(alloc, a, &h)?;
    enter(a, &mut h, &mut index, charged_onward(alloc)?)?;
    Ok((h, index))
}

// The return of the entry at a place, with the next day as its value day.
fn made(alloc: Global, a: &Accounts, h: &History, place: u32) -> Result<Pay, ReturnFault>
    requires home { IsBic a.now.home }
    requires grown { (index : HistoryIndex) × IsGrown a.now h.now.entries index }
    ensures fits { IfOk result (FitsAccounts a.now) }
    ensures shape { IfOk result HasShape }
{
    return_pay(alloc, a, h, place, NEXT)
}

// The return of the entry that is sent on.
fn made_of_onward(alloc: Global, a: &Accounts) -> Result<Pay, Fail>
    requires home { IsBic a.now.home }
    requires unchanged { a.now.changes ≡ [] }
    ensures fits { IfOk result (FitsAccounts a.now) }
    ensures shape { IfOk result HasShape }
{
    let (h, _index) = onward(alloc, a)?;
    match made(alloc, a, &h, 1) {
        Ok(pay) => Ok(pay),
        Err(_) => Err("no return".into()),
    }
}

// What is sent of a return, the second entry of the journal.
fn sent(alloc: Global, a: &Accounts, pay: Pay) -> Result<List<Text>, Memory>
    requires home { IsBic a.now.home }
    requires fits { FitsAccounts a.now pay }
    requires shape { HasShape pay }
{
    let entry = Entry {
        pay,
        day: NEXT,
        outcome: Outcome::Booked,
    };
    orders(alloc, a, &entry, 2)
}

fn sent_of_onward(alloc: Global) -> Result<List<Text>, Fail> {
    let a = accounts(alloc)?;
    let pay = made_of_onward(alloc, &a)?;
    Ok(sent(alloc, &a, pay)?)
}

fn are_notices(texts: &List<Text>) -> bool {
    match texts.as_slice() {
        [credit, debit] => credit.bytes() == CREDITED && debit.bytes() == DEBITED,
        _ => false,
    }
}

#[test]
fn a_return_is_told_to_both_banks(rt: HostRuntime) -> Result<(), Fail> {
    laws();
    let texts = sent_of_onward(rt.alloc())?;
    assert!(rt; are_notices(&texts));
    Ok(())
}

fn pay_of_onward(alloc: Global) -> Result<Pay, Fail> {
    let a = accounts(alloc)?;
    made_of_onward(alloc, &a)
}

#[test]
fn a_return_names_the_payment(rt: HostRuntime) -> Result<(), Fail> {
    let pay = pay_of_onward(rt.alloc())?;
    assert!(rt; pay.mir.0.as_slice() == REFERENCE && pay.text.bytes() == NAMES);
    assert!(rt; named_place(&pay) == Some(1) && first_credit(pay.legs.as_slice()) == Some(2));
    Ok(())
}

// Why there is no return of the entry at a place.
fn fault_of(alloc: Global, a: &Accounts, h: &History, place: u32) -> Option<ReturnFault>
    requires home { IsBic a.now.home }
    requires grown { (index : HistoryIndex) × IsGrown a.now h.now.entries index }
{
    match made(alloc, a, h, place) {
        Ok(_) => None,
        Err(fault) => Some(fault),
    }
}

// The faults of the places 1, 2 and 9 after an entry and its return.
fn faults(alloc: Global) -> Result<[Option<ReturnFault>; 3], Fail> {
    let a = accounts(alloc)?;
    let (h, _index) = returned(alloc, &a, 3)?;
    Ok([
        fault_of(alloc, &a, &h, 1),
        fault_of(alloc, &a, &h, 2),
        fault_of(alloc, &a, &h, 9),
    ])
}

#[test]
fn a_payment_is_taken_back_once(rt: HostRuntime) -> Result<(), Fail> {
    let [first, second, last] = faults(rt.alloc())?;
    assert!(rt; first == Some(ReturnFault::Returned { place: 2 }));
    assert!(rt; second == Some(ReturnFault::NoPayment { entries: 2 }));
    assert!(rt; last == Some(ReturnFault::NoPayment { entries: 2 }));
    Ok(())
}

fn place_of(a: &Accounts, h: &History, r: u32) -> Option<u32>
    requires grown { (index : HistoryIndex) × IsGrown a.now h.now.entries index }
    requires from_one { 1 ≤ r }
    requires there { r ≤ length h.now.entries }
{
    returns(a, h, r)
}

// The places that an entry and its return take back.
fn places(alloc: Global) -> Result<(Option<u32>, Option<u32>), Fail> {
    let a = accounts(alloc)?;
    let (h, _index) = returned(alloc, &a, 3)?;
    if h.len() < 2 {
        return Err("no entries".into());
    }
    Ok((place_of(&a, &h, 1), place_of(&a, &h, 2)))
}

#[test]
fn a_return_is_known_by_its_pay(rt: HostRuntime) -> Result<(), Fail> {
    let (first, second) = places(rt.alloc())?;
    assert!(rt; first.is_none() && second == Some(1));
    Ok(())
}

// Whether the second entry takes the first one back as that of place 1, and not as that of place 2.
fn takes_back(alloc: Global, a: &Accounts, first: &Entry, second: &Entry) -> Result<bool, Memory> {
    let notices = Notices {
        credit: Some(Order::Credit { to: ALPHA, leg: 2 }),
        debit: None,
    };
    let origin = Origin::of(alloc, first)?;
    let is = is_opposite(a.home(), origin.lend(), 1, &second.pay, notices);
    let other = is_opposite(a.home(), Lent::of(first), 2, &second.pay, notices);
    let orders = notices.orders(alloc)?;
    Ok(is && !other && orders.as_slice().len() == second.pay.orders.as_slice().len())
}

fn is_taken_back(alloc: Global) -> Result<bool, Fail> {
    let a = accounts(alloc)?;
    let (h, _index) = returned(alloc, &a, 3)?;
    if h.len() < 2 {
        return Err("no entries".into());
    }
    Ok(takes_back(alloc, &a, h.get(1), h.get(2))?)
}

#[test]
fn a_pay_is_compared_with_the_return(rt: HostRuntime) -> Result<(), Fail> {
    assert!(rt; is_taken_back(rt.alloc())?);
    Ok(())
}

fn says(text: &[u8], reference: &[u8]) -> bool {
    match first_reference(text) {
        Some(line) => line == reference,
        None => false,
    }
}

#[test]
fn the_first_reference_is_read(rt: HostRuntime) -> Result<(), Fail> {
    let none = [
        b"".as_slice(),
        b":21:X\r\n".as_slice(),
        b":20:A\r\nB\r\n".as_slice(),
        b":20:/A\r\n".as_slice(),
        b":20:A\r\n-\r\n".as_slice(),
    ];
    for text in none {
        assert!(rt; first_reference(text).is_none());
    }
    assert!(rt; says(b":20:REF1\r\n:20:REF2\r\n", b"REF1"));
    Ok(())
}

#[test]
fn an_entry_has_references(rt: HostRuntime) -> Result<(), Fail> {
    let own = own_reference(rt.alloc(), 1)?;
    let ours = quote_text(rt.alloc(), 1, &Quote::Ours(2))?;
    assert!(rt;
        own.bytes() == b"P00000001".as_slice() && ours.bytes() == b"P00000001K2".as_slice()
    );
    Ok(())
}
