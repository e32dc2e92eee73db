//! Legs, and what they make of balances, credits and debits.

ghost use Rattle.std.specs.Prelude.{◌≡◌, length};
ghost use Rattle.day_model.specs.Legal.{IsLegal};
ghost use Rattle.day_model.specs.declared.pay.Side.TheVariants.{Credit};

use crate::given::{customers, history_of, leg, pay};
use corr_money::Minor;
use corr_text::Memory;
use day_model::{
    Account, Accounts, AcctNo, History, Leg, Quote, Side, add_legs, after_leg, are_legs,
    balance_with, legs_booked, legs_sum, totals, with_leg,
};
use std::alloc::Global;
use std::test::Fail;

// Whether the copy of a leg has its account, its amount and this text as quote.
fn is_copied(alloc: Global, leg: &Leg, quote: &[u8]) -> Result<bool, Memory> {
    let copy = leg.copy(alloc)?;
    let is_quoted = match copy.quote.copy(alloc)? {
        Quote::Theirs(text) => text.bytes() == quote,
        Quote::Ours(_) => false,
    };
    Ok(is_quoted && copy.account == leg.account && copy.amount == leg.amount)
}

#[test]
fn a_leg_is_copied(rt: HostRuntime) -> Result<(), Fail> {
    let leg = leg(rt.alloc(), 2, Side::Credit, 3)?;
    assert!(rt; is_copied(rt.alloc(), &leg, b"R")?);
    Ok(())
}

// A leg on an account.
fn leg_on(account: u32, side: Side, amount: u64) -> Leg
    ensures account { result.account.0 ≡ account }
    ensures amount { result.amount.0 ≡ amount }
    ensures side { result.side ≡ side }
{
    Leg {
        account: AcctNo(account),
        side,
        amount: Minor(amount),
        quote: Quote::Ours(1),
    }
}

// Whether a charge of 0,01 out of 0,03 makes legs, and what these debit.
fn charged() -> (bool, u64) {
    let legs = [
        leg_on(1, Side::Debit, 3),
        leg_on(2, Side::Credit, 2),
        leg_on(3, Side::Credit, 1),
    ];
    (are_legs(&legs), legs_sum(Side::Debit, &legs))
}

#[test]
fn three_legs_are_summed(rt: HostRuntime) -> Result<(), Fail> {
    assert!(rt; charged() == (true, 3));
    Ok(())
}

// A credit of 0,03 to account 1.
fn credit() -> Leg
    ensures account { result.account.0 ≡ 1 }
    ensures amount { result.amount.0 ≡ 3 }
    ensures side { result.side ≡ Credit }
{
    leg_on(1, Side::Credit, 3)
}

// What it makes of a balance of 0,05, and of credits of 0,05 and debits of 0,04.
fn credited() -> (i64, (u64, u64)) {
    let leg = credit();
    (after_leg(5, &leg), with_leg((5, 4), &leg))
}

// The balance of an account that opens with 0,05, by credits of 0,02 and debits of 0,03.
fn balanced(account: &Account) -> Option<i64> {
    if account.opening != 5 {
        return None;
    }
    Some(balance_with(account, (2, 3)))
}

// Credits and debits of the only account, with it.
fn added(alloc: Global) -> Result<Vec<(u64, u64)>, Memory> {
    let mut pairs = vec![in alloc; (5, 4)]?;
    let legs = [credit()];
    add_legs(&mut pairs, &legs);
    Ok(pairs)
}

#[test]
fn a_leg_moves_a_balance_and_totals(rt: HostRuntime) -> Result<(), Fail> {
    assert!(rt; credited() == (8, (8, 4)));
    let a = customers(rt.alloc())?;
    assert!(rt; a.count() == 2);
    assert_eq!(rt; balanced(a.get(AcctNo(1))), Some(4));
    assert!(rt; added(rt.alloc())?.as_slice() == [(8, 4)].as_slice());
    Ok(())
}

// The legs that the only entry books, and each account's credits and debits. Promises nothing.
fn summed(alloc: Global, a: &Accounts, h: &History) -> Result<(usize, Vec<(u64, u64)>), Memory>
    requires legal { IsLegal a.now h.now.entries }
    requires one { length h.now.entries ≡ 1 }
{
    Ok((legs_booked(h.get(1)).len(), totals(alloc, a, h)?))
}

#[test]
fn a_history_has_totals(rt: HostRuntime) -> Result<(), Fail> {
    let a = customers(rt.alloc())?;
    let pay = pay(rt.alloc())?;
    assert!(rt; a.fits(&pay));
    let h = history_of(rt.alloc(), &a, pay)?;
    let (legs, totals) = summed(rt.alloc(), &a, &h)?;
    assert!(rt; legs == 2);
    assert!(rt; totals.as_slice() == [(0, 3), (3, 0)].as_slice());
    Ok(())
}
