//! Each public call once, over a book of two accounts.

use crate::given::{EUR, FIRST, HOME, customers, history_of, pay};
use day_model::*;
use std::alloc::Global;
use std::test::*;

#[test]
fn accounts_are_found(rt: HostRuntime) -> Result<(), Fail> {
    let a = customers(rt.alloc())?;
    assert_eq!(rt; a.home().head, HOME.head);
    assert_eq!(rt; a.find(b"B"), Some(AcctNo(2)));
    assert_eq!(rt;
        a.owned(Kind::Customer.letter(), b"HOMEUS33", EUR, 2),
        Some(AcctNo(1))
    );
    assert!(rt; a.count() == 2);
    assert_eq!(rt; a.get(AcctNo(2)).opening, -5);
    assert!(rt; may_hold(a.get(AcctNo(2)), 9) && !may_hold(a.get(AcctNo(2)), 10));
    Ok(())
}

// The laws are theorems, and their calls do nothing. Promises nothing, so that the test carries none of them.
fn laws() {
    fold_laws();
    change_laws();
    item_laws();
    totals_laws();
}

#[test]
fn a_pay_is_booked(rt: HostRuntime) -> Result<(), Fail> {
    laws();
    let a = customers(rt.alloc())?;
    let p = pay(rt.alloc())?;
    assert!(rt; a.fits(&p) && a.count() == 2);
    assert!(rt; p.copy(rt.alloc())?.is_same(&p));
    let h = history_of(rt.alloc(), &a, p)?;
    assert_eq!(rt; balance(&a, &h, AcctNo(1)), 2);
    assert_eq!(rt; h.find(&FIRST), Some(1));
    assert!(rt; h.len() == 1);
    assert_eq!(rt; h.get(1).outcome, Outcome::Booked);
    Ok(())
}

#[tactic(auto, using(day_model::proofs::laws::Growth::legal_here))]
fn a_core(alloc: Global) -> Result<Core, Fail> {
    Ok(Core::new(alloc, customers(alloc)?, History::new(alloc), 1)?)
}

#[test]
fn a_worker_enters_a_pay(rt: HostRuntime) -> Result<(), Fail> {
    let mut core = a_core(rt.alloc())?;
    let pay = pay(rt.alloc())?;
    core.step(Event::Draw { worker: 1, pay })?;
    for account in [AcctNo(1), AcctNo(2)] {
        core.step(Event::Take { worker: 1, account })?;
    }
    core.step(Event::Commit { worker: 1 })?;
    assert_eq!(rt; core.ready(), Some(1));
    assert_eq!(rt; core.holder(AcctNo(2)), Some(1));
    assert_eq!(rt; core.history().len(), 1);
    Ok(())
}
