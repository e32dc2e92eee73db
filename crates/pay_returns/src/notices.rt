//! Whom a return tells.

ghost use Rattle.std.specs.Prelude.{◌≡◌, ◌≤◌, IfOk, length};
ghost use Rattle.std.specs.List.{position_from};
ghost use Rattle.day_model.specs.Chart.{IsChart, IsListed};
ghost use Rattle.pay_returns.specs.Equal.{are_all, is_order};
ghost use Rattle.pay_returns.specs.Opposite.{credit_notice, debit_notice, is_credit, notices_of, told_of, vostro_owner};
ghost use Rattle.pay_returns.specs.inner.Opposite.{AreListed};
ghost use Rattle.pay_returns.specs.Origins.{orders_in};

use corr_ids::Bic;
use corr_text::{List, Memory};
use day_model::{Account, Accounts, Kind, Leg, Order, Side};
use std::alloc::Global;

/// The notices of a return: to the bank that it credits first, and to the one whose account its leg 1 debits; none to the owner
/// of an account that is no vostro account.
#[derive(Clone, Copy, Debug)]
pub struct Notices {
    pub credit: Option<Order>,
    pub debit: Option<Order>,
}

fn vostro_owner(account: &Account) -> Option<Bic>
    ensures { result ≡ vostro_owner account.now }
{
    if account.kind == Kind::Vostro.letter() {
        Some(account.owner)
    } else {
        None
    }
}

fn told_of(a: &Accounts, leg: &Leg) -> Option<Bic>
    requires { IsListed a.now leg.now.account.0 }
    ensures value { result ≡ told_of a.now leg.now }
    ensures sound { IsChart a.now }
{
    vostro_owner(a.get(leg.account))
}

/// The place of the first credit, from 0.
pub fn first_credit(legs: &[Leg]) -> Option<usize>
    ensures { result ≡ position_from is_credit 0 legs.now }
{
    legs.iter().position(|leg| leg.side == Side::Credit)
}

fn credit_notice(a: &Accounts, legs: &[Leg]) -> Option<Order>
    requires listed { AreListed a.now legs.now }
    requires few { length legs.now ≤ 3 }
    ensures { result ≡ credit_notice a.now legs.now }
{
    let at = first_credit(legs)?;
    let to = told_of(a, &legs[at])?;
    Some(Order::Credit {
        to,
        leg: at as u8 + 1,
    })
}

fn debit_notice(a: &Accounts, legs: &[Leg]) -> Option<Order>
    requires { AreListed a.now legs.now }
    ensures value { result ≡ debit_notice a.now legs.now }
    ensures sound { 1 ≤ length legs.now → IsChart a.now }
{
    match legs {
        [] => None,
        [first, ..] => {
            let to = told_of(a, first)?;
            Some(Order::Debit { to, leg: 1 })
        }
    }
}

/// The notices of a return with these legs. Takes no memory.
pub fn notices_of(a: &Accounts, legs: &[Leg]) -> Notices
    requires listed { AreListed a.now legs.now }
    requires few { length legs.now ≤ 3 }
    ensures value { orders_in result ≡ notices_of a.now legs.now }
    ensures sound { 1 ≤ length legs.now → IsChart a.now }
{
    Notices {
        credit: credit_notice(a, legs),
        debit: debit_notice(a, legs),
    }
}

impl Notices {
    /// The notices as a pay has them.
    pub fn orders(self, alloc: Global) -> Result<List<Order>, Memory>
        ensures { IfOk result (λ orders. orders ≡ orders_in self) }
    {
        let mut orders = List::new(alloc);
        if let Some(order) = self.credit {
            orders.push(order)?;
        }
        if let Some(order) = self.debit {
            orders.push(order)?;
        }
        Ok(orders)
    }
}

fn is_order(order: Order, other: Order) -> bool
    ensures { result ≡ is_order order other }
{
    match (order, other) {
        (
            Order::Transfer { to, skip, via },
            Order::Transfer {
                to: bank,
                skip: left,
                via: mid,
            },
        ) => to == bank && skip == left && via == mid,
        (
            Order::Cover { to, end, skip },
            Order::Cover {
                to: bank,
                end: last,
                skip: left,
            },
        ) => to == bank && end == last && skip == left,
        (
            Order::Pass { to, skip },
            Order::Pass {
                to: bank,
                skip: left,
            },
        ) => to == bank && skip == left,
        (
            Order::Debit { to, leg },
            Order::Debit {
                to: bank,
                leg: number,
            },
        ) => to == bank && leg == number,
        (
            Order::Credit { to, leg },
            Order::Credit {
                to: bank,
                leg: number,
            },
        ) => to == bank && leg == number,
        _ => false,
    }
}

/// Whether orders are these notices. Takes no memory.
pub fn are_notices(orders: &[Order], notices: Notices) -> bool
    ensures { result ≡ are_all is_order orders.now (orders_in notices) }
{
    match (notices.credit, notices.debit, orders) {
        (None, None, []) => true,
        (Some(notice), None, [order]) => is_order(*order, notice),
        (None, Some(notice), [order]) => is_order(*order, notice),
        (Some(credit), Some(debit), [first, second]) => {
            is_order(*first, credit) && is_order(*second, debit)
        }
        _ => false,
    }
}
