//! Making a return.

ghost use Rattle.std.specs.Prelude.{◌≡◌, ◌≤◌, All, IfErr, IfOk, option_map};
ghost use Rattle.corr_ids.specs.Bic.{IsBic};
ghost use Rattle.corr_ids.specs.Day.{InCentury};
ghost use Rattle.day_model.specs.Fit.{FitsAccounts};
ghost use Rattle.day_model.specs.Legal.{IsLegal};
ghost use Rattle.day_model.specs.Log.{most_entries};
ghost use Rattle.day_model.specs.Shape.{HasShape};
ghost use Rattle.pay_returns.specs.Making.{MayReturn, TellsReturnFault};
ghost use Rattle.pay_returns.specs.Opposite.{opposite_of};
ghost use Rattle.pay_returns.specs.Returns.{payment_at};

use crate::chain::returns;
use crate::fault::ReturnFault;
use crate::notices::notices_of;
use crate::opposite::{opposite_legs, opposite_pay};
use crate::origin::Lent;
use corr_ids::Day;
use corr_text::Memory;
use day_model::{Accounts, Entry, History, Outcome, Pay, decide};
use std::alloc::Global;

/// The pay that takes back the entry at a place.
fn opposite_of(alloc: Global, a: &Accounts, e: &Entry, place: u32, day: Day) -> Result<Pay, Memory>
    requires fits { FitsAccounts a.now e.now.pay }
    requires shape { HasShape e.now.pay }
    requires bank { IsBic a.now.home }
    requires place { place ≤ most_entries }
    requires day { InCentury day }
    ensures value { IfOk result (λ pay. pay ≡ opposite_of a.now e.now place day) }
    ensures shape { IfOk result HasShape }
{
    let origin = Lent::of(e);
    let legs = opposite_legs(alloc, place, origin.legs)?;
    let orders = notices_of(a, legs.as_slice()).orders(alloc)?;
    opposite_pay(alloc, a.home(), origin, place, day, legs, orders)
}

/// The entry at a place, if it is booked and no return.
fn payment_at<'a>(a: &Accounts, h: &'a History, place: u32) -> Option<&'a Entry>
    requires { IsLegal a.now h.now.entries }
    ensures { option_map (λ e. e.now) result ≡ payment_at a.now h.now.entries place }
{
    if place == 0 || place > h.len() {
        return None;
    }
    let e = h.get(place);
    match e.outcome {
        Outcome::Booked if returns(a, h, place).is_none() => Some(e),
        _ => None,
    }
}

/// The pay that takes back the payment at a place, counted from 1, with a value day: it books each leg on the other side, and tells
/// the banks whose vostro accounts it credits first and debits first.
///
/// The faults come in the order of `ReturnFault`. `NoPayment`: no entry stands there, or it isn't booked, or is a return.
/// `Returned`: an entry has the return's reference already; then it is the return, or a payment that came under this reference.
/// `Unfunded`: an account can't take its leg.
///
/// The history is legal for the accounts, and its pays can be written down; the home BIC meets its grammar, and the day lies in
/// 1980 to 2079. So the return can be written down too.
pub fn return_pay(
    alloc: Global,
    a: &Accounts,
    h: &History,
    place: u32,
    day: Day,
) -> Result<Pay, ReturnFault>
    requires legal { IsLegal a.now h.now.entries }
    requires shaped { All (λ entry. HasShape entry.pay) h.now.entries }
    requires home { IsBic a.now.home }
    requires day { InCentury day }
    ensures value { IfOk result (MayReturn a.now h.now.entries place day) }
    ensures fits { IfOk result (FitsAccounts a.now) }
    ensures shape { IfOk result HasShape }
    ensures fault { IfErr result (TellsReturnFault a.now h.now.entries place day) }
{
    let Some(e) = payment_at(a, h, place) else {
        return Err(ReturnFault::NoPayment { entries: h.len() });
    };
    let pay = opposite_of(alloc, a, e, place, day)?;
    if let Some(place) = h.find(&pay.mir) {
        return Err(ReturnFault::Returned { place });
    }
    match decide(a, h, &pay) {
        Outcome::Booked => Ok(pay),
        Outcome::Unfunded { leg, balance } => Err(ReturnFault::Unfunded { leg, balance }),
    }
}
