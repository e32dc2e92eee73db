//! The legs of a pay.

ghost use Rattle.std.specs.Prelude.{◌≡◌, ◌≤◌, IfOk, IfSome};
ghost use Rattle.pay_plan.specs.Pay.{legs_of, quote_of, rest_after};

use crate::asked::Asked;
use crate::charging::{Charge, Charged};
use crate::way::Way;
use corr_money::Minor;
use corr_text::{List, Memory};
use day_model::{Leg, Quote, Side};
use std::alloc::Global;

// What the credit quotes: the last reference where the payment ends here, else the reference of the order that tells the
// account's bank of it.
fn quote_of(alloc: Global, way: Way, asked: &Asked<'_>) -> Result<Quote, Memory>
    ensures { IfOk result (λ quote. quote ≡ quote_of way asked.now) }
{
    match way {
        Way::Ends | Way::Credited => Ok(Quote::Theirs(asked.last_reference.copy(alloc)?)),
        Way::Onward | Way::Passed => Ok(Quote::Ours(1)),
        Way::Covered => Ok(Quote::Ours(2)),
    }
}

// What is left of an amount when a charge is taken out of it.
fn rest_after(amount: Minor, charge: Option<Charge>) -> Minor
    requires { IfSome charge (λ c. c.amount.0 ≤ amount.0) }
    ensures { result ≡ rest_after amount charge }
{
    match charge {
        None => amount,
        Some(charge) => Minor(amount.0 - charge.amount.0),
    }
}

/// The legs of a pay: a debit, a credit, and a credit of the charge, if there is one. The charge is no more than the amount.
pub fn legs_of(
    alloc: Global,
    way: Way,
    asked: &Asked<'_>,
    charged: &Charged,
) -> Result<List<Leg>, Memory>
    requires { IfSome charged.now.charge (λ c. c.amount.0 ≤ asked.now.amount.minor.0) }
    ensures { IfOk result (λ legs. legs ≡ legs_of way asked.now charged.now) }
{
    let mut legs = List::with_room(alloc, if charged.charge.is_some() { 3 } else { 2 })?;
    legs.push(Leg {
        account: charged.routed.debit,
        side: Side::Debit,
        amount: asked.amount.minor,
        quote: Quote::Theirs(asked.reference.copy(alloc)?),
    })?;
    legs.push(Leg {
        account: charged.routed.credit,
        side: Side::Credit,
        amount: rest_after(asked.amount.minor, charged.charge),
        quote: quote_of(alloc, way, asked)?,
    })?;
    if let Some(charge) = charged.charge {
        legs.push(Leg {
            account: charge.account,
            side: Side::Credit,
            amount: charge.amount,
            quote: Quote::Theirs(asked.reference.copy(alloc)?),
        })?;
    }
    Ok(legs)
}
