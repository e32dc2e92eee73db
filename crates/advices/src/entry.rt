//! The messages of an entry.

ghost use Rattle.std.specs.Prelude.{◌≡◌, ◌≤◌, IfOk, OnOk, length};
ghost use Rattle.std.specs.Int.{IsInRange};
ghost use Rattle.corr_ids.specs.Bic.{IsBic};
ghost use Rattle.corr_ids.specs.Day.{InCentury};
ghost use Rattle.day_model.specs.Chart.{IsChart};
ghost use Rattle.day_model.specs.Fit.{FitsAccounts};
ghost use Rattle.day_model.specs.Shape.{HasShape, IsOrder};
ghost use Rattle.day_model.specs.Log.{most_entries};
ghost use Rattle.advices.specs.Messages.{order_message, messages_from, messages_of, order_fields};
ghost use Rattle.advices.specs.inner.Messages.{AllReadBack, OrderReadsBack};
ghost use Rattle.advices.specs.Received.{received_of};
ghost use Rattle.advices.specs.Valid.{AreAccepted, NoticesAccepted};

use crate::advice::{credit_fields, debit_fields};
use crate::cover::cover_fields;
use crate::legs::{charge_of, debited_amount, leg_account, leg_amount, sent_amount};
use crate::ordered::ordered_of;
use crate::pass::pass_fields;
use crate::received::{Received, received_of};
use crate::reference::ours;
use crate::sending::{put_message, receiver_of, type_of, user_of};
use crate::transfer::transfer_fields;
use corr_money::Amount;
use corr_text::{List, Memory, Text};
use day_model::{Accounts, Entry, Order, Outcome, Pay};
use fin_contents::Value;
use fin_fields::Field;
use std::alloc::Global;

fn value_of(pay: &Pay, amount: Amount) -> Value
    ensures { result ≡ record { day = pay.now.value; amount = amount } }
{
    Value {
        day: pay.value,
        amount,
    }
}

// The fields of the k-th order.
fn order_fields(
    alloc: Global,
    a: &Accounts,
    pay: &Pay,
    received: &Received<'_>,
    place: u32,
    k: u32,
    order: Order,
) -> Result<List<Field>, Memory>
    requires fits { FitsAccounts a.now pay.now }
    requires day { InCentury pay.now.value }
    requires same { received.now ≡ received_of pay.now }
    requires order { IsOrder (length pay.now.legs) order }
    ensures value { IfOk result (λ fields. fields ≡ order_fields a.now pay.now place k order) }
    ensures sound { OnOk result (IsChart a.now) }
{
    let reference = ours(alloc, place, k)?;
    match order {
        Order::Transfer { skip, via, .. } => {
            let ordered = ordered_of(received, &debited_amount(a, pay));
            let value = value_of(pay, sent_amount(a, pay));
            let charge = charge_of(a, pay);
            transfer_fields(
                alloc, received, &reference, &value, &ordered, charge, skip, &via,
            )
        }
        Order::Cover { end, skip, .. } => {
            let ordered = ordered_of(received, &debited_amount(a, pay));
            let value = value_of(pay, sent_amount(a, pay));
            let related = ours(alloc, place, 1)?;
            cover_fields(
                alloc, received, &reference, &related, &value, &ordered, &end, skip,
            )
        }
        Order::Pass { skip, .. } => {
            let value = value_of(pay, sent_amount(a, pay));
            pass_fields(alloc, received, &reference, &value, skip)
        }
        Order::Debit { leg, .. } => {
            let value = value_of(pay, leg_amount(a, pay, leg));
            debit_fields(
                alloc,
                received,
                &reference,
                &leg_account(a, pay, leg).id,
                &value,
            )
        }
        Order::Credit { leg, .. } => {
            let value = value_of(pay, leg_amount(a, pay, leg));
            credit_fields(
                alloc,
                received,
                &reference,
                &leg_account(a, pay, leg).id,
                &value,
            )
        }
    }
}

fn message(
    alloc: Global,
    a: &Accounts,
    pay: &Pay,
    received: &Received<'_>,
    place: u32,
    k: u32,
    order: &Order,
) -> Result<Text, Memory>
    requires home { IsBic a.now.home }
    requires fits { FitsAccounts a.now pay.now }
    requires shape { HasShape pay.now }
    requires same { received.now ≡ received_of pay.now }
    requires order { IsOrder (length pay.now.legs) order.now }
    requires place { place ≤ most_entries }
    requires k { k ≤ 255 }
    ensures value { IfOk result (λ text. text ≡ order_message a.now pay.now place k order.now) }
    ensures back { OnOk result (OrderReadsBack a.now pay.now place k order.now) }
{
    let fields = order_fields(alloc, a, pay, received, place, k, *order)?;
    let user = user_of(alloc, &pay.uetr, *order)?;
    let to = receiver_of(*order);
    put_message(
        alloc,
        a.home(),
        type_of(*order),
        &to,
        user.as_slice(),
        fields.as_slice(),
    )
}

// The messages of a booked pay.
fn messages(alloc: Global, a: &Accounts, pay: &Pay, place: u32) -> Result<List<Text>, Memory>
    requires home { IsBic a.now.home }
    requires fits { FitsAccounts a.now pay.now }
    requires shape { HasShape pay.now }
    requires place { place ≤ most_entries }
    ensures value { IfOk result (λ texts. texts ≡ messages_from a.now pay.now place 1 pay.now.orders) }
    ensures back { OnOk result (AllReadBack a.now pay.now place 1 pay.now.orders) }
{
    let received = received_of(alloc, pay)?;
    let mut texts = List::new(alloc);
    let mut k = 0;
    for order in pay.orders.as_slice() {
        k += 1;
        texts.push(message(alloc, a, pay, &received, place, k, order)?)?;
    }
    Ok(texts)
}

/// The messages that are sent of the entry at a place: those of a booked entry in the order of its orders, none of an
/// unfunded one (docs/messages.md, "What is sent when"). Out of memory is the only error.
///
/// Each text is `accepted`: under tables under which the pay came from a message that passes its tests, whose 32A has the
/// currency and decimals of the accounts, which is a transfer under SHA or BEN where a third leg is on an account of fees, and
/// which asks for these orders at banks that the tables hold, it passes the tests of a sent message. So does each of the `notices`
/// of a pay that came from no message, as one that takes another back: its text has the lines 20 and 21 alone, both references, and
/// its orders are notices alone, to banks that the tables hold, which hold its currencies and its sender's head too.
///
/// The pay fits the accounts and has the shape of one that can be written down; the home BIC meets its grammar; `place` is 1 to
/// 100,000.
pub fn orders(alloc: Global, a: &Accounts, e: &Entry, place: u32) -> Result<List<Text>, Memory>
    requires home { IsBic a.now.home }
    requires fits { FitsAccounts a.now e.now.pay }
    requires shape { HasShape e.now.pay }
    requires place { IsInRange 1 most_entries place }
    ensures value { IfOk result (λ texts. texts ≡ messages_of a.now e.now place) }
    ensures accepted { IfOk result (λ texts. AreAccepted a.now e.now.pay texts) }
    ensures notices { IfOk result (λ texts. NoticesAccepted a.now e.now.pay texts) }
{
    match e.outcome {
        Outcome::Booked => messages(alloc, a, &e.pay, place),
        Outcome::Unfunded { .. } => Ok(List::new(alloc)),
    }
}
