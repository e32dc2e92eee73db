//! How long records are.

ghost use Rattle.std.specs.Prelude.{◌≡◌, ℕ, ◌≤◌, ◌*◌, All, IfSome, length};
ghost use Rattle.std.specs.List.{flat_map};
ghost use Rattle.corr_ids.specs.Uetr.{IsUetr};
ghost use Rattle.day_model.specs.Shape.{HasShape, IsLeg, IsOrder, IsQuote};
ghost use Rattle.jrn_codec.specs.Record.{entry_bytes, leg_bytes, most_record_bytes, order_bytes, outcome_bytes, quote_bytes};
ghost use Rattle.jrn_codec.specs.Spelling.{bic_bytes, optional_bytes};
ghost use Rattle.corr_ids.specs.Bic.{IsBic};

use corr_ids::{Bic, Uetr};
use day_model::{Entry, Leg, Order, Outcome, Quote};

/// The bytes of a record beside the payment's reference, outcome, legs, orders and text: the mark in front, the message's
/// reference and type, two days, the numbers of legs and of orders, and the length of the text.
const FIXED: u64 = 44;

/// The bytes of a leg beside its quote: account, side, amount.
const POSTING: u64 = 11;

fn uetr_len(uetr: &Option<Uetr>) -> u64
    requires { IfSome uetr.now IsUetr }
    ensures len { result ≡ length (optional_bytes (λ u. u.0) uetr.now) }
    ensures few { result ≤ 37 }
{
    match uetr {
        None => 1,
        Some(_) => 37,
    }
}

fn outcome_len(outcome: Outcome) -> u64
    ensures len { result ≡ length (outcome_bytes outcome) }
    ensures few { result ≤ 10 }
{
    match outcome {
        Outcome::Booked => 1,
        Outcome::Unfunded { .. } => 10,
    }
}

fn quote_len(quote: &Quote) -> u64
    requires { IsQuote quote.now }
    ensures len { result ≡ length (quote_bytes quote.now) }
    ensures few { result ≤ 18 }
{
    match quote {
        Quote::Theirs(text) => 2 + text.bytes().len() as u64,
        Quote::Ours(_) => 2,
    }
}

fn leg_len(leg: &Leg) -> u64
    requires { IsLeg leg.now }
    ensures len { result ≡ length (leg_bytes leg.now) }
    ensures few { result ≤ 29 }
{
    POSTING + quote_len(&leg.quote)
}

fn legs_len(legs: &[Leg]) -> u64
    requires each { All IsLeg legs.now }
    requires few { length legs.now ≤ 255 }
    ensures len { result ≡ length (flat_map leg_bytes legs.now) }
    ensures few { result ≤ length legs.now * 29 }
{
    match legs {
        [] => 0,
        [leg, others @ ..] => leg_len(leg) + legs_len(others),
    }
}

fn via_len(via: &Option<Bic>) -> u64
    requires { IfSome via.now IsBic }
    ensures len { result ≡ length (optional_bytes bic_bytes via.now) }
    ensures few { result ≤ 12 }
{
    match via {
        None => 1,
        Some(_) => 12,
    }
}

fn order_len(order: &Order) -> u64
    requires { (legs : ℕ) × IsOrder legs order.now }
    ensures len { result ≡ length (order_bytes order.now) }
    ensures few { result ≤ 25 }
{
    match order {
        Order::Transfer { via, .. } => 13 + via_len(via),
        Order::Cover { .. } => 24,
        Order::Pass { .. } => 13,
        Order::Debit { .. } => 13,
        Order::Credit { .. } => 13,
    }
}

fn orders_len(orders: &[Order]) -> u64
    requires each { (legs : ℕ) × All (IsOrder legs) orders.now }
    requires few { length orders.now ≤ 255 }
    ensures len { result ≡ length (flat_map order_bytes orders.now) }
    ensures few { result ≤ length orders.now * 25 }
{
    match orders {
        [] => 0,
        [order, others @ ..] => order_len(order) + orders_len(others),
    }
}

/// How many bytes the record of an entry has: at most 39,321. The entry's pay has the shape of a pay.
pub fn record_len(e: &Entry) -> u64
    requires shape { HasShape e.now.pay }
    ensures len { result ≡ length (entry_bytes e.now) }
    ensures few { result ≤ most_record_bytes }
{
    let front = uetr_len(&e.pay.uetr) + outcome_len(e.outcome);
    let lists = legs_len(e.pay.legs.as_slice()) + orders_len(e.pay.orders.as_slice());
    FIXED + front + lists + e.pay.text.bytes().len() as u64
}
