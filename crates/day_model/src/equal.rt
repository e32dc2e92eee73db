//! Whether two pays are equal in all their parts.

ghost use Rattle.std.specs.Prelude.{◌≡◌, IsTrue};
ghost use Rattle.std.specs.Bool.{OnTrue};

use crate::pay::{Leg, Order, Pay, Quote};

fn is_quote(a: &Quote, b: &Quote) -> bool
    ensures same { OnTrue result (a.now ≡ b.now) }
    ensures all { a.now ≡ b.now → IsTrue result }
{
    match (a, b) {
        (Quote::Theirs(a), Quote::Theirs(b)) => a.bytes() == b.bytes(),
        (Quote::Ours(a), Quote::Ours(b)) => *a == *b,
        _ => false,
    }
}

fn is_leg(a: &Leg, b: &Leg) -> bool
    ensures same { OnTrue result (a.now ≡ b.now) }
    ensures all { a.now ≡ b.now → IsTrue result }
{
    a.account == b.account
        && a.side == b.side
        && a.amount == b.amount
        && is_quote(&a.quote, &b.quote)
}

fn are_legs(a: &[Leg], b: &[Leg]) -> bool
    ensures same { OnTrue result (a.now ≡ b.now) }
    ensures all { a.now ≡ b.now → IsTrue result }
{
    if a.len() != b.len() {
        return false;
    }
    for at in 0..a.len() {
        if !is_leg(&a[at], &b[at]) {
            return false;
        }
    }
    true
}

fn is_order(a: Order, b: Order) -> bool
    ensures same { OnTrue result (a ≡ b) }
    ensures all { a ≡ b → IsTrue result }
{
    a == b
}

fn are_orders(a: &[Order], b: &[Order]) -> bool
    ensures same { OnTrue result (a.now ≡ b.now) }
    ensures all { a.now ≡ b.now → IsTrue result }
{
    if a.len() != b.len() {
        return false;
    }
    for at in 0..a.len() {
        if !is_order(a[at], b[at]) {
            return false;
        }
    }
    true
}

fn is_stamp(a: &Pay, b: &Pay) -> bool
    ensures same { OnTrue result ((a.now.mir ≡ b.now.mir) × (a.now.mt ≡ b.now.mt) × (a.now.uetr ≡ b.now.uetr) × (a.now.value ≡ b.now.value)) }
    ensures all { a.now ≡ b.now → IsTrue result }
{
    a.mir == b.mir && a.mt == b.mt && a.uetr == b.uetr && a.value == b.value
}

impl Pay {
    /// Whether the other pay is equal in all its parts, legs and orders too.
    pub fn equals(&self, other: &Pay) -> bool
        ensures same { OnTrue result (self.now ≡ other.now) }
        ensures all { self.now ≡ other.now → IsTrue result }
    {
        is_stamp(self, other)
            && self.text.bytes() == other.text.bytes()
            && are_legs(self.legs.as_slice(), other.legs.as_slice())
            && are_orders(self.orders.as_slice(), other.orders.as_slice())
    }
}
