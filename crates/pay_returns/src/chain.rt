//! Which entry of a history takes which one back.

ghost use Rattle.std.specs.Prelude.{◌≡◌, ◌≤◌, ◌-◌, is_some, length, take};
ghost use Rattle.day_model.specs.Fit.{FitsAccounts};
ghost use Rattle.day_model.specs.Legal.{IsLegal};
ghost use Rattle.pay_returns.specs.Returns.{is_opposite, named_place, opposed_by, returns_place};
ghost use Rattle.pay_returns.specs.inner.Returns.{opposed_before};

use crate::notices::notices_of;
use crate::opposite::is_opposite;
use crate::origin::Lent;
use corr_text::digits;
use day_model::{Accounts, Entry, History, Outcome, Pay};

/// How many bytes of a reference stand before its last ten digits.
const BEFORE_NUMBER: usize = 18;

/// The place that a pay's reference names: its last ten digits; none where they are no digits.
pub fn named_place(pay: &Pay) -> Option<u64>
    ensures { result ≡ named_place pay.now }
{
    digits(&pay.mir.0[BEFORE_NUMBER..])
}

/// Whether a pay takes back the entry at a place, which is booked.
fn takes_back(a: &Accounts, pay: &Pay, e: &Entry, place: u32) -> bool
    requires { FitsAccounts a.now pay.now }
    ensures { result ≡ is_opposite a.now e.now place pay.now }
{
    match e.outcome {
        Outcome::Booked => {
            let notices = notices_of(a, pay.legs.as_slice());
            is_opposite(a.home(), Lent::of(e), place, pay, notices)
        }
        Outcome::Unfunded { .. } => false,
    }
}

/// The place that the entry at place `r` takes back, whether or not that is a return itself.
fn opposed(a: &Accounts, h: &History, r: u32) -> Option<u32>
    requires legal { IsLegal a.now h.now.entries }
    requires from_one { 1 ≤ r }
    requires there { r ≤ length h.now.entries }
    ensures { result ≡ opposed_before a.now h.now.entries r }
{
    let pay = &h.get(r).pay;
    let place = named_place(pay)?;
    if place == 0 || place >= r as u64 {
        return None;
    }
    let place = place as u32;
    if takes_back(a, pay, h.get(place), place) {
        Some(place)
    } else {
        None
    }
}

/// Whether the entry at a place is a return: goes down from entry to entry, each of which takes the next one back. The last takes
/// nothing back, so it is no return, and of two neighbours one is.
fn is_return(a: &Accounts, h: &History, place: u32) -> bool
    requires legal { IsLegal a.now h.now.entries }
    requires from_one { 1 ≤ place }
    requires there { place ≤ length h.now.entries }
    ensures { result ≡ is_some (returns_place a.now h.now.entries place) }
{
    let mut at = place;
    let mut odd = false;
    while let Some(next) = opposed(a, h, at) {
        at = next;
        odd = !odd;
    }
    odd
}

/// The place of the payment that the entry at place `r` takes back, if it is a return: that payment stands before it, is booked
/// and no return itself, and the pay of the entry is exactly its return, whose value day it has. Takes no memory.
///
/// The history is legal for the accounts, and has a place `r`, counted from 1.
pub fn returns(a: &Accounts, h: &History, r: u32) -> Option<u32>
    requires legal { IsLegal a.now h.now.entries }
    requires from_one { 1 ≤ r }
    requires there { r ≤ length h.now.entries }
    ensures { result ≡ returns_place a.now h.now.entries r }
{
    let place = opposed(a, h, r)?;
    if is_return(a, h, place) {
        None
    } else {
        Some(place)
    }
}
