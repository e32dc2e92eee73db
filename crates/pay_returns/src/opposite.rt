//! Pays that take payments back.

ghost use Rattle.std.specs.Prelude.{◌≡◌, ◌≤◌, ◌∷◌, [], ◌++◌, IfOk, OnOk, map, option_map};
ghost use Rattle.std.specs.Str.{bytes_eq};
ghost use Rattle.corr_ids.specs.Bic.{IsBic};
ghost use Rattle.day_model.specs.Chart.{Chart};
ghost use Rattle.day_model.specs.Log.{most_entries};
ghost use Rattle.pay_returns.specs.Equal.{are_all, is_equal, is_leg};
ghost use Rattle.pay_returns.specs.inner.Equal.{is_stamped_as};
ghost use Rattle.pay_returns.specs.Opposite.{on_side, opposite_leg, opposite_legs, opposite_pay, opposite_side, notices_of, return_mir, return_text};
ghost use Rattle.pay_returns.specs.inner.Opposite.{AreByteQuotes};
ghost use Rattle.pay_returns.specs.Origins.{lent_in, orders_in};
ghost use Rattle.pay_returns.specs.References.{IsByteQuote};
ghost use Rattle.pay_returns.specs.inner.Texts.{after_all};

use crate::after::is_made_of;
use crate::notices::{Notices, are_notices};
use crate::origin::Lent;
use crate::references::{is_quote_of, quote_text};
use corr_ids::{Bic, Day, Mir};
use corr_text::{Decimal, List, Memory, Text};
use day_model::{Leg, Mt, Order, Pay, Quote, Side};
use std::alloc::Global;

/// The first part of a return's reference, a date: no message is sent on this day any more.
const DATE: [u8; 6] = *b"800101";

/// The terminal of the home bank that returns come from.
const TERMINAL: [u8; 1] = *b"R";

/// The other side.
fn opposite_side(side: Side) -> Side
    ensures { result ≡ opposite_side side }
{
    match side {
        Side::Debit => Side::Credit,
        Side::Credit => Side::Debit,
    }
}

// ---- made

/// The reference of the return of the entry at a place.
pub fn return_mir(alloc: Global, home: &Bic, place: u32) -> Result<Mir, Memory>
    requires bank { IsBic home.now }
    requires place { place ≤ most_entries }
    ensures { IfOk result (λ mir. mir ≡ return_mir home.now place) }
{
    let mut number = Decimal::new();
    let mut text = Text::from_bytes(alloc, b"")?;
    text.push_all(&[
        &DATE,
        &home.head,
        &TERMINAL,
        &home.branch,
        number.padded(place as u64, 10),
    ])?;
    let mut mir = [0; 28];
    mir.copy_from_slice(text.bytes());
    Ok(Mir(mir))
}

/// The text of the return of the entry at a place.
fn return_text(alloc: Global, place: u32, related: &[u8]) -> Result<Text, Memory>
    ensures { IfOk result (λ text. text ≡ return_text place related.now) }
{
    let mut number = Decimal::new();
    let mut text = Text::from_bytes(alloc, b"")?;
    text.push_all(&[
        b":20:P",
        number.padded(place as u64, 8),
        b"R\r\n:21:",
        related,
        b"\r\n",
    ])?;
    Ok(text)
}

/// The leg that takes a leg of the entry at a place back.
fn opposite_leg(alloc: Global, place: u32, leg: &Leg) -> Result<Leg, Memory>
    ensures value { IfOk result (λ opposite. opposite ≡ opposite_leg place leg.now) }
    ensures byte { OnOk result (IsByteQuote leg.now.quote) }
{
    Ok(Leg {
        account: leg.account,
        side: opposite_side(leg.side),
        amount: leg.amount,
        quote: Quote::Theirs(quote_text(alloc, place, &leg.quote)?),
    })
}

/// Adds the leg that takes a leg on this side back, and nothing for one on the other.
fn push_opposite(
    alloc: Global,
    place: u32,
    side: Side,
    leg: &Leg,
    out: &mut List<Leg>,
) -> Result<(), Memory>
    ensures value { OnOk result (out.new ≡ out.old ++ map (opposite_leg place) (on_side side (leg.now ∷ []))) }
    ensures bytes { OnOk result (AreByteQuotes (on_side side (leg.now ∷ []))) }
{
    if leg.side == side {
        out.push(opposite_leg(alloc, place, leg)?)?;
    }
    Ok(())
}

/// Adds the legs that take the legs on one side back.
fn push_opposites(
    alloc: Global,
    place: u32,
    side: Side,
    legs: &[Leg],
    out: &mut List<Leg>,
) -> Result<(), Memory>
    ensures value { OnOk result (out.new ≡ out.old ++ map (opposite_leg place) (on_side side legs.now)) }
    ensures bytes { OnOk result (AreByteQuotes (on_side side legs.now)) }
{
    for k in 0..legs.len() {
        push_opposite(alloc, place, side, &legs[k], out)?;
    }
    Ok(())
}

/// The legs that take all legs of the entry at a place back.
pub fn opposite_legs(alloc: Global, place: u32, legs: &[Leg]) -> Result<List<Leg>, Memory>
    ensures value { IfOk result (λ opposites. opposites ≡ opposite_legs place legs.now) }
    ensures bytes { OnOk result (AreByteQuotes legs.now) }
{
    let mut opposites = List::with_room(alloc, legs.len())?;
    push_opposites(alloc, place, Side::Credit, legs, &mut opposites)?;
    push_opposites(alloc, place, Side::Debit, legs, &mut opposites)?;
    Ok(opposites)
}

/// The pay that takes back a payment at a place, of which are given what it takes over and the opposite legs with their notices.
pub fn opposite_pay(
    alloc: Global,
    home: &Bic,
    origin: Lent<'_>,
    place: u32,
    day: Day,
    legs: List<Leg>,
    orders: List<Order>,
) -> Result<Pay, Memory>
    requires bank { IsBic home.now }
    requires place { place ≤ most_entries }
    requires legs { legs ≡ opposite_legs place (lent_in origin).legs }
    ensures { IfOk result (λ pay. (chart : Chart) → chart.home ≡ home.now → orders ≡ notices_of chart legs → pay ≡ opposite_pay chart (lent_in origin.entry) place day) }
{
    Ok(Pay {
        mir: return_mir(alloc, home, place)?,
        mt: Mt::Cover,
        uetr: origin.uetr,
        text: return_text(alloc, place, origin.related)?,
        value: day,
        legs,
        orders,
    })
}

// ---- compared, without memory

fn is_return_mir(mir: &Mir, home: &Bic, place: u32) -> bool
    ensures { result ≡ bytes_eq mir.now.0 (return_mir home.now place).0 }
{
    let mut number = Decimal::new();
    is_made_of(
        &mir.0,
        &[
            &DATE,
            &home.head,
            &TERMINAL,
            &home.branch,
            number.padded(place as u64, 10),
        ],
    )
}

fn is_return_text(text: &[u8], place: u32, related: &[u8]) -> bool
    ensures { result ≡ bytes_eq text.now (return_text place related.now) }
{
    let mut number = Decimal::new();
    is_made_of(
        text,
        &[
            b":20:P",
            number.padded(place as u64, 8),
            b"R\r\n:21:",
            related,
            b"\r\n",
        ],
    )
}

fn is_opposite_leg(leg: &Leg, place: u32, of: &Leg) -> bool
    ensures { result ≡ is_leg leg.now (opposite_leg place of.now) }
{
    leg.account == of.account
        && leg.side == opposite_side(of.side)
        && leg.amount == of.amount
        && is_quote_of(&leg.quote, place, &of.quote)
}

/// What stands in a list of legs after the one that takes a leg on this side back, and all of it for one on the other; none where
/// it doesn't begin with that leg.
fn after_opposite<'a>(legs: &'a [Leg], place: u32, side: Side, of: &Leg) -> Option<&'a [Leg]>
    ensures { option_map (λ rest. rest.now) result ≡ after_all is_leg (map (opposite_leg place) (on_side side (of.now ∷ []))) legs.now }
{
    if of.side != side {
        return Some(legs);
    }
    match legs {
        [first, others @ ..] if is_opposite_leg(first, place, of) => Some(others),
        _ => None,
    }
}

/// What stands in a list of legs after those that take the legs on one side back; none where it doesn't begin with these.
fn after_opposites<'a>(legs: &'a [Leg], place: u32, side: Side, of: &[Leg]) -> Option<&'a [Leg]>
    ensures { option_map (λ rest. rest.now) result ≡ after_all is_leg (map (opposite_leg place) (on_side side of.now)) legs.now }
{
    let mut rest = legs;
    for k in 0..of.len() {
        match after_opposite(rest, place, side, &of[k]) {
            Some(others) => rest = others,
            None => return None,
        }
    }
    Some(rest)
}

/// Whether legs are those that take the legs on one side back.
fn are_opposites(legs: &[Leg], place: u32, side: Side, of: &[Leg]) -> bool
    ensures { result ≡ are_all is_leg legs.now (map (opposite_leg place) (on_side side of.now)) }
{
    match after_opposites(legs, place, side, of) {
        Some(rest) => rest.is_empty(),
        None => false,
    }
}

fn are_opposite_legs(legs: &[Leg], place: u32, of: &[Leg]) -> bool
    ensures { result ≡ are_all is_leg legs.now (opposite_legs place of.now) }
{
    match after_opposites(legs, place, Side::Credit, of) {
        Some(rest) => are_opposites(rest, place, Side::Debit, of),
        None => false,
    }
}

/// Whether a pay has the reference, the type, the UETR and the text of the one that takes a payment at a place back.
fn is_stamped(home: &Bic, origin: Lent<'_>, place: u32, pay: &Pay) -> bool
    ensures { result ≡ is_stamped_as pay.now (return_mir home.now place).0 (lent_in origin.entry).uetr (return_text place (lent_in origin.entry).related) }
{
    is_return_mir(&pay.mir, home, place)
        && pay.mt == Mt::Cover
        && pay.uetr == origin.uetr
        && is_return_text(pay.text.bytes(), place, origin.related)
}

/// Whether a pay takes back a payment at a place, with its own value day; `notices` are those of its own legs. Takes no memory.
pub fn is_opposite(home: &Bic, origin: Lent<'_>, place: u32, pay: &Pay, notices: Notices) -> bool
    ensures { (chart : Chart) → chart.home ≡ home.now → orders_in notices ≡ notices_of chart pay.now.legs
        → result ≡ is_equal pay.now (opposite_pay chart (lent_in origin.entry) place pay.now.value) }
{
    if !is_stamped(home, origin, place, pay) {
        return false;
    }
    if !are_opposite_legs(pay.legs.as_slice(), place, origin.legs) {
        return false;
    }
    are_notices(pay.orders.as_slice(), notices)
}
