//! The places that fields take.

ghost use Rattle.std.specs.Prelude.{◌≡◌, ◌≤◌, ◌<◌, ◌+◌, [], IfOk, IfSome, OnOk, length, option_map, position};
ghost use Rattle.std.specs.List.{slice_range};
ghost use Rattle.fin_layout.specs.Order.{fits, free_after, is_missing, missing_from, place_from, places_from};
ghost use Rattle.fin_layout.specs.inner.Order.{Rising};

use crate::found::Found;
use crate::place::{Place, fits};
use corr_text::Memory;
use fin_fields::FieldLines;
use std::alloc::Global;

fn first_fit(order: &[Place], f: &FieldLines<'_>) -> Option<usize>
    ensures value { result ≡ position (λ p. fits p f.now) order.now }
    ensures within { IfSome result (λ k. k < length order.now) }
{
    order.iter().position(|p| fits(p, f))
}

fn place_from(order: &[Place], free: usize, f: &FieldLines<'_>) -> Option<usize>
    requires { free ≤ length order.now }
    ensures value { result ≡ place_from order.now free f.now }
    ensures within { IfSome result (λ k. k < length order.now) }
{
    match first_fit(&order[free..], f) {
        Some(at) => Some(free + at),
        None => None,
    }
}

fn free_after(order: &[Place], at: usize) -> usize
    requires { at < length order.now }
    ensures value { result ≡ free_after order.now at }
    ensures within { result ≤ length order.now }
{
    if order[at].many { at } else { at + 1 }
}

/// The places that the fields take, in their order and up to the first field that takes none.
///
/// Places are numbered from 0. A field takes the first place after that of the field before it which allows it, or that same
/// place where more than one field may stand there.
pub fn places(alloc: Global, order: &[Place], fields: &[FieldLines<'_>]) -> Result<Found, Memory>
    ensures value { IfOk result (λ found. found ≡ places_from order.now 0 fields.now) }
    ensures few { IfOk result (λ found. length found ≤ length fields.now) }
{
    let mut found = Found::new(alloc);
    put_places(order, fields, &mut found)?;
    Ok(found)
}

/// As `places`, but the places are put into `found`, whatever stood there, in its memory. Where memory runs out, it may hold
/// any.
pub fn put_places(
    order: &[Place],
    fields: &[FieldLines<'_>],
    found: &mut Found,
) -> Result<(), Memory>
    ensures value { OnOk result (found.new ≡ places_from order.now 0 fields.now) }
    ensures few { OnOk result (length found.new ≤ length fields.now) }
{
    found.clear();
    found.reserve(fields.len())?;
    let mut free = 0;
    for f in fields {
        match place_from(order, free, f) {
            Some(at) => {
                found.push(at)?;
                free = free_after(order, at);
            }
            None => return Ok(()),
        }
    }
    Ok(())
}

fn is_missing(place: &Place, at: usize, found: &[usize]) -> bool
    ensures { result ≡ is_missing place.now at found.now }
{
    place.must && !found.contains(&at)
}

/// The first place, from 0, that a field must take and none of the places in `found` is; none where there is no such place.
pub fn missing(order: &[Place], found: &[usize]) -> Option<usize>
    ensures value { result ≡ missing_from 0 order.now found.now }
    ensures within { IfSome result (λ k. k < length order.now) }
{
    for (at, place) in order.iter().enumerate() {
        if is_missing(place, at, found) {
            return Some(at);
        }
    }
    None
}

// The first place from `from` on and before `until` that a field must take.
fn first_due(order: &[Place], from: usize, until: usize) -> Option<usize>
    requires ordered { from ≤ until }
    requires there { until ≤ length order.now }
    ensures value { result ≡ option_map (λ k. from + k) (missing_from 0 (slice_range order.now from until) []) }
    ensures within { IfSome result (λ k. k < until) }
{
    match missing(&order[from..until], &[]) {
        Some(at) => Some(from + at),
        None => None,
    }
}

/// The first place that a field must take and none of the places in `found` is, where `found` are places that fields take
/// in turn; none where there is no such place.
pub(crate) fn missing_in_turn(order: &[Place], found: &[usize]) -> Option<usize>
    requires { Rising order.now 0 found.now }
    ensures value { result ≡ missing_from 0 order.now found.now }
    ensures within { IfSome result (λ k. k < length order.now) }
{
    let mut free = 0;
    for at in found {
        if *at < free {
            continue;
        }
        if let Some(due) = first_due(order, free, *at) {
            return Some(due);
        }
        free = *at + 1;
    }
    first_due(order, free, order.len())
}
