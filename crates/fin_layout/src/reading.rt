//! What the fields at a place say.

ghost use Rattle.std.specs.Prelude.{◌≡◌, ◌≤◌, ◌<◌, IfOk, OnOk, length};
ghost use Rattle.fin_fields.specs.Fields.{most_text_lines};
ghost use Rattle.fin_layout.specs.Contents.{all_from, in_option, in_place};
ghost use Rattle.fin_layout.specs.Reading.{Fills, Gives};
ghost use Rattle.fin_layout.specs.inner.Reading.{placed};

use crate::content::{Content, Refill};
use crate::fault::{MtFault, Refusal};
use crate::finding::find;
use crate::found::Found;
use crate::naming::{absent, fault_at};
use crate::place::Place;
use corr_text::{List, clear, put};
use fin_fields::FieldLines;
use std::alloc::Global;

fn locate<T>(fields: &[FieldLines<'_>], at: usize, read: Result<T, Refusal>) -> Result<T, MtFault>
    requires few { length fields.now ≤ most_text_lines }
    requires within { at < length fields.now }
    ensures { result ≡ placed fields.now at read }
{
    match read {
        Ok(x) => Ok(x),
        Err(Refusal::Bad(code)) => Err(MtFault::Bad(fault_at(fields, at, code))),
        Err(Refusal::Memory) => Err(MtFault::Memory),
    }
}

/// What the field at a mandatory place, from 0, says, where `found` are the places that the fields take. `Bad`: what is wrong
/// with the field, or P23 where no field takes the place.
pub fn read_one<C: Content>(
    alloc: Global,
    content: &C,
    order: &[Place],
    fields: &[FieldLines<'_>],
    found: &Found,
    place: usize,
) -> Result<C::Value, MtFault>
    requires few { length fields.now ≤ most_text_lines }
    requires within { place < length order.now }
    ensures { Gives result (in_place order.now fields.now found.now place (C.meaning content.now)) }
{
    match find(fields, found, place) {
        Some((at, f)) => locate(fields, at, content.read(alloc, f)),
        None => Err(MtFault::Bad(absent(order, place))),
    }
}

/// As `read_one`, but what the field says is put into `value`, in the memory of what that was. After a fault it may be anything.
pub fn fill_one<C: Refill>(
    alloc: Global,
    content: &C,
    order: &[Place],
    fields: &[FieldLines<'_>],
    found: &Found,
    place: usize,
    value: &mut C::Value,
) -> Result<(), MtFault>
    requires few { length fields.now ≤ most_text_lines }
    requires within { place < length order.now }
    ensures { Fills result value.new (in_place order.now fields.now found.now place (C.meaning content.now)) }
{
    match find(fields, found, place) {
        Some((at, f)) => locate(fields, at, content.refill(alloc, f, value)),
        None => Err(MtFault::Bad(absent(order, place))),
    }
}

/// What the field at an optional place, from 0, says, if there is one. `Bad`: what is wrong with it.
pub fn read_optional<C: Content>(
    alloc: Global,
    content: &C,
    fields: &[FieldLines<'_>],
    found: &Found,
    place: usize,
) -> Result<Option<C::Value>, MtFault>
    requires few { length fields.now ≤ most_text_lines }
    ensures { Gives result (in_option fields.now found.now place (C.meaning content.now)) }
{
    match find(fields, found, place) {
        Some((at, f)) => Ok(Some(locate(fields, at, content.read(alloc, f))?)),
        None => Ok(None),
    }
}

/// As `read_optional`, but what the field says is put into `value`. After a fault it may be anything.
#[inline(always)]
#[tactic(auto, using(crate::proofs::Noted::none_found))]
pub fn fill_optional<C: Content>(
    alloc: Global,
    content: &C,
    fields: &[FieldLines<'_>],
    found: &Found,
    place: usize,
    value: &mut Option<C::Value>,
) -> Result<(), MtFault>
    requires few { length fields.now ≤ most_text_lines }
    ensures { Fills result value.new (in_option fields.now found.now place (C.meaning content.now)) }
{
    if !found.has(place) {
        clear(value);
        return Ok(());
    }
    fill_there(alloc, content, fields, found, place, value)
}

// As `fill_optional`, apart: mostly no field takes the place.
#[inline(never)]
fn fill_there<C: Content>(
    alloc: Global,
    content: &C,
    fields: &[FieldLines<'_>],
    found: &Found,
    place: usize,
    value: &mut Option<C::Value>,
) -> Result<(), MtFault>
    requires few { length fields.now ≤ most_text_lines }
    ensures { Fills result value.new (in_option fields.now found.now place (C.meaning content.now)) }
{
    put(value, read_optional(alloc, content, fields, found, place)?);
    Ok(())
}

// What the fields at a place, from 0, say, in their order.
fn read_each<C: Content>(
    alloc: Global,
    content: &C,
    fields: &[FieldLines<'_>],
    found: &[usize],
    place: usize,
) -> Result<List<C::Value>, MtFault>
    requires few { length fields.now ≤ most_text_lines }
    requires each { length found.now ≤ length fields.now }
    ensures value { Gives result (all_from fields.now place (C.meaning content.now) 0 found.now fields.now) }
    ensures few { IfOk result (λ l. length l ≤ length fields.now) }
{
    let mut all = List::new(alloc);
    for (at, taken) in found.iter().enumerate() {
        if *taken == place {
            let read = content.read(alloc, &fields[at]);
            all.push(locate(fields, at, read)?)?;
        }
    }
    Ok(all)
}

/// What the fields at a place, from 0, say, in their order. `Bad`: what is wrong with the first of them that is refused.
#[tactic(auto, using(crate::proofs::Noted::none_read))]
pub fn read_all<C: Content>(
    alloc: Global,
    content: &C,
    fields: &[FieldLines<'_>],
    found: &Found,
    place: usize,
) -> Result<List<C::Value>, MtFault>
    requires few { length fields.now ≤ most_text_lines }
    requires each { length found.now ≤ length fields.now }
    ensures value { Gives result (all_from fields.now place (C.meaning content.now) 0 found.now fields.now) }
    ensures few { IfOk result (λ l. length l ≤ length fields.now) }
{
    if !found.has(place) {
        return Ok(List::new(alloc));
    }
    read_each(alloc, content, fields, found.as_slice(), place)
}

/// As `read_all`, but what the fields say is put into `list`. After a fault it may be anything.
#[inline(always)]
#[tactic(auto, using(crate::proofs::Noted::none_read))]
pub fn fill_all<C: Content>(
    alloc: Global,
    content: &C,
    fields: &[FieldLines<'_>],
    found: &Found,
    place: usize,
    list: &mut List<C::Value>,
) -> Result<(), MtFault>
    requires few { length fields.now ≤ most_text_lines }
    requires each { length found.now ≤ length fields.now }
    ensures value { Fills result list.new (all_from fields.now place (C.meaning content.now) 0 found.now fields.now) }
    ensures few { OnOk result (length list.new ≤ length fields.now) }
{
    if !found.has(place) {
        list.clear();
        return Ok(());
    }
    fill_each(alloc, content, fields, found, place, list)
}

// As `fill_all`, apart: mostly no field takes the place.
#[inline(never)]
fn fill_each<C: Content>(
    alloc: Global,
    content: &C,
    fields: &[FieldLines<'_>],
    found: &Found,
    place: usize,
    list: &mut List<C::Value>,
) -> Result<(), MtFault>
    requires few { length fields.now ≤ most_text_lines }
    requires each { length found.now ≤ length fields.now }
    ensures value { Fills result list.new (all_from fields.now place (C.meaning content.now) 0 found.now fields.now) }
    ensures few { OnOk result (length list.new ≤ length fields.now) }
{
    put(
        list,
        read_each(alloc, content, fields, found.as_slice(), place)?,
    );
    Ok(())
}
