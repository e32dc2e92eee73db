//! The structure of a message: each field at a place, each mandatory place taken.

ghost use Rattle.std.specs.Prelude.{◌≡◌, ◌≤◌, None, IfErr, IfOk, OnOk, length};
ghost use Rattle.corr_text.specs.First.{first_of};
ghost use Rattle.fin_fields.specs.Fields.{most_text_lines};
ghost use Rattle.fin_layout.specs.Order.{places_from};
ghost use Rattle.fin_layout.specs.Reading.{Tells};
ghost use Rattle.fin_layout.specs.Tests.{structure_tests};

use crate::fault::{MtFault, P22};
use crate::found::Found;
use crate::naming::{absent, fault_at};
use crate::place::Place;
use crate::placing::{missing_in_turn, put_places};
use fin_fields::FieldLines;
use std::alloc::Global;

/// The place of each field.
///
/// P22: the first field that the order does not allow after the field before it, with its tag and occurrence. Else P23:
/// the first mandatory place that no field takes, with its tag (two digits where it has options) and occurrence 0.
pub fn check_structure(
    alloc: Global,
    order: &[Place],
    fields: &[FieldLines<'_>],
) -> Result<Found, MtFault>
    requires few { length fields.now ≤ most_text_lines }
    ensures fault { IfErr result (Tells (first_of (structure_tests order.now fields.now))) }
    ensures sound { IfOk result (λ _. first_of (structure_tests order.now fields.now) ≡ None) }
    ensures places { IfOk result (λ found. found ≡ places_from order.now 0 fields.now) }
    ensures each { IfOk result (λ found. length found ≡ length fields.now) }
{
    let mut found = Found::new(alloc);
    fill_structure(order, fields, &mut found)?;
    Ok(found)
}

/// As `check_structure`, but the places are put into `found`, whatever stood there, in its memory. After a fault it may hold
/// any.
pub fn fill_structure(
    order: &[Place],
    fields: &[FieldLines<'_>],
    found: &mut Found,
) -> Result<(), MtFault>
    requires few { length fields.now ≤ most_text_lines }
    ensures fault { IfErr result (Tells (first_of (structure_tests order.now fields.now))) }
    ensures sound { OnOk result (first_of (structure_tests order.now fields.now) ≡ None) }
    ensures places { OnOk result (found.new ≡ places_from order.now 0 fields.now) }
    ensures each { OnOk result (length found.new ≡ length fields.now) }
{
    put_places(order, fields, found)?;
    let places = found.as_slice();
    if places.len() != fields.len() {
        return Err(MtFault::Bad(fault_at(fields, places.len(), P22)));
    }
    if let Some(at) = missing_in_turn(order, places) {
        return Err(MtFault::Bad(absent(order, at)));
    }
    Ok(())
}
