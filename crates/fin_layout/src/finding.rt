//! The field at a place.

ghost use Rattle.std.specs.Prelude.{◌≡◌, ◌<◌, ◌==◌, IfSome, length, option_map, position};
ghost use Rattle.fin_layout.specs.Order.{field_in};

use crate::found::Found;
use fin_fields::FieldLines;

fn position_of(found: &[usize], place: usize) -> Option<usize>
    ensures { result ≡ position (λ p. p == place) found.now }
{
    found.iter().position(|p| *p == place)
}

/// The first field that takes a place, and which of the fields it is, from 0; none where no field takes it. `found` are
/// the places of the fields.
#[tactic(auto, using(crate::proofs::Noted::none_found))]
pub fn find<'a, 't>(
    fields: &'a [FieldLines<'t>],
    found: &Found,
    place: usize,
) -> Option<(usize, &'a FieldLines<'t>)>
    ensures value { option_map (λ x. (x.0, x.1.now)) result ≡ field_in fields.now found.now place }
    ensures within { IfSome result (λ x. x.0 < length fields.now) }
{
    if !found.has(place) {
        return None;
    }
    match position_of(found.as_slice(), place) {
        Some(at) if at < fields.len() => Some((at, &fields[at])),
        _ => None,
    }
}
