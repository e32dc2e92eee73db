//! The faults of fields, each with its tag and occurrence.

ghost use Rattle.std.specs.Prelude.{◌≡◌, ◌≤◌, ◌<◌, length};
ghost use Rattle.fin_fields.specs.Fields.{most_text_lines};
ghost use Rattle.fin_layout.specs.Naming.{absent, fault_at};

use crate::fault::P23;
use crate::place::{Place, place_tag};
use corr_text::{Code, Fault};
use fin_fields::{FieldLines, nth_of, tag_of};

/// A fault of the field at `at`, from 0: the code, the field's tag with its letter, and which of that tag it is, from 1.
pub fn fault_at(fields: &[FieldLines<'_>], at: usize, code: Code) -> Fault
    requires few { length fields.now ≤ most_text_lines }
    requires within { at < length fields.now }
    ensures { result ≡ fault_at fields.now at code }
{
    Fault {
        code,
        tag: tag_of(&fields[at]),
        nth: nth_of(fields, at),
    }
}

/// The fault of a place, `at` from 0, that no field takes and one must: P23 with the place's tag and occurrence 0.
pub fn absent(order: &[Place], at: usize) -> Fault
    requires { at < length order.now }
    ensures { result ≡ absent order.now at }
{
    Fault {
        code: P23,
        tag: place_tag(&order[at]),
        nth: 0,
    }
}
