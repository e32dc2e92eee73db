//! What an MT900 and an MT910 have in common.

ghost use Rattle.std.specs.Prelude.{◌≤◌, length};
ghost use Rattle.fin_fields.specs.Fields.{most_text_lines};
ghost use Rattle.fin_layout.specs.Reading.{Gives};
ghost use Rattle.mt9_advice.specs.inner.Parts.{booking_of};

use crate::places::{ACCOUNT, REFERENCE, RELATED, STAMP, VALUE};
use crate::stamp::Stamp;
use corr_text::Text;
use fin_contents::{Reference, ShortLine, Value, ValueDate};
use fin_fields::FieldLines;
use fin_layout::{Found, MtFault, Place, read_one, read_optional};
use ref_tables::RefTables;
use std::alloc::Global;

/// An entry that was booked: fields 20, 21, 25, 13D and 32A.
#[derive(Drop)]
pub struct Booking {
    pub reference: Text,
    pub related: Text,
    pub account: Text,
    pub at: Option<Text>,
    pub value: Value,
}

/// The entry that the fields at the first five places of an order say. `Bad`: what is wrong with the first of them that is
/// refused, or P23 where one that must be there is missing before it.
#[tactic(auto, unfolding(crate::specs::inner::Parts::booking_of))]
pub fn read_booking(
    alloc: Global,
    order: &[Place],
    tables: &RefTables,
    fields: &[FieldLines<'_>],
    found: &Found,
) -> Result<Booking, MtFault>
    requires few { length fields.now ≤ most_text_lines }
    requires long { 5 ≤ length order.now }
    ensures { Gives result (booking_of order.now tables.now fields.now found.now) }
{
    let reference = read_one(alloc, &Reference, order, fields, found, REFERENCE)?;
    let related = read_one(
        alloc,
        &ShortLine { most: 16 },
        order,
        fields,
        found,
        RELATED,
    )?;
    let account = read_one(
        alloc,
        &ShortLine { most: 35 },
        order,
        fields,
        found,
        ACCOUNT,
    )?;
    let at = read_optional(alloc, &Stamp, fields, found, STAMP)?;
    let value = read_one(alloc, &ValueDate { tables }, order, fields, found, VALUE)?;
    Ok(Booking {
        reference,
        related,
        account,
        at,
        value,
    })
}
