//! The details of sequence B: fields 70, 72 and 33B.

ghost use Rattle.std.specs.Prelude.{◌≤◌, length};
ghost use Rattle.fin_fields.specs.Fields.{most_text_lines};
ghost use Rattle.fin_layout.specs.Reading.{Gives};
ghost use Rattle.mt202cov.specs.inner.Parts.{details_of};

use crate::places::{B_NOTES, INFO, ORDERED};
use corr_money::Amount;
use corr_text::{List, Text};
use fin_contents::{CcyAmount, Texts, or_none};
use fin_fields::FieldLines;
use fin_layout::{Found, MtFault, read_optional};
use ref_tables::RefTables;
use std::alloc::Global;

/// What 70, 72 and 33B of sequence B say.
#[derive(Drop)]
pub struct Details {
    pub info: List<Text>,
    pub notes: List<Text>,
    pub ordered: Option<Amount>,
}

/// The details that fields at the places of sequence B say.
#[tactic(auto, unfolding(crate::specs::inner::Parts::details_of))]
pub fn read_details(
    alloc: Global,
    tables: &RefTables,
    fields: &[FieldLines<'_>],
    found: &Found,
) -> Result<Details, MtFault>
    requires { length fields.now ≤ most_text_lines }
    ensures { Gives result (details_of tables.now fields.now found.now) }
{
    let info = read_optional(alloc, &Texts { most: 4 }, fields, found, INFO)?;
    let notes = read_optional(alloc, &Texts { most: 6 }, fields, found, B_NOTES)?;
    let ordered = read_optional(alloc, &CcyAmount { tables }, fields, found, ORDERED)?;
    Ok(Details {
        info: or_none(alloc, info),
        notes: or_none(alloc, notes),
        ordered,
    })
}
