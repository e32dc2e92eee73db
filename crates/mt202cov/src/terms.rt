//! The terms of a cover: fields 20 to 32A.

ghost use Rattle.std.specs.Prelude.{◌≤◌, length};
ghost use Rattle.fin_fields.specs.Fields.{most_text_lines};
ghost use Rattle.fin_layout.specs.Reading.{Gives};
ghost use Rattle.mt202cov.specs.inner.Parts.{terms_of};

use crate::order::ORDER;
use crate::places::{REFERENCE, RELATED, TIMES, VALUE};
use corr_text::{List, Text};
use fin_contents::{Reference, Time, Value, ValueDate};
use fin_fields::FieldLines;
use fin_layout::{Found, MtFault, read_all, read_one};
use ref_tables::RefTables;
use std::alloc::Global;

/// What 20, 21, 13C and 32A say.
#[derive(Drop)]
pub struct Terms {
    pub reference: Text,
    pub related: Text,
    pub times: List<Text>,
    pub value: Value,
}

/// The terms that fields at these places say.
#[tactic(auto, unfolding(crate::specs::inner::Parts::terms_of))]
pub fn read_terms(
    alloc: Global,
    tables: &RefTables,
    fields: &[FieldLines<'_>],
    found: &Found,
) -> Result<Terms, MtFault>
    requires few { length fields.now ≤ most_text_lines }
    requires each { length found.now ≤ length fields.now }
    ensures { Gives result (terms_of tables.now fields.now found.now) }
{
    let reference = read_one(alloc, &Reference, &ORDER, fields, found, REFERENCE)?;
    let related = read_one(alloc, &Reference, &ORDER, fields, found, RELATED)?;
    let times = read_all(alloc, &Time, fields, found, TIMES)?;
    let value = read_one(alloc, &ValueDate { tables }, &ORDER, fields, found, VALUE)?;
    Ok(Terms {
        reference,
        related,
        times,
        value,
    })
}
