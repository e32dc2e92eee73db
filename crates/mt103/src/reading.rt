//! What the fields of an MT103 say.

ghost use Rattle.std.specs.Prelude.{◌≤◌, OnOk, length};
ghost use Rattle.fin_fields.specs.Fields.{most_text_lines};
ghost use Rattle.fin_layout.specs.Reading.{Fills};
ghost use Rattle.mt103.specs.inner.Parts.{contents_into};

use crate::details::fill_details;
use crate::message::Mt103;
use crate::parties::fill_parties;
use crate::terms::fill_terms;
use fin_fields::FieldLines;
use fin_layout::{Found, MtFault};
use ref_tables::RefTables;
use std::alloc::Global;

/// Puts what fields at these places say into a message, whatever it said. `Bad`: what is wrong with the first that is refused, or
/// P23 where one that must be there is missing before it; then the message may say anything.
#[tactic(auto, unfolding(crate::specs::inner::Parts::contents_into))]
pub fn fill_contents(
    alloc: Global,
    tables: &RefTables,
    fields: &[FieldLines<'_>],
    found: &Found,
    m: &mut Mt103,
) -> Result<(), MtFault>
    requires few { length fields.now ≤ most_text_lines }
    requires each { length found.now ≤ length fields.now }
    ensures value { Fills result m.new (contents_into tables.now fields.now found.now m.old) }
    ensures few { OnOk result (length m.new.instrs ≤ length fields.now) }
{
    fill_terms(alloc, tables, fields, found, m)?;
    fill_parties(alloc, tables, fields, found, m)?;
    fill_details(alloc, tables, fields, found, m)
}
