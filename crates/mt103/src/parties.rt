//! The parties of a transfer: fields 50a to 59a.

ghost use Rattle.std.specs.Prelude.{◌≡◌, ◌≤◌, OnOk, length};
ghost use Rattle.fin_fields.specs.Fields.{most_text_lines};
ghost use Rattle.fin_layout.specs.Reading.{Fills};
ghost use Rattle.mt103.specs.inner.Parts.{parties_into};

use crate::banks::fill_banks;
use crate::message::Mt103;
use crate::order::ORDER;
use crate::places::{PAYEE, PAYER};
use fin_contents::KnownParty;
use fin_fields::FieldLines;
use fin_layout::{Found, MtFault, fill_one};
use ref_tables::RefTables;
use std::alloc::Global;

/// Puts what fields at these places say in 50a to 59a into a message.
#[tactic(auto, unfolding(crate::specs::inner::Parts::parties_into))]
pub fn fill_parties(
    alloc: Global,
    tables: &RefTables,
    fields: &[FieldLines<'_>],
    found: &Found,
    m: &mut Mt103,
) -> Result<(), MtFault>
    requires few { length fields.now ≤ most_text_lines }
    ensures value { Fills result m.new (parties_into tables.now fields.now found.now m.old) }
    ensures kept { OnOk result (m.new.instrs ≡ m.old.instrs) }
{
    let party = KnownParty { tables };
    fill_one(alloc, &party, &ORDER, fields, found, PAYER, &mut m.payer)?;
    fill_banks(alloc, tables, fields, found, m)?;
    fill_one(alloc, &party, &ORDER, fields, found, PAYEE, &mut m.payee)?;
    Ok(())
}
