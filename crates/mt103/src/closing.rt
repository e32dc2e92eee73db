//! The closing fields of a transfer: 71F to 77B.

ghost use Rattle.std.specs.Prelude.{◌≡◌, ◌≤◌, [], None, OnOk, length};
ghost use Rattle.fin_fields.specs.Fields.{most_text_lines};
ghost use Rattle.fin_layout.specs.Reading.{Fills};
ghost use Rattle.mt103.specs.inner.Parts.{closing_into, with_closing};

use crate::message::Mt103;
use crate::places::{GIVEN, NOTES, REGULATORY, TAKEN};
use corr_text::{clear, put};
use fin_contents::{CcyAmount, Texts, or_none};
use fin_fields::FieldLines;
use fin_layout::{Found, MtFault, read_all, read_optional, takes_any};
use ref_tables::RefTables;
use std::alloc::Global;

#[tactic(auto, unfolding(crate::specs::inner::Parts::closing_into))]
fn read_closing(
    alloc: Global,
    tables: &RefTables,
    fields: &[FieldLines<'_>],
    found: &Found,
    m: &mut Mt103,
) -> Result<(), MtFault>
    requires few { length fields.now ≤ most_text_lines }
    requires each { length found.now ≤ length fields.now }
    ensures value { Fills result m.new (closing_into tables.now fields.now found.now m.old) }
    ensures kept { OnOk result (m.new.instrs ≡ m.old.instrs) }
{
    let amount = CcyAmount { tables };
    put(
        &mut m.taken,
        read_all(alloc, &amount, fields, found, TAKEN)?,
    );
    m.given = read_optional(alloc, &amount, fields, found, GIVEN)?;
    let notes = read_optional(alloc, &Texts { most: 6 }, fields, found, NOTES)?;
    put(&mut m.notes, or_none(alloc, notes));
    let regulatory = read_optional(alloc, &Texts { most: 3 }, fields, found, REGULATORY)?;
    put(&mut m.regulatory, or_none(alloc, regulatory));
    Ok(())
}

fn clear_closing(m: &mut Mt103)
    ensures { m.new ≡ with_closing m.old [] None [] [] }
{
    m.taken.clear();
    clear(&mut m.given);
    m.notes.clear();
    m.regulatory.clear();
}

/// Puts what fields at these places say in 71F to 77B into a message. Most transfers have none of them: then no place is
/// looked for.
pub fn fill_closing(
    alloc: Global,
    tables: &RefTables,
    fields: &[FieldLines<'_>],
    found: &Found,
    m: &mut Mt103,
) -> Result<(), MtFault>
    requires few { length fields.now ≤ most_text_lines }
    requires each { length found.now ≤ length fields.now }
    ensures value { Fills result m.new (closing_into tables.now fields.now found.now m.old) }
    ensures kept { OnOk result (m.new.instrs ≡ m.old.instrs) }
{
    if takes_any(found, TAKEN, REGULATORY) {
        read_closing(alloc, tables, fields, found, m)
    } else {
        clear_closing(m);
        Ok(())
    }
}
