//! The details of a transfer: fields 70 to 77B.

ghost use Rattle.std.specs.Prelude.{◌≡◌, ◌≤◌, OnOk, length};
ghost use Rattle.fin_fields.specs.Fields.{most_text_lines};
ghost use Rattle.fin_layout.specs.Reading.{Fills};
ghost use Rattle.mt103.specs.inner.Parts.{details_into, info_of};

use crate::closing::fill_closing;
use crate::message::Mt103;
use crate::order::ORDER;
use crate::places::{CHARGE, INFO};
use crate::word::Charge;
use corr_text::{List, Text, put};
use fin_contents::{Texts, or_none};
use fin_fields::FieldLines;
use fin_layout::{Found, MtFault, fill_one, read_optional, takes_any};
use ref_tables::RefTables;
use std::alloc::Global;

// Puts the lines of 70 into a list, none without the field.
#[inline(never)]
#[tactic(auto, unfolding(crate::specs::inner::Parts::info_of))]
fn read_info(
    alloc: Global,
    fields: &[FieldLines<'_>],
    found: &Found,
    info: &mut List<Text>,
) -> Result<(), MtFault>
    requires few { length fields.now ≤ most_text_lines }
    ensures { Fills result info.new (info_of fields.now found.now) }
{
    let lines = read_optional(alloc, &Texts { most: 4 }, fields, found, INFO)?;
    put(info, or_none(alloc, lines));
    Ok(())
}

// As `read_info`. Most transfers have no 70: then it isn't looked for.
#[inline(always)]
fn fill_info(
    alloc: Global,
    fields: &[FieldLines<'_>],
    found: &Found,
    info: &mut List<Text>,
) -> Result<(), MtFault>
    requires few { length fields.now ≤ most_text_lines }
    ensures { Fills result info.new (info_of fields.now found.now) }
{
    if takes_any(found, INFO, INFO) {
        read_info(alloc, fields, found, info)
    } else {
        info.clear();
        Ok(())
    }
}

/// Puts what fields at these places say in 70 to 77B into a message.
#[tactic(auto, unfolding(crate::specs::inner::Parts::details_into))]
pub fn fill_details(
    alloc: Global,
    tables: &RefTables,
    fields: &[FieldLines<'_>],
    found: &Found,
    m: &mut Mt103,
) -> Result<(), MtFault>
    requires few { length fields.now ≤ most_text_lines }
    requires each { length found.now ≤ length fields.now }
    ensures value { Fills result m.new (details_into tables.now fields.now found.now m.old) }
    ensures kept { OnOk result (m.new.instrs ≡ m.old.instrs) }
{
    fill_info(alloc, fields, found, &mut m.info)?;
    fill_one(alloc, &Charge, &ORDER, fields, found, CHARGE, &mut m.charge)?;
    fill_closing(alloc, tables, fields, found, m)
}
