//! The terms of a transfer: fields 20 to 36.

ghost use Rattle.std.specs.Prelude.{◌≤◌, OnOk, length};
ghost use Rattle.fin_fields.specs.Fields.{most_text_lines};
ghost use Rattle.fin_layout.specs.Reading.{Fills};
ghost use Rattle.mt103.specs.inner.Parts.{terms_into};

use crate::instruction::Instruction;
use crate::kind::Kind;
use crate::message::Mt103;
use crate::order::ORDER;
use crate::places::{INSTRUCTIONS, KIND, OPERATION, ORDERED, RATE, REFERENCE, TIMES, VALUE};
use crate::word::Operation;
use fin_contents::{CcyAmount, Rate, Reference, Time, Value, ValueDate};
use fin_fields::FieldLines;
use fin_layout::{Found, MtFault, fill_all, fill_one, fill_optional};
use ref_tables::RefTables;
use std::alloc::Global;

/// Puts what fields at these places say in 20 to 36 into a message.
#[tactic(auto, unfolding(crate::specs::inner::Parts::terms_into, crate::specs::inner::Parts::terms_of))]
pub fn fill_terms(
    alloc: Global,
    tables: &RefTables,
    fields: &[FieldLines<'_>],
    found: &Found,
    m: &mut Mt103,
) -> Result<(), MtFault>
    requires few { length fields.now ≤ most_text_lines }
    requires each { length found.now ≤ length fields.now }
    ensures value { Fills result m.new (terms_into tables.now fields.now found.now m.old) }
    ensures few { OnOk result (length m.new.instrs ≤ length fields.now) }
{
    let amount = CcyAmount { tables };
    fill_one(
        alloc,
        &Reference,
        &ORDER,
        fields,
        found,
        REFERENCE,
        &mut m.reference,
    )?;
    fill_all(alloc, &Time, fields, found, TIMES, &mut m.times)?;
    fill_one(
        alloc, &Operation, &ORDER, fields, found, OPERATION, &mut m.op,
    )?;
    fill_all(
        alloc,
        &Instruction,
        fields,
        found,
        INSTRUCTIONS,
        &mut m.instrs,
    )?;
    fill_optional(alloc, &Kind, fields, found, KIND, &mut m.kind)?;
    let mut value = Value::blank();
    fill_one(
        alloc,
        &ValueDate { tables },
        &ORDER,
        fields,
        found,
        VALUE,
        &mut value,
    )?;
    m.value = value.day;
    m.amount = value.amount;
    fill_optional(alloc, &amount, fields, found, ORDERED, &mut m.ordered)?;
    fill_optional(alloc, &Rate, fields, found, RATE, &mut m.rate)
}
