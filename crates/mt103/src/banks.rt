//! The banks of a transfer: fields 52a to 57a.

ghost use Rattle.std.specs.Prelude.{◌≡◌, ◌≤◌, None, OnOk, length};
ghost use Rattle.fin_fields.specs.Fields.{most_text_lines};
ghost use Rattle.fin_layout.specs.Reading.{Fills};
ghost use Rattle.mt103.specs.inner.Parts.{banks_into, with_banks};

use crate::message::Mt103;
use crate::places::{
    ACCOUNT_BANK, INTERMEDIARY, ORDERING, RECEIVERS_BANK, SENDERS_BANK, THIRD_BANK,
};
use corr_text::{clear, put};
use fin_contents::KnownParty;
use fin_fields::FieldLines;
use fin_layout::{Found, MtFault, read_optional, takes_any};
use ref_tables::RefTables;
use std::alloc::Global;

#[tactic(auto, unfolding(crate::specs::inner::Parts::banks_into))]
fn read_banks(
    alloc: Global,
    tables: &RefTables,
    fields: &[FieldLines<'_>],
    found: &Found,
    m: &mut Mt103,
) -> Result<(), MtFault>
    requires few { length fields.now ≤ most_text_lines }
    ensures value { Fills result m.new (banks_into tables.now fields.now found.now m.old) }
    ensures kept { OnOk result (m.new.instrs ≡ m.old.instrs) }
{
    let party = KnownParty { tables };
    let p52 = read_optional(alloc, &party, fields, found, ORDERING)?;
    put(&mut m.p52, p52);
    let p53 = read_optional(alloc, &party, fields, found, SENDERS_BANK)?;
    put(&mut m.p53, p53);
    let p54 = read_optional(alloc, &party, fields, found, RECEIVERS_BANK)?;
    put(&mut m.p54, p54);
    let p55 = read_optional(alloc, &party, fields, found, THIRD_BANK)?;
    put(&mut m.p55, p55);
    let p56 = read_optional(alloc, &party, fields, found, INTERMEDIARY)?;
    put(&mut m.p56, p56);
    let p57 = read_optional(alloc, &party, fields, found, ACCOUNT_BANK)?;
    put(&mut m.p57, p57);
    Ok(())
}

fn clear_banks(m: &mut Mt103)
    ensures { m.new ≡ with_banks m.old None None None None None None }
{
    clear(&mut m.p52);
    clear(&mut m.p53);
    clear(&mut m.p54);
    clear(&mut m.p55);
    clear(&mut m.p56);
    clear(&mut m.p57);
}

/// Puts what fields at these places say in 52a to 57a into a message. Most transfers have none of them: then no place is
/// looked for.
pub fn fill_banks(
    alloc: Global,
    tables: &RefTables,
    fields: &[FieldLines<'_>],
    found: &Found,
    m: &mut Mt103,
) -> Result<(), MtFault>
    requires few { length fields.now ≤ most_text_lines }
    ensures value { Fills result m.new (banks_into tables.now fields.now found.now m.old) }
    ensures kept { OnOk result (m.new.instrs ≡ m.old.instrs) }
{
    if takes_any(found, ORDERING, ACCOUNT_BANK) {
        read_banks(alloc, tables, fields, found, m)
    } else {
        clear_banks(m);
        Ok(())
    }
}
