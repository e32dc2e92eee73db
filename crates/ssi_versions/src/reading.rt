//! The rows of the table of instructions, each tested against those before it.

ghost use Rattle.std.specs.Prelude.{◌≡◌, ◌≤◌, ◌<◌, [], IfErr, IfOk, OnOk, None, Some, length, map};
ghost use Rattle.csv.specs.Records.{fields_of};
ghost use Rattle.ref_tables.specs.Refusals.{Tells, against, first_bad_row, named};
ghost use Rattle.ref_tables.specs.Rows.{cell};
ghost use Rattle.ssi_versions.specs.Rows.{form_fault, instruction_fault, instruction_of, knows_bank, knows_via, standing_fault, most_instructions};

use crate::columns;
use crate::row::SsiRow;
use crate::ssi::Ssi;
use corr_ids::{Bic, day_from_yymmdd, read_bic};
use corr_text::Text;
use csv::ByteRecord;
use ref_tables::{RefTables, TableFault, TableName, Why, bad, cell, is_account_id};
use std::alloc::Global;

// The instruction that a row says, whose bank and account are these texts.
fn read_columns(row: &ByteRecord, bank: Text, account: Text) -> Result<SsiRow, Why>
    requires bank_read { bank ≡ cell 1 (fields_of row.now) }
    requires account_read { account ≡ cell 4 (fields_of row.now) }
    ensures sound { OnOk result (form_fault (fields_of row.now) ≡ None) }
    ensures value { IfOk result (λ a. a ≡ instruction_of (fields_of row.now)) }
    ensures bad { IfErr result (λ why. form_fault (fields_of row.now) ≡ Some why) }
{
    if row.len() != 7 {
        return Err(Why::Columns);
    }
    let ccy = ref_tables::ccy(cell(row, 0)).ok_or(Why::Value { col: 1 })?;
    if !columns::is_bank(cell(row, 1)) {
        return Err(Why::Value { col: 2 });
    }
    let method = columns::method(cell(row, 2)).ok_or(Why::Value { col: 3 })?;
    let via = columns::via(method, cell(row, 3)).ok_or(Why::Value { col: 4 })?;
    if !is_account_id(cell(row, 4)) {
        return Err(Why::Value { col: 5 });
    }
    let from = day_from_yymmdd(cell(row, 5)).ok_or(Why::Value { col: 6 })?;
    let until = day_from_yymmdd(cell(row, 6)).ok_or(Why::Value { col: 7 })?;
    Ok(SsiRow {
        ccy,
        bank,
        method,
        via,
        account,
        from,
        until,
    })
}

fn knows_bank(t: &RefTables, bank: &[u8]) -> bool
    ensures { result ≡ knows_bank t.now bank.now }
{
    if bank == b"*".as_slice() {
        return true;
    }
    match read_bic(bank) {
        Some(bic) => t.has_bic(&bic.head),
        None => false,
    }
}

fn knows_via(t: &RefTables, via: Option<Bic>) -> bool
    ensures { result ≡ knows_via t.now via }
{
    match via {
        Some(bic) => t.has_bic(&bic.head),
        None => true,
    }
}

// What is wrong with an instruction, given those of the rows before it.
fn standing(t: &RefTables, earlier: &Ssi, a: &SsiRow) -> Option<Why>
    requires { length earlier.now < most_instructions }
    ensures { result ≡ standing_fault t.now earlier.now a.now }
{
    if !knows_bank(t, a.bank.bytes()) || !knows_via(t, a.via) {
        return Some(Why::Bic);
    }
    if t.decimals(a.ccy).is_none() {
        return Some(Why::Currency);
    }
    if a.from.0 >= a.until.0 {
        return Some(Why::Span);
    }
    let at = earlier.first_overlap(a)?;
    Some(Why::Overlap { row: at as u32 + 1 })
}

// Reads a row, given the instructions of the rows before it.
fn read_row(
    t: &RefTables,
    earlier: &Ssi,
    row: &ByteRecord,
    bank: Text,
    account: Text,
) -> Result<SsiRow, Why>
    requires bank_read { bank ≡ cell 1 (fields_of row.now) }
    requires account_read { account ≡ cell 4 (fields_of row.now) }
    requires few { length earlier.now < most_instructions }
    ensures sound { OnOk result (instruction_fault t.now earlier.now (fields_of row.now) ≡ None) }
    ensures value { IfOk result (λ a. a ≡ instruction_of (fields_of row.now)) }
    ensures bad { IfErr result (λ why. instruction_fault t.now earlier.now (fields_of row.now) ≡ Some why) }
{
    let instruction = read_columns(row, bank, account)?;
    match standing(t, earlier, &instruction) {
        None => Ok(instruction),
        Some(why) => Err(why),
    }
}

/// The table that rows make. `Bad` tells the first row that fails, from 1, and why.
pub fn enter_rows(alloc: Global, t: &RefTables, rows: &[ByteRecord]) -> Result<Ssi, TableFault>
    requires { length rows.now ≤ most_instructions }
    ensures ok { IfOk result (λ s. (first_bad_row (against instruction_of (instruction_fault t.now)) [] (map fields_of rows.now) ≡ None)
        × (s ≡ map instruction_of (map fields_of rows.now))) }
    ensures bad { IfErr result (Tells (named TableName.Ssi
        (first_bad_row (against instruction_of (instruction_fault t.now)) [] (map fields_of rows.now)))) }
{
    let mut ssi = Ssi::new(alloc);
    for row in rows {
        let bank = Text::from_bytes(alloc, cell(row, 1))?;
        let account = Text::from_bytes(alloc, cell(row, 4))?;
        match read_row(t, &ssi, row, bank, account) {
            Ok(instruction) => ssi = ssi.enter(alloc, instruction)?,
            Err(why) => return Err(bad(TableName::Ssi, ssi.len() + 1, why)),
        }
    }
    Ok(ssi)
}
