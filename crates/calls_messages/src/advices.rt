//! Advices as messages hold them.

ghost use Rattle.std.specs.Prelude.{IsTrue};
ghost use Rattle.ref_tables.specs.Seen.{few_decimals};

use crate::cutting::{cut, cut_in_place, let_go, tables};
use corr_text::Text;
use fin_fields::FieldFault;
use mt9_advice::{
    put_mt900, put_mt910, read_mt900, read_mt900_lines, read_mt910, read_mt910_lines,
};
use ref_tables::RefTables;
use std::alloc::Global;
use std::test::Fail;

// The confirmation of a text, written; none where the text says none.
fn debit(alloc: Global, tables: &RefTables, text: &[u8]) -> Result<Option<Text>, FieldFault>
    requires { IsTrue (few_decimals tables.now.ccys) }
{
    let fields = cut(alloc, text)?;
    match read_mt900(alloc, fields.as_slice(), tables) {
        Ok(m) => {
            let text = put_mt900(alloc, &m);
            let_go(m);
            Ok(Some(text?))
        }
        Err(_) => Ok(None),
    }
}

fn credit(alloc: Global, tables: &RefTables, text: &[u8]) -> Result<Option<Text>, FieldFault>
    requires { IsTrue (few_decimals tables.now.ccys) }
{
    let fields = cut(alloc, text)?;
    match read_mt910(alloc, fields.as_slice(), tables) {
        Ok(m) => {
            let text = put_mt910(alloc, &m);
            let_go(m);
            Ok(Some(text?))
        }
        Err(_) => Ok(None),
    }
}

// The amount of the confirmation that a text says, read where the lines are; none where the text says none.
fn debited(alloc: Global, tables: &RefTables, text: &[u8]) -> Result<Option<u64>, FieldFault> {
    let fields = cut_in_place(alloc, text)?;
    match read_mt900_lines(alloc, fields.as_slice(), tables) {
        Ok(m) => {
            let minor = m.amount.minor.0;
            let_go(m);
            Ok(Some(minor))
        }
        Err(_) => Ok(None),
    }
}

fn credited(alloc: Global, tables: &RefTables, text: &[u8]) -> Result<Option<u64>, FieldFault> {
    let fields = cut_in_place(alloc, text)?;
    match read_mt910_lines(alloc, fields.as_slice(), tables) {
        Ok(m) => {
            let minor = m.amount.minor.0;
            let_go(m);
            Ok(Some(minor))
        }
        Err(_) => Ok(None),
    }
}

const DEBIT: &[u8] = b":20:R\n:21:S\n:25:A\n:32A:240603EUR1,\n";

const CREDIT: &[u8] = b":20:R\n:21:S\n:25:A\n:32A:240603EUR1,\n:50K:P\n";

#[test]
fn a_debit_is_read_and_written(rt: HostRuntime) -> Result<(), Fail> {
    let tables = tables(rt.alloc())?;
    let want = b":20:R\r\n:21:S\r\n:25:A\r\n:32A:240603EUR1,00\r\n";
    match debit(rt.alloc(), &tables, DEBIT)? {
        Some(got) => assert!(rt; got.bytes() == want.as_slice()),
        None => assert!(rt; false, "a debit"),
    }
    Ok(())
}

#[test]
fn a_credit_is_read_and_written(rt: HostRuntime) -> Result<(), Fail> {
    let tables = tables(rt.alloc())?;
    let want = b":20:R\r\n:21:S\r\n:25:A\r\n:32A:240603EUR1,00\r\n:50K:P\r\n";
    match credit(rt.alloc(), &tables, CREDIT)? {
        Some(got) => assert!(rt; got.bytes() == want.as_slice()),
        None => assert!(rt; false, "a credit"),
    }
    Ok(())
}

#[test]
fn a_debit_and_a_credit_are_read_in_their_texts(rt: HostRuntime) -> Result<(), Fail> {
    let tables = tables(rt.alloc())?;
    assert_eq!(rt; debited(rt.alloc(), &tables, DEBIT)?, Some(100));
    assert_eq!(rt; credited(rt.alloc(), &tables, CREDIT)?, Some(100));
    Ok(())
}
