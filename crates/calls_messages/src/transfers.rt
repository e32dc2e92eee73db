//! A transfer as a message holds it.

ghost use Rattle.std.specs.Prelude.{IsTrue};
ghost use Rattle.ref_tables.specs.Seen.{few_decimals};

use crate::cutting::{cut, cut_in_place, let_go, tables};
use corr_text::Text;
use fin_fields::FieldFault;
use fin_layout::Found;
use mt103::{blank, fill_mt103, put_mt103, read_mt103};
use ref_tables::RefTables;
use std::alloc::Global;
use std::test::Fail;

// The transfer of a text, written; none where the text says no transfer.
fn written(alloc: Global, tables: &RefTables, text: &[u8]) -> Result<Option<Text>, FieldFault>
    requires { IsTrue (few_decimals tables.now.ccys) }
{
    let fields = cut(alloc, text)?;
    match read_mt103(alloc, fields.as_slice(), tables) {
        Ok(m) => {
            let text = put_mt103(alloc, &m);
            let_go(m);
            Ok(Some(text?))
        }
        Err(_) => Ok(None),
    }
}

// The amount that a text says, put into a transfer; none where the text says no transfer.
fn filled(alloc: Global, tables: &RefTables, text: &[u8]) -> Result<Option<u64>, FieldFault> {
    let fields = cut_in_place(alloc, text)?;
    let mut found = Found::new(alloc);
    let mut m = blank(alloc);
    let is_ok = fill_mt103(alloc, fields.as_slice(), tables, &mut found, &mut m).is_ok();
    let minor = m.amount.minor.0;
    let_go(m);
    Ok(is_ok.then_some(minor))
}

const TEXT: &[u8] = b":20:R\n:23B:CRED\n:32A:240603EUR1,\n:50K:P\n:59:Q\n:71A:SHA\n";

#[test]
fn a_transfer_is_read_and_written(rt: HostRuntime) -> Result<(), Fail> {
    let tables = tables(rt.alloc())?;
    let want = b":20:R\r\n:23B:CRED\r\n:32A:240603EUR1,00\r\n:50K:P\r\n:59:Q\r\n:71A:SHA\r\n";
    match written(rt.alloc(), &tables, TEXT)? {
        Some(got) => assert!(rt; got.bytes() == want.as_slice()),
        None => assert!(rt; false, "a transfer"),
    }
    Ok(())
}

#[test]
fn a_transfer_is_filled(rt: HostRuntime) -> Result<(), Fail> {
    let tables = tables(rt.alloc())?;
    assert_eq!(rt; filled(rt.alloc(), &tables, TEXT)?, Some(100));
    Ok(())
}
