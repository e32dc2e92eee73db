//! A cover as a message holds it.

ghost use Rattle.std.specs.Prelude.{IsTrue};
ghost use Rattle.ref_tables.specs.Seen.{few_decimals};

use crate::cutting::{cut, cut_in_place, let_go, tables};
use corr_text::Text;
use fin_fields::FieldFault;
use mt202cov::{put_mt202cov, read_mt202cov, read_mt202cov_lines};
use ref_tables::RefTables;
use std::alloc::Global;
use std::test::Fail;

// The cover of a text, written; none where the text says none.
fn rewritten(alloc: Global, tables: &RefTables, text: &[u8]) -> Result<Option<Text>, FieldFault>
    requires { IsTrue (few_decimals tables.now.ccys) }
{
    let fields = cut(alloc, text)?;
    match read_mt202cov(alloc, fields.as_slice(), tables) {
        Ok(m) => {
            let text = put_mt202cov(alloc, &m);
            let_go(m);
            Ok(Some(text?))
        }
        Err(_) => Ok(None),
    }
}

// The amount of the cover that a text says, read where the lines are; none where the text says none.
fn amount(alloc: Global, tables: &RefTables, text: &[u8]) -> Result<Option<u64>, FieldFault> {
    let fields = cut_in_place(alloc, text)?;
    match read_mt202cov_lines(alloc, fields.as_slice(), tables) {
        Ok(m) => {
            let minor = m.amount.minor.0;
            let_go(m);
            Ok(Some(minor))
        }
        Err(_) => Ok(None),
    }
}

const TEXT: &[u8] = b":20:R\n:21:I\n:32A:240603EUR1,\n:58D:B\n:50K:P\n:59:Q\n";

#[test]
fn a_cover_is_read_and_written(rt: HostRuntime) -> Result<(), Fail> {
    let tables = tables(rt.alloc())?;
    let want = b":20:R\r\n:21:I\r\n:32A:240603EUR1,00\r\n:58D:B\r\n:50K:P\r\n:59:Q\r\n";
    match rewritten(rt.alloc(), &tables, TEXT)? {
        Some(got) => assert!(rt; got.bytes() == want.as_slice()),
        None => assert!(rt; false, "a cover"),
    }
    Ok(())
}

#[test]
fn a_cover_is_read_in_its_text(rt: HostRuntime) -> Result<(), Fail> {
    let tables = tables(rt.alloc())?;
    assert_eq!(rt; amount(rt.alloc(), &tables, TEXT)?, Some(100));
    Ok(())
}
