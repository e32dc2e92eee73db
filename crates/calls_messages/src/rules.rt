//! A transfer that breaks a rule.

use crate::cutting::{cut, let_go, tables};
use corr_ids::Bic;
use corr_text::Fault;
use mt103::read_mt103;
use mt103_rules::{D75, first_rule};
use ref_tables::RefTables;
use std::alloc::Global;
use std::test::Fail;

const BANK: Bic = Bic {
    head: *b"ALPHDEFF",
    branch: *b"XXX",
};

// The first rule that the transfer of a text breaks.
fn told(alloc: Global, t: &RefTables, text: &[u8]) -> Result<Option<Fault>, Fail> {
    let fields = cut(alloc, text)?;
    match read_mt103(alloc, fields.as_slice(), t) {
        Ok(m) => {
            let fault = first_rule(&m, &BANK, &BANK, t);
            let_go(m);
            Ok(fault)
        }
        Err(_) => Err("no transfer")?,
    }
}

#[test]
fn a_rate_without_another_currency_is_told(rt: HostRuntime) -> Result<(), Fail> {
    let t = tables(rt.alloc())?;
    let text = b":20:R\n:23B:CRED\n:32A:240603EUR1,\n:36:1,\n:50K:P\n:59:Q\n:71A:SHA\n";
    let want = Fault {
        code: D75,
        tag: *b"36 ",
        nth: 1,
    };
    assert_eq!(rt; told(rt.alloc(), &t, text)?, Some(want));
    Ok(())
}
