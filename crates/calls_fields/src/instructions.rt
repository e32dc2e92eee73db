//! Each call once; cases stand in rows (ssi.rows and limits.rows).

use corr_ids::{Bic, Day};
use corr_money::Ccy;
use ref_tables::{TableFault, read_tables};
use ssi_versions::{Method, Ssi};
use std::alloc::Global;
use std::test::Fail;

const BANK: Bic = Bic {
    head: *b"BETAFRPP",
    branch: *b"XXX",
};

fn instructions(alloc: Global) -> Result<Ssi, TableFault> {
    let tables = read_tables(alloc, b"", b"EUR,2", b"")?;
    Ssi::read(alloc, b"EUR,*,BOOK,,A,240603,240604", &tables)
}

#[test]
fn an_instruction_is_in_force(rt: HostRuntime) -> Result<(), Fail> {
    let ssi = instructions(rt.alloc())?;
    match ssi.at(Ccy(*b"EUR"), &BANK, Day(19877)) {
        Some(row) => assert_eq!(rt; row.method, Method::Book),
        None => assert!(rt; false, "an instruction"),
    }
    assert!(rt; ssi.at(Ccy(*b"EUR"), &BANK, Day(19878)).is_none());
    Ok(())
}
