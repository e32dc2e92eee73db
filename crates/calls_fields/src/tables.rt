//! Each call once; cases stand in rows (tables.rows and limits.rows).

use corr_ids::Bic;
use corr_money::{Ccy, Minor};
use ref_tables::{
    AccountRow, Charges, RefTables, TableFault, TableName, Why, bad, ccy, cell, is_account_id,
    read_account_words, read_accounts, read_banks, read_charges, read_rows, read_tables,
    with_countries, with_currencies,
};
use std::alloc::Global;
use std::test::Fail;

const HOME: Bic = Bic {
    head: *b"HOMEUS33",
    branch: *b"XXX",
};

fn tables(alloc: Global) -> Result<RefTables, TableFault> {
    read_tables(alloc, b"HOMEUS33", b"EUR,2", b"DE,Y")
}

fn accounts(alloc: Global) -> Result<Vec<AccountRow>, TableFault> {
    read_accounts(alloc, b"A,C,HOMEUS33,EUR,0,9,5", &HOME, &tables(alloc)?)
}

fn account_of_words(alloc: Global) -> Result<AccountRow, TableFault> {
    let words: [&[u8]; 7] = [b"FEEEUR", b"F", b"HOMEUS33", b"EUR", b"0", b"9", b"5"];
    read_account_words(alloc, &words, &HOME, &tables(alloc)?)
}

fn charges(alloc: Global) -> Result<Charges, TableFault> {
    read_charges(alloc, b"EUR,500", &tables(alloc)?)
}

#[test]
fn tables_are_read(rt: HostRuntime) -> Result<(), Fail> {
    let tables = tables(rt.alloc())?;
    assert!(rt; tables.has_bic(b"HOMEUS33"));
    assert_eq!(rt; tables.decimals(Ccy(*b"EUR")), Some(2));
    assert!(rt; tables.listed(b"DE"));
    Ok(())
}

#[test]
fn tables_are_read_one_after_another(rt: HostRuntime) -> Result<(), Fail> {
    let banks = read_banks(rt.alloc(), b"HOMEUS33")?;
    assert!(rt; banks.has_bic(b"HOMEUS33"));
    assert_eq!(rt; banks.decimals(Ccy(*b"EUR")), None);
    let with_eur = with_currencies(rt.alloc(), banks, b"EUR,2")?;
    assert_eq!(rt; with_eur.decimals(Ccy(*b"EUR")), Some(2));
    let tables = with_countries(rt.alloc(), with_eur, b"DE,Y")?;
    assert!(rt; tables.has_bic(b"HOMEUS33") && tables.listed(b"DE"));
    Ok(())
}

#[test]
fn accounts_are_read(rt: HostRuntime) -> Result<(), Fail> {
    let accounts = accounts(rt.alloc())?;
    assert_eq!(rt; accounts.len(), 1);
    assert_eq!(rt; accounts[0].opening, 5);
    Ok(())
}

#[test]
fn an_account_is_read_of_words(rt: HostRuntime) -> Result<(), Fail> {
    let account = account_of_words(rt.alloc())?;
    assert_eq!(rt; account.id.bytes(), b"FEEEUR".as_slice());
    assert_eq!(rt; account.kind, b'F');
    assert_eq!(rt; account.opening, 5);
    Ok(())
}

#[test]
fn charges_are_read(rt: HostRuntime) -> Result<(), Fail> {
    let charges = charges(rt.alloc())?;
    assert_eq!(rt; charges.of(Ccy(*b"EUR")), Some(Minor(500)));
    assert_eq!(rt; charges.of(Ccy(*b"USD")), None);
    Ok(())
}

#[test]
fn nothing_is_charged_without_rows(rt: HostRuntime) {
    let none = Charges::empty(rt.alloc());
    assert_eq!(rt; none.of(Ccy(*b"EUR")), None);
}

#[test]
fn a_bad_row_is_told(rt: HostRuntime) {
    let fault = bad(TableName::Bics, 2, Why::Columns);
    assert!(rt;
        matches!(
            fault,
            TableFault::Bad {
                table: TableName::Bics,
                row: 2,
                why: Why::Columns,
            }
        )
    );
}

#[test]
fn columns_have_their_forms(rt: HostRuntime) -> Result<(), Fail> {
    assert_eq!(rt; ccy(b"EUR"), Some(Ccy(*b"EUR")));
    assert!(rt; is_account_id(b"A1"));
    match read_rows(rt.alloc(), b"A,B", 1)? {
        Some(rows) => {
            assert_eq!(rt; rows.len(), 1);
            assert_eq!(rt; cell(&rows[0], 1), b"B".as_slice());
        }
        None => assert!(rt; false, "a row"),
    }
    Ok(())
}
