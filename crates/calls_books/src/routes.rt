//! A route between two accounts.

use crate::given::{EUR, HOME, OTHER, TODAY, bank_and_customer, bank_customer_and_fees};
use corr_money::{Amount, Minor};
use corr_text::{Code, Text};
use day_model::{Accounts, AcctNo, Kind};
use ref_tables::{TableFault, read_tables};
use routing::{Cover, LentCover, LentTarget, Routed, Target, account_with, route, route_lent};
use ssi_versions::Ssi;
use std::alloc::Global;
use std::test::Fail;

// No instructions, under no tables. Promises nothing, so that the test carries none of what tables are.
fn instructions(alloc: Global) -> Result<Ssi, TableFault> {
    let tables = read_tables(alloc, b"", b"", b"")?;
    Ssi::read(alloc, b"", &tables)
}

// The route of an amount to a customer's account. Promises nothing.
fn routed(ssi: &Ssi, book: &Accounts, target: &Target) -> Result<Routed, Code> {
    let amount = Amount {
        ccy: EUR,
        minor: Minor(5),
        decimals: 2,
    };
    route(&OTHER, &amount, TODAY, &Cover::Relation, target, ssi, book)
}

// The same of a customer's account that stays where it is. Promises nothing.
fn routed_in_place(ssi: &Ssi, book: &Accounts, account: &[u8]) -> Result<Routed, Code> {
    let amount = Amount {
        ccy: EUR,
        minor: Minor(5),
        decimals: 2,
    };
    let target = LentTarget::Customer {
        account: Some(account),
    };
    route_lent(
        &OTHER,
        &amount,
        TODAY,
        LentCover::Relation,
        target,
        ssi,
        book,
    )
}

#[test]
fn a_payment_is_routed(rt: HostRuntime) -> Result<(), Fail> {
    let ssi = instructions(rt.alloc())?;
    let book = bank_and_customer(rt.alloc())?;
    let target = Target::Customer {
        account: Some(Text::from_bytes(rt.alloc(), b"C")?),
    };
    let want = Routed {
        debit: AcctNo(1),
        credit: AcctNo(2),
        method: None,
        via: None,
    };
    assert_eq!(rt;
        routed_in_place(&ssi, &book, b"C"),
        routed(&ssi, &book, &target)
    );
    assert_eq!(rt; routed(&ssi, &book, &target), Ok(want));
    Ok(())
}

// The home bank's account of fees for an amount. Promises nothing.
fn fees(book: &Accounts) -> Option<AcctNo> {
    let amount = Amount {
        ccy: EUR,
        minor: Minor(5),
        decimals: 2,
    };
    account_with(Kind::Fee, &HOME, &amount, book)
}

#[test]
fn an_account_of_a_kind_is_found(rt: HostRuntime) -> Result<(), Fail> {
    let book = bank_customer_and_fees(rt.alloc())?;
    assert_eq!(rt; fees(&book), Some(AcctNo(3)));
    let book = bank_and_customer(rt.alloc())?;
    assert_eq!(rt; fees(&book), None);
    Ok(())
}
