//! The balances of a book without an entry, and of one with a pay of three legs; its entries; and the laws of balances.

ghost use Rattle.corr_report.specs.Bookings.{AreInCentury};
ghost use Rattle.day_model.specs.Legal.{IsLegal};
ghost use Rattle.desk_rows.specs.Entries.{AreValued};

use crate::given::{TODAY, charged, customers_and_fees, history_of};
use corr_ids::Day;
use corr_text::{Memory, Text};
use day_model::{Accounts, History};
use desk_rows::{balances, balances_cancel, entries, entries_read_back, rows_are_plain};
use std::alloc::Global;
use std::test::Fail;

const BEFORE: &[u8] =
    b"id,kind,owner,currency,floor,ceiling,opening,debits,credits,balance\r\nF,F,HOMEUS33,EUR,-0.09,0.09,0.00,0.00,0.00,0.00\r\nA,C,HOMEUS33,EUR,-0.09,0.09,0.05,0.00,0.00,0.05\r\nB,C,HOMEUS33,EUR,-0.09,0.09,-0.05,0.00,0.00,-0.05\r\n";

const AFTER: &[u8] =
    b"id,kind,owner,currency,floor,ceiling,opening,debits,credits,balance\r\nF,F,HOMEUS33,EUR,-0.09,0.09,0.00,0.00,0.01,0.01\r\nA,C,HOMEUS33,EUR,-0.09,0.09,0.05,0.03,0.00,0.02\r\nB,C,HOMEUS33,EUR,-0.09,0.09,-0.05,0.00,0.02,-0.03\r\n";

const NO_ENTRY: &[u8] =
    b"place,day,value_date,mir,type,reference,uetr,currency,amount,debit,credit,fee,outcome,balance\r\n";

const ENTRY: &[u8] =
    b"place,day,value_date,mir,type,reference,uetr,currency,amount,debit,credit,fee,outcome,balance\r\n00000001,240603,240603,240603ALPHDEFFAXXX0001000001,103,R,,EUR,0.03,A,B,0.01,BOOKED,\r\n";

// The day before the entry.
const YESTERDAY: Day = Day(19876);

// The balances after a history, or after its entries up to a day. Promises nothing.
fn told(alloc: Global, a: &Accounts, h: &History, until: Option<Day>) -> Result<Text, Memory>
    requires { IsLegal a.now h.now.entries }
{
    balances(alloc, a, h, until)
}

// The entries of a history from one day to another. Promises nothing.
fn listed(alloc: Global, a: &Accounts, h: &History, from: Day, until: Day) -> Result<Text, Memory>
    requires legal { IsLegal a.now h.now.entries }
    requires days { AreInCentury h.now.entries }
    requires values { AreValued h.now.entries }
{
    entries(alloc, a, h, from, until)
}

// The laws are theorems, and their calls do nothing. Promises nothing, so that the test carries none of them.
fn laws() {
    balances_cancel();
    rows_are_plain();
    entries_read_back();
}

#[test]
fn balances_are_told(rt: HostRuntime) -> Result<(), Fail> {
    laws();
    let a = customers_and_fees(rt.alloc())?;
    let pay = charged(rt.alloc())?;
    assert!(rt; a.fits(&pay));
    let h = history_of(rt.alloc(), &a, pay)?;
    assert!(rt; told(rt.alloc(), &a, &h, Some(YESTERDAY))?.bytes() == BEFORE);
    assert!(rt; told(rt.alloc(), &a, &h, Some(TODAY))?.bytes() == AFTER);
    assert!(rt; told(rt.alloc(), &a, &h, None)?.bytes() == AFTER);
    Ok(())
}

#[test]
fn entries_are_listed(rt: HostRuntime) -> Result<(), Fail> {
    let a = customers_and_fees(rt.alloc())?;
    let pay = charged(rt.alloc())?;
    assert!(rt; a.fits(&pay));
    let h = history_of(rt.alloc(), &a, pay)?;
    assert!(rt; listed(rt.alloc(), &a, &h, YESTERDAY, TODAY)?.bytes() == ENTRY);
    assert!(rt; listed(rt.alloc(), &a, &h, TODAY, TODAY)?.bytes() == ENTRY);
    assert!(rt; listed(rt.alloc(), &a, &h, YESTERDAY, YESTERDAY)?.bytes() == NO_ENTRY);
    assert!(rt; listed(rt.alloc(), &a, &h, TODAY, YESTERDAY)?.bytes() == NO_ENTRY);
    Ok(())
}
