//! Balances after all entries, and up to a day.

use crate::changes::{CUST3, changed};
use calls_room::{Ended, FILES, booked, call_plain, is_done, journal, long_lived, wrote};
use corr_disk::FuseDisk;
use corr_text::{Memory, Text};
use corr_top::Status;
use std::alloc::Global;
use std::test::Fail;

// The balances without an entry, and with that of 1234,50 euros of 3 June 2024.
const OPENINGS: &[u8] =
    b"id,kind,owner,currency,floor,ceiling,opening,debits,credits,balance\r\nVALPHEUR,V,ALPHDEFF,EUR,-100000.00,900000000.00,50000.00,0.00,0.00,50000.00\r\nCUST1,C,HOMEUS33,EUR,0.00,900000000.00,0.00,0.00,0.00,0.00\r\nNCORREUR,N,CORRBEBB,EUR,-900000000.00,900000000.00,-50000.00,0.00,0.00,-50000.00\r\n";

const BOOKED: &[u8] =
    b"id,kind,owner,currency,floor,ceiling,opening,debits,credits,balance\r\nVALPHEUR,V,ALPHDEFF,EUR,-100000.00,900000000.00,50000.00,1234.50,0.00,48765.50\r\nCUST1,C,HOMEUS33,EUR,0.00,900000000.00,0.00,0.00,1234.50,1234.50\r\nNCORREUR,N,CORRBEBB,EUR,-900000000.00,900000000.00,-50000.00,0.00,0.00,-50000.00\r\n";

// The row of an account that was opened after the entry.
const OPENED: &[u8] = b"CUST3,C,HOMEUS33,EUR,0.00,900000000.00,0.00,0.00,0.00,0.00\r\n";

// A command over a journal of these bytes. Promises nothing; likewise the others here.
fn over(alloc: Global, words: &[&[u8]], journal: &Text) -> Result<Ended<FuseDisk>, Memory> {
    call_plain(alloc, words, FILES, long_lived(alloc, journal.bytes())?)
}

// Whether a command over these bytes prints this, sends nothing, and leaves them.
fn prints(alloc: Global, words: &[&[u8]], journal: &Text, report: &[u8]) -> Result<bool, Memory> {
    let ended = over(alloc, words, journal)?;
    let done = is_done(&ended, report, b"");
    Ok(done && ended.disk.left().bytes() == journal.bytes())
}

#[test]
fn a_new_journal_has_its_openings(rt: HostRuntime) -> Result<(), Fail> {
    let journal = journal(&rt, rt.alloc(), FILES)?;
    assert!(rt; prints(rt.alloc(), &[b"balances"], &journal, OPENINGS)?);
    assert!(rt; prints(rt.alloc(), &[b"balances", b"240603"], &journal, OPENINGS)?);
    Ok(())
}

#[test]
fn the_entries_of_the_day_count(rt: HostRuntime) -> Result<(), Fail> {
    let alloc = rt.alloc();
    let journal = booked(&rt, alloc, FILES)?;
    assert!(rt; prints(alloc, &[b"balances"], &journal, BOOKED)?);
    assert!(rt; prints(alloc, &[b"balances", b"240602"], &journal, OPENINGS)?);
    assert!(rt; prints(alloc, &[b"balances", b"240603"], &journal, BOOKED)?);
    assert!(rt; prints(alloc, &[b"balances", b"240604"], &journal, BOOKED)?);
    Ok(())
}

// These rows, and that of the account that was opened.
fn with_opened(alloc: Global, rows: &[u8]) -> Result<Text, Memory> {
    let mut all = Text::from_bytes(alloc, rows)?;
    all.push(OPENED)?;
    Ok(all)
}

#[test]
fn an_account_that_was_opened_has_the_last_row(rt: HostRuntime) -> Result<(), Fail> {
    let alloc = rt.alloc();
    let journal = booked(&rt, alloc, FILES)?;
    let Some(opened) = changed(alloc, &CUST3, &journal)? else {
        return Err("not opened".into());
    };
    let before = with_opened(alloc, OPENINGS)?;
    let after = with_opened(alloc, BOOKED)?;
    assert!(rt; prints(alloc, &[b"balances", b"240602"], &opened, before.bytes())?);
    assert!(rt; prints(alloc, &[b"balances"], &opened, after.bytes())?);
    Ok(())
}

// Whether a command over these bytes is refused with this status, and writes nothing.
fn is_refused(
    alloc: Global,
    words: &[&[u8]],
    journal: &Text,
    status: Status,
) -> Result<bool, Memory> {
    let ended = over(alloc, words, journal)?;
    Ok(ended.status == status && wrote(&ended, b"", b""))
}

#[test]
fn a_date_that_no_calendar_has_is_refused(rt: HostRuntime) -> Result<(), Fail> {
    let alloc = rt.alloc();
    let journal = booked(&rt, alloc, FILES)?;
    let none = Text::from_bytes(alloc, b"")?;
    assert!(rt; is_refused(alloc, &[b"balances", b"240631"], &journal, Status::Usage)?);
    assert!(rt;
        is_refused(
            alloc,
            &[b"balances", b"240603", b"1"],
            &journal,
            Status::Usage
        )?
    );
    assert!(rt; is_refused(alloc, &[b"balances"], &none, Status::NotAJournal)?);
    Ok(())
}
