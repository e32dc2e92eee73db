//! Accounts that are opened, and limits that change.

use calls_room::{Ended, FILES, booked, call_plain, is_done, long_lived, wrote};
use corr_disk::{FuseDisk, OnceDisk};
use corr_text::{Memory, Text};
use corr_top::Status;
use ref_tables::{TableName, Why};
use std::alloc::Global;
use std::test::Fail;

const BOOKINGS: &[u8] =
    b"00000001 240603 240603ALPHDEFFAXXX0001000001 BOOKED D VALPHEUR 1234,50 C CUST1 1234,50\n";

pub(crate) const CUST3: [&[u8]; 7] = [
    b"open-account",
    b"CUST3",
    b"C",
    b"HOMEUS33",
    b"EUR",
    b"0",
    b"90000000000",
];

const WIDER: [&[u8]; 4] = [b"set-limits", b"VALPHEUR", b"-20000000", b"90000000000"];

// A command over a disk of these bytes. Promises nothing; likewise the others here.
fn over(alloc: Global, words: &[&[u8]], journal: &Text) -> Result<Ended<FuseDisk>, Memory> {
    call_plain(alloc, words, FILES, long_lived(alloc, journal.bytes())?)
}

// Whether a command over these bytes is refused with this status, writes nothing, and leaves them.
fn is_refused(
    alloc: Global,
    words: &[&[u8]],
    journal: &Text,
    status: Status,
) -> Result<bool, Memory> {
    let ended = over(alloc, words, journal)?;
    let told = ended.status == status && wrote(&ended, b"", b"");
    Ok(told && ended.disk.left().bytes() == journal.bytes())
}

fn accounts(row: u32, why: Why) -> Status {
    Status::Table {
        table: TableName::Accounts,
        row,
        why,
    }
}

// What a command leaves that is done, and writes nothing.
pub(crate) fn changed(
    alloc: Global,
    words: &[&[u8]],
    journal: &Text,
) -> Result<Option<Text>, Memory> {
    let ended = over(alloc, words, journal)?;
    let done = is_done(&ended, b"", b"");
    let left = ended.disk.left();
    Ok(if done { Some(left) } else { None })
}

// Whether the entries of these bytes are printed as they were.
pub(crate) fn is_booked(alloc: Global, journal: &Text) -> Result<bool, Memory> {
    let ended = over(alloc, &[b"bookings"], journal)?;
    Ok(is_done(&ended, BOOKINGS, b""))
}

#[test]
fn an_account_is_opened_once(rt: HostRuntime) -> Result<(), Fail> {
    let alloc = rt.alloc();
    let journal = booked(&rt, alloc, FILES)?;
    let Some(opened) = changed(alloc, &CUST3, &journal)? else {
        return Err("not opened".into());
    };
    assert!(rt; is_booked(alloc, &opened)?);
    assert!(rt; is_refused(alloc, &CUST3, &opened, accounts(1, Why::Double { row: 4 }))?);
    Ok(())
}

#[test]
fn the_columns_of_an_account_are_tested_as_row_1(rt: HostRuntime) -> Result<(), Fail> {
    let alloc = rt.alloc();
    let journal = booked(&rt, alloc, FILES)?;
    let mut kind = CUST3;
    kind[2] = b"X";
    assert!(rt; is_refused(alloc, &kind, &journal, accounts(1, Why::Value { col: 2 }))?);
    let mut bank = CUST3;
    bank[3] = b"BETAFRPP";
    assert!(rt; is_refused(alloc, &bank, &journal, accounts(1, Why::Bic))?);
    let mut ccy = CUST3;
    ccy[4] = b"USD";
    assert!(rt; is_refused(alloc, &ccy, &journal, accounts(1, Why::Currency))?);
    let mut limits = CUST3;
    limits[5] = b"1";
    assert!(rt; is_refused(alloc, &limits, &journal, accounts(1, Why::Limits))?);
    Ok(())
}

#[test]
fn limits_are_changed_where_the_balance_lies_between_them(rt: HostRuntime) -> Result<(), Fail> {
    let alloc = rt.alloc();
    let journal = booked(&rt, alloc, FILES)?;
    let Some(wider) = changed(alloc, &WIDER, &journal)? else {
        return Err("not changed".into());
    };
    assert!(rt; is_booked(alloc, &wider)?);
    let narrow: [&[u8]; 4] = [b"set-limits", b"CUST1", b"0", b"100000"];
    assert!(rt; is_refused(alloc, &narrow, &journal, accounts(2, Why::Limits))?);
    let unknown: [&[u8]; 4] = [b"set-limits", b"NOBODY", b"0", b"1"];
    assert!(rt; is_refused(alloc, &unknown, &journal, Status::Unknown)?);
    let formless: [&[u8]; 4] = [b"set-limits", b"no-id", b"0", b"1"];
    assert!(rt; is_refused(alloc, &formless, &journal, Status::Unknown)?);
    Ok(())
}

#[test]
fn limits_are_signed_numbers(rt: HostRuntime) -> Result<(), Fail> {
    let alloc = rt.alloc();
    let journal = booked(&rt, alloc, FILES)?;
    let plus: [&[u8]; 4] = [b"set-limits", b"CUST1", b"+1", b"900000"];
    assert!(rt; is_refused(alloc, &plus, &journal, Status::Usage)?);
    let long: [&[u8]; 4] = [b"set-limits", b"CUST1", b"0", b"1000000000000000"];
    assert!(rt; is_refused(alloc, &long, &journal, Status::Usage)?);
    let large: [&[u8]; 4] = [b"set-limits", b"CUST1", b"0", b"100000000000000"];
    assert!(rt; is_refused(alloc, &large, &journal, accounts(2, Why::Limits))?);
    let zeros: [&[u8]; 4] = [b"set-limits", b"CUST1", b"-0", b"000000000900000"];
    assert!(rt; changed(alloc, &zeros, &journal)?.is_some());
    Ok(())
}

// Whether a change over a disk that stops after so many calls leaves the entries, and may be given again.
fn is_made_good(alloc: Global, journal: &Text, calls: u64, torn: u64) -> Result<bool, Memory> {
    let disk = FuseDisk::new(alloc, journal.copy(alloc)?, calls, torn);
    let stopped = call_plain(alloc, &WIDER, FILES, disk)?;
    let fault = Status::DiskFault {
        before: 0,
        after: 1,
    };
    let told = stopped.status == fault && wrote(&stopped, b"", b"");
    let left = stopped.disk.left();
    Ok(told && is_booked(alloc, &left)? && changed(alloc, &WIDER, &left)?.is_some())
}

// Two calls open the journal, and four make the change: the third writes the record, the fifth its gate.
#[test]
fn a_change_that_stops_may_be_given_again(rt: HostRuntime) -> Result<(), Fail> {
    let alloc = rt.alloc();
    let journal = booked(&rt, alloc, FILES)?;
    for calls in 0..6u64 {
        for torn in 0..4u64 {
            assert!(rt; is_made_good(alloc, &journal, calls, torn)?);
        }
    }
    Ok(())
}

// A change over a disk that fails at this call alone.
fn fails_at(alloc: Global, journal: &Text, call: u64) -> Result<bool, Memory> {
    let disk = OnceDisk::new(alloc, journal.copy(alloc)?, call);
    let failed = call_plain(alloc, &CUST3, FILES, disk)?;
    let fault = Status::DiskFault {
        before: 0,
        after: 1,
    };
    Ok(failed.status == fault && wrote(&failed, b"", b""))
}

#[test]
fn a_disk_that_fails_once_ends_a_change(rt: HostRuntime) -> Result<(), Fail> {
    let alloc = rt.alloc();
    let journal = booked(&rt, alloc, FILES)?;
    for call in 1..7u64 {
        assert!(rt; fails_at(alloc, &journal, call)?);
    }
    Ok(())
}
