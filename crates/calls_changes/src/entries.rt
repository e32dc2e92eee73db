//! The entries of some days.

use calls_room::{FILES, booked, call_plain, is_done, journal, long_lived, wrote};
use corr_text::{Memory, Text};
use corr_top::Status;
use std::alloc::Global;
use std::test::Fail;

const HEADER: &[u8] =
    b"place,day,value_date,mir,type,reference,uetr,currency,amount,debit,credit,fee,outcome,balance\r\n";

// The entry of 1234,50 euros of 3 June 2024.
const ROW: &[u8] =
    b"place,day,value_date,mir,type,reference,uetr,currency,amount,debit,credit,fee,outcome,balance\r\n00000001,240603,240603,240603ALPHDEFFAXXX0001000001,103,REF1,,EUR,1234.50,VALPHEUR,CUST1,,BOOKED,\r\n";

// Whether a command over a journal of these bytes prints this, sends nothing, and leaves them. Promises nothing; likewise the other
// here.
fn prints(alloc: Global, words: &[&[u8]], journal: &Text, report: &[u8]) -> Result<bool, Memory> {
    let ended = call_plain(alloc, words, FILES, long_lived(alloc, journal.bytes())?)?;
    let done = is_done(&ended, report, b"");
    Ok(done && ended.disk.left().bytes() == journal.bytes())
}

// Whether a command over these bytes is refused with this status, and writes nothing.
fn is_refused(
    alloc: Global,
    words: &[&[u8]],
    journal: &Text,
    status: Status,
) -> Result<bool, Memory> {
    let ended = call_plain(alloc, words, FILES, long_lived(alloc, journal.bytes())?)?;
    Ok(ended.status == status && wrote(&ended, b"", b""))
}

#[test]
fn a_new_journal_has_no_row(rt: HostRuntime) -> Result<(), Fail> {
    let journal = journal(&rt, rt.alloc(), FILES)?;
    assert!(rt;
        prints(
            rt.alloc(),
            &[b"entries", b"800101", b"791231"],
            &journal,
            HEADER
        )?
    );
    Ok(())
}

#[test]
fn the_first_and_the_last_day_count(rt: HostRuntime) -> Result<(), Fail> {
    let alloc = rt.alloc();
    let journal = booked(&rt, alloc, FILES)?;
    assert!(rt; prints(alloc, &[b"entries", b"240603", b"240603"], &journal, ROW)?);
    assert!(rt; prints(alloc, &[b"entries", b"800101", b"791231"], &journal, ROW)?);
    assert!(rt; prints(alloc, &[b"entries", b"240601", b"240602"], &journal, HEADER)?);
    assert!(rt; prints(alloc, &[b"entries", b"240604", b"240605"], &journal, HEADER)?);
    assert!(rt; prints(alloc, &[b"entries", b"240604", b"240602"], &journal, HEADER)?);
    Ok(())
}

#[test]
fn a_day_that_no_calendar_has_is_refused(rt: HostRuntime) -> Result<(), Fail> {
    let alloc = rt.alloc();
    let journal = booked(&rt, alloc, FILES)?;
    let none = Text::from_bytes(alloc, b"")?;
    let usage = Status::Usage;
    assert!(rt; is_refused(alloc, &[b"entries", b"240631", b"240701"], &journal, usage)?);
    assert!(rt; is_refused(alloc, &[b"entries", b"240601", b"240631"], &journal, usage)?);
    assert!(rt; is_refused(alloc, &[b"entries", b"240603"], &journal, usage)?);
    assert!(rt; is_refused(alloc, &[b"entries"], &journal, usage)?);
    assert!(rt;
        is_refused(
            alloc,
            &[b"entries", b"240603", b"240603"],
            &none,
            Status::NotAJournal
        )?
    );
    Ok(())
}
