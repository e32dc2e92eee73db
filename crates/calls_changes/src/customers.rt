//! Statements of customers' accounts.

use calls_room::{
    Ended, FILES, Failing, Files, WHOLE, booked, call, call_plain, is_done, journal, long_lived,
    wrote,
};
use corr_disk::{FuseDisk, OnceDisk};
use corr_text::{Memory, Text};
use corr_top::Status;
use std::alloc::Global;
use std::sync::Wait;
use std::test::Fail;
use std::thread::Threads;

// What CUST1 is told of the day of the payment, and of the next day.
const STATED: &[u8] =
    b"{1:F01HOMEUS33AXXX0000000000}{2:I940HOMEUS33XXXXN}{4:\r\n:20:S2406030002P0001\r\n:25:CUST1\r\n:28C:155/1\r\n:60F:C240602EUR0,00\r\n:61:2406030603C1234,50S103REF1//P00000001\r\n:86:A PAYER\r\n:62F:C240603EUR1234,50\r\n-}$";

const NEXT_DAY: &[u8] =
    b"{1:F01HOMEUS33AXXX0000000000}{2:I940HOMEUS33XXXXN}{4:\r\n:20:S2406040002P0001\r\n:25:CUST1\r\n:28C:156/1\r\n:60F:C240603EUR1234,50\r\n:62F:C240604EUR1234,50\r\n-}$";

const TOLD: [&[u8]; 2] = [b"customer-statements", b"240603"];

// A bank without customers.
const NO_CUSTOMERS: Files = Files {
    tables: [
        b"HOMEUS33\nALPHDEFF\nCORRBEBB\n",
        b"EUR,2\n",
        b"DE,Y\nUS,N\n",
        b"VALPHEUR,V,ALPHDEFF,EUR,-10000000,90000000000,5000000\nNCORREUR,N,CORRBEBB,EUR,-90000000000,90000000000,-5000000\n",
        b"",
        b"",
    ],
    messages: b"",
    received: b"",
};

// A command over a journal of these bytes. Promises nothing; likewise the others here.
fn over(alloc: Global, words: &[&[u8]], journal: &Text) -> Result<Ended<FuseDisk>, Memory> {
    call_plain(alloc, words, FILES, long_lived(alloc, journal.bytes())?)
}

// Whether a command over these bytes sends this, reports nothing, and leaves them.
fn sends(alloc: Global, words: &[&[u8]], journal: &Text, out: &[u8]) -> Result<bool, Memory> {
    let ended = over(alloc, words, journal)?;
    let done = is_done(&ended, b"", out);
    Ok(done && ended.disk.left().bytes() == journal.bytes())
}

#[test]
fn a_customer_is_told_of_a_payment(rt: HostRuntime) -> Result<(), Fail> {
    let alloc = rt.alloc();
    let journal = booked(&rt, alloc, FILES)?;
    assert!(rt; sends(alloc, &TOLD, &journal, STATED)?);
    assert!(rt;
        sends(
            alloc,
            &[b"customer-statements", b"240604"],
            &journal,
            NEXT_DAY
        )?
    );
    Ok(())
}

#[test]
fn a_bank_without_customers_sends_nothing(rt: HostRuntime) -> Result<(), Fail> {
    let alloc = rt.alloc();
    let journal = journal(&rt, alloc, NO_CUSTOMERS)?;
    assert!(rt; sends(alloc, &TOLD, &journal, b"")?);
    Ok(())
}

// Whether a command over these bytes is refused with this status, and writes nothing.
fn is_refused(
    alloc: Global,
    words: &[&[u8]],
    journal: &Text,
    status: Status,
) -> Result<bool, Memory> {
    let ended = over(alloc, words, journal)?;
    Ok(ended.status == status && wrote(&ended, b"", b""))
}

#[test]
fn customers_are_told_of_one_day_that_a_calendar_has(rt: HostRuntime) -> Result<(), Fail> {
    let alloc = rt.alloc();
    let journal = booked(&rt, alloc, FILES)?;
    let alone: [&[u8]; 1] = [b"customer-statements"];
    assert!(rt; is_refused(alloc, &alone, &journal, Status::Usage)?);
    let day: [&[u8]; 2] = [b"customer-statements", b"240631"];
    assert!(rt; is_refused(alloc, &day, &journal, Status::Usage)?);
    let more: [&[u8]; 3] = [b"customer-statements", b"240603", b"1"];
    assert!(rt; is_refused(alloc, &more, &journal, Status::Usage)?);
    let none = Text::from_bytes(alloc, b"")?;
    assert!(rt; is_refused(alloc, &TOLD, &none, Status::NotAJournal)?);
    Ok(())
}

// Whether nothing is sent of a journal whose read fails.
fn is_unread(alloc: Global, journal: &Text) -> Result<bool, Memory> {
    let disk = OnceDisk::new(alloc, journal.copy(alloc)?, 1);
    let failed = call_plain(alloc, &TOLD, FILES, disk)?;
    let fault = Status::DiskFault {
        before: 0,
        after: 1,
    };
    Ok(failed.status == fault && wrote(&failed, b"", b""))
}

// Whether the first write of what is sent fails, and is told.
fn is_unwritten<R: Wait + Threads + Sync>(
    rt: &R,
    alloc: Global,
    journal: &Text,
) -> Result<bool, Memory> {
    let failing = Failing { out: 1, ..WHOLE };
    let disk = long_lived(alloc, journal.bytes())?;
    let failed = call(rt, alloc, &TOLD, failing, FILES, disk)?;
    let fault = Status::WriteFault {
        before: 0,
        after: 1,
    };
    Ok(failed.status == fault && wrote(&failed, b"", b""))
}

#[test]
fn a_disk_and_a_sink_that_fail_are_told(rt: HostRuntime) -> Result<(), Fail> {
    let alloc = rt.alloc();
    let journal = booked(&rt, alloc, FILES)?;
    assert!(rt; is_unread(alloc, &journal)?);
    assert!(rt; is_unwritten(&rt, alloc, &journal)?);
    Ok(())
}
