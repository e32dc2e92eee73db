//! Payments that are taken back.

use calls_room::{
    CHARGED, Ended, FILES, Failing, Files, WHOLE, booked, call, call_plain, is_done, long_lived,
    wrote,
};
use corr_disk::{FuseDisk, OnceDisk};
use corr_text::{Memory, Text};
use corr_top::Status;
use std::alloc::Global;
use std::sync::Wait;
use std::test::Fail;
use std::thread::Threads;

const PAYMENT: &[u8] =
    b"00000001 240603 240603ALPHDEFFAXXX0001000001 BOOKED D VALPHEUR 1234,50 C VBETAEUR 1229,50 C FEEEUR 5,00\n";

const RETURN: &[u8] =
    b"00000002 240604 800101HOMEUS33RXXX0000000001 BOOKED D VBETAEUR 1229,50 D FEEEUR 5,00 C VALPHEUR 1234,50\n";

// What the owners of the two vostro accounts are told: the credit first.
const SENT: &[u8] =
    b"{1:F01HOMEUS33AXXX0000000000}{2:I910ALPHDEFFXXXXN}{4:\r\n:20:P00000002K1\r\n:21:REF1\r\n:25:VALPHEUR\r\n:32A:240604EUR1234,50\r\n:52A:HOMEUS33\r\n-}${1:F01HOMEUS33AXXX0000000000}{2:I900BETAFRPPXXXXN}{4:\r\n:20:P00000002K2\r\n:21:P00000001R\r\n:25:VBETAEUR\r\n:32A:240604EUR1229,50\r\n-}$";

const FIRST: [&[u8]; 3] = [b"return", b"1", b"240604"];

const FAULT: Status = Status::DiskFault {
    before: 0,
    after: 1,
};

// A command over a disk of these bytes. Promises nothing; likewise the others here.
fn over<R: Wait + Threads + Sync>(
    rt: &R,
    alloc: Global,
    files: Files,
    words: &[&[u8]],
    journal: &Text,
) -> Result<Ended<FuseDisk>, Memory> {
    call(
        rt,
        alloc,
        words,
        WHOLE,
        files,
        long_lived(alloc, journal.bytes())?,
    )
}

// Whether a command over these bytes is refused with this status, writes nothing, and leaves them.
fn is_refused<R: Wait + Threads + Sync>(
    rt: &R,
    alloc: Global,
    files: Files,
    words: &[&[u8]],
    journal: &Text,
    status: Status,
) -> Result<bool, Memory> {
    let ended = over(rt, alloc, files, words, journal)?;
    let told = ended.status == status && wrote(&ended, b"", b"");
    Ok(told && ended.disk.left().bytes() == journal.bytes())
}

// What the return of the payment leaves.
fn returned<R: Wait + Threads + Sync>(
    rt: &R,
    alloc: Global,
    journal: &Text,
) -> Result<Option<Text>, Memory> {
    let ended = over(rt, alloc, CHARGED, &FIRST, journal)?;
    let done = is_done(&ended, RETURN, SENT);
    let left = ended.disk.left();
    Ok(if done { Some(left) } else { None })
}

// Whether these bytes hold the payment, and its return or not.
fn holds<R: Wait + Threads + Sync>(
    rt: &R,
    alloc: Global,
    journal: &Text,
    is_returned: bool,
) -> Result<bool, Memory> {
    let mut lines = Text::from_bytes(alloc, PAYMENT)?;
    if is_returned {
        lines.push(RETURN)?;
    }
    let listed = over(rt, alloc, CHARGED, &[b"bookings"], journal)?;
    Ok(is_done(&listed, lines.bytes(), b""))
}

#[test]
fn a_payment_is_taken_back_once(rt: HostRuntime) -> Result<(), Fail> {
    let alloc = rt.alloc();
    let journal = booked(&rt, alloc, CHARGED)?;
    let Some(after) = returned(&rt, alloc, &journal)? else {
        return Err("not returned".into());
    };
    assert!(rt; holds(&rt, alloc, &after, true)?);
    let again = Status::Returned { place: 2 };
    assert!(rt; is_refused(&rt, alloc, CHARGED, &FIRST, &after, again)?);
    Ok(())
}

#[test]
fn a_return_and_a_place_without_entry_are_no_payment(rt: HostRuntime) -> Result<(), Fail> {
    let alloc = rt.alloc();
    let journal = booked(&rt, alloc, CHARGED)?;
    let Some(after) = returned(&rt, alloc, &journal)? else {
        return Err("not returned".into());
    };
    let none = Status::NoPayment { entries: 2 };
    let own: [&[u8]; 3] = [b"return", b"2", b"240604"];
    assert!(rt; is_refused(&rt, alloc, CHARGED, &own, &after, none)?);
    let past: [&[u8]; 3] = [b"return", b"9", b"240604"];
    assert!(rt; is_refused(&rt, alloc, CHARGED, &past, &after, none)?);
    Ok(())
}

#[test]
fn a_return_needs_a_place_and_a_day(rt: HostRuntime) -> Result<(), Fail> {
    let alloc = rt.alloc();
    let journal = booked(&rt, alloc, CHARGED)?;
    let none: [&[u8]; 3] = [b"return", b"0", b"240604"];
    assert!(rt; is_refused(&rt, alloc, CHARGED, &none, &journal, Status::Usage)?);
    let past: [&[u8]; 3] = [b"return", b"100001", b"240604"];
    assert!(rt; is_refused(&rt, alloc, CHARGED, &past, &journal, Status::Usage)?);
    let day: [&[u8]; 3] = [b"return", b"1", b"240631"];
    assert!(rt; is_refused(&rt, alloc, CHARGED, &day, &journal, Status::Usage)?);
    let disk = long_lived(alloc, journal.bytes())?;
    let alone = call_plain(alloc, &FIRST, CHARGED, disk)?;
    assert!(rt; alone.status == Status::Usage && wrote(&alone, b"", b""));
    Ok(())
}

// Whether a return on the day before the payment's is refused.
fn is_back<R: Wait + Threads + Sync>(
    rt: &R,
    alloc: Global,
    journal: &Text,
) -> Result<bool, Memory> {
    let ended = over(rt, alloc, CHARGED, &[b"return", b"1", b"240602"], journal)?;
    let told = matches!(ended.status, Status::DateBack { .. }) && wrote(&ended, b"", b"");
    Ok(told && ended.disk.left().bytes() == journal.bytes())
}

#[test]
fn a_return_goes_on_from_the_last_day(rt: HostRuntime) -> Result<(), Fail> {
    let alloc = rt.alloc();
    let journal = booked(&rt, alloc, CHARGED)?;
    assert!(rt; is_back(&rt, alloc, &journal)?);
    Ok(())
}

// The account that was credited must keep what it got, so that its debit is refused.
#[test]
fn a_return_that_an_account_cannot_take_is_refused(rt: HostRuntime) -> Result<(), Fail> {
    let alloc = rt.alloc();
    let journal = booked(&rt, alloc, FILES)?;
    let keeps: [&[u8]; 4] = [b"set-limits", b"CUST1", b"123450", b"90000000000"];
    let changed = over(&rt, alloc, FILES, &keeps, &journal)?;
    let left = changed.disk.left();
    let unfunded = Status::Unfunded {
        leg: 1,
        balance: 123_450,
    };
    assert!(rt; is_refused(&rt, alloc, FILES, &FIRST, &left, unfunded)?);
    Ok(())
}

// Whether a return over a disk that stops after so many calls tells it, and leaves the payment, with its return or without.
fn is_made_good<R: Wait + Threads + Sync>(
    rt: &R,
    alloc: Global,
    journal: &Text,
    calls: u64,
    torn: u64,
) -> Result<bool, Memory> {
    let disk = FuseDisk::new(alloc, journal.copy(alloc)?, calls, torn);
    let stopped = call(rt, alloc, &FIRST, WHOLE, CHARGED, disk)?;
    let told = stopped.status == FAULT && wrote(&stopped, b"", b"");
    let left = stopped.disk.left();
    Ok(told && (holds(rt, alloc, &left, false)? || holds(rt, alloc, &left, true)?))
}

// Two calls open the journal, and four make the entry: the third writes the record, the fifth its gate.
#[test]
fn a_return_that_stops_is_there_or_not(rt: HostRuntime) -> Result<(), Fail> {
    let alloc = rt.alloc();
    let journal = booked(&rt, alloc, CHARGED)?;
    for calls in 0..6u64 {
        for torn in 0..4u64 {
            assert!(rt; is_made_good(&rt, alloc, &journal, calls, torn)?);
        }
    }
    Ok(())
}

// Whether a return over a disk that fails at this call alone is told as its fault, and writes nothing.
fn fails_at<R: Wait + Threads + Sync>(
    rt: &R,
    alloc: Global,
    journal: &Text,
    call_number: u64,
) -> Result<bool, Memory> {
    let disk = OnceDisk::new(alloc, journal.copy(alloc)?, call_number);
    let failed = call(rt, alloc, &FIRST, WHOLE, CHARGED, disk)?;
    Ok(failed.status == FAULT && wrote(&failed, b"", b""))
}

#[test]
fn a_disk_that_fails_once_ends_a_return(rt: HostRuntime) -> Result<(), Fail> {
    let alloc = rt.alloc();
    let journal = booked(&rt, alloc, CHARGED)?;
    for call_number in 1..7u64 {
        assert!(rt; fails_at(&rt, alloc, &journal, call_number)?);
    }
    Ok(())
}

// Whether a return whose sink fails at its first write tells it, and is entered all the same.
fn is_unwritten<R: Wait + Threads + Sync>(
    rt: &R,
    alloc: Global,
    journal: &Text,
    failing: Failing,
    report: &[u8],
) -> Result<bool, Memory> {
    let disk = long_lived(alloc, journal.bytes())?;
    let ended = call(rt, alloc, &FIRST, failing, CHARGED, disk)?;
    let fault = Status::WriteFault {
        before: 0,
        after: 1,
    };
    let told = ended.status == fault && wrote(&ended, report, b"");
    Ok(told && holds(rt, alloc, &ended.disk.left(), true)?)
}

#[test]
fn a_sink_that_fails_leaves_the_return_in_the_journal(rt: HostRuntime) -> Result<(), Fail> {
    let alloc = rt.alloc();
    let journal = booked(&rt, alloc, CHARGED)?;
    let report = Failing { report: 1, ..WHOLE };
    assert!(rt; is_unwritten(&rt, alloc, &journal, report, b"")?);
    let out = Failing { out: 1, ..WHOLE };
    assert!(rt; is_unwritten(&rt, alloc, &journal, out, RETURN)?);
    Ok(())
}
