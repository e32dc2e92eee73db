//! How a status is told: by its number, and by its line.

use corr_text::{Memory, Text};
use corr_top::{Status, put_status_line, status_line};
use std::alloc::Global;
use std::test::*;

// The line of a read fault. Promises nothing; likewise the next.
fn fault_line(alloc: Global) -> Result<Text, Memory> {
    let fault = Status::ReadFault {
        before: 0,
        after: 1,
    };
    status_line(alloc, &fault)
}

// The line of what is no journal, in place of a word.
fn no_journal_line(alloc: Global) -> Result<Text, Memory> {
    let mut line = Text::from_bytes(alloc, b"word")?;
    put_status_line(alloc, &Status::NotAJournal, &mut line)?;
    Ok(line)
}

// The line of a journal of version 1.
fn version_line(alloc: Global) -> Result<Text, Memory> {
    status_line(alloc, &Status::Version { found: 1 })
}

// The line of a return that an account can't take.
fn unfunded_line(alloc: Global) -> Result<Text, Memory> {
    let unfunded = Status::Unfunded {
        leg: 2,
        balance: -150,
    };
    status_line(alloc, &unfunded)
}

#[test]
fn a_status_has_a_number_and_a_line(rt: HostRuntime) -> Result<(), Fail> {
    assert_eq!(rt; Status::NotAJournal.number(), 6);
    let line = fault_line(rt.alloc())?;
    assert_eq!(rt; line.bytes(), b"corr: read fault 0 1".as_slice());
    let line = no_journal_line(rt.alloc())?;
    assert_eq!(rt; line.bytes(), b"corr: not a journal".as_slice());
    assert_eq!(rt; (Status::Version { found: 1 }).number(), 12);
    let line = version_line(rt.alloc())?;
    assert_eq!(rt; line.bytes(), b"corr: version 1".as_slice());
    assert_eq!(rt; (Status::NoPayment { entries: 2 }).number(), 15);
    let line = unfunded_line(rt.alloc())?;
    assert_eq!(rt; line.bytes(), b"corr: unfunded 2 -150".as_slice());
    Ok(())
}
