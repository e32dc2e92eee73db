//! What the file of messages that leave should hold, after a stop at each of its bytes.

use calls_room::{Ended, FILES, SENT, booked, call_after, is_done, journal, long_lived, wrote};
use corr_disk::FuseDisk;
use corr_text::{Memory, Text};
use corr_top::Status;
use std::alloc::Global;
use std::test::Fail;

// A message of an earlier day, whose text names the one that leaves of the entry at place 1.
const EARLIER: &[u8] =
    b"{1:F01HOMEUS33AXXX0000000000}{2:I199ALPHDEFFXXXXN}{4:\r\n:20:X\r\n:79:INV :20:P00000001K1\r\n-}$";

// A command over a journal of these bytes and this file of messages that leave. Promises nothing; likewise the others here.
fn after(
    alloc: Global,
    words: &[&[u8]],
    journal: &Text,
    sent: &[u8],
) -> Result<Ended<FuseDisk>, Memory> {
    call_after(
        alloc,
        words,
        sent,
        0,
        FILES,
        long_lived(alloc, journal.bytes())?,
    )
}

// These texts, one after another.
fn joined(alloc: Global, texts: &[&[u8]]) -> Result<Text, Memory> {
    let mut all = Text::from_bytes(alloc, b"")?;
    for text in texts {
        all.push(text)?;
    }
    Ok(all)
}

// Whether a command over this file prints this, sends nothing and leaves the journal.
fn prints(
    alloc: Global,
    words: &[&[u8]],
    journal: &Text,
    sent: &[u8],
    report: &[u8],
) -> Result<bool, Memory> {
    let ended = after(alloc, words, journal, sent)?;
    let done = is_done(&ended, report, b"");
    Ok(done && ended.disk.left().bytes() == journal.bytes())
}

// Whether, behind whole messages, each front of what a run sent is mended to all of it.
fn each_cut_is_mended(alloc: Global, journal: &Text, before: &[u8]) -> Result<bool, Memory> {
    let whole = joined(alloc, &[before, SENT])?;
    let words: [&[u8]; 3] = [b"mend", b"1", b"1"];
    for len in 0..SENT.len() + 1 {
        let cut = joined(alloc, &[before, &SENT[..len]])?;
        if !prints(alloc, &words, journal, cut.bytes(), whole.bytes())? {
            return Ok(false);
        }
    }
    Ok(true)
}

#[test]
fn each_cut_of_what_was_sent_is_mended(rt: HostRuntime) -> Result<(), Fail> {
    let journal = booked(&rt, rt.alloc(), FILES)?;
    assert!(rt; each_cut_is_mended(rt.alloc(), &journal, b"")?);
    assert!(rt; each_cut_is_mended(rt.alloc(), &journal, EARLIER)?);
    Ok(())
}

#[test]
fn places_without_an_entry_add_nothing(rt: HostRuntime) -> Result<(), Fail> {
    let alloc = rt.alloc();
    let journal = booked(&rt, alloc, FILES)?;
    let torn = joined(alloc, &[EARLIER, b"{1:F01"])?;
    assert!(rt;
        prints(
            alloc,
            &[b"mend", b"2", b"100000"],
            &journal,
            torn.bytes(),
            EARLIER
        )?
    );
    assert!(rt; prints(alloc, &[b"mend", b"1", b"100000"], &journal, b"", SENT)?);
    Ok(())
}

// Whether a command is refused with this status, and writes nothing.
fn is_refused(ended: &Ended<FuseDisk>, status: Status) -> bool {
    ended.status == status && wrote(ended, b"", b"")
}

#[test]
fn a_file_that_is_not_read_ends_it(rt: HostRuntime) -> Result<(), Fail> {
    let alloc = rt.alloc();
    let journal = booked(&rt, alloc, FILES)?;
    let words: [&[u8]; 3] = [b"mend", b"1", b"1"];
    for read in 1..3 {
        let disk = long_lived(alloc, journal.bytes())?;
        let ended = call_after(alloc, &words, SENT, read, FILES, disk)?;
        let fault = Status::ReadFault {
            before: 0,
            after: 1,
        };
        assert!(rt; is_refused(&ended, fault));
    }
    Ok(())
}

#[test]
fn without_a_journal_nothing_is_mended(rt: HostRuntime) -> Result<(), Fail> {
    let alloc = rt.alloc();
    let none = Text::from_bytes(alloc, b"")?;
    let ended = after(alloc, &[b"mend", b"1", b"1"], &none, SENT)?;
    assert!(rt; is_refused(&ended, Status::NotAJournal));
    Ok(())
}

#[test]
fn places_are_two_of_a_journal(rt: HostRuntime) -> Result<(), Fail> {
    let alloc = rt.alloc();
    let journal = journal(&rt, alloc, FILES)?;
    let words: [[&[u8]; 3]; 3] = [
        [b"mend", b"0", b"1"],
        [b"mend", b"2", b"1"],
        [b"mend", b"1", b"100001"],
    ];
    for words in words {
        let ended = after(alloc, &words, &journal, SENT)?;
        assert!(rt; is_refused(&ended, Status::Usage));
    }
    let ended = after(alloc, &[b"mend", b"1"], &journal, SENT)?;
    assert!(rt; is_refused(&ended, Status::Usage));
    Ok(())
}
