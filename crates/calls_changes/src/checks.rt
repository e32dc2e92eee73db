//! The verdict on each message, without a journal.

use calls_room::{FILES, call_plain, is_done, long_lived, wrote};
use corr_text::Memory;
use corr_top::Status;
use std::alloc::Global;
use std::test::Fail;

// The message is one to HOMEUS33, and none to another bank.
const VALID: &[u8] = b"000001 240603ALPHDEFFAXXX0001000001 VALID 103\n";

const REFUSED: &[u8] = b"000001 240603ALPHDEFFAXXX0001000001 REFUSED P08 B1 0\n";

// Whether a command over no journal prints this, sends nothing, and makes none. Promises nothing.
fn prints(alloc: Global, words: &[&[u8]], report: &[u8]) -> Result<bool, Memory> {
    let ended = call_plain(alloc, words, FILES, long_lived(alloc, b"")?)?;
    Ok(is_done(&ended, report, b"") && ended.disk.left().bytes().is_empty())
}

#[test]
fn a_message_is_judged_without_a_journal(rt: HostRuntime) -> Result<(), Fail> {
    assert!(rt; prints(rt.alloc(), &[b"check", b"HOMEUS33"], VALID)?);
    assert!(rt; prints(rt.alloc(), &[b"check", b"ALPHDEFF"], REFUSED)?);
    Ok(())
}

#[test]
fn a_home_that_is_no_bank_is_refused(rt: HostRuntime) -> Result<(), Fail> {
    let disk = long_lived(rt.alloc(), b"")?;
    let ended = call_plain(rt.alloc(), &[b"check", b"HOMEUS"], FILES, disk)?;
    assert!(rt; ended.status == Status::Usage && wrote(&ended, b"", b""));
    Ok(())
}
