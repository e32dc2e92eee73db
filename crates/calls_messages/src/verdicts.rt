//! Whole messages, received and sent.

use crate::cutting::{let_go, tables};
use corr_ids::Bic;
use corr_text::Code;
use fin_layout::Found;
use fin_message::{Message, MessageFault, check_sent, verdict, verdict_into};
use ref_tables::RefTables;
use std::alloc::Global;
use std::test::Fail;

const HOME: Bic = Bic {
    head: *b"HOMEUS33",
    branch: *b"XXX",
};

const DEBIT: &[u8] =
    b"{1:F01HOMEUS33AXXX0001000007}{2:O9001200240603ALPHDEFFAXXX00010000012406031205N}{4:\n:20:R\n:21:S\n:25:A\n:32A:240603EUR1,\n-}";

const PAGE: &[u8] =
    b"{1:F01HOMEUS33AXXX0001000007}{2:O9501200240603ALPHDEFFAXXX00010000012406031205N}{4:\n:20:R\n:25:A\n:28C:1\n:60F:C240602EUR1,\n:62F:C240603EUR1,\n-}";

// The code of the test that a message fails.
fn code_of<M: Drop>(read: Result<M, MessageFault>) -> Option<Code> {
    match read {
        Err(MessageFault::Refused { fault, .. }) => Some(fault.code),
        _ => None,
    }
}

// Whether the home bank may have received a message. Promises nothing, so that the test carries none of what a verdict is.
fn is_received(alloc: Global, m: &[u8], t: &RefTables) -> bool {
    if m.len() > 65535 {
        return false;
    }
    let read = verdict(alloc, m, &HOME, t);
    let is_ok = read.is_ok();
    let_go(read);
    is_ok
}

// Whether the home bank may have received two messages, the second in the place of the first.
fn are_received(alloc: Global, first: &[u8], second: &[u8], t: &RefTables) -> bool {
    if first.len() > 65535 || second.len() > 65535 {
        return false;
    }
    let mut place = Message::blank(alloc);
    let mut found = Found::new(alloc);
    let is_first = verdict_into(alloc, first, &HOME, t, &mut found, &mut place).is_ok();
    let is_second = verdict_into(alloc, second, &HOME, t, &mut found, &mut place).is_ok();
    let_go(place);
    is_first && is_second
}

// The code by which the home bank may not send a message.
fn not_sent(alloc: Global, m: &[u8], t: &RefTables) -> Option<Code> {
    if m.len() > 65535 {
        return None;
    }
    code_of(check_sent(alloc, m, &HOME, t))
}

#[test]
fn a_debit_is_received(rt: HostRuntime) -> Result<(), Fail> {
    let t = tables(rt.alloc())?;
    assert!(rt; is_received(rt.alloc(), DEBIT, &t));
    Ok(())
}

#[test]
fn a_page_is_received(rt: HostRuntime) -> Result<(), Fail> {
    let t = tables(rt.alloc())?;
    assert!(rt; is_received(rt.alloc(), PAGE, &t));
    Ok(())
}

#[test]
fn a_page_is_received_where_a_debit_was(rt: HostRuntime) -> Result<(), Fail> {
    let t = tables(rt.alloc())?;
    assert!(rt; are_received(rt.alloc(), DEBIT, PAGE, &t));
    Ok(())
}

#[test]
fn a_message_that_came_is_not_one_to_send(rt: HostRuntime) -> Result<(), Fail> {
    let t = tables(rt.alloc())?;
    let m =
        b"{1:F01HOMEUS33AXXX0001000007}{2:O9001200240603ALPHDEFFAXXX00010000012406031205N}{4:\n-}";
    assert_eq!(rt; not_sent(rt.alloc(), m, &t), Some(fin_message::P07));
    Ok(())
}
