//! The file of messages that leave, mended.

use out_file::mended;
use std::alloc::Global;
use std::test::Fail;

// Three messages that leave; the second one's text names the reference of the third.
const SENT: &[u8] = b"{4::20:P00000001}${4::20:P00000002 INV:20:P00000003}${4::20:P00000003}$";

// Whether a file mended by what was sent holds these bytes.
fn comes_to(alloc: Global, file: &[u8], holds: &[u8]) -> Result<bool, Fail> {
    Ok(mended(alloc, file, SENT)?.bytes() == holds)
}

#[test]
fn what_lacks_is_added(rt: HostRuntime) -> Result<(), Fail> {
    let alloc = rt.alloc();
    assert!(rt; comes_to(alloc, b"", SENT)?);
    assert!(rt; comes_to(alloc, SENT, SENT)?);
    Ok(())
}

// In the file stand the first message and a front of the second: cut within it, just before its `$`, and after it.
#[test]
fn a_message_that_was_cut_is_dropped(rt: HostRuntime) -> Result<(), Fail> {
    let alloc = rt.alloc();
    assert!(rt; comes_to(alloc, &SENT[..40], SENT)?);
    assert!(rt; comes_to(alloc, &SENT[..52], SENT)?);
    assert!(rt; comes_to(alloc, &SENT[..53], SENT)?);
    Ok(())
}

#[test]
fn other_messages_stay_where_they_stand(rt: HostRuntime) -> Result<(), Fail> {
    let alloc = rt.alloc();
    let file = b"{4::20:S240603}${4::20:P00000003}${4::20:P0000";
    let holds =
        b"{4::20:S240603}${4::20:P00000003}${4::20:P00000001}${4::20:P00000002 INV:20:P00000003}$";
    assert!(rt; comes_to(alloc, file, holds)?);
    Ok(())
}
