//! What leaves and the report, where several threads make them.

use crate::transfers::transfers;
use calls_room::{FILES, call_over, call_plain, entries_in, journal, long_lived};
use corr_disk::FuseDisk;
use corr_top::Status;
use std::test::Fail;

// How many transfers there are: enough for four threads.
const COUNT: u64 = 140;

// What a run of four workers sends is what `send` makes of its entries, one after another.
#[test]
fn what_leaves_is_the_same_by_four_threads_and_by_one(rt: HostRuntime) -> Result<(), Fail> {
    let alloc = rt.alloc();
    let messages = transfers(alloc, COUNT, COUNT, 0)?;
    let journal = journal(&rt, alloc, FILES)?;
    let disk = FuseDisk::new(alloc, journal, 10_000, 0);
    let words: [&[u8]; 3] = [b"run", b"240603", b"4"];
    let ended = call_over(&rt, alloc, &words, messages.bytes(), 0, FILES, disk)?;
    assert!(rt; ended.status == Status::Done);
    assert!(rt; ended.report.bytes().starts_with(b"000001 "));
    assert!(rt; !ended.out.bytes().is_empty());
    let left = ended.disk.left();
    assert!(rt; entries_in(alloc, FILES, left.bytes())? == Some(COUNT));
    let disk = long_lived(alloc, left.bytes())?;
    let sent = call_plain(alloc, &[b"send", b"1", b"140"], FILES, disk)?;
    assert!(rt; sent.out.bytes() == ended.out.bytes());
    Ok(())
}
