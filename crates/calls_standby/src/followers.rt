//! Packets, and a follower that takes them.

ghost use Rattle.std.specs.Prelude.{◌<◌};

use corr_disk::{Disk, FuseDisk, MemDisk, OnceDisk};
use corr_text::{Memory, Text};
use jrn_book::open_past;
use jrn_file::OpenFault;
use standby::{Follower, TakeFault, Took, first_packet, packets};
use std::alloc::Global;
use std::test::*;

// The accounts of two banks with HOMEUS33: number 1, a packet of 125 bytes.
const HEAD: &[u8] =
    b"CORRJ2HOMEUS33XXX\0\x02\x08VALPHEURVALPHDEFFXXXEUR\x02\xff\xff\xff\xff\xffgi\x80\0\0\0\x14\xf4k\x04\0\0\0\0\0\0[\x8d\x80\x08NCORREURNCORRBEBBXXXEUR\x02\xff\xff\xff\xeb\x0b\x94\xfc\0\0\0\0\x14\xf4k\x04\0\xff\xff\xff\xff\xff\xa4r\x80";

const FIRST: &[u8] =
    b"\0\0\0\x01\0\0\0\x75CORRJ2HOMEUS33XXX\0\x02\x08VALPHEURVALPHDEFFXXXEUR\x02\xff\xff\xff\xff\xffgi\x80\0\0\0\x14\xf4k\x04\0\0\0\0\0\0[\x8d\x80\x08NCORREURNCORRBEBBXXXEUR\x02\xff\xff\xff\xeb\x0b\x94\xfc\0\0\0\0\x14\xf4k\x04\0\xff\xff\xff\xff\xff\xa4r\x80";

// An MT103 of EUR 1,234.56 that was booked between them: number 2.
const ENTRY: &[u8] =
    b"\0240603ALPHDEFFAXXX0001000001\x01\0\0\0\x4d\xa5\0\0\x4d\xa5\0\x02\0\x01\0\0\0\0\0\0\x01\xe2\x40\0\x04REF1\0\x02\x01\0\0\0\0\0\x01\xe2\x40\x01\x01\x01\x04ALPHDEFFXXX\x01\0\0\0\x02\r\n";

const SECOND: &[u8] =
    b"\0\0\0\x02\0\0\0\x5b\0240603ALPHDEFFAXXX0001000001\x01\0\0\0\x4d\xa5\0\0\x4d\xa5\0\x02\0\x01\0\0\0\0\0\0\x01\xe2\x40\0\x04REF1\0\x02\x01\0\0\0\0\0\x01\xe2\x40\x01\x01\x01\x04ALPHDEFFXXX\x01\0\0\0\x02\r\n";

// The same entry once more, as number 3.
const AGAIN: &[u8] =
    b"\0\0\0\x03\0\0\0\x5b\0240603ALPHDEFFAXXX0001000001\x01\0\0\0\x4d\xa5\0\0\x4d\xa5\0\x02\0\x01\0\0\0\0\0\0\x01\xe2\x40\0\x04REF1\0\x02\x01\0\0\0\0\0\x01\xe2\x40\x01\x01\x01\x04ALPHDEFFXXX\x01\0\0\0\x02\r\n";

// CUST1 is opened: number 3.
const THIRD: &[u8] =
    b"\0\0\0\x03\0\0\0\x30\x01\0\x05CUST1CHOMEUS33XXXEUR\x02\0\0\0\0\0\0\0\0\0\0\0\x14\xf4k\x04\0\0\0\0\0\0\0\0\0";

// The header of a journal of version 1.
const OLD_HEAD: &[u8] =
    b"\x01\0\0\0\x75CORRJ1HOMEUS33XXX\0\x02\x08VALPHEURVALPHDEFFXXXEUR\x02\xff\xff\xff\xff\xffgi\x80\0\0\0\x14\xf4k\x04\0\0\0\0\0\0[\x8d\x80\x08NCORREURNCORRBEBBXXXEUR\x02\xff\xff\xff\xeb\x0b\x94\xfc\0\0\0\0\x14\xf4k\x04\0\xff\xff\xff\xff\xff\xa4r\x80\0";

fn empty(alloc: Global) -> Result<MemDisk, Memory> {
    Ok(MemDisk::new(alloc, Text::from_bytes(alloc, b"")?))
}

fn begun<D: Disk + Drop>(alloc: Global, disk: D) -> Result<Follower<D>, Fail> {
    match Follower::begin(alloc, disk) {
        Ok(follower) => Ok(follower),
        Err(_) => Err("not begun".into()),
    }
}

// How many entries the journal of a disk has.
fn entries<D: Disk + Drop>(alloc: Global, disk: D) -> Result<u32, Fail> {
    match open_past(alloc, disk) {
        Ok((past, _)) => Ok(past.history().len()),
        Err(_) => Err("no journal".into()),
    }
}

#[test]
fn a_journal_is_its_packets(rt: HostRuntime) -> Result<(), Fail> {
    let alloc = rt.alloc();
    let recs = [Text::from_bytes(alloc, ENTRY)?];
    let all = packets(alloc, HEAD, &recs, 1, 9)?;
    assert_eq!(rt; all.as_slice().len(), 2);
    assert_eq!(rt; all[0].bytes(), FIRST);
    assert_eq!(rt; all[1].bytes(), SECOND);
    let last = packets(alloc, HEAD, &recs, 2, 2)?;
    assert_eq!(rt; last.as_slice().len(), 1);
    assert_eq!(rt; last[0].bytes(), SECOND);
    let none = packets(alloc, HEAD, &recs, 3, 4_294_967_295)?;
    assert!(rt; none.as_slice().is_empty());
    Ok(())
}

#[test]
fn packets_are_cut_off_the_front(rt: HostRuntime) -> Result<(), Fail> {
    let Some((number, body, rest)) = first_packet(b"\0\0\x01\0\0\0\0\x02AB\0") else {
        return Err("no packet".into());
    };
    assert_eq!(rt; number, 256);
    assert_eq!(rt; body, b"AB".as_slice());
    assert_eq!(rt; rest, b"\0".as_slice());
    assert!(rt; first_packet(b"\0\0\x01\0\0\0\0\x03AB").is_none());
    assert!(rt; first_packet(b"\0\0\x01\0\0\0\0").is_none());
    Ok(())
}

#[test]
fn packets_come_in_any_order_and_again(rt: HostRuntime) -> Result<(), Fail> {
    let alloc = rt.alloc();
    let mut follower = begun(alloc, empty(alloc)?)?;
    assert_eq!(rt; follower.take(SECOND), Ok(Took::Skipped { have: 0 }));
    assert_eq!(rt; follower.take(FIRST), Ok(Took::Added { have: 1 }));
    assert_eq!(rt; follower.take(SECOND), Ok(Took::Added { have: 2 }));
    assert_eq!(rt; follower.take(FIRST), Ok(Took::Skipped { have: 2 }));
    assert_eq!(rt; follower.take(THIRD), Ok(Took::Added { have: 3 }));
    assert_eq!(rt; follower.have(), 3);
    assert_eq!(rt; follower.entries(), 1);
    let disk = follower.into_disk();
    let again = begun(alloc, disk)?;
    assert_eq!(rt; again.have(), 3);
    assert_eq!(rt; entries(alloc, again.into_disk())?, 1);
    Ok(())
}

#[test]
fn what_is_no_packet_or_not_next_is_refused(rt: HostRuntime) -> Result<(), Fail> {
    let alloc = rt.alloc();
    let mut follower = begun(alloc, empty(alloc)?)?;
    assert_eq!(rt;
        follower.take(&FIRST[..FIRST.len() - 1]),
        Err(TakeFault::NotAPacket)
    );
    assert_eq!(rt;
        follower.take(b"\0\0\0\x01\0\0\0\x02AB"),
        Err(TakeFault::NotNext { number: 1 })
    );
    assert_eq!(rt; follower.have(), 0);
    assert_eq!(rt; follower.take(FIRST), Ok(Took::Added { have: 1 }));
    assert_eq!(rt;
        follower.take(b"\0\0\0\x02\0\0\0\x02AB"),
        Err(TakeFault::NotNext { number: 2 })
    );
    assert_eq!(rt; follower.take(SECOND), Ok(Took::Added { have: 2 }));
    assert_eq!(rt; follower.take(AGAIN), Err(TakeFault::NotNext { number: 3 }));
    assert_eq!(rt; follower.have(), 2);
    Ok(())
}

fn is_refusal(answer: &Result<Took, TakeFault>) -> bool {
    matches!(
        answer,
        Err(TakeFault::DiskFault {
            before: 0,
            after: 1
        })
    )
}

// Takes both packets on a disk that stops after so many calls, and then on what is left of it, and answers how many records are held
// at the end, and whether the answers fit.
fn after_a_stop(alloc: Global, calls: u64, torn: u64) -> Result<(u32, bool), Fail> {
    let disk = FuseDisk::new(alloc, Text::from_bytes(alloc, b"")?, calls, torn);
    let (image, confirmed, fits) = match Follower::begin(alloc, disk) {
        Ok(mut follower) => {
            let first = follower.take(FIRST);
            let second = follower.take(SECOND);
            let fits = if is_refusal(&first) {
                second == Err(TakeFault::Broken { at_open: 0, now: 1 })
            } else {
                first == Ok(Took::Added { have: 1 })
                    && (is_refusal(&second) || second == Ok(Took::Added { have: 2 }))
            };
            let have = follower.have();
            (follower.into_disk().left(), have, fits)
        }
        Err((disk, fault)) => (disk.left(), 0, matches!(fault, OpenFault::DiskFault { .. })),
    };
    let mut again = begun(alloc, MemDisk::new(alloc, image))?;
    let kept = confirmed <= again.have();
    again.take(FIRST).ok().ok_or("the first packet is taken")?;
    again.take(SECOND).ok().ok_or("the second packet is taken")?;
    Ok((again.have(), fits && kept))
}

#[test]
fn what_was_told_outlives_a_stop(rt: HostRuntime) -> Result<(), Fail> {
    for calls in 0..15u64 {
        for torn in 0..4u64 {
            let (have, holds) = after_a_stop(rt.alloc(), calls, torn)?;
            assert_eq!(rt; have, 2);
            assert!(rt; holds);
        }
    }
    Ok(())
}

// The fourth call of the disk fails, once: the first packet is not added, and no more is taken.
#[test]
fn after_a_fault_of_the_disk_no_more_is_taken(rt: HostRuntime) -> Result<(), Fail> {
    let alloc = rt.alloc();
    let disk = OnceDisk::new(alloc, Text::from_bytes(alloc, b"")?, 3);
    let mut follower = begun(alloc, disk)?;
    assert!(rt; is_refusal(&follower.take(FIRST)));
    let broken = Err(TakeFault::Broken { at_open: 0, now: 1 });
    assert_eq!(rt; follower.take(FIRST), broken);
    assert_eq!(rt; follower.take(b"AB"), broken);
    assert_eq!(rt; follower.have(), 0);
    Ok(())
}

fn refusal(alloc: Global, bytes: &[u8]) -> Result<Option<OpenFault>, Fail> {
    match Follower::begin(alloc, MemDisk::new(alloc, Text::from_bytes(alloc, bytes)?)) {
        Ok(_) => Ok(None),
        Err((_, fault)) => Ok(Some(fault)),
    }
}

#[test]
fn a_disk_with_something_else_is_refused(rt: HostRuntime) -> Result<(), Fail> {
    let alloc = rt.alloc();
    let none = refusal(alloc, b"AB")?;
    assert!(rt; matches!(none, Some(OpenFault::NotAJournal)));
    let old = refusal(alloc, OLD_HEAD)?;
    assert!(rt; matches!(old, Some(OpenFault::Version { found: 1 })));
    let one = refusal(alloc, b"A")?;
    let closed = refusal(alloc, b"\0AB")?;
    assert!(rt; one.is_none() && closed.is_none());
    Ok(())
}
