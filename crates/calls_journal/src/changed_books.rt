//! Books whose accounts change.

ghost use Rattle.std.specs.Prelude.{◌<◌, IfOk};
ghost use Rattle.day_model.specs.Legal.{IsInForm};

use crate::books::{HEAD, cent, damaged_at, journal};
use crate::records::ENTRY;
use corr_disk::{Disk, FuseDisk, MemDisk, OnceDisk};
use corr_text::Text;
use day_model::{AcctNo, What};
use jrn_book::{ChangeFault, Past, change_book, open_book, open_old, open_past};
use jrn_codec::read_change;
use jrn_file::OpenFault;
use std::alloc::Global;
use std::test::*;

// CUST1 is opened, a customer's account between EUR 0 and EUR 900,000,000.
const OPENED: &[u8] =
    b"\x01\0\x05CUST1CHOMEUS33XXXEUR\x02\0\0\0\0\0\0\0\0\0\0\0\x14\xf4k\x04\0\0\0\0\0\0\0\0\0";

// The account of ALPHDEFF is opened once more.
const DOUBLE: &[u8] =
    b"\x01\0\x05CUST1VALPHDEFFXXXEUR\x02\0\0\0\0\0\0\0\0\0\0\0\x14\xf4k\x04\0\0\0\0\0\0\0\0\0";

// Account 1 gets a floor of EUR 58,765.44, which is its balance after the entry, and of EUR 59,000.00.
const EXACT: &[u8] = b"\x01\x01\0\x01\0\0\0\0\0\x59\xab\x40\0\0\0\x14\xf4k\x04\0";

const NARROW: &[u8] = b"\x01\x01\0\x01\0\0\0\0\0\x5a\x06\xe0\0\0\0\x14\xf4k\x04\0";

// There is no account 3.
const ELSEWHERE: &[u8] = b"\x01\x01\0\x03\0\0\0\0\0\0\0\0\0\0\0\x14\xf4k\x04\0";

// The header and the entry of a journal of version 1.
const OLD_HEAD: &[u8] =
    b"CORRJ1HOMEUS33XXX\0\x02\x08VALPHEURVALPHDEFFXXXEUR\x02\xff\xff\xff\xff\xffgi\x80\0\0\0\x14\xf4k\x04\0\0\0\0\0\0[\x8d\x80\x08NCORREURNCORRBEBBXXXEUR\x02\xff\xff\xff\xeb\x0b\x94\xfc\0\0\0\0\x14\xf4k\x04\0\xff\xff\xff\xff\xff\xa4r\x80";

const OLD_ENTRY: &[u8] =
    b"240603ALPHDEFFAXXX0001000001\x01\0\0\0\x4d\xa5\0\0\x4d\xa5\0\x02\0\x01\0\0\0\0\0\0\x01\xe2\x40\0\x04REF1\0\x02\x01\0\0\0\0\0\x01\xe2\x40\x01\x01\x01\x04ALPHDEFFXXX\x01\0\0\0\x02\r\n";

fn change_of(alloc: Global, bytes: &[u8]) -> Result<What, Fail>
    ensures { IfOk result IsInForm }
{
    match read_change(alloc, bytes) {
        Ok(what) => Ok(what),
        Err(_) => Err("no change".into()),
    }
}

fn change<D: Disk + Drop>(
    alloc: Global,
    disk: D,
    bytes: &[u8],
) -> Result<Result<D, (D, ChangeFault)>, Fail> {
    let what = change_of(alloc, bytes)?;
    Ok(change_book(alloc, disk, &what))
}

fn opened<D: Disk + Drop>(alloc: Global, disk: D) -> Result<Past, Fail> {
    match open_past(alloc, disk) {
        Ok((past, _)) => Ok(past),
        Err(_) => Err("no journal".into()),
    }
}

// How many accounts, changes and entries the journal of a disk has.
fn counts<D: Disk + Drop>(alloc: Global, disk: D) -> Result<(u32, usize, u32), Fail> {
    let past = opened(alloc, disk)?;
    let accounts = past.accounts();
    Ok((
        accounts.count(),
        accounts.changes().len(),
        past.history().len(),
    ))
}

fn changed<D: Disk + Drop>(alloc: Global, disk: D, bytes: &[u8]) -> Result<D, Fail> {
    match change(alloc, disk, bytes)? {
        Ok(disk) => Ok(disk),
        Err(_) => Err("not changed".into()),
    }
}

#[test]
fn accounts_change_and_the_journal_opens_again(rt: HostRuntime) -> Result<(), Fail> {
    let alloc = rt.alloc();
    let disk = MemDisk::new(alloc, journal(alloc, &[HEAD, ENTRY])?);
    let disk = changed(alloc, disk, OPENED)?;
    let disk = changed(alloc, disk, EXACT)?;
    assert_eq!(rt; counts(alloc, disk)?, (3, 2, 1));
    Ok(())
}

#[test]
fn a_new_account_begins_with_nothing(rt: HostRuntime) -> Result<(), Fail> {
    let alloc = rt.alloc();
    let past = opened(
        alloc,
        MemDisk::new(alloc, journal(alloc, &[HEAD, ENTRY, OPENED])?),
    )?;
    if past.accounts().count() != 3 {
        return Err("another count".into());
    }
    assert_eq!(rt; past.balance(AcctNo(1)), 5_876_544);
    assert_eq!(rt; past.balance(AcctNo(3)), 0);
    Ok(())
}

// Why a change is refused; none where it is made.
fn refusal(alloc: Global, records: &[&[u8]], bytes: &[u8]) -> Result<Option<ChangeFault>, Fail> {
    let disk = MemDisk::new(alloc, journal(alloc, records)?);
    match change(alloc, disk, bytes)? {
        Ok(_) => Ok(None),
        Err((_, fault)) => Ok(Some(fault)),
    }
}

#[test]
fn changes_are_refused_by_the_accounts_of_now(rt: HostRuntime) -> Result<(), Fail> {
    let alloc = rt.alloc();
    let elsewhere = refusal(alloc, &[HEAD], ELSEWHERE)?;
    assert!(rt; matches!(elsewhere, Some(ChangeFault::Unknown)));
    let double = refusal(alloc, &[HEAD], DOUBLE)?;
    assert!(rt; matches!(double, Some(ChangeFault::Double { row: 1 })));
    let twice = refusal(alloc, &[HEAD, OPENED], OPENED)?;
    assert!(rt; matches!(twice, Some(ChangeFault::Double { row: 3 })));
    let low = refusal(alloc, &[HEAD, ENTRY], NARROW)?;
    assert!(rt; matches!(low, Some(ChangeFault::Limits { account: 1 })));
    let early = refusal(alloc, &[HEAD], NARROW)?;
    assert!(rt; early.is_none());
    let none = refusal(alloc, &[ENTRY], NARROW)?;
    assert!(rt; matches!(none, Some(ChangeFault::Open(OpenFault::NotAJournal))));
    Ok(())
}

// The change has 20 bytes. Each entry is decided by the limits of its time, and each change by the balance of its time.
#[test]
fn entries_are_decided_by_the_limits_of_their_time(rt: HostRuntime) -> Result<(), Fail> {
    let alloc = rt.alloc();
    let next = cent(alloc, 2)?;
    let before = damaged_at(alloc, &[HEAD, ENTRY, next.bytes(), OPENED])?;
    assert_eq!(rt; before, None);
    let after = damaged_at(alloc, &[HEAD, ENTRY, EXACT, next.bytes()])?;
    assert_eq!(rt; after, Some(243));
    let narrow = damaged_at(alloc, &[HEAD, NARROW, ENTRY])?;
    assert_eq!(rt; narrow, Some(147));
    let low = damaged_at(alloc, &[HEAD, ENTRY, NARROW])?;
    assert_eq!(rt; low, Some(218));
    Ok(())
}

// Whether a disk that stops after so many calls of a change answers so, and then opens with the change or without it.
fn stops(alloc: Global, calls: u64, torn: u64) -> Result<bool, Fail>
    requires { calls < 5 }
{
    let disk = FuseDisk::new(alloc, journal(alloc, &[HEAD, ENTRY])?, calls + 2, torn);
    let (disk, answers) = match change(alloc, disk, OPENED)? {
        Ok(disk) => (disk, calls == 4),
        Err(
            (
                disk,
                ChangeFault::DiskFault {
                    before: 0,
                    after: 1,
                },
            ),
        ) => (disk, calls < 4),
        Err((disk, _)) => (disk, false),
    };
    let (accounts, changes, entries) = counts(alloc, MemDisk::new(alloc, disk.left()))?;
    let without = accounts == 2 && changes == 0 && calls < 4;
    let with = accounts == 3 && changes == 1;
    Ok(answers && entries == 1 && (without || with))
}

#[test]
fn a_change_that_stops_leaves_the_accounts_with_it_or_without(rt: HostRuntime) -> Result<(), Fail> {
    for calls in 0..5u64 {
        for torn in 0..4u64 {
            let holds = stops(rt.alloc(), calls, torn)?;
            assert!(rt; holds);
        }
    }
    Ok(())
}

// The first call of the disk fails: the journal is not opened.
#[test]
fn a_disk_that_fails_at_once_is_not_opened(rt: HostRuntime) -> Result<(), Fail> {
    let alloc = rt.alloc();
    let disk = OnceDisk::new(alloc, journal(alloc, &[HEAD])?, 1);
    let answer = change(alloc, disk, OPENED)?;
    assert!(rt;
        matches!(
            answer,
            Err((
                _,
                ChangeFault::Open(OpenFault::DiskFault {
                    before: 0,
                    after: 1
                })
            ))
        )
    );
    Ok(())
}

fn is_version(answer: &OpenFault, version: u8) -> bool {
    matches!(answer, OpenFault::Version { found } if *found == version)
}

#[test]
fn each_version_is_read_by_its_own_call(rt: HostRuntime) -> Result<(), Fail> {
    let alloc = rt.alloc();
    match open_old(
        alloc,
        MemDisk::new(alloc, journal(alloc, &[OLD_HEAD, OLD_ENTRY])?),
    ) {
        Ok((accounts, history, _)) => assert!(rt; accounts.count() == 2 && history.len() == 1),
        Err(_) => return Err("not opened".into()),
    }
    match open_old(alloc, MemDisk::new(alloc, journal(alloc, &[HEAD, ENTRY])?)) {
        Ok(_) => return Err("opened".into()),
        Err((_, fault)) => assert!(rt; is_version(&fault, 2)),
    }
    match open_book(
        alloc,
        MemDisk::new(alloc, journal(alloc, &[OLD_HEAD, OLD_ENTRY])?),
    ) {
        Ok(_) => return Err("opened".into()),
        Err((_, fault)) => assert!(rt; is_version(&fault, 1)),
    }
    Ok(())
}

// A header and records that come one after another, each tested first.
#[test]
fn records_are_read_one_after_another(rt: HostRuntime) -> Result<(), Fail> {
    let alloc = rt.alloc();
    let mut past = match Past::of_head(alloc, HEAD) {
        Ok(past) => past,
        Err(_) => return Err("no header".into()),
    };
    for record in [ENTRY, OPENED, EXACT] {
        let item = match past.fits(alloc, record) {
            Ok(item) => item,
            Err(_) => return Err("no item".into()),
        };
        let ready = past.reserve(alloc, item)?;
        past.note(ready);
    }
    let next: Text = cent(alloc, 2)?;
    assert!(rt; past.read(alloc, next.bytes()).is_err());
    assert_eq!(rt; past.accounts().count(), 3);
    Ok(())
}
