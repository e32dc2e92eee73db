//! The file of a journal, over disks in memory and a real file.

ghost use Rattle.std.specs.Prelude.{◌<◌, ◌≤◌, IfOk, OnOk};
ghost use Rattle.corr_disk.specs.Disk.{most_disk_bytes};
ghost use Rattle.jrn_file.specs.File.{IsOpen};
ghost use Rattle.jrn_file.specs.Journal.{IsFrame};

use corr_disk::{Disk, FileDisk, FuseDisk, MemDisk};
use corr_text::{Memory, Text};
use jrn_file::{AppendFault, Ending, JFile, MakeFault, OpenFault, create, open_file, read_file};
use std::alloc::Global;
use std::fs;
use std::test::Fail;

// A journal with the header record H, and the same with the record AB.
pub(crate) const HEAD: &[u8] = b"\x01\0\0\0\x01H\0";

const BOTH: &[u8] = b"\x01\0\0\0\x01H\x01\0\0\0\x02AB\0";

// The record AB as it is appended.
const AB: &[u8] = b"\0\0\0\x02AB\0";

// A number of four bytes as it is appended.
fn numbered(number: u32) -> [u8; 9]
    ensures { IsFrame result }
{
    let [a, b, c, d] = number.to_be_bytes();
    [0, 0, 0, 4, a, b, c, d, 0]
}

pub(crate) fn memory(alloc: Global, bytes: &[u8]) -> Result<MemDisk, Memory> {
    Ok(MemDisk::new(alloc, Text::from_bytes(alloc, bytes)?))
}

pub(crate) fn fuse(alloc: Global, bytes: &[u8], calls: u64, torn: u64) -> Result<FuseDisk, Memory> {
    Ok(FuseDisk::new(alloc, Text::from_bytes(alloc, bytes)?, calls, torn))
}

// The first bytes of a disk, at most 32.
pub(crate) fn front_of<D: Disk>(alloc: Global, disk: &mut D) -> Result<Text, Fail> {
    let mut bytes = [0; 32];
    let count = disk.read_at(0, &mut bytes)?;
    Ok(Text::from_bytes(alloc, &bytes[..count.min(32)])?)
}

// Makes a journal of the header record H.
fn make<D: Disk>(alloc: Global, disk: D) -> Result<D, (D, MakeFault)> {
    create(alloc, disk, b"H")
}

// Appends, and says that more may be appended.
fn add<D: Disk>(file: &mut JFile<D>, frame: &[u8]) -> Result<(), AppendFault>
    requires settled { IsOpen D.honest D.reads D.may_leave file.old }
    requires frame { IsFrame frame.now }
    ensures { OnOk result (IsOpen D.honest D.reads D.may_leave file.new) }
{
    file.append(frame)
}

// Opens, and says that records may be appended.
pub(crate) fn open<D: Disk + Drop>(
    alloc: Global,
    disk: D,
) -> Result<(JFile<D>, Vec<Text>), OpenFault>
    ensures { IfOk result (λ r. IsOpen D.honest D.reads D.may_leave r.0) }
{
    match open_file(alloc, disk) {
        Ok(opened) => Ok(opened),
        Err((_, fault)) => Err(fault),
    }
}

// How many records an image holds; none where it is no journal.
pub(crate) fn count(alloc: Global, image: Text) -> Result<Option<usize>, Fail> {
    match open_file(alloc, MemDisk::new(alloc, image)) {
        Ok((_, records)) => Ok(Some(records.len())),
        Err((_, fault)) => match fault {
            OpenFault::NotAJournal => Ok(None),
            fault => Err(fault.into()),
        },
    }
}

// The disk of a journal of the header record H, with AB appended; none where it doesn't end where it should.
fn with_ab<D: Disk + Drop>(alloc: Global, disk: D) -> Result<Option<D>, Fail> {
    let (mut file, records) = open(alloc, disk)?;
    if file.end() != 6 || records.len() != 1 {
        return Ok(None);
    }
    add(&mut file, AB)?;
    if file.end() != 13 {
        return Ok(None);
    }
    Ok(Some(file.into_disk()))
}

#[test]
fn a_journal_is_made_appended_to_and_opened(rt: HostRuntime) -> Result<(), Fail> {
    let alloc = rt.alloc();
    let mut disk = make(alloc, memory(alloc, b"")?).map_err(|e| e.1)?;
    assert_eq!(rt; front_of(alloc, &mut disk)?.bytes(), HEAD);
    let mut disk = with_ab(alloc, disk)?.ok_or("other places")?;
    assert_eq!(rt; front_of(alloc, &mut disk)?.bytes(), BOTH);
    let (file, records) = open(alloc, disk)?;
    assert_eq!(rt; (file.end(), records.len()), (13, 2));
    assert_eq!(rt; records[0].bytes(), b"H".as_slice());
    assert_eq!(rt; records[1].bytes(), b"AB".as_slice());
    Ok(())
}

// What an append answers on a disk that passes so many calls after an opening, and how many records it leaves.
fn append_with(
    alloc: Global,
    calls: u64,
    torn: u64,
) -> Result<(Result<(), AppendFault>, Option<usize>), Fail>
    requires { calls < 5 }
{
    let (mut file, _) = open(alloc, fuse(alloc, HEAD, calls + 2, torn)?)?;
    let answer = add(&mut file, AB);
    let left = count(alloc, file.into_disk().left())?;
    Ok((answer, left))
}

// The counts of faults of a disk that passes two calls: of the file that was opened with them, and after an append.
fn counts(alloc: Global) -> Result<(u64, u64), Fail> {
    let (mut file, _) = open(alloc, fuse(alloc, HEAD, 2, 0)?)?;
    let before = file.faults();
    match add(&mut file, AB) {
        Ok(()) => Err("appended".into()),
        Err(_) => Ok((before, file.faults())),
    }
}

#[test]
fn a_file_counts_the_faults_of_its_disk(rt: HostRuntime) -> Result<(), Fail> {
    assert_eq!(rt; counts(rt.alloc())?, (0, 1));
    Ok(())
}

// Opening a small file makes two calls of the disk, and appending four.
#[test]
fn an_append_that_stops_leaves_the_records_before_or_with_the_new_one(
    rt: HostRuntime,
) -> Result<(), Fail> {
    let failed = AppendFault::DiskFault {
        before: 0,
        after: 1,
    };
    for calls in 0..5u64 {
        for torn in 0..12u64 {
            let (answer, left) = append_with(rt.alloc(), calls, torn)?;
            assert!(rt; answer == if calls == 4 { Ok(()) } else { Err(failed) });
            let arrived = calls == 4 || calls == 3 && torn != 0 && torn != 2;
            assert_eq!(rt; left, Some(if arrived { 2 } else { 1 }));
        }
    }
    Ok(())
}

// Whether a journal is made on an empty disk that passes so many calls, and what it leaves.
fn make_with(alloc: Global, calls: u64, torn: u64) -> Result<(bool, Text), Fail> {
    match make(alloc, fuse(alloc, b"", calls, torn)?) {
        Ok(disk) => Ok((true, disk.left())),
        Err((disk, fault)) => match fault {
            MakeFault::DiskFault {
                before: 0,
                after: 1,
            } => Ok((false, disk.left())),
            fault => Err(fault.into()),
        },
    }
}

// What the disk begins with on which a journal is made, and the first byte that keeps it from being made.
fn made_over(alloc: Global, bytes: &[u8]) -> Result<(Text, Option<u8>), Fail> {
    let (mut disk, other) = match make(alloc, memory(alloc, bytes)?) {
        Ok(disk) => (disk, None),
        Err((disk, fault)) => match fault {
            MakeFault::Exists { first } => (disk, Some(first)),
            fault => return Err(fault.into()),
        },
    };
    let front = front_of(alloc, &mut disk)?;
    Ok((front, other))
}

// On an empty disk `create` looks, writes the gate and syncs it, and enters the header: seven calls.
#[test]
fn a_create_that_stops_leaves_nothing_or_the_journal(rt: HostRuntime) -> Result<(), Fail> {
    let alloc = rt.alloc();
    for calls in 0..8u64 {
        for torn in 0..12u64 {
            let (made, left) = make_with(alloc, calls, torn)?;
            assert_eq!(rt; made, calls == 7);
            let whole = left.bytes() == HEAD || left.bytes() == b"\xfe\0\0\0\x01H\0".as_slice();
            if !whole {
                assert!(rt; calls < 7);
                let (front, other) = made_over(alloc, left.bytes())?;
                assert!(rt; other.is_none() && front.bytes().starts_with(HEAD));
            }
        }
    }
    Ok(())
}

// Where an opening finds damage; none where the bytes are no journal.
fn damaged_at(alloc: Global, bytes: &[u8]) -> Result<Option<u64>, Fail> {
    match open_file(alloc, memory(alloc, bytes)?) {
        Ok(_) => Err("open".into()),
        Err((_, fault)) => match fault {
            OpenFault::NotAJournal => Ok(None),
            OpenFault::Damaged { at } => Ok(Some(at)),
            fault => Err(fault.into()),
        },
    }
}

#[test]
fn what_is_no_journal_is_refused(rt: HostRuntime) -> Result<(), Fail> {
    // the bytes, and the place of the damage, if it is one
    let rows: [(&[u8], Option<u64>); 9] = [
        (b"", None),
        (b"\0", None),
        (b"\x01", None),
        (b"\x01\0\0\0\x01H", None),
        (b"\x01\0\0\0\x02H\0", None),
        (b"\x01\xff\xff\xff\xffH\0", None),
        (b"\x01\0\0\0\x01H\x01\0\0\0\x09A\0", Some(6)),
        (b"\x01\0\0\0\x01H\x01\0\0\0\x01A", Some(6)),
        (b"\x01\0\0\0\x01H\x01", Some(6)),
    ];
    for (bytes, place) in rows {
        assert_eq!(rt; damaged_at(rt.alloc(), bytes)?, place);
    }
    Ok(())
}

#[test]
fn the_records_in_front_of_damage_are_read(rt: HostRuntime) -> Result<(), Fail> {
    let image = Text::from_bytes(rt.alloc(), b"\x01\0\0\0\x01H\x01\0\0\0\x09A\0")?;
    assert_eq!(rt; cut_at(rt.alloc(), image)?, Some((6, 1)));
    Ok(())
}

#[test]
fn a_journal_is_not_made_over_other_bytes(rt: HostRuntime) -> Result<(), Fail> {
    let rows: [(&[u8], Option<u8>, &[u8]); 5] = [
        (b"\x01\0", Some(1), b"\x01\0"),
        (b"\xff1", Some(255), b"\xff1"),
        (b"\x01", None, HEAD),
        (b"\0\x09", None, HEAD),
        (b"\0abcdefghi", None, b"\x01\0\0\0\x01H\0ghi"),
    ];
    for (bytes, other, left) in rows {
        let (front, first) = made_over(rt.alloc(), bytes)?;
        assert_eq!(rt; front.bytes(), left);
        assert_eq!(rt; first, other);
    }
    Ok(())
}

#[test]
fn any_byte_but_zero_opens_a_gate_and_what_follows_is_anything(
    rt: HostRuntime,
) -> Result<(), Fail> {
    let alloc = rt.alloc();
    let image = Text::from_bytes(alloc, b"\xfe\0\0\0\x01H\x80\0\0\0\0\0\x01\x02")?;
    assert_eq!(rt; count(alloc, image)?, Some(2));
    Ok(())
}

// Three records of 2, 0 and 13 bytes after their gates, with their closed gate at 30.
const THREE: &[u8] = b"\x01\0\0\0\x02AB\x01\0\0\0\0\x01\0\0\0\x0dABCDEFGHIJKLM\0xyz";

// How many bytes each read of an opening asks for.
const PIECE: usize = 1 << 16;

// A header record that ends at this place, and these bytes after it.
pub(crate) fn after_head(alloc: Global, place: usize, bytes: &[u8]) -> Result<Text, Memory>
    requires { (5 ≤ place) × (place ≤ most_disk_bytes) }
{
    let size = place - 5;
    let mut image = vec![in alloc; b'H'; place]?;
    image[0] = 1;
    image[1..5].copy_from_slice(&(size as u32).to_be_bytes());
    image.extend_from_slice(bytes)?;
    Ok(Text::from_vec(image))
}

// The place of the closed gate and the records that a disk gives which passes so many calls; none where it fails.
fn read_with(alloc: Global, image: Text, calls: u64) -> Result<Option<(u64, Vec<Text>)>, Fail> {
    match open_file(alloc, FuseDisk::new(alloc, image, calls, 0)) {
        Ok((file, records)) => Ok(Some((file.end(), records))),
        Err((_, fault)) => match fault {
            OpenFault::DiskFault {
                before: 0,
                after: 1,
            } => Ok(None),
            fault => Err(fault.into()),
        },
    }
}

// Whether these are a header record of this size and the three after it.
fn are_whole(records: &[Text], size: usize) -> bool {
    records.len() == 4
        && records[0].bytes().len() == size
        && records[1].bytes() == b"AB".as_slice()
        && records[2].bytes().is_empty()
        && records[3].bytes() == b"ABCDEFGHIJKLM".as_slice()
}

// Whether three records after a header record that ends at this place are read by a sync and a read for each piece
// up to the closed gate, and with fewer calls nothing is opened.
fn is_put_together(alloc: Global, head: usize) -> Result<bool, Fail>
    requires { (5 ≤ head) × (head ≤ most_disk_bytes) }
{
    let gate = (head + 30) as u64;
    let calls = 2 + gate / PIECE as u64;
    for passed in 0..calls + 1 {
        let holds = match read_with(alloc, after_head(alloc, head, THREE)?, passed)? {
            Some((end, records)) => {
                passed == calls && end == gate && are_whole(records.as_slice(), head - 5)
            }
            None => passed < calls,
        };
        if !holds {
            return Ok(false);
        }
    }
    Ok(true)
}

// The edge of the first piece stands at each byte of the three records and of the gate after them.
#[test]
fn records_that_cross_the_edges_of_pieces_are_put_together(rt: HostRuntime) -> Result<(), Fail> {
    let alloc = rt.alloc();
    for crossed in 0..34usize {
        assert!(rt; is_put_together(alloc, PIECE - crossed)?);
    }
    assert!(rt; is_put_together(alloc, 3 * PIECE - 20)?);
    Ok(())
}

// The place of the open gate with no whole record after it, and how many records stand before it; none where no record does.
fn cut_at(alloc: Global, image: Text) -> Result<Option<(u64, usize)>, Fail> {
    match read_file(alloc, MemDisk::new(alloc, image)) {
        Ok((records, ending)) => match ending {
            Ending::Open(_) => Err("open".into()),
            Ending::Damaged { at, .. } => Ok(Some((at, records.len()))),
        },
        Err((_, fault)) => match fault {
            OpenFault::NotAJournal => Ok(None),
            fault => Err(fault.into()),
        },
    }
}

// Whether a journal whose header record ends at this place is refused where it is cut short so many bytes after it.
fn is_refused(alloc: Global, head: usize, left: usize) -> Result<bool, Fail>
    requires { (5 ≤ head) × (head ≤ most_disk_bytes) × (left ≤ 30) }
{
    let (record, count) = match left {
        0..=7 => (0, 1),
        8..=12 => (7, 2),
        _ => (12, 3),
    };
    let place = if left == 0 {
        None
    } else {
        Some(((head + record) as u64, count))
    };
    Ok(cut_at(alloc, after_head(alloc, head, &THREE[..left])?)? == place)
}

#[test]
fn a_journal_that_is_cut_short_is_refused(rt: HostRuntime) -> Result<(), Fail> {
    let alloc = rt.alloc();
    for len in 0..6usize {
        assert_eq!(rt;
            cut_at(alloc, Text::from_bytes(alloc, &HEAD[..len])?)?,
            None
        );
    }
    for left in 0..31usize {
        assert!(rt; is_refused(alloc, 6, left)?);
    }
    Ok(())
}

// Whether a journal is refused where it is cut short, whatever is left of three records, if its header ends at least `first` and
// fewer than `end` bytes before the edge of a piece.
fn are_refused(alloc: Global, first: usize, end: usize) -> Result<bool, Fail>
    requires { end ≤ 34 }
{
    for left in 0..31usize {
        for crossed in first..end {
            if !is_refused(alloc, PIECE - crossed, left)? {
                return Ok(false);
            }
        }
    }
    Ok(true)
}

#[test]
fn a_journal_whose_header_ends_up_to_8_bytes_before_an_edge_is_refused_where_it_is_cut_short(
    rt: HostRuntime,
) -> Result<(), Fail> {
    assert!(rt; are_refused(rt.alloc(), 0, 9)?);
    Ok(())
}

#[test]
fn a_journal_whose_header_ends_9_to_17_bytes_before_an_edge_is_refused_where_it_is_cut_short(
    rt: HostRuntime,
) -> Result<(), Fail> {
    assert!(rt; are_refused(rt.alloc(), 9, 18)?);
    Ok(())
}

#[test]
fn a_journal_whose_header_ends_18_to_25_bytes_before_an_edge_is_refused_where_it_is_cut_short(
    rt: HostRuntime,
) -> Result<(), Fail> {
    assert!(rt; are_refused(rt.alloc(), 18, 26)?);
    Ok(())
}

#[test]
fn a_journal_whose_header_ends_26_to_33_bytes_before_an_edge_is_refused_where_it_is_cut_short(
    rt: HostRuntime,
) -> Result<(), Fail> {
    assert!(rt; are_refused(rt.alloc(), 26, 34)?);
    Ok(())
}

fn add_numbers<D: Disk>(file: &mut JFile<D>) -> Result<(), AppendFault>
    requires { IsOpen D.honest D.reads D.may_leave file.old }
{
    for number in 0..RECORDS {
        add(file, &numbered(number))?;
    }
    Ok(())
}

const FILE: &str = "jrn_file_test.jrn";

const RECORDS: u32 = 1000;

// Whether these are the numbers from 0 on, as records of four bytes.
fn are_numbers(records: &[Text]) -> bool {
    for (number, record) in (0..RECORDS).zip(records) {
        if record.bytes() != number.to_be_bytes().as_slice() {
            return false;
        }
    }
    records.len() == RECORDS as usize
}

#[test]
fn a_thousand_records_on_a_real_file_are_read_back(rt: HostRuntime) -> Result<(), Fail> {
    let alloc = rt.alloc();
    let _ = fs::remove_file(&rt, FILE);
    let disk = FileDisk::new(&rt, Text::from_bytes(alloc, FILE.as_bytes())?);
    let (mut file, _) = open(alloc, make(alloc, disk).map_err(|e| e.1)?)?;
    add_numbers(&mut file)?;
    drop(file);
    let disk = FileDisk::new(&rt, Text::from_bytes(alloc, FILE.as_bytes())?);
    let (file, records) = open(alloc, disk)?;
    assert_eq!(rt; file.end(), 6 + 9 * u64::from(RECORDS));
    assert!(rt; !records.is_empty() && are_numbers(&records[1..]));
    fs::remove_file(&rt, FILE)?;
    Ok(())
}
