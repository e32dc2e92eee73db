//! Commands over files in memory. Calls go through functions that promise nothing: a test then carries none of what a
//! command promises.

use corr_disk::{Disk, FuseDisk};
use corr_io::{MemSink, MemSource, Sink, Source};
use corr_text::{List, Memory, Text};
use corr_top::{Done, Room, Status, Tables, corr, plain};
use std::alloc::Global;
use std::sync::Wait;
use std::thread::Threads;
use work_pool::{Gate, OpenGate};

/// The bytes of the table files, in the order in which they are read, of the message file, and of the file of received statements.
#[derive(Clone, Copy)]
pub struct Files {
    pub tables: [&'static [u8]; 6],
    pub messages: &'static [u8],
    pub received: &'static [u8],
}

/// The calls that fail, by their numbers from 1: a read of the file at this place, from 0, the message file last, a write
/// of the report, and one of what is sent. 0 names no call.
#[derive(Clone, Copy)]
pub struct Failing {
    pub place: usize,
    pub read: u64,
    pub report: u64,
    pub out: u64,
}

/// No call fails.
pub const WHOLE: Failing = Failing {
    place: 0,
    read: 0,
    report: 0,
    out: 0,
};

// The place of the message file, behind the tables.
const MESSAGES: usize = 6;

// The place of the file of messages that leave, behind the others.
const SENT: usize = 8;

/// How a command ended, what it wrote, the counts of faults of the files, of the report and of what is sent, and its disks.
#[derive(Drop)]
pub struct Ended<D: Disk> {
    pub status: Status,
    pub report: Text,
    pub out: Text,
    pub faults: [u64; 9],
    pub disk: D,
    pub second: Option<D>,
}

fn calls(alloc: Global, call: u64) -> Result<List<u64>, Memory> {
    let mut list = List::new(alloc);
    list.push(call)?;
    Ok(list)
}

fn source(
    alloc: Global,
    failing: Failing,
    place: usize,
    bytes: &[u8],
) -> Result<MemSource, Memory> {
    let read = if failing.place == place {
        failing.read
    } else {
        0
    };
    Ok(MemSource::new(Text::from_bytes(alloc, bytes)?, calls(alloc, read)?))
}

fn tables(alloc: Global, failing: Failing, files: Files) -> Result<Tables<MemSource>, Memory> {
    let [bics, ccys, countries, accounts, ssi, charges] = files.tables;
    Ok(Tables {
        bics: source(alloc, failing, 0, bics)?,
        ccys: source(alloc, failing, 1, ccys)?,
        countries: source(alloc, failing, 2, countries)?,
        accounts: source(alloc, failing, 3, accounts)?,
        ssi: source(alloc, failing, 4, ssi)?,
        charges: source(alloc, failing, 5, charges)?,
    })
}

fn sink(alloc: Global, write: u64) -> Result<MemSink, Memory> {
    Ok(MemSink::new(alloc, calls(alloc, write)?))
}

fn room<D: Disk + Drop>(
    alloc: Global,
    failing: Failing,
    files: Files,
    sent: &[u8],
    disk: D,
    second: Option<D>,
) -> Result<Room<MemSource, MemSink, D>, Memory> {
    Ok(Room {
        tables: tables(alloc, failing, files)?,
        messages: source(alloc, failing, MESSAGES, files.messages)?,
        received: source(alloc, WHOLE, 7, files.received)?,
        sent: source(alloc, failing, SENT, sent)?,
        report: sink(alloc, failing.report)?,
        out: sink(alloc, failing.out)?,
        disk,
        disk2: second,
    })
}

fn words(alloc: Global, words: &[&[u8]]) -> Result<List<Text>, Memory> {
    let mut texts = List::new(alloc);
    for word in words {
        texts.push(Text::from_bytes(alloc, word)?)?;
    }
    Ok(texts)
}

fn leave<D: Disk + Drop>(
    alloc: Global,
    done: Done<MemSource, MemSink, D>,
) -> Result<Ended<D>, Memory> {
    let Done { status, room } = done;
    Ok(Ended {
        status,
        report: Text::from_bytes(alloc, room.report.bytes())?,
        out: Text::from_bytes(alloc, room.out.bytes())?,
        faults: [
            room.tables.bics.faults(),
            room.tables.ccys.faults(),
            room.tables.countries.faults(),
            room.tables.accounts.faults(),
            room.tables.ssi.faults(),
            room.tables.charges.faults(),
            room.messages.faults(),
            room.report.faults(),
            room.out.faults(),
        ],
        disk: room.disk,
        second: room.disk2,
    })
}

/// Whether a command wrote this.
pub fn wrote<D: Disk + Drop>(ended: &Ended<D>, report: &[u8], out: &[u8]) -> bool {
    ended.report.bytes() == report && ended.out.bytes() == out
}

/// Whether a command came to its end, and wrote this.
pub fn is_done<D: Disk + Drop>(ended: &Ended<D>, report: &[u8], out: &[u8]) -> bool {
    ended.status == Status::Done && wrote(ended, report, out)
}

/// A command over a disk, whose pays pass a gate.
pub fn call_at<R: Wait + Threads + Sync, D: Disk + Drop + Send, G: Gate + Sync>(
    rt: &R,
    alloc: Global,
    command: &[&[u8]],
    failing: Failing,
    files: Files,
    disk: D,
    gate: &G,
) -> Result<Ended<D>, Memory> {
    let texts = words(alloc, command)?;
    let room = room(alloc, failing, files, b"", disk, None)?;
    leave(alloc, corr(rt, alloc, texts.as_slice(), room, gate))
}

/// A command over a disk.
pub fn call<R: Wait + Threads + Sync, D: Disk + Drop + Send>(
    rt: &R,
    alloc: Global,
    command: &[&[u8]],
    failing: Failing,
    files: Files,
    disk: D,
) -> Result<Ended<D>, Memory> {
    call_at(rt, alloc, command, failing, files, disk, &OpenGate)
}

/// A command that waits for nobody, over a disk.
pub fn call_plain<D: Disk + Drop>(
    alloc: Global,
    command: &[&[u8]],
    files: Files,
    disk: D,
) -> Result<Ended<D>, Memory> {
    let texts = words(alloc, command)?;
    let room = room(alloc, WHOLE, files, b"", disk, None)?;
    leave(alloc, plain(alloc, texts.as_slice(), room))
}

/// A command that waits for nobody, over a disk and these bytes of the file of messages that leave, of which this read fails.
pub fn call_after<D: Disk + Drop>(
    alloc: Global,
    command: &[&[u8]],
    sent: &[u8],
    read: u64,
    files: Files,
    disk: D,
) -> Result<Ended<D>, Memory> {
    let texts = words(alloc, command)?;
    let failing = Failing {
        place: SENT,
        read,
        ..WHOLE
    };
    let room = room(alloc, failing, files, sent, disk, None)?;
    leave(alloc, plain(alloc, texts.as_slice(), room))
}

/// A command that waits for nobody, over a disk and a second one.
pub fn call_between<D: Disk + Drop>(
    alloc: Global,
    command: &[&[u8]],
    files: Files,
    disk: D,
    second: D,
) -> Result<Ended<D>, Memory> {
    let texts = words(alloc, command)?;
    let room = room(alloc, WHOLE, files, b"", disk, Some(second))?;
    leave(alloc, plain(alloc, texts.as_slice(), room))
}

/// A command that waits for nobody, over a disk and these bytes of the received file.
pub fn call_received<D: Disk + Drop>(
    alloc: Global,
    command: &[&[u8]],
    received: &[u8],
    files: Files,
    disk: D,
) -> Result<Ended<D>, Memory> {
    let texts = words(alloc, command)?;
    let mut room = room(alloc, WHOLE, files, b"", disk, None)?;
    room.received = source(alloc, WHOLE, 7, received)?;
    leave(alloc, plain(alloc, texts.as_slice(), room))
}

/// A command over a disk and these bytes of the message file, of which this read fails.
pub fn call_over<R: Wait + Threads + Sync, D: Disk + Drop + Send>(
    rt: &R,
    alloc: Global,
    command: &[&[u8]],
    messages: &[u8],
    read: u64,
    files: Files,
    disk: D,
) -> Result<Ended<D>, Memory> {
    let texts = words(alloc, command)?;
    let failing = Failing {
        place: MESSAGES,
        read,
        ..WHOLE
    };
    let mut room = room(alloc, failing, files, b"", disk, None)?;
    room.messages = source(alloc, failing, MESSAGES, messages)?;
    leave(alloc, corr(rt, alloc, texts.as_slice(), room, &OpenGate))
}

/// A run of one worker over a disk.
pub fn run<R: Wait + Threads + Sync, D: Disk + Drop + Send>(
    rt: &R,
    alloc: Global,
    failing: Failing,
    files: Files,
    disk: D,
) -> Result<Ended<D>, Memory> {
    call(rt, alloc, &[b"run", b"240603", b"1"], failing, files, disk)
}

/// A disk of these bytes that passes 100 calls.
pub fn long_lived(alloc: Global, bytes: &[u8]) -> Result<FuseDisk, Memory> {
    Ok(FuseDisk::new(alloc, Text::from_bytes(alloc, bytes)?, 100, 0))
}

/// The bytes of a new journal.
pub fn journal<R: Wait + Threads + Sync>(
    rt: &R,
    alloc: Global,
    files: Files,
) -> Result<Text, Memory> {
    let disk = long_lived(alloc, b"")?;
    let made = call(rt, alloc, &[b"init", b"HOMEUS33"], WHOLE, files, disk)?;
    Ok(made.disk.left())
}

// How many lines these bytes have.
fn lines(bytes: &[u8]) -> u64 {
    let mut lines = 0u64;
    for byte in bytes {
        if *byte == b'\n' {
            lines = lines.wrapping_add(1);
        }
    }
    lines
}

/// How many entries `bookings` prints of a journal; none where it is refused.
pub fn entries_in(alloc: Global, files: Files, journal: &[u8]) -> Result<Option<u64>, Memory> {
    let disk = long_lived(alloc, journal)?;
    let ended = call_plain(alloc, &[b"bookings"], files, disk)?;
    if ended.status != Status::Done {
        return Ok(None);
    }
    Ok(Some(lines(ended.report.bytes())))
}

/// The bytes of a new journal with the entries of a run of one worker.
pub fn booked<R: Wait + Threads + Sync>(
    rt: &R,
    alloc: Global,
    files: Files,
) -> Result<Text, Memory> {
    let journal = journal(rt, alloc, files)?;
    let ended = run(rt, alloc, WHOLE, files, long_lived(alloc, journal.bytes())?)?;
    Ok(ended.disk.left())
}
