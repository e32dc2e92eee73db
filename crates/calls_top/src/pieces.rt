//! Message files of more than one piece: what stands in the first is answered before the next is read.

use crate::transfers::transfers;
use calls_room::{Ended, FILES, call_over, entries_in, journal, long_lived, wrote};
use corr_disk::{FuseDisk, MemDisk};
use corr_ids::Mir;
use corr_io::{MemSink, MemSource, Source};
use corr_text::{Failed, List, Memory, Text};
use corr_top::{Room, Status, Tables, corr};
use std::alloc::Global;
use std::sync::Wait;
use std::sync::atomic::AtomicBool;
use std::sync::atomic::Ordering::SeqCst;
use std::test::Fail;
use std::thread::{Threads, yield_now};
use work_pool::Gate;

// A second transfer, between the accounts of that of `FILES`.
const SECOND: &[u8] =
    b"{1:F01HOMEUS33AXXX0001000008}{2:O1031200240603ALPHDEFFAXXX00010000022406031205N}{4:\r\n:20:REF2\r\n:23B:CRED\r\n:32A:240603EUR20,\r\n:50K:A PAYER\r\n:59:/CUST1\r\nA PAYEE\r\n:71A:SHA\r\n-}";

const WORKERS: [&[u8]; 2] = [b"1", b"4"];

// How the report over 40,000 messages ends that ask for no payment.
const ANSWERED: &[u8] = b"\nMESSAGES 040000 ENTRIES 00000000\nTOTAL EUR DEBIT 0,00 CREDIT 0,00\n";

// The transfer of `FILES`, more blanks behind it than a piece has, and other bytes behind those.
fn file(alloc: Global, behind: &[u8]) -> Result<Text, Memory> {
    let mut bytes = Text::from_bytes(alloc, FILES.messages)?;
    bytes.push(b"$")?;
    for _ in 0..7_000 {
        bytes.push(b"          ")?;
    }
    bytes.push(behind)?;
    Ok(bytes)
}

// A run, or a batch, over a journal and a message file of which this read fails.
fn run_over<R: Wait + Threads + Sync>(
    rt: &R,
    alloc: Global,
    words: &[&[u8]],
    messages: &Text,
    read: u64,
    journal: &[u8],
) -> Result<Ended<FuseDisk>, Memory> {
    let disk = long_lived(alloc, journal)?;
    call_over(rt, alloc, words, messages.bytes(), read, FILES, disk)
}

// Whether these words over a file that can't be taken to its end tell why, write nothing and enter the first transfer; and over the right
// file after it leave so many entries.
fn enters_once<R: Wait + Threads + Sync>(
    rt: &R,
    alloc: Global,
    words: &[&[u8]],
    faulty: &Text,
    read: u64,
    told: Status,
    right: &Text,
    entries: u64,
) -> Result<bool, Memory> {
    let journal = journal(rt, alloc, FILES)?;
    let ended = run_over(rt, alloc, words, faulty, read, journal.bytes())?;
    let refused = ended.status == told && wrote(&ended, b"", b"");
    let left = ended.disk.left();
    let first = entries_in(alloc, FILES, left.bytes())? == Some(1);
    let ended = run_over(rt, alloc, words, right, 0, left.bytes())?;
    let whole = ended.status == Status::Done
        && entries_in(alloc, FILES, ended.disk.left().bytes())? == Some(entries);
    Ok(refused && first && whole)
}

// The stray byte stands in the second piece.
#[test]
fn what_stands_ahead_of_a_stray_byte_is_entered_once(rt: HostRuntime) -> Result<(), Fail> {
    let alloc = rt.alloc();
    let faulty = file(alloc, b"x")?;
    let right = file(alloc, SECOND)?;
    for workers in WORKERS {
        let told = Status::Framing {
            at: (faulty.bytes().len() as u64).saturating_sub(1),
        };
        let run: [&[u8]; 3] = [b"run", b"240603", workers];
        assert!(rt; enters_once(&rt, alloc, &run, &faulty, 0, told, &right, 2)?);
        let batch: [&[u8]; 4] = [b"batch", b"240603", workers, b"8"];
        assert!(rt; enters_once(&rt, alloc, &batch, &faulty, 0, told, &right, 2)?);
    }
    Ok(())
}

// The second read fails, which asks for the second piece.
#[test]
fn what_stands_ahead_of_a_failed_read_is_entered_once(rt: HostRuntime) -> Result<(), Fail> {
    let alloc = rt.alloc();
    let right = file(alloc, b"")?;
    for workers in WORKERS {
        let told = Status::ReadFault {
            before: 0,
            after: 1,
        };
        let run: [&[u8]; 3] = [b"run", b"240603", workers];
        assert!(rt; enters_once(&rt, alloc, &run, &right, 2, told, &right, 1)?);
        let batch: [&[u8]; 4] = [b"batch", b"240603", workers, b"8"];
        assert!(rt; enters_once(&rt, alloc, &batch, &right, 2, told, &right, 1)?);
    }
    Ok(())
}

// No piece has as many messages as this file, and each message has a reply.
#[test]
fn forty_thousand_short_messages_are_answered(rt: HostRuntime) -> Result<(), Fail> {
    let alloc = rt.alloc();
    let mut messages = Text::from_bytes(alloc, b"")?;
    for _ in 0..40_000 {
        messages.push(b"{1:}")?;
    }
    let journal = journal(&rt, alloc, FILES)?;
    for workers in WORKERS {
        let words: [&[u8]; 3] = [b"run", b"240603", workers];
        let ended = run_over(&rt, alloc, &words, &messages, 0, journal.bytes())?;
        assert!(rt; ended.status == Status::Done);
        assert!(rt; ended.report.bytes().ends_with(ANSWERED));
    }
    Ok(())
}

// What a gate and a source tell each other: whether the first pay has passed the gate, and whether the source waited for that in vain.
#[derive(Drop)]
struct Seen {
    passed: AtomicBool,
    late: AtomicBool,
}

impl Seen {
    fn new() -> Seen {
        Seen {
            passed: AtomicBool::new(false),
            late: AtomicBool::new(false),
        }
    }

    // Waits for at most 1,000,000 turns, each of which yields, until a pay has passed.
    fn wait(&self) {
        for _ in 0..1_000_000 {
            if self.passed.load(SeqCst) {
                return;
            }
            yield_now();
        }
        self.late.store(true, SeqCst);
    }
}

// Tells that a pay has passed.
#[derive(Drop)]
struct TellingGate<'a> {
    seen: &'a Seen,
}

impl<'a> Gate for TellingGate<'a> {
    fn pass(&self, _worker: u32, _mir: &Mir) {
        self.seen.passed.store(true, SeqCst);
    }
}

// A source that gives the first piece, and the next ones after a pay has passed the gate.
#[derive(Drop)]
struct WaitingSource<'a> {
    inner: MemSource,
    waits: bool,
    seen: &'a Seen,
}

impl<'a> WaitingSource<'a> {
    fn new(alloc: Global, bytes: &[u8], seen: &'a Seen) -> Result<WaitingSource<'a>, Memory> {
        Ok(WaitingSource {
            inner: MemSource::new(Text::from_bytes(alloc, bytes)?, List::new(alloc)),
            waits: false,
            seen,
        })
    }
}

impl<'a> Source for WaitingSource<'a> {
    ghost use Rattle.std.specs.Prelude.{Some};

    ghost left = { λ s. Some s.inner.left };

    ghost faults = { λ s. s.inner.faults };

    fn read(&mut self, buf: &mut [u8]) -> Result<usize, Failed> {
        if self.waits {
            self.seen.wait();
        }
        self.waits = true;
        self.inner.read(buf)
    }

    fn faults(&self) -> u64 {
        self.inner.faults()
    }
}

// The room of a run whose message file is waited for.
fn room<'a>(
    alloc: Global,
    messages: &[u8],
    disk: MemDisk,
    seen: &'a Seen,
    none: &'a Seen,
) -> Result<Room<WaitingSource<'a>, MemSink, MemDisk>, Memory> {
    let [bics, ccys, countries, accounts, ssi, charges] = FILES.tables;
    Ok(Room {
        tables: Tables {
            bics: WaitingSource::new(alloc, bics, none)?,
            ccys: WaitingSource::new(alloc, ccys, none)?,
            countries: WaitingSource::new(alloc, countries, none)?,
            accounts: WaitingSource::new(alloc, accounts, none)?,
            ssi: WaitingSource::new(alloc, ssi, none)?,
            charges: WaitingSource::new(alloc, charges, none)?,
        },
        messages: WaitingSource::new(alloc, messages, seen)?,
        received: WaitingSource::new(alloc, b"", none)?,
        sent: WaitingSource::new(alloc, b"", none)?,
        report: MemSink::new(alloc, List::new(alloc)),
        out: MemSink::new(alloc, List::new(alloc)),
        disk,
        disk2: None,
    })
}

// These words as texts.
fn texts(alloc: Global, words: &[&[u8]]) -> Result<List<Text>, Memory> {
    let mut texts = List::new(alloc);
    for word in words {
        texts.push(Text::from_bytes(alloc, word)?)?;
    }
    Ok(texts)
}

// Whether a command comes to its end over a message file whose second piece comes after a pay has passed the gate.
fn serves_before_it_reads_on<R: Wait + Threads + Sync>(
    rt: &R,
    alloc: Global,
    words: &[&[u8]],
    messages: &Text,
) -> Result<bool, Memory> {
    let disk = MemDisk::new(alloc, journal(rt, alloc, FILES)?);
    let seen = Seen::new();
    let none = Seen::new();
    none.passed.store(true, SeqCst);
    let room = room(alloc, messages.bytes(), disk, &seen, &none)?;
    let gate = TellingGate { seen: &seen };
    let done = corr(rt, alloc, texts(alloc, words)?.as_slice(), room, &gate);
    Ok(done.status == Status::Done && seen.passed.load(SeqCst) && !seen.late.load(SeqCst))
}

// The transfer of the first piece is served while the file is read.
#[test]
fn a_message_is_served_before_the_next_piece_is_read(rt: HostRuntime) -> Result<(), Fail> {
    let alloc = rt.alloc();
    let messages = file(alloc, SECOND)?;
    assert!(rt; serves_before_it_reads_on(&rt, alloc, &[b"run", b"240603", b"2"], &messages)?);
    Ok(())
}

// Two workers with batches of two read 31 messages ahead, and the first piece has 40.
#[test]
fn a_batch_is_served_before_the_next_piece_is_read(rt: HostRuntime) -> Result<(), Fail> {
    let alloc = rt.alloc();
    let messages = transfers(alloc, 80, 40, 7_000)?;
    let words: [&[u8]; 4] = [b"batch", b"240603", b"2", b"2"];
    assert!(rt; serves_before_it_reads_on(&rt, alloc, &words, &messages)?);
    Ok(())
}
