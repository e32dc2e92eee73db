//! Workers at one gate.

use calls_room::{Files, WHOLE, call_at, journal};
use corr_disk::MemDisk;
use corr_ids::Mir;
use corr_text::Memory;
use corr_top::Status;
use std::alloc::Global;
use std::sync::Wait;
use std::sync::atomic::Ordering::SeqCst;
use std::sync::atomic::{AtomicBool, AtomicU32};
use std::test::*;
use std::thread::{Threads, yield_now};
use work_pool::Gate;

// Four pays by the numbers of their messages. No two have an account in common but the second and the fourth, which debit one.
const FILES: Files = Files {
    tables: [
        b"HOMEUS33\nALPHDEFF\nBETAFRPP\nDELTJPJT\n",
        b"EUR,2\nJPY,0\n",
        b"DE,Y\nFR,Y\nJP,N\nUS,N\n",
        b"VALPHEUR,V,ALPHDEFF,EUR,-10000000,90000000000,0\nVBETAEUR,V,BETAFRPP,EUR,-10000000,90000000000,0\nVDELTJPY,V,DELTJPJT,JPY,-10000000,90000000000,0\nCUST1,C,HOMEUS33,EUR,0,90000000000,0\nCUST2,C,HOMEUS33,JPY,0,90000000000,0\nCUST3,C,HOMEUS33,EUR,0,90000000000,0\nCUST4,C,HOMEUS33,EUR,0,90000000000,0\n",
        b"EUR,ALPHDEFF,BOOK,,VALPHEUR,240101,791231\n",
        b"",
    ],
    messages: b"{1:F01HOMEUS33AXXX0001000001}{2:O1031200240603DELTJPJTAXXX00010000012406031205N}{4:\r\n:20:REF1\r\n:23B:CRED\r\n:32A:240603JPY500,\r\n:50K:A PAYER\r\n:59:/CUST2\r\nA PAYEE\r\n:71A:SHA\r\n-}${1:F01HOMEUS33AXXX0001000002}{2:O1031200240603ALPHDEFFAXXX00010000022406031205N}{4:\r\n:20:REF2\r\n:23B:CRED\r\n:32A:240603EUR1234,5\r\n:50K:A PAYER\r\n:59:/CUST1\r\nA PAYEE\r\n:71A:SHA\r\n-}${1:F01HOMEUS33AXXX0001000003}{2:O1031200240603BETAFRPPAXXX00010000032406031205N}{4:\r\n:20:REF3\r\n:23B:CRED\r\n:32A:240603EUR10,\r\n:50K:A PAYER\r\n:59:/CUST3\r\nA PAYEE\r\n:71A:SHA\r\n-}${1:F01HOMEUS33AXXX0001000004}{2:O1031200240603ALPHDEFFAXXX00010000042406031205N}{4:\r\n:20:REF4\r\n:23B:CRED\r\n:32A:240603EUR1,\r\n:50K:A PAYER\r\n:59:/CUST4\r\nA PAYEE\r\n:71A:SHA\r\n-}",
    received: b"",
};

const ENDS: &[u8] =
    b"MESSAGES 000004 ENTRIES 00000004\nTOTAL EUR DEBIT 1245,50 CREDIT 1245,50\nTOTAL JPY DEBIT 500, CREDIT 500,\n";

// What is seen at a gate: how many pays came, the worker of each, whether one waited for the others in vain, and whether another one
// came while the second was held on.
#[derive(Drop)]
struct Seen {
    pays: AtomicU32,
    workers: [AtomicU32; 4],
    late: AtomicBool,
    beside: AtomicBool,
}

impl Seen {
    fn new() -> Seen {
        Seen {
            pays: AtomicU32::new(0),
            workers: [
                AtomicU32::new(0),
                AtomicU32::new(0),
                AtomicU32::new(0),
                AtomicU32::new(0),
            ],
            late: AtomicBool::new(false),
            beside: AtomicBool::new(false),
        }
    }

    // Waits for at most 1,000,000 turns, each of which yields; whether so many pays have come then.
    fn have_come(&self, pays: u32) -> bool {
        for _ in 0..1_000_000 {
            if self.pays.load(SeqCst) >= pays {
                return true;
            }
            yield_now();
        }
        false
    }

    // The worker of each pay, 0 where it didn't come.
    fn workers(&self) -> [u32; 4] {
        let [first, second, third, fourth] = &self.workers;
        [
            first.load(SeqCst),
            second.load(SeqCst),
            third.load(SeqCst),
            fourth.load(SeqCst),
        ]
    }
}

// Holds each pay, with its accounts locked, until so many have come, and the second one on until one more has come.
#[derive(Drop)]
struct MeetingGate<'a> {
    at_once: u32,
    seen: &'a Seen,
}

impl<'a> Gate for MeetingGate<'a> {
    fn pass(&self, worker: u32, mir: &Mir) {
        let place = usize::from(mir.0[27].wrapping_sub(b'1'));
        if let Some(of_pay) = self.seen.workers.get(place) {
            of_pay.store(worker, SeqCst);
        }
        self.seen.pays.fetch_add(1, SeqCst);
        if !self.seen.have_come(self.at_once) {
            self.seen.late.store(true, SeqCst);
        }
        if place == 1 {
            let beside = self.seen.have_come(self.at_once.wrapping_add(1));
            self.seen.beside.store(beside, SeqCst);
        }
    }
}

// Whether a run of so many workers over a new journal comes to its end, with the totals of all pays.
fn is_done<R: Wait + Threads + Sync, G: Gate + Sync>(
    rt: &R,
    alloc: Global,
    workers: &[u8],
    gate: &G,
) -> Result<bool, Memory> {
    let disk = MemDisk::new(alloc, journal(rt, alloc, FILES)?);
    let words: [&[u8]; 3] = [b"run", b"240603", workers];
    let ended = call_at(rt, alloc, &words, WHOLE, FILES, disk, gate)?;
    Ok(ended.status == Status::Done && ended.report.bytes().ends_with(ENDS))
}

// The first two pays are at the gate at once. While the second is held on, the third one comes, which has other accounts.
#[test]
fn pays_of_other_accounts_are_at_the_gate_at_once(rt: HostRuntime) -> Result<(), Fail> {
    let seen = Seen::new();
    let gate = MeetingGate {
        at_once: 2,
        seen: &seen,
    };
    assert!(rt; is_done(&rt, rt.alloc(), b"2", &gate)?);
    assert_eq!(rt; seen.pays.load(SeqCst), 4);
    let [first, second, ..] = seen.workers();
    assert!(rt; first != second);
    assert!(rt; !seen.late.load(SeqCst) && seen.beside.load(SeqCst));
    Ok(())
}

// The first three pays are at the gate at once. While the second is held on, the fourth one doesn't come, which has its account.
#[test]
fn a_held_pay_holds_the_next_one_of_its_account(rt: HostRuntime) -> Result<(), Fail> {
    let seen = Seen::new();
    let gate = MeetingGate {
        at_once: 3,
        seen: &seen,
    };
    assert!(rt; is_done(&rt, rt.alloc(), b"3", &gate)?);
    assert_eq!(rt; seen.pays.load(SeqCst), 4);
    let [first, second, third, _] = seen.workers();
    assert!(rt; first != second && second != third && first != third);
    assert!(rt; !seen.late.load(SeqCst) && !seen.beside.load(SeqCst));
    Ok(())
}

// A single worker has all messages in one batch: each pay comes by itself, with the worker's number.
#[test]
fn each_pay_of_a_batch_comes_to_the_gate(rt: HostRuntime) -> Result<(), Fail> {
    let seen = Seen::new();
    let gate = MeetingGate {
        at_once: 1,
        seen: &seen,
    };
    assert!(rt; is_done(&rt, rt.alloc(), b"1", &gate)?);
    assert_eq!(rt; seen.pays.load(SeqCst), 4);
    assert!(rt; seen.workers() == [1, 1, 1, 1]);
    Ok(())
}
