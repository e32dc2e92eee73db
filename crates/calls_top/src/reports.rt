//! Commands that book nothing: received statements against the books, a generated day, and a trial of one.

use calls_room::{Files, WHOLE, booked, call, call_plain, is_done};
use corr_disk::MemDisk;
use corr_text::{Memory, Text};
use std::alloc::Global;
use std::sync::Wait;
use std::test::Fail;
use std::thread::Threads;

// A payment out of our account with CORRBEBB, and that bank's statement of the account.
const FILES: Files = Files {
    tables: [
        b"HOMEUS33\nALPHDEFF\nCORRBEBB\n",
        b"EUR,2\n",
        b"DE,Y\nUS,N\n",
        b"VALPHEUR,V,ALPHDEFF,EUR,-10000000,90000000000,5000000\nCUST1,C,HOMEUS33,EUR,0,90000000000,0\nNCORREUR,N,CORRBEBB,EUR,-90000000000,90000000000,-5000000\n",
        b"EUR,ALPHDEFF,BOOK,,VALPHEUR,240101,791231\n",
        b"",
    ],
    messages: b"{1:F01HOMEUS33AXXX0001000007}{2:O1031200240603ALPHDEFFAXXX00010000012406031205N}{4:\r\n:20:REF1\r\n:23B:CRED\r\n:32A:240603EUR10,\r\n:50K:A PAYER\r\n:53A:CORRBEBB\r\n:59:/CUST1\r\nA PAYEE\r\n:71A:SHA\r\n-}",
    received: b"{1:F01HOMEUS33AXXX0001000008}{2:O9501800240603CORRBEBBAXXX00010000012406031805N}{4:\r\n:20:STMT\r\n:25:NCORREUR\r\n:28C:155/1\r\n:60F:C240602EUR50000,\r\n:61:240603C10,S103REF1//CORR0001\r\n:62F:C240603EUR50010,\r\n-}",
};

const PAIRED: &[u8] = b"STATEMENT NCORREUR 240603\nPAIR 00000001 00001\nGAP 0,00 0,00\n";

const GENERATED: &[u8] =
    b"{1:F01HOMEUS33AXXX0001000001}{2:O1031200240603ALPHDEFFAXXX00010000012406031205N}{4:\r\n:20:G000001\r\n:23B:CRED\r\n:32A:240603EUR0,79\r\n:50K:A PAYER\r\n:57A:BETAFRPP\r\n:59:/CUST9\r\nA PAYEE\r\n:71A:SHA\r\n-}$";

const SUMMARY: &[u8] =
    b"MESSAGES 000002 ENTRIES 00000002\nTOTAL EUR DEBIT 0,79 CREDIT 0,79\nTOTAL JPY DEBIT 32, CREDIT 32,\nBALANCE VALPHEUR 49999,21\nBALANCE VBETAEUR 10000,79\nBALANCE CUST1 0,00\nBALANCE NCORREUR -60000,00\nBALANCE VDELTJPY 8999968,\nBALANCE NCORRJPY -9000000,\nBALANCE CUST2 32,\n";

// Whether a command over a disk of these bytes comes to its end, and writes this.
fn does<R: Wait + Threads + Sync>(
    rt: &R,
    alloc: Global,
    command: &[&[u8]],
    disk: Text,
    report: &[u8],
    out: &[u8],
) -> Result<bool, Memory> {
    let ended = call(rt, alloc, command, WHOLE, FILES, MemDisk::new(alloc, disk))?;
    Ok(is_done(&ended, report, out))
}

// Whether the line of the statement and the entry of the payment are a pair.
fn is_reconciled<R: Wait + Threads + Sync>(rt: &R, alloc: Global) -> Result<bool, Memory> {
    let journal = booked(rt, alloc, FILES)?;
    does(rt, alloc, &[b"reconcile"], journal, PAIRED, b"")
}

// Whether a day of one message is sent.
fn is_generated<R: Wait + Threads + Sync>(rt: &R, alloc: Global) -> Result<bool, Memory> {
    let empty = Text::from_bytes(alloc, b"")?;
    does(rt, alloc, &[b"generate", b"1", b"7"], empty, b"", GENERATED)
}

// Whether a day of one message is sent by the call that has no threads.
fn is_generated_plainly(alloc: Global) -> Result<bool, Memory> {
    let disk = MemDisk::new(alloc, Text::from_bytes(alloc, b"")?);
    let ended = call_plain(alloc, &[b"generate", b"1", b"7"], FILES, disk)?;
    Ok(is_done(&ended, b"", GENERATED))
}

// Whether two workers sum up a day of two messages.
fn is_tried<R: Wait + Threads + Sync>(rt: &R, alloc: Global) -> Result<bool, Memory> {
    let empty = Text::from_bytes(alloc, b"")?;
    does(
        rt,
        alloc,
        &[b"trial", b"2", b"7", b"2"],
        empty,
        SUMMARY,
        b"",
    )
}

#[test]
fn a_received_statement_is_compared_with_the_books(rt: HostRuntime) -> Result<(), Fail> {
    assert!(rt; is_reconciled(&rt, rt.alloc())?);
    Ok(())
}

#[test]
fn a_generated_day_is_sent(rt: HostRuntime) -> Result<(), Fail> {
    assert!(rt; is_generated(&rt, rt.alloc())?);
    Ok(())
}

#[test]
fn a_generated_day_is_sent_without_threads(rt: HostRuntime) -> Result<(), Fail> {
    assert!(rt; is_generated_plainly(rt.alloc())?);
    Ok(())
}

#[test]
fn a_generated_day_is_summed_up(rt: HostRuntime) -> Result<(), Fail> {
    assert!(rt; is_tried(&rt, rt.alloc())?);
    Ok(())
}
