//! A run that takes a charge out of a transfer.

use calls_room::{CHARGED, WHOLE, call, is_done, journal, long_lived, run};
use corr_disk::MemDisk;
use corr_text::Memory;
use std::alloc::Global;
use std::sync::Wait;
use std::test::Fail;
use std::thread::Threads;

const REPORT: &[u8] =
    b"000001 240603ALPHDEFFAXXX0001000001 BOOKED 00000001 EUR 1234,50\nMESSAGES 000001 ENTRIES 00000001\nTOTAL EUR DEBIT 1234,50 CREDIT 1234,50\n";

const BOOKED: &[u8] =
    b"00000001 240603 240603ALPHDEFFAXXX0001000001 BOOKED D VALPHEUR 1234,50 C VBETAEUR 1229,50 C FEEEUR 5,00\n";

// The transfer that goes on, less the charge, and what the sender is told.
const SENT: &[u8] =
    b"{1:F01HOMEUS33AXXX0000000000}{2:I103BETAFRPPXXXXN}{4:\r\n:20:P00000001K1\r\n:23B:CRED\r\n:32A:240603EUR1229,50\r\n:33B:EUR1234,50\r\n:50K:A PAYER\r\n:52A:ALPHDEFF\r\n:59:/CUST9\r\nA PAYEE\r\n:71A:SHA\r\n:71F:EUR5,00\r\n-}${1:F01HOMEUS33AXXX0000000000}{2:I900ALPHDEFFXXXXN}{4:\r\n:20:P00000001K2\r\n:21:REF1\r\n:25:VALPHEUR\r\n:32A:240603EUR1234,50\r\n-}$";

// Whether a run over a new journal books the transfer with its charge, and tells it.
fn is_charged<R: Wait + Threads + Sync>(rt: &R, alloc: Global) -> Result<bool, Memory> {
    let journal = journal(rt, alloc, CHARGED)?;
    let ended = run(
        rt,
        alloc,
        WHOLE,
        CHARGED,
        long_lived(alloc, journal.bytes())?,
    )?;
    let is_told = is_done(&ended, REPORT, SENT);
    let disk = MemDisk::new(alloc, ended.disk.left());
    let listed = call(rt, alloc, &[b"bookings"], WHOLE, CHARGED, disk)?;
    Ok(is_told && is_done(&listed, BOOKED, b""))
}

#[test]
fn a_charge_is_booked_and_told(rt: HostRuntime) -> Result<(), Fail> {
    assert!(rt; is_charged(&rt, rt.alloc())?);
    Ok(())
}
