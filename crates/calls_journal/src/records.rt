//! The records of entries, headers and changes, read and written again.

use corr_text::{Buf, Text};
use day_model::{Item, What};
use jrn_codec::{
    EntryFault, put_change, put_entry, put_head, read_change, read_entry, read_entry_1, read_head,
    read_head_1, read_item, record_len,
};
use std::alloc::Global;
use std::test::*;

// An MT103 of EUR 1,234.56 that was booked from account 1 to account 2, with an advice of the debit.
pub(crate) const ENTRY: &[u8] =
    b"\0240603ALPHDEFFAXXX0001000001\x01\0\0\0\x4d\xa5\0\0\x4d\xa5\0\x02\0\x01\0\0\0\0\0\0\x01\xe2\x40\0\x04REF1\0\x02\x01\0\0\0\0\0\x01\xe2\x40\x01\x01\x01\x04ALPHDEFFXXX\x01\0\0\0\x02\r\n";

// An MT103 of EUR 1,234.56 with a charge of EUR 5.00: from account 1 to account 2 and, for the charge, to account 3.
pub(crate) const CHARGED: &[u8] =
    b"\0240603ALPHDEFFAXXX0001000001\x01\0\0\0\x4d\xa5\0\0\x4d\xa5\0\x03\0\x01\0\0\0\0\0\0\x01\xe2\x40\0\x04REF1\0\x02\x01\0\0\0\0\0\x01\xe0\x4c\x01\x01\0\x03\x01\0\0\0\0\0\0\x01\xf4\0\x04REF1\x01\x04ALPHDEFFXXX\x01\0\0\0\x02\r\n";

// A home bank without accounts.
const HEAD: &[u8] = b"CORRJ2HOMEUS33XXX\0\0";

// The same in a journal of version 1.
const HEAD_1: &[u8] = b"CORRJ1HOMEUS33XXX\0\0";

// Account CUST3 of EUR is opened, with a ceiling of 900,000,000.00.
const OPENED: &[u8] =
    b"\x01\0\x05CUST3CHOMEUS33XXXEUR\x02\0\0\0\0\0\0\0\0\0\0\0\x14\xf4\x6b\x04\0\0\0\0\0\0\0\0\0";

// An account whose id has a small letter.
const OUT_OF_FORM: &[u8] =
    b"\x01\0\x05cUST3CHOMEUS33XXXEUR\x02\0\0\0\0\0\0\0\0\0\0\0\x14\xf4\x6b\x04\0\0\0\0\0\0\0\0\0";

// Account 1 gets a floor of -200,000.00 and a ceiling of 900,000,000.00.
const LIMITS: &[u8] = b"\x01\x01\0\x01\xff\xff\xff\xff\xfe\xce\xd3\0\0\0\0\x14\xf4\x6b\x04\0";

// Whether these bytes are the record of an entry with so many legs, which is as long as that and is written to them again.
fn is_entry(alloc: Global, bytes: &[u8], legs: usize) -> Result<bool, Fail> {
    let entry = read_entry(alloc, bytes)
        .ok()
        .ok_or("the bytes are an entry")?;
    let mut written = Buf::new(alloc);
    put_entry(&entry, &mut written)?;
    let whole = record_len(&entry) == bytes.len() as u64 && written.bytes() == bytes;
    Ok(entry.pay.legs.as_slice().len() == legs && whole)
}

#[test]
fn an_entry(rt: HostRuntime) -> Result<(), Fail> {
    let two = is_entry(rt.alloc(), ENTRY, 2)?;
    let three = is_entry(rt.alloc(), CHARGED, 3)?;
    assert!(rt; two && three);
    assert!(rt; matches!(read_entry(rt.alloc(), HEAD), Err(EntryFault::NoEntry)));
    Ok(())
}

#[test]
fn an_entry_of_version_1(rt: HostRuntime) -> Result<(), Fail> {
    let old = &ENTRY[1..];
    let entry = read_entry_1(rt.alloc(), old)
        .ok()
        .ok_or("the bytes are an entry")?;
    assert_eq!(rt; entry.pay.legs.as_slice().len(), 2);
    assert!(rt; matches!(read_entry(rt.alloc(), old), Err(EntryFault::NoEntry)));
    assert!(rt; matches!(read_entry_1(rt.alloc(), ENTRY), Err(EntryFault::NoEntry)));
    Ok(())
}

#[test]
fn a_header(rt: HostRuntime) -> Result<(), Fail> {
    let accounts = read_head(rt.alloc(), HEAD)
        .ok()
        .ok_or("the bytes are a header")?;
    assert_eq!(rt; accounts.count(), 0);
    let mut written = Text::from_bytes(rt.alloc(), b"")?;
    put_head(&accounts, &mut written)?;
    assert_eq!(rt; written.bytes(), HEAD);
    Ok(())
}

#[test]
fn a_header_of_version_1(rt: HostRuntime) -> Result<(), Fail> {
    let accounts = read_head_1(rt.alloc(), HEAD_1)
        .ok()
        .ok_or("the bytes are a header")?;
    assert_eq!(rt; accounts.count(), 0);
    assert!(rt; matches!(read_head(rt.alloc(), HEAD_1), Err(EntryFault::NoEntry)));
    assert!(rt; matches!(read_head_1(rt.alloc(), HEAD), Err(EntryFault::NoEntry)));
    Ok(())
}

// Whether these bytes are the record of a change, which is written to them again.
fn is_change(alloc: Global, bytes: &[u8]) -> Result<bool, Fail> {
    let change = read_change(alloc, bytes)
        .ok()
        .ok_or("the bytes are a change")?;
    let mut written = Text::from_bytes(alloc, b"")?;
    put_change(&change, &mut written)?;
    Ok(written.bytes() == bytes)
}

#[test]
fn a_change(rt: HostRuntime) -> Result<(), Fail> {
    let alloc = rt.alloc();
    let opened = is_change(alloc, OPENED)?;
    let limits = is_change(alloc, LIMITS)?;
    assert!(rt; opened && limits);
    assert!(rt; matches!(read_change(alloc, OUT_OF_FORM), Err(EntryFault::NoEntry)));
    assert!(rt; matches!(read_change(alloc, &LIMITS[1..]), Err(EntryFault::NoEntry)));
    assert!(rt; matches!(read_change(alloc, &LIMITS[..19]), Err(EntryFault::NoEntry)));
    Ok(())
}

#[test]
fn an_item(rt: HostRuntime) -> Result<(), Fail> {
    let alloc = rt.alloc();
    assert!(rt; matches!(read_item(alloc, ENTRY), Ok(Item::Entered(_))));
    assert!(rt;
        matches!(
            read_item(alloc, LIMITS),
            Ok(Item::Changed(What::Limits { .. }))
        )
    );
    assert!(rt; matches!(read_item(alloc, OPENED), Ok(Item::Changed(What::Opened(_)))));
    assert!(rt; matches!(read_item(alloc, b"\x02"), Err(EntryFault::NoEntry)));
    assert!(rt; matches!(read_item(alloc, b""), Err(EntryFault::NoEntry)));
    Ok(())
}
