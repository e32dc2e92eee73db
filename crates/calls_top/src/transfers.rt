//! Files of many transfers.

use corr_text::{Decimal, Memory, Text};
use std::alloc::Global;

// Adds a transfer between the accounts of that of `FILES`, with a number of six digits.
fn push_transfer(messages: &mut Text, number: u64) -> Result<(), Memory> {
    let mut digits = Decimal::new();
    let number = digits.padded(number, 6);
    messages.push(b"{1:F01HOMEUS33AXXX0001")?;
    messages.push(number)?;
    messages.push(b"}{2:O1031200240603ALPHDEFFAXXX0001")?;
    messages.push(number)?;
    messages.push(
        b"2406031205N}{4:\r\n:20:REF2\r\n:23B:CRED\r\n:32A:240603EUR1,\r\n:50K:A PAYER\r\n:59:/CUST1\r\nA PAYEE\r\n:71A:SHA\r\n-}$",
    )
}

// Adds so many blanks, by tens.
fn push_blanks(messages: &mut Text, tens: u64) -> Result<(), Memory> {
    for _ in 0..tens {
        messages.push(b"          ")?;
    }
    Ok(())
}

/// So many transfers, numbered from 1,000 on. Behind each group of so many of them stand ten times so many blanks.
pub fn transfers(alloc: Global, count: u64, group: u64, tens: u64) -> Result<Text, Memory> {
    let mut messages = Text::from_bytes(alloc, b"")?;
    let mut in_group = 0u64;
    for number in 0..count {
        push_transfer(&mut messages, number.wrapping_add(1_000))?;
        in_group = in_group.wrapping_add(1);
        if in_group == group {
            push_blanks(&mut messages, tens)?;
            in_group = 0;
        }
    }
    Ok(messages)
}
