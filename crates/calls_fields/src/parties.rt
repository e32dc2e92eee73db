//! Each call once; cases stand in rows (parties.rows).

use corr_text::{List, Memory, Text};
use fin_fields::{Field, FieldLines, lend_field};
use fin_parties::{
    Party, PartyFault, account_of, fill_party, put_party, read_party, read_party_lines,
};
use std::alloc::Global;
use std::test::Fail;

fn account(alloc: Global) -> Result<Field, Memory> {
    let mut lines = List::new(alloc);
    lines.push(Text::from_bytes(alloc, b"/12")?)?;
    Ok(Field {
        tag: 57,
        letter: Some(b'C'),
        lines,
    })
}

// Promises nothing, so that the test carries none of what a party is.
fn party(alloc: Global) -> Result<Party, PartyFault> {
    read_party(alloc, &account(alloc)?)
}

// Whether a party, written, has the letter and the line of an account.
fn is_written(alloc: Global, party: &Party) -> Result<bool, Memory> {
    let written = put_party(alloc, 57, party)?;
    Ok(written.letter == Some(b'C') && written.lines.as_slice().len() == 1)
}

#[test]
fn a_party_is_read_and_written(rt: HostRuntime) -> Result<(), Fail> {
    let party = party(rt.alloc())?;
    match &party {
        Party::C { line } => assert_eq!(rt; account_of(line.bytes()), b"12".as_slice()),
        _ => assert!(rt; false, "an account"),
    }
    assert!(rt; is_written(rt.alloc(), &party)?);
    Ok(())
}

// The party of a line that stays where it is.
fn party_in_place(alloc: Global) -> Result<Party, PartyFault> {
    read_party_lines(alloc, &FieldLines::of_line(57, Some(b'C'), b"/12"))
}

#[test]
fn a_party_is_read_where_its_line_stands(rt: HostRuntime) -> Result<(), Fail> {
    match party_in_place(rt.alloc())? {
        Party::C { line } => assert_eq!(rt; line.bytes(), b"/12".as_slice()),
        _ => assert!(rt; false, "an account"),
    }
    Ok(())
}

// A customer of a name, with an account in front where there is one.
fn customer(alloc: Global, account: Option<&[u8]>) -> Result<Field, Memory> {
    let mut lines = List::new(alloc);
    if let Some(line) = account {
        lines.push(Text::from_bytes(alloc, line)?)?;
    }
    lines.push(Text::from_bytes(alloc, b"A PAYEE")?)?;
    Ok(Field {
        tag: 59,
        letter: None,
        lines,
    })
}

// A party, and then a customer with this account in its place.
fn replaced(alloc: Global, mut place: Party, account: Option<&[u8]>) -> Result<Party, PartyFault> {
    let field = customer(alloc, account)?;
    fill_party(alloc, &lend_field(alloc, &field)?, &mut place)?;
    Ok(place)
}

// The account of a customer, if it has one.
fn account_in(party: &Party) -> Option<&[u8]> {
    match party {
        Party::K {
            account: Some(account),
            ..
        } => Some(account.bytes()),
        _ => None,
    }
}

#[test]
fn a_customer_takes_the_place_of_another_party(rt: HostRuntime) -> Result<(), Fail> {
    let other = party(rt.alloc())?;
    let first = replaced(rt.alloc(), other, Some(b"/12"))?;
    assert_eq!(rt; account_in(&first), Some(b"12".as_slice()));
    let second = replaced(rt.alloc(), first, Some(b"/345"))?;
    assert_eq!(rt; account_in(&second), Some(b"345".as_slice()));
    let third = replaced(rt.alloc(), second, None)?;
    assert!(rt; matches!(third, Party::K { account: None, .. }));
    Ok(())
}
