//! Calls of fin_parties: institutions and customers.

use crate::fields::{put_field, read_field};
use crate::party::put_parts;
use corr_text::Memory;
use fin_fields::Field;
use fin_parties::{Party, PartyFault, account_of, put_party, read_party};
use row_words::answer::Answer;
use row_words::stop::Stop;
use row_words::words::Words;
use std::alloc::Global;

/// Makes a call, and answers whether one of these has that name.
pub fn call(name: &[u8], words: &mut Words, answer: &mut Answer) -> Result<bool, Stop> {
    match name {
        b"read_party" => read(words, answer)?,
        b"put_party" => put(words, answer)?,
        b"account_of" => answer.text(account_of(words.next()?))?,
        _ => return Ok(false),
    }
    Ok(true)
}

/// The party of a field, none where the field is none. Promises nothing; likewise the next.
fn party_in(alloc: Global, f: &Field) -> Result<Option<Party>, Stop> {
    match read_party(alloc, f) {
        Ok(party) => Ok(Some(party)),
        Err(PartyFault::P24) => Ok(None),
        Err(PartyFault::Memory) => Err(Stop::Memory),
    }
}

/// The field of a party with this number.
fn written(alloc: Global, tag: u8, party: &Party) -> Result<Field, Memory> {
    put_party(alloc, tag, party)
}

/// `read_party TAG LINES..`
fn read(words: &mut Words, answer: &mut Answer) -> Result<(), Stop> {
    let f = read_field(words, answer)?;
    match party_in(answer.alloc(), &f)? {
        Some(party) => Ok(put_parts(&party, answer)?),
        None => Ok(answer.word(b"P24")?),
    }
}

/// `put_party NUMBER TAG LINES..`: the party of a field, written as a field of this number
fn put(words: &mut Words, answer: &mut Answer) -> Result<(), Stop> {
    let tag = words.byte()?;
    let f = read_field(words, answer)?;
    match party_in(answer.alloc(), &f)? {
        Some(party) => Ok(put_field(&written(answer.alloc(), tag, &party)?, answer)?),
        None => Ok(answer.word(b"P24")?),
    }
}
