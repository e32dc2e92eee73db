//! Calls of ref_tables: charges.

use crate::named_tables::{Files, put_table_fault, read_files, tables};
use corr_money::Ccy;
use ref_tables::{Charges, TableFault, read_charges};
use row_words::answer::Answer;
use row_words::stop::Stop;
use row_words::words::Words;
use std::alloc::Global;

/// Makes a call, and answers whether one of these has that name.
pub fn call(name: &[u8], words: &mut Words, answer: &mut Answer) -> Result<bool, Stop> {
    match name {
        b"read_charges" => read(words, answer)?,
        b"charge" => charge(words, answer)?,
        _ => return Ok(false),
    }
    Ok(true)
}

/// The charges of a file. Promises nothing.
fn charges(alloc: Global, files: Files, file: &[u8]) -> Result<Result<Charges, TableFault>, Stop> {
    let tables = tables(alloc, files)?;
    Ok(read_charges(alloc, file, &tables))
}

/// `read_charges BICS CCYS COUNTRIES FILE`
fn read(words: &mut Words, answer: &mut Answer) -> Result<(), Stop> {
    let files = read_files(words)?;
    match charges(answer.alloc(), files, words.next()?)?.err() {
        Some(fault) => put_table_fault(fault, answer),
        None => Ok(answer.word(b"ok")?),
    }
}

/// Adds what is charged in a currency, or `none`.
fn put_charge(charges: &Charges, ccy: Ccy, answer: &mut Answer) -> Result<(), Stop> {
    match charges.of(ccy) {
        Some(charge) => Ok(answer.number(charge.0)?),
        None => Ok(answer.none()?),
    }
}

/// `charge BICS CCYS COUNTRIES FILE CCY`
fn charge(words: &mut Words, answer: &mut Answer) -> Result<(), Stop> {
    let files = read_files(words)?;
    let file = words.next()?;
    let ccy = Ccy(words.array()?);
    match charges(answer.alloc(), files, file)? {
        Ok(charges) => put_charge(&charges, ccy, answer),
        Err(_) => Err(Stop::Unreadable),
    }
}
