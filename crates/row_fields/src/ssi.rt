//! Calls of ssi_versions: settlement instructions.

use crate::named_tables::{Files, put_table_fault, read_files, tables};
use corr_ids::{Bic, Day, FIRST_DAY, LAST_DAY, day_from_yymmdd, put_yymmdd, read_bic};
use corr_money::Ccy;
use corr_text::Text;
use ref_tables::TableFault;
use row_words::answer::Answer;
use row_words::stop::Stop;
use row_words::words::Words;
use ssi_versions::{Method, Ssi, SsiRow};
use std::alloc::Global;

/// Makes a call, and answers whether one of these has that name.
pub fn call(name: &[u8], words: &mut Words, answer: &mut Answer) -> Result<bool, Stop> {
    match name {
        b"read_ssi" => read(words, answer)?,
        b"at" => in_force(words, answer)?,
        _ => return Ok(false),
    }
    Ok(true)
}

/// The instructions of a file. Promises nothing.
fn instructions(alloc: Global, files: Files, file: &[u8]) -> Result<Result<Ssi, TableFault>, Stop> {
    let tables = tables(alloc, files)?;
    Ok(Ssi::read(alloc, file, &tables))
}

/// `read_ssi BICS CCYS COUNTRIES FILE`
fn read(words: &mut Words, answer: &mut Answer) -> Result<(), Stop> {
    let files = read_files(words)?;
    match instructions(answer.alloc(), files, words.next()?)?.err() {
        Some(fault) => put_table_fault(fault, answer),
        None => Ok(answer.word(b"ok")?),
    }
}

fn name(method: Method) -> &'static [u8] {
    match method {
        Method::Book => b"BOOK",
        Method::Serial => b"SERIAL",
        Method::Cover => b"COVER",
    }
}

/// Adds a day of an instruction.
fn put_day(day: Day, answer: &mut Answer) -> Result<(), Stop> {
    if day.0 < FIRST_DAY || day.0 > LAST_DAY {
        return Ok(answer.signed(day.0 as i64)?);
    }
    let mut text = Text::from_bytes(answer.alloc(), b"")?;
    put_yymmdd(day, &mut text)?;
    Ok(answer.text(text.bytes())?)
}

/// Adds an instruction.
fn put_row(row: &SsiRow, answer: &mut Answer) -> Result<(), Stop> {
    answer.text(&row.ccy.0)?;
    answer.text(row.bank.bytes())?;
    answer.word(name(row.method))?;
    match row.via {
        Some(bic) => {
            answer.text(&bic.head)?;
            answer.text(&bic.branch)?;
        }
        None => answer.none()?,
    }
    answer.text(row.account.bytes())?;
    put_day(row.from, answer)?;
    put_day(row.until, answer)
}

/// What an instruction is asked by.
#[derive(Clone, Copy)]
struct Asked {
    ccy: Ccy,
    bank: Bic,
    day: Day,
}

/// The next word as a BIC. Promises nothing; likewise the next.
fn bank(words: &mut Words) -> Result<Bic, Stop> {
    read_bic(words.next()?).ok_or(Stop::Unreadable)
}

fn day(words: &mut Words) -> Result<Day, Stop> {
    day_from_yymmdd(words.next()?).ok_or(Stop::Unreadable)
}

fn read_asked(words: &mut Words) -> Result<Asked, Stop> {
    Ok(Asked {
        ccy: Ccy(words.array()?),
        bank: bank(words)?,
        day: day(words)?,
    })
}

/// Adds the instruction in force, or `none`.
fn put_found(ssi: &Ssi, asked: Asked, answer: &mut Answer) -> Result<(), Stop> {
    match ssi.at(asked.ccy, &asked.bank, asked.day) {
        Some(row) => put_row(row, answer),
        None => Ok(answer.none()?),
    }
}

/// `at BICS CCYS COUNTRIES FILE CCY BANK DAY`
fn in_force(words: &mut Words, answer: &mut Answer) -> Result<(), Stop> {
    let files = read_files(words)?;
    let file = words.next()?;
    let asked = read_asked(words)?;
    match instructions(answer.alloc(), files, file)? {
        Ok(ssi) => put_found(&ssi, asked, answer),
        Err(_) => Err(Stop::Unreadable),
    }
}
