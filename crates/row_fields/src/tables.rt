//! Calls of ref_tables: banks, currencies, countries, accounts.

use crate::named_tables::{Files, put_table_fault, read_files, tables};
use corr_ids::{Bic, read_bic};
use corr_money::Ccy;
use ref_tables::{
    AccountRow, TableFault, ccy, is_account_id, read_account_words, read_accounts, read_tables,
};
use row_words::answer::Answer;
use row_words::stop::Stop;
use row_words::words::Words;
use std::alloc::Global;

/// Makes a call, and answers whether one of these has that name.
pub fn call(name: &[u8], words: &mut Words, answer: &mut Answer) -> Result<bool, Stop> {
    match name {
        b"read_tables" => read(words, answer)?,
        b"has_bic" => bank(words, answer)?,
        b"decimals" => decimals(words, answer)?,
        b"listed" => country(words, answer)?,
        b"read_accounts" => accounts(words, answer)?,
        b"read_account_words" => account(words, answer)?,
        b"ccy" => answer.flag(ccy(words.next()?).is_some())?,
        b"is_account_id" => answer.flag(is_account_id(words.next()?))?,
        _ => return Ok(false),
    }
    Ok(true)
}

/// What is wrong with some files, if anything is.
fn fault_of(alloc: Global, files: Files) -> Option<TableFault> {
    read_tables(alloc, files.bics, files.ccys, files.countries).err()
}

/// `read_tables BICS CCYS COUNTRIES`
fn read(words: &mut Words, answer: &mut Answer) -> Result<(), Stop> {
    let files = read_files(words)?;
    match fault_of(answer.alloc(), files) {
        Some(fault) => put_table_fault(fault, answer),
        None => Ok(answer.word(b"ok")?),
    }
}

fn has_bic(alloc: Global, files: Files, head: &[u8; 8]) -> Result<bool, Stop> {
    Ok(tables(alloc, files)?.has_bic(head))
}

/// `has_bic BICS CCYS COUNTRIES HEAD`
fn bank(words: &mut Words, answer: &mut Answer) -> Result<(), Stop> {
    let files = read_files(words)?;
    let head = words.array()?;
    Ok(answer.flag(has_bic(answer.alloc(), files, &head)?)?)
}

fn decimals_of(alloc: Global, files: Files, ccy: Ccy) -> Result<Option<u8>, Stop> {
    Ok(tables(alloc, files)?.decimals(ccy))
}

/// `decimals BICS CCYS COUNTRIES CCY`
fn decimals(words: &mut Words, answer: &mut Answer) -> Result<(), Stop> {
    let files = read_files(words)?;
    let ccy = Ccy(words.array()?);
    match decimals_of(answer.alloc(), files, ccy)? {
        Some(decimals) => Ok(answer.number(decimals as u64)?),
        None => Ok(answer.none()?),
    }
}

fn is_listed(alloc: Global, files: Files, code: &[u8; 2]) -> Result<bool, Stop> {
    Ok(tables(alloc, files)?.listed(code))
}

/// `listed BICS CCYS COUNTRIES COUNTRY`
fn country(words: &mut Words, answer: &mut Answer) -> Result<(), Stop> {
    let files = read_files(words)?;
    let code = words.array()?;
    Ok(answer.flag(is_listed(answer.alloc(), files, &code)?)?)
}

/// Adds an account.
fn put_account(account: &AccountRow, answer: &mut Answer) -> Result<(), Stop> {
    answer.text(account.id.bytes())?;
    answer.text(&[account.kind])?;
    answer.text(&account.owner.head)?;
    answer.text(&account.owner.branch)?;
    answer.text(&account.ccy.0)?;
    answer.number(account.decimals as u64)?;
    answer.signed(account.floor)?;
    answer.signed(account.ceil)?;
    Ok(answer.signed(account.opening)?)
}

/// Adds how many accounts there are, and the last of them.
fn put_accounts(accounts: &[AccountRow], answer: &mut Answer) -> Result<(), Stop> {
    answer.number(accounts.len() as u64)?;
    match accounts {
        [.., account] => put_account(account, answer),
        [] => Ok(()),
    }
}

/// The accounts of a file. Promises nothing.
fn accounts_in(
    alloc: Global,
    files: Files,
    home: &Bic,
    file: &[u8],
) -> Result<Result<Vec<AccountRow>, TableFault>, Stop> {
    let tables = tables(alloc, files)?;
    Ok(read_accounts(alloc, file, home, &tables))
}

/// `read_accounts BICS CCYS COUNTRIES HOME FILE`: how many accounts there are, and the last of them
fn accounts(words: &mut Words, answer: &mut Answer) -> Result<(), Stop> {
    let files = read_files(words)?;
    let home = read_bic(words.next()?).ok_or(Stop::Unreadable)?;
    let file = words.next()?;
    match accounts_in(answer.alloc(), files, &home, file)? {
        Ok(accounts) => put_accounts(accounts.as_slice(), answer),
        Err(fault) => put_table_fault(fault, answer),
    }
}

/// The account of words. Promises nothing.
fn account_of(
    alloc: Global,
    files: Files,
    home: &Bic,
    words: &[&[u8]; 7],
) -> Result<Result<AccountRow, TableFault>, Stop> {
    let tables = tables(alloc, files)?;
    Ok(read_account_words(alloc, words, home, &tables))
}

/// `read_account_words BICS CCYS COUNTRIES HOME ID KIND OWNER CCY FLOOR CEILING OPENING`
fn account(words: &mut Words, answer: &mut Answer) -> Result<(), Stop> {
    let files = read_files(words)?;
    let home = read_bic(words.next()?).ok_or(Stop::Unreadable)?;
    let cells = [
        words.next()?,
        words.next()?,
        words.next()?,
        words.next()?,
        words.next()?,
        words.next()?,
        words.next()?,
    ];
    match account_of(answer.alloc(), files, &home, &cells)? {
        Ok(account) => put_account(&account, answer),
        Err(fault) => put_table_fault(fault, answer),
    }
}
