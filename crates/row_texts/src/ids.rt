//! Calls of corr_ids: banks, terminals, references, days.

use corr_ids::{
    Bic, Day, FIRST_DAY, LAST_DAY, LtAddress, day_from_yymmdd, day_of_year, put_bic, put_yymmdd,
    read_bic, read_lt, read_mir, read_uetr, with_branch,
};
use corr_text::Text;
use row_words::answer::Answer;
use row_words::stop::Stop;
use row_words::words::Words;

/// Makes a call, and answers whether one of these has that name.
pub fn call(name: &[u8], words: &mut Words, answer: &mut Answer) -> Result<bool, Stop> {
    match name {
        b"read_bic" => bank(words, answer)?,
        b"put_bic" => put_bank(words, answer)?,
        b"with_branch" => full_bank(words, answer)?,
        b"read_lt" => terminal(words, answer)?,
        b"read_mir" => input_reference(words, answer)?,
        b"read_uetr" => transaction_reference(words, answer)?,
        b"day_from_yymmdd" => day(words, answer)?,
        b"put_yymmdd" => put_day(words, answer)?,
        b"day_of_year" => place_in_year(words, answer)?,
        _ => return Ok(false),
    }
    Ok(true)
}

/// Adds the head and the branch of a bank.
pub fn put_parts(bic: &Bic, answer: &mut Answer) -> Result<(), Stop> {
    answer.text(&bic.head)?;
    Ok(answer.text(&bic.branch)?)
}

/// `read_bic TEXT`
fn bank(words: &mut Words, answer: &mut Answer) -> Result<(), Stop> {
    match read_bic(words.next()?) {
        Some(bic) => put_parts(&bic, answer),
        None => Ok(answer.none()?),
    }
}

/// A bank by its head and its branch.
fn bank_of(words: &mut Words) -> Result<Bic, Stop> {
    Ok(Bic {
        head: words.array()?,
        branch: words.array()?,
    })
}

/// `put_bic BEFORE HEAD BRANCH`
fn put_bank(words: &mut Words, answer: &mut Answer) -> Result<(), Stop> {
    let mut out = Text::from_bytes(answer.alloc(), words.next()?)?;
    put_bic(&bank_of(words)?, &mut out)?;
    Ok(answer.text(out.bytes())?)
}

/// `with_branch HEAD BRANCH`
fn full_bank(words: &mut Words, answer: &mut Answer) -> Result<(), Stop> {
    Ok(answer.text(&with_branch(&bank_of(words)?))?)
}

/// Adds the head, the letter and the branch of a terminal.
pub fn put_terminal(lt: &LtAddress, answer: &mut Answer) -> Result<(), Stop> {
    answer.text(&lt.head)?;
    answer.text(&[lt.lt])?;
    Ok(answer.text(&lt.branch)?)
}

/// `read_lt TEXT`
fn terminal(words: &mut Words, answer: &mut Answer) -> Result<(), Stop> {
    match read_lt(words.next()?) {
        Some(lt) => put_terminal(&lt, answer),
        None => Ok(answer.none()?),
    }
}

/// `read_mir TEXT`: the reference and its sender's terminal
fn input_reference(words: &mut Words, answer: &mut Answer) -> Result<(), Stop> {
    match read_mir(words.next()?) {
        Some(mir) => {
            answer.text(&mir.0)?;
            put_terminal(&mir.sender(), answer)
        }
        None => Ok(answer.none()?),
    }
}

/// `read_uetr TEXT`
fn transaction_reference(words: &mut Words, answer: &mut Answer) -> Result<(), Stop> {
    match read_uetr(words.next()?) {
        Some(uetr) => answer.text(&uetr.0)?,
        None => answer.none()?,
    }
    Ok(())
}

/// `day_from_yymmdd TEXT`
fn day(words: &mut Words, answer: &mut Answer) -> Result<(), Stop> {
    match day_from_yymmdd(words.next()?) {
        Some(day) => answer.signed(day.0 as i64)?,
        None => answer.none()?,
    }
    Ok(())
}

/// `put_yymmdd BEFORE DAY`
fn put_day(words: &mut Words, answer: &mut Answer) -> Result<(), Stop> {
    let mut out = Text::from_bytes(answer.alloc(), words.next()?)?;
    let day = words.small()?;
    if day < FIRST_DAY || day > LAST_DAY {
        return Err(Stop::Unreadable);
    }
    put_yymmdd(Day(day), &mut out)?;
    Ok(answer.text(out.bytes())?)
}

/// `day_of_year DAY`
fn place_in_year(words: &mut Words, answer: &mut Answer) -> Result<(), Stop> {
    let day = words.small()?;
    if day < FIRST_DAY || day > LAST_DAY {
        return Err(Stop::Unreadable);
    }
    Ok(answer.number(day_of_year(Day(day)) as u64)?)
}
