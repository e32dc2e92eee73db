//! Calls of corr_money: amounts.

use corr_money::{
    AMOUNT_END, AmountFault, Minor, is_comma_number, put_15d, put_signed, put_total, read_15d,
};
use corr_text::Text;
use row_words::answer::Answer;
use row_words::stop::Stop;
use row_words::words::Words;

/// Makes a call, and answers whether one of these has that name.
pub fn call(name: &[u8], words: &mut Words, answer: &mut Answer) -> Result<bool, Stop> {
    match name {
        b"is_comma_number" => answer.flag(is_comma_number(words.next()?))?,
        b"read_15d" => read(words, answer)?,
        b"put_15d" => put(words, answer)?,
        b"put_signed" => put_balance(words, answer)?,
        b"put_total" => put_sum(words, answer)?,
        _ => return Ok(false),
    }
    Ok(true)
}

/// The name of an amount's fault.
fn name(fault: AmountFault) -> &'static [u8] {
    match fault {
        AmountFault::T40 => b"T40",
        AmountFault::T43 => b"T43",
        AmountFault::C03 => b"C03",
        AmountFault::TooLarge => b"TooLarge",
    }
}

/// `read_15d TEXT DECIMALS`
fn read(words: &mut Words, answer: &mut Answer) -> Result<(), Stop> {
    let text = words.next()?;
    let decimals = words.byte()?;
    if decimals > 4 {
        return Err(Stop::Unreadable);
    }
    match read_15d(text, decimals) {
        Ok(minor) => answer.number(minor.0)?,
        Err(fault) => answer.word(name(fault))?,
    }
    Ok(())
}

/// `put_15d BEFORE MINOR DECIMALS`
fn put(words: &mut Words, answer: &mut Answer) -> Result<(), Stop> {
    let alloc = answer.alloc();
    let mut out = Text::from_bytes(alloc, words.next()?)?;
    let minor = words.number()?;
    let decimals = words.byte()?;
    if decimals > 4 || minor >= AMOUNT_END {
        return Err(Stop::Unreadable);
    }
    put_15d(alloc, Minor(minor), decimals, &mut out)?;
    Ok(answer.text(out.bytes())?)
}

/// `put_signed BEFORE VALUE DECIMALS`
fn put_balance(words: &mut Words, answer: &mut Answer) -> Result<(), Stop> {
    let alloc = answer.alloc();
    let mut out = Text::from_bytes(alloc, words.next()?)?;
    let value = words.signed()?;
    let decimals = words.byte()?;
    if decimals > 4 {
        return Err(Stop::Unreadable);
    }
    put_signed(alloc, value, decimals, &mut out)?;
    Ok(answer.text(out.bytes())?)
}

/// `put_total BEFORE VALUE DECIMALS`
fn put_sum(words: &mut Words, answer: &mut Answer) -> Result<(), Stop> {
    let alloc = answer.alloc();
    let mut out = Text::from_bytes(alloc, words.next()?)?;
    let value = words.number()?;
    let decimals = words.byte()?;
    if decimals > 4 {
        return Err(Stop::Unreadable);
    }
    put_total(alloc, value, decimals, &mut out)?;
    Ok(answer.text(out.bytes())?)
}
