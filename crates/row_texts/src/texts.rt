//! Calls of corr_text: digits, sets of characters, lines, braces.

use corr_text::{
    FirstLine, Set, Text, all_digits, digits, first_line, is_all_of, is_set, is_x, next_brace,
    plain_line, put_digits,
};
use row_words::answer::Answer;
use row_words::stop::Stop;
use row_words::words::Words;

/// Makes a call, and answers whether one of these has that name.
pub fn call(name: &[u8], words: &mut Words, answer: &mut Answer) -> Result<bool, Stop> {
    match name {
        b"digits" => number(words, answer)?,
        b"put_digits" => put_number(words, answer)?,
        b"is_x" => answer.flag(is_x(words.byte()?))?,
        b"all_digits" => answer.flag(all_digits(words.next()?))?,
        b"is_all_of" => all_of(words, answer)?,
        b"members" => members(words, answer)?,
        b"first_line" => line(words, answer)?,
        b"plain_line" => line_of_x(words, answer)?,
        b"next_brace" => brace(words, answer)?,
        _ => return Ok(false),
    }
    Ok(true)
}

/// `digits TEXT`
fn number(words: &mut Words, answer: &mut Answer) -> Result<(), Stop> {
    match digits(words.next()?) {
        Some(n) => answer.number(n)?,
        None => answer.none()?,
    }
    Ok(())
}

/// `put_digits BEFORE NUMBER WIDTH`
fn put_number(words: &mut Words, answer: &mut Answer) -> Result<(), Stop> {
    let mut out = Text::from_bytes(answer.alloc(), words.next()?)?;
    put_digits(answer.alloc(), words.number()?, words.byte()?, &mut out)?;
    Ok(answer.text(out.bytes())?)
}

/// A set by its letter.
pub fn set(words: &mut Words) -> Result<Set, Stop> {
    match words.next()? {
        b"X" => Ok(Set::X),
        b"N" => Ok(Set::N),
        b"A" => Ok(Set::A),
        b"C" => Ok(Set::C),
        _ => Err(Stop::Unreadable),
    }
}

/// `members SET`
fn members(words: &mut Words, answer: &mut Answer) -> Result<(), Stop> {
    let set = set(words)?;
    let mut members = Text::from_bytes(answer.alloc(), b"")?;
    for b in 0..=255u8 {
        if is_set(set, b) {
            members.push(&[b])?;
        }
    }
    Ok(answer.text(members.bytes())?)
}

/// `is_all_of SET TEXT`
fn all_of(words: &mut Words, answer: &mut Answer) -> Result<(), Stop> {
    let set = set(words)?;
    Ok(answer.flag(is_all_of(set, words.next()?))?)
}

fn cut(first: FirstLine, answer: &mut Answer) -> Result<(), Stop> {
    answer.text(first.line)?;
    Ok(answer.text(first.rest)?)
}

/// `first_line TEXT`
fn line(words: &mut Words, answer: &mut Answer) -> Result<(), Stop> {
    let text = words.next()?;
    if text.is_empty() {
        return Err(Stop::Unreadable);
    }
    cut(first_line(text), answer)
}

/// `plain_line TEXT`
fn line_of_x(words: &mut Words, answer: &mut Answer) -> Result<(), Stop> {
    let text = words.next()?;
    if text.is_empty() {
        return Err(Stop::Unreadable);
    }
    match plain_line(text) {
        Some(first) => cut(first, answer),
        None => Ok(answer.none()?),
    }
}

/// `next_brace TEXT FROM`
fn brace(words: &mut Words, answer: &mut Answer) -> Result<(), Stop> {
    let text = words.next()?;
    let from = words.place()?;
    if from > text.len() {
        return Err(Stop::Unreadable);
    }
    Ok(answer.number(next_brace(text, from) as u64)?)
}
