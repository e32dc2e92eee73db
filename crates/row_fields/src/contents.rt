//! Calls of fin_contents: what fields say.

ghost use Rattle.std.specs.Prelude.{IfOk};
ghost use Rattle.fin_contents.specs.Writing.{IsAmount};

use crate::fields::{put_field, put_lines, read_field, read_tag};
use crate::named_tables::{Files, read_files, tables};
use crate::party::put_parts;
use corr_ids::{Day, FIRST_DAY, LAST_DAY};
use corr_money::{AMOUNT_END, Amount, Ccy, Minor};
use corr_text::{Memory, Text};
use fin_contents::{
    CcyAmount, KnownParty, Rate, Reference, ShortLine, Texts, Time, Value, ValueDate, is_clock,
    put_ccy_amount, put_known_party, put_rate, put_reference, put_short_line, put_texts, put_time,
    put_value,
};
use fin_fields::{Field, lend_field};
use fin_layout::{Content, Refusal};
use fin_parties::Party;
use row_words::answer::Answer;
use row_words::stop::Stop;
use row_words::words::Words;
use std::alloc::Global;

/// Makes a call, and answers whether one of these has that name.
pub fn call(name: &[u8], words: &mut Words, answer: &mut Answer) -> Result<bool, Stop> {
    Ok(reads(name, words, answer)? || writes(name, words, answer)?)
}

fn reads(name: &[u8], words: &mut Words, answer: &mut Answer) -> Result<bool, Stop> {
    match name {
        b"read_reference" => text(&Reference, words, answer)?,
        b"read_time" => text(&Time, words, answer)?,
        b"read_rate" => text(&Rate, words, answer)?,
        b"read_short_line" => short_line(words, answer)?,
        b"read_texts" => texts(words, answer)?,
        b"read_amount" => amount(words, answer)?,
        b"read_value" => value(words, answer)?,
        b"read_known_party" => party(words, answer)?,
        b"is_clock" => answer.flag(is_clock(words.next()?))?,
        _ => return Ok(false),
    }
    Ok(true)
}

fn writes(name: &[u8], words: &mut Words, answer: &mut Answer) -> Result<bool, Stop> {
    match name {
        b"put_reference" => write_reference(words, answer)?,
        b"put_time" => write_time(words, answer)?,
        b"put_rate" => write_rate(words, answer)?,
        b"put_short_line" => write_short_line(words, answer)?,
        b"put_texts" => write_texts(words, answer)?,
        b"put_amount" => write_amount(words, answer)?,
        b"put_value" => write_value(words, answer)?,
        b"put_known_party" => write_party(words, answer)?,
        _ => return Ok(false),
    }
    Ok(true)
}

/// Adds the code of a refusal.
fn put_code(refusal: Refusal, answer: &mut Answer) -> Result<(), Stop> {
    match refusal {
        Refusal::Bad(code) => Ok(answer.text(&code.0)?),
        Refusal::Memory => Err(Stop::Memory),
    }
}

/// `NAME TAG LINES..`, of a content that is one text
fn text<C: Content<Value = Text>>(
    content: &C,
    words: &mut Words,
    answer: &mut Answer,
) -> Result<(), Stop> {
    let f = read_field(words, answer)?;
    match content.read(answer.alloc(), &lend_field(answer.alloc(), &f)?) {
        Ok(text) => Ok(answer.text(text.bytes())?),
        Err(refusal) => put_code(refusal, answer),
    }
}

/// `read_short_line MOST TAG LINES..`
fn short_line(words: &mut Words, answer: &mut Answer) -> Result<(), Stop> {
    let most = words.byte()?;
    text(&ShortLine { most }, words, answer)
}

/// `read_texts MOST TAG LINES..`
fn texts(words: &mut Words, answer: &mut Answer) -> Result<(), Stop> {
    let most = words.byte()?;
    let f = read_field(words, answer)?;
    match (Texts { most }).read(answer.alloc(), &lend_field(answer.alloc(), &f)?) {
        Ok(lines) => Ok(put_lines(lines.as_slice(), answer)?),
        Err(refusal) => put_code(refusal, answer),
    }
}

/// Adds a currency, minor units and decimals.
pub fn put_amount(amount: &Amount, answer: &mut Answer) -> Result<(), Memory> {
    answer.text(&amount.ccy.0)?;
    answer.number(amount.minor.0)?;
    answer.number(amount.decimals as u64)
}

/// What the amount of a field is under the tables of these files. Promises nothing; likewise those below.
fn amount_in(alloc: Global, files: Files, f: &Field) -> Result<Result<Amount, Refusal>, Stop> {
    let tables = tables(alloc, files)?;
    Ok((CcyAmount { tables: &tables }).read(alloc, &lend_field(alloc, f)?))
}

/// `read_amount BICS CCYS COUNTRIES TAG LINES..`
fn amount(words: &mut Words, answer: &mut Answer) -> Result<(), Stop> {
    let files = read_files(words)?;
    let f = read_field(words, answer)?;
    match amount_in(answer.alloc(), files, &f)? {
        Ok(amount) => Ok(put_amount(&amount, answer)?),
        Err(refusal) => put_code(refusal, answer),
    }
}

fn value_in(alloc: Global, files: Files, f: &Field) -> Result<Result<Value, Refusal>, Stop> {
    let tables = tables(alloc, files)?;
    Ok((ValueDate { tables: &tables }).read(alloc, &lend_field(alloc, f)?))
}

/// `read_value BICS CCYS COUNTRIES TAG LINES..`
fn value(words: &mut Words, answer: &mut Answer) -> Result<(), Stop> {
    let files = read_files(words)?;
    let f = read_field(words, answer)?;
    match value_in(answer.alloc(), files, &f)? {
        Ok(value) => {
            answer.signed(value.day.0 as i64)?;
            Ok(put_amount(&value.amount, answer)?)
        }
        Err(refusal) => put_code(refusal, answer),
    }
}

fn party_in(alloc: Global, files: Files, f: &Field) -> Result<Result<Party, Refusal>, Stop> {
    let tables = tables(alloc, files)?;
    Ok((KnownParty { tables: &tables }).read(alloc, &lend_field(alloc, f)?))
}

/// `read_known_party BICS CCYS COUNTRIES TAG LINES..`
fn party(words: &mut Words, answer: &mut Answer) -> Result<(), Stop> {
    let files = read_files(words)?;
    let f = read_field(words, answer)?;
    match party_in(answer.alloc(), files, &f)? {
        Ok(party) => Ok(put_parts(&party, answer)?),
        Err(refusal) => put_code(refusal, answer),
    }
}

/// The next word as a text.
fn next_text(words: &mut Words, answer: &Answer) -> Result<Text, Stop> {
    Ok(Text::from_bytes(answer.alloc(), words.next()?)?)
}

/// `put_reference NUMBER TEXT`
fn write_reference(words: &mut Words, answer: &mut Answer) -> Result<(), Stop> {
    let tag = words.byte()?;
    let f = put_reference(answer.alloc(), tag, &next_text(words, answer)?)?;
    Ok(put_field(&f, answer)?)
}

/// `put_time TEXT`
fn write_time(words: &mut Words, answer: &mut Answer) -> Result<(), Stop> {
    let f = put_time(answer.alloc(), &next_text(words, answer)?)?;
    Ok(put_field(&f, answer)?)
}

/// `put_rate TEXT`
fn write_rate(words: &mut Words, answer: &mut Answer) -> Result<(), Stop> {
    let f = put_rate(answer.alloc(), &next_text(words, answer)?)?;
    Ok(put_field(&f, answer)?)
}

/// `put_short_line NUMBER TEXT`
fn write_short_line(words: &mut Words, answer: &mut Answer) -> Result<(), Stop> {
    let tag = words.byte()?;
    let f = put_short_line(answer.alloc(), tag, &next_text(words, answer)?)?;
    Ok(put_field(&f, answer)?)
}

/// `put_texts TAG LINES..`
fn write_texts(words: &mut Words, answer: &mut Answer) -> Result<(), Stop> {
    let (tag, letter) = read_tag(words.next()?)?;
    let f = put_texts(answer.alloc(), tag, letter, words.rest())?;
    Ok(put_field(&f, answer)?)
}

/// A currency, minor units and decimals.
fn amount_of(words: &mut Words) -> Result<Amount, Stop>
    ensures { IfOk result IsAmount }
{
    let ccy = Ccy(words.array()?);
    let minor = words.number()?;
    let decimals = words.byte()?;
    if minor >= AMOUNT_END || decimals > 4 {
        return Err(Stop::Unreadable);
    }
    Ok(Amount {
        ccy,
        minor: Minor(minor),
        decimals,
    })
}

/// `put_amount TAG CCY MINOR DECIMALS`
fn write_amount(words: &mut Words, answer: &mut Answer) -> Result<(), Stop> {
    let (tag, letter) = read_tag(words.next()?)?;
    let f = put_ccy_amount(answer.alloc(), tag, letter, &amount_of(words)?)?;
    Ok(put_field(&f, answer)?)
}

/// `put_value DAY CCY MINOR DECIMALS`
fn write_value(words: &mut Words, answer: &mut Answer) -> Result<(), Stop> {
    let day = words.small()?;
    if day < FIRST_DAY || day > LAST_DAY {
        return Err(Stop::Unreadable);
    }
    let value = Value {
        day: Day(day),
        amount: amount_of(words)?,
    };
    let f = put_value(answer.alloc(), &value)?;
    Ok(put_field(&f, answer)?)
}

fn written_party(alloc: Global, tag: u8, party: &Party) -> Result<Field, Memory> {
    put_known_party(alloc, tag, party)
}

/// `put_known_party BICS CCYS COUNTRIES TAG LINES..`: the party of a field, written again
fn write_party(words: &mut Words, answer: &mut Answer) -> Result<(), Stop> {
    let files = read_files(words)?;
    let f = read_field(words, answer)?;
    match party_in(answer.alloc(), files, &f)? {
        Ok(party) => Ok(put_field(&written_party(answer.alloc(), f.tag, &party)?, answer)?),
        Err(refusal) => put_code(refusal, answer),
    }
}
