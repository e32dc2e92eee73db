//! Calls of fin_fields: the lines of block 4.

ghost use Rattle.std.specs.Prelude.{◌≤◌, ◌≢◌, [], All, IfOk, length};
ghost use Rattle.fin_fields.specs.Writing.{IsField};
ghost use Rattle.fin_fields.specs.Fields.{most_text_lines};

use crate::fields::{put_field, read_field};
use corr_text::{List, Memory};
use fin_fields::{
    Field, FieldFault, FieldLines, Pattern, cut_fields, cut_lines, is_run_of, lend_field,
    letter_of, lines_match, matches, nth_of, put_fields, tag_of,
};
use row_texts::texts::set;
use row_words::answer::Answer;
use row_words::stop::Stop;
use row_words::words::Words;
use std::alloc::Global;

/// The most bytes of a text.
const MOST_BYTES: usize = 65_000;

/// The most fields.
const MOST_FIELDS: usize = 65_535;

/// Makes a call, and answers whether one of these has that name.
pub fn call(name: &[u8], words: &mut Words, answer: &mut Answer) -> Result<bool, Stop> {
    match name {
        b"cut_fields" => cut(words, answer)?,
        b"put_fields" => put(words, answer)?,
        b"matches" => has_format(words, answer)?,
        b"is_run_of" => run(words, answer)?,
        b"letter_of" => letter(words, answer)?,
        b"tag_of" => tag(words, answer)?,
        b"nth_of" => occurrence(words, answer)?,
        _ => return Ok(false),
    }
    Ok(true)
}

/// The fields of a short text. `Memory`: it is too long.
#[tactic(auto, using(fin_fields::proofs::laws::Bounds::lines_few))]
pub fn fields_in(alloc: Global, text: &[u8]) -> Result<List<Field>, FieldFault>
    ensures fit { IfOk result (λ fields. (fields ≢ []) × All IsField fields) }
    ensures few { IfOk result (λ fields. length fields ≤ most_text_lines) }
{
    if text.len() > MOST_BYTES {
        return Err(FieldFault::Memory);
    }
    let fields = cut_fields(alloc, text)?;
    if fields.as_slice().len() > MOST_FIELDS {
        return Err(FieldFault::Memory);
    }
    Ok(fields)
}

/// The same, the lines where they are.
#[tactic(auto, using(fin_fields::proofs::laws::Bounds::lines_few))]
pub fn lent_fields_in(alloc: Global, text: &[u8]) -> Result<List<FieldLines<'_>>, FieldFault>
    ensures few { IfOk result (λ fields. length fields ≤ most_text_lines) }
{
    if text.len() > MOST_BYTES {
        return Err(FieldFault::Memory);
    }
    let fields = cut_lines(alloc, text)?;
    if fields.as_slice().len() > MOST_FIELDS {
        return Err(FieldFault::Memory);
    }
    Ok(fields)
}

/// Adds the fault of a text.
fn put_fault(fault: FieldFault, answer: &mut Answer) -> Result<(), Stop> {
    match fault {
        FieldFault::P20 { line } => {
            answer.word(b"P20")?;
            Ok(answer.number(line as u64)?)
        }
        FieldFault::P21 { tag, nth } => {
            answer.word(b"P21")?;
            answer.text(&tag)?;
            Ok(answer.number(nth as u64)?)
        }
        FieldFault::Memory => Err(Stop::Memory),
    }
}

/// `cut_fields TEXT`
fn cut(words: &mut Words, answer: &mut Answer) -> Result<(), Stop> {
    match fields_in(answer.alloc(), words.next()?) {
        Ok(fields) => {
            for f in fields.as_slice() {
                put_field(f, answer)?;
            }
            Ok(())
        }
        Err(fault) => put_fault(fault, answer),
    }
}

/// `put_fields TEXT`: the fields of a text, written again
fn put(words: &mut Words, answer: &mut Answer) -> Result<(), Stop> {
    match fields_in(answer.alloc(), words.next()?) {
        Ok(fields) => {
            let text = put_fields(answer.alloc(), fields.as_slice())?;
            Ok(answer.text(text.bytes())?)
        }
        Err(fault) => put_fault(fault, answer),
    }
}

/// A format: `lines MAX LEN`, `fixed SET LEN` or `up_to SET LEN`.
fn pattern(words: &mut Words) -> Result<Pattern, Stop> {
    match words.next()? {
        b"lines" => Ok(Pattern::Lines {
            max: words.byte()?,
            len: words.byte()?,
        }),
        b"fixed" => Ok(Pattern::Fixed {
            set: set(words)?,
            len: words.byte()?,
        }),
        b"up_to" => Ok(Pattern::UpTo {
            set: set(words)?,
            len: words.byte()?,
        }),
        _ => Err(Stop::Unreadable),
    }
}

/// Whether a field has a format; none where its lines tell otherwise. Promises nothing.
fn is_of(alloc: Global, f: &Field, pattern: Pattern) -> Result<Option<bool>, Memory> {
    let is_whole = matches(f, pattern);
    if is_whole == lines_match(lend_field(alloc, f)?.lines(), pattern) {
        Ok(Some(is_whole))
    } else {
        Ok(None)
    }
}

/// `letter_of TAG LINES..`
fn letter(words: &mut Words, answer: &mut Answer) -> Result<(), Stop> {
    let f = read_field(words, answer)?;
    let letter = letter_of(&lend_field(answer.alloc(), &f)?);
    Ok(answer.text(&[letter])?)
}

/// `tag_of TAG LINES..`
fn tag(words: &mut Words, answer: &mut Answer) -> Result<(), Stop> {
    let f = read_field(words, answer)?;
    let tag = tag_of(&lend_field(answer.alloc(), &f)?);
    Ok(answer.text(&tag)?)
}

/// `matches FORMAT TAG LINES..`
fn has_format(words: &mut Words, answer: &mut Answer) -> Result<(), Stop> {
    let pattern = pattern(words)?;
    let f = read_field(words, answer)?;
    match is_of(answer.alloc(), &f, pattern)? {
        Some(flag) => Ok(answer.flag(flag)?),
        None => Ok(answer.word(b"the field and its lines differ")?),
    }
}

/// `is_run_of SET LEN LINE`
fn run(words: &mut Words, answer: &mut Answer) -> Result<(), Stop> {
    let set = set(words)?;
    let len = words.byte()?;
    Ok(answer.flag(is_run_of(set, len, words.next()?))?)
}

/// `nth_of PLACE TEXT`: which of its tag and letter the field at a place is, places from 0
fn occurrence(words: &mut Words, answer: &mut Answer) -> Result<(), Stop> {
    let at = words.place()?;
    match lent_fields_in(answer.alloc(), words.next()?) {
        Ok(fields) if at < fields.as_slice().len() => {
            Ok(answer.number(nth_of(fields.as_slice(), at) as u64)?)
        }
        Ok(_) => Err(Stop::Unreadable),
        Err(fault) => put_fault(fault, answer),
    }
}
