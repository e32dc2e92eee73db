//! Calls of fin_layout: fields at the places of an order.

ghost use Rattle.std.specs.Prelude.{◌≤◌, IfOk, length};
ghost use Rattle.fin_fields.specs.Fields.{most_text_lines};

use crate::fields::{put_lines, two_digits};
use crate::lines::lent_fields_in;
use corr_text::{Fault, List, Memory, Text};
use fin_contents::Texts;
use fin_fields::{FieldFault, FieldLines, copy_lines};
use fin_layout::{
    Found, MtFault, Place, check_structure, find, missing, places, read_all, read_one,
    read_optional,
};
use row_words::answer::Answer;
use row_words::stop::Stop;
use row_words::words::Words;
use std::alloc::Global;

/// Makes a call, and answers whether one of these has that name.
pub fn call(name: &[u8], words: &mut Words, answer: &mut Answer) -> Result<bool, Stop> {
    match name {
        b"check_structure" => structure(words, answer)?,
        b"places" => taken(words, answer)?,
        b"missing" => first_missing(words, answer)?,
        b"find_field" => field_at(words, answer)?,
        b"read_one" => one(words, answer)?,
        b"read_optional" => optional(words, answer)?,
        b"read_all" => all(words, answer)?,
        _ => return Ok(false),
    }
    Ok(true)
}

/// The letters of a place, the last one up to four times; `-` stands for no letter.
fn options(letters: &[u8]) -> Result<[u8; 4], Stop> {
    let mut options = [0; 4];
    let mut last = b' ';
    for (at, option) in options.iter_mut().enumerate() {
        if at < letters.len() {
            last = if letters[at] == b'-' {
                b' '
            } else {
                letters[at]
            };
        }
        *option = last;
    }
    Ok(options)
}

/// A place: two digits, one to four letters, `!` where a field must stand, and `*` where many may.
fn place(word: &[u8]) -> Result<Place, Stop> {
    let (letters, many, must) = match word {
        [letters @ .., b'!', b'*'] => (letters, true, true),
        [letters @ .., b'!'] => (letters, false, true),
        [letters @ .., b'*'] => (letters, true, false),
        letters => (letters, false, false),
    };
    match letters {
        [tens @ b'0'..=b'9', ones @ b'0'..=b'9', letters @ ..] if letters.len() <= 4 => {
            Ok(Place {
                tag: two_digits(*tens, *ones),
                options: options(letters)?,
                many,
                must,
            })
        }
        _ => Err(Stop::Unreadable),
    }
}

/// The order of a text: its places with spaces or line ends between them.
fn order_in(alloc: Global, text: &[u8]) -> Result<Vec<Place>, Stop> {
    let mut order = Vec::new(alloc);
    for word in text.split(|b| b.is_ascii_whitespace()) {
        if !word.is_empty() {
            order.push(place(word)?).map_err(Memory::from)?;
        }
    }
    Ok(order)
}

/// The fields of a text, which can be cut.
fn fields_of(alloc: Global, text: &[u8]) -> Result<List<FieldLines<'_>>, Stop>
    ensures { IfOk result (λ fields. length fields ≤ most_text_lines) }
{
    match lent_fields_in(alloc, text) {
        Ok(fields) => Ok(fields),
        Err(FieldFault::Memory) => Err(Stop::Memory),
        Err(_) => Err(Stop::Unreadable),
    }
}

/// An order, fields, and the places that they take.
#[derive(Drop)]
struct Laid<'a> {
    order: Vec<Place>,
    fields: List<FieldLines<'a>>,
    found: Found,
}

/// The order and the fields of two texts, and the places that they take.
fn lay<'a>(alloc: Global, order: &[u8], text: &'a [u8]) -> Result<Laid<'a>, Stop>
    ensures few { IfOk result (λ laid. length laid.fields ≤ most_text_lines) }
    ensures each { IfOk result (λ laid. length laid.found ≤ length laid.fields) }
{
    let order = order_in(alloc, order)?;
    let fields = fields_of(alloc, text)?;
    let found = places(alloc, order.as_slice(), fields.as_slice())?;
    Ok(Laid {
        order,
        fields,
        found,
    })
}

/// The words `ORDER PLACE TEXT`.
#[derive(Clone, Copy)]
struct Asked<'a> {
    order: &'a [u8],
    at: usize,
    text: &'a [u8],
}

fn read_asked<'a>(words: &mut Words<'a>) -> Result<Asked<'a>, Stop> {
    Ok(Asked {
        order: words.next()?,
        at: words.place()?,
        text: words.next()?,
    })
}

/// Adds a fault: its code, its tag and which of that tag it is.
fn put_fault(fault: &Fault, answer: &mut Answer) -> Result<(), Memory> {
    answer.text(&fault.code.0)?;
    answer.text(&fault.tag)?;
    answer.number(fault.nth as u64)
}

/// Adds the fault of a message's fields.
fn put_refusal(fault: MtFault, answer: &mut Answer) -> Result<(), Stop> {
    match fault {
        MtFault::Bad(fault) => Ok(put_fault(&fault, answer)?),
        MtFault::Memory => Err(Stop::Memory),
    }
}

fn put_places(found: &[usize], answer: &mut Answer) -> Result<(), Stop> {
    for place in found {
        answer.number(*place as u64)?;
    }
    Ok(())
}

/// The place of each field. Promises nothing; likewise those below that ask about fields.
fn checked(alloc: Global, order: &[u8], text: &[u8]) -> Result<Result<Found, MtFault>, Stop> {
    let order = order_in(alloc, order)?;
    let fields = fields_of(alloc, text)?;
    Ok(check_structure(alloc, order.as_slice(), fields.as_slice()))
}

/// `check_structure ORDER TEXT`
fn structure(words: &mut Words, answer: &mut Answer) -> Result<(), Stop> {
    let order = words.next()?;
    let text = words.next()?;
    match checked(answer.alloc(), order, text)? {
        Ok(found) => put_places(found.as_slice(), answer),
        Err(fault) => put_refusal(fault, answer),
    }
}

/// `places ORDER TEXT`
fn taken(words: &mut Words, answer: &mut Answer) -> Result<(), Stop> {
    let order = words.next()?;
    let text = words.next()?;
    let laid = lay(answer.alloc(), order, text)?;
    put_places(laid.found.as_slice(), answer)
}

/// `missing ORDER TEXT`
fn first_missing(words: &mut Words, answer: &mut Answer) -> Result<(), Stop> {
    let order = words.next()?;
    let text = words.next()?;
    let laid = lay(answer.alloc(), order, text)?;
    match missing(laid.order.as_slice(), laid.found.as_slice()) {
        Some(at) => Ok(answer.number(at as u64)?),
        None => Ok(answer.none()?),
    }
}

/// `find_field ORDER PLACE TEXT`
fn field_at(words: &mut Words, answer: &mut Answer) -> Result<(), Stop> {
    let asked = read_asked(words)?;
    let laid = lay(answer.alloc(), asked.order, asked.text)?;
    put_found(&laid, asked.at, answer)
}

/// Adds which of the fields is the first at a place, and its lines; or `none`.
fn put_found(laid: &Laid<'_>, at: usize, answer: &mut Answer) -> Result<(), Stop> {
    match find(laid.fields.as_slice(), &laid.found, at) {
        Some((at, f)) => {
            answer.number(at as u64)?;
            Ok(put_lines(copy_lines(answer.alloc(), f.lines())?.as_slice(), answer)?)
        }
        None => Ok(answer.none()?),
    }
}

/// The content that is read: up to two lines of text.
const CONTENT: Texts = Texts { most: 2 };

fn one_at(alloc: Global, laid: &Laid<'_>, at: usize) -> Result<Result<List<Text>, MtFault>, Stop>
    requires few { length laid.now.fields ≤ most_text_lines }
{
    if at >= laid.order.len() {
        return Err(Stop::Unreadable);
    }
    Ok(read_one(
        alloc,
        &CONTENT,
        laid.order.as_slice(),
        laid.fields.as_slice(),
        &laid.found,
        at,
    ))
}

/// `read_one ORDER PLACE TEXT`
fn one(words: &mut Words, answer: &mut Answer) -> Result<(), Stop> {
    let asked = read_asked(words)?;
    let laid = lay(answer.alloc(), asked.order, asked.text)?;
    match one_at(answer.alloc(), &laid, asked.at)? {
        Ok(lines) => Ok(put_lines(lines.as_slice(), answer)?),
        Err(fault) => put_refusal(fault, answer),
    }
}

fn optional_at(alloc: Global, laid: &Laid<'_>, at: usize) -> Result<Option<List<Text>>, MtFault>
    requires few { length laid.now.fields ≤ most_text_lines }
{
    read_optional(alloc, &CONTENT, laid.fields.as_slice(), &laid.found, at)
}

/// `read_optional ORDER PLACE TEXT`
fn optional(words: &mut Words, answer: &mut Answer) -> Result<(), Stop> {
    let asked = read_asked(words)?;
    let laid = lay(answer.alloc(), asked.order, asked.text)?;
    match optional_at(answer.alloc(), &laid, asked.at) {
        Ok(Some(lines)) => Ok(put_lines(lines.as_slice(), answer)?),
        Ok(None) => Ok(answer.none()?),
        Err(fault) => put_refusal(fault, answer),
    }
}

fn all_at(alloc: Global, laid: &Laid<'_>, at: usize) -> Result<List<List<Text>>, MtFault>
    requires few { length laid.now.fields ≤ most_text_lines }
    requires each { length laid.now.found ≤ length laid.now.fields }
{
    read_all(alloc, &CONTENT, laid.fields.as_slice(), &laid.found, at)
}

/// `read_all ORDER PLACE TEXT`: the number of fields, and the lines of each
fn all(words: &mut Words, answer: &mut Answer) -> Result<(), Stop> {
    let asked = read_asked(words)?;
    let laid = lay(answer.alloc(), asked.order, asked.text)?;
    match all_at(answer.alloc(), &laid, asked.at) {
        Ok(all) => put_all(all.as_slice(), answer),
        Err(fault) => put_refusal(fault, answer),
    }
}

/// Adds how many fields there are, and the lines of each.
fn put_all(all: &[List<Text>], answer: &mut Answer) -> Result<(), Stop> {
    answer.number(all.len() as u64)?;
    for lines in all {
        put_lines(lines.as_slice(), answer)?;
    }
    Ok(())
}
