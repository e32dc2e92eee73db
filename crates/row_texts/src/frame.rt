//! Calls of fin_frame: a file cut into messages.

use corr_text::{List, Memory, Text};
use fin_frame::{Cutter, FrameFault};
use row_words::answer::Answer;
use row_words::stop::Stop;
use row_words::words::Words;
use std::alloc::Global;

/// The most bytes of a file.
const MOST: usize = 1 << 24;

/// Makes a call, and answers whether one of these has that name.
pub fn call(name: &[u8], words: &mut Words, answer: &mut Answer) -> Result<bool, Stop> {
    match name {
        b"cut" => cut_words(words, answer)?,
        b"cut_anyhow" => cut_anyhow(words, answer)?,
        b"feed" => feed_words(words, answer)?,
        b"lengths" => lengths(words, answer)?,
        _ => return Ok(false),
    }
    Ok(true)
}

/// What pieces of a file come to.
#[derive(Drop)]
struct CutFile {
    /// The answer to each piece.
    answers: Vec<Result<(), FrameFault>>,
    begun: u32,
    end: Result<(), FrameFault>,
    messages: List<Text>,
}

/// Feeds the pieces one after another, past a fault too, and ends the file.
fn cut(alloc: Global, pieces: &[&[u8]]) -> Result<CutFile, Stop> {
    let mut cutter = Cutter::new(alloc);
    let mut messages = List::new(alloc);
    let mut answers = Vec::new(alloc);
    let mut bytes = 0usize;
    for piece in pieces {
        if piece.len() > MOST - bytes {
            return Err(Stop::Unreadable);
        }
        bytes += piece.len();
        answers
            .push(cutter.feed(piece, &mut messages))
            .map_err(Memory::from)?;
    }
    let begun = cutter.begun();
    let end = cutter.finish(&mut messages);
    Ok(CutFile {
        answers,
        begun,
        end,
        messages,
    })
}

/// Adds `ok`, or a fault with its place.
fn put_answer(end: Result<(), FrameFault>, answer: &mut Answer) -> Result<(), Stop> {
    let (name, at) = match end {
        Ok(()) => return Ok(answer.word(b"ok")?),
        Err(FrameFault::Stray { at }) => (b"stray".as_slice(), at),
        Err(FrameFault::TooLong { at }) => (b"too_long".as_slice(), at),
        Err(FrameFault::Unbalanced { at }) => (b"unbalanced".as_slice(), at),
        Err(FrameFault::Memory) => return Err(Stop::Memory),
    };
    answer.word(name)?;
    Ok(answer.number(at)?)
}

/// Adds how cutting ended, and the messages.
fn put_cut(alloc: Global, pieces: &[&[u8]], answer: &mut Answer) -> Result<(), Stop> {
    let cut = cut(alloc, pieces)?;
    put_answer(cut.end, answer)?;
    for message in cut.messages.as_slice() {
        answer.text(message.bytes())?;
    }
    Ok(())
}

/// The words that are left, as pieces.
fn pieces<'a>(alloc: Global, words: &mut Words<'a>) -> Result<Vec<&'a [u8]>, Memory> {
    let mut pieces = Vec::new(alloc);
    for word in words.rest() {
        pieces.push(word.bytes())?;
    }
    Ok(pieces)
}

/// `cut PIECES..`
fn cut_words(words: &mut Words, answer: &mut Answer) -> Result<(), Stop> {
    let alloc = answer.alloc();
    let pieces = pieces(alloc, words)?;
    put_cut(alloc, pieces.as_slice(), answer)
}

/// `feed PIECES..`
fn feed_words(words: &mut Words, answer: &mut Answer) -> Result<(), Stop> {
    let alloc = answer.alloc();
    let pieces = pieces(alloc, words)?;
    let cut = cut(alloc, pieces.as_slice())?;
    for end in cut.answers {
        put_answer(end, answer)?;
    }
    Ok(answer.number(cut.begun as u64)?)
}

/// `lengths PIECES..`
fn lengths(words: &mut Words, answer: &mut Answer) -> Result<(), Stop> {
    let alloc = answer.alloc();
    let pieces = pieces(alloc, words)?;
    let cut = cut(alloc, pieces.as_slice())?;
    put_answer(cut.end, answer)?;
    for message in cut.messages.as_slice() {
        answer.number(message.bytes().len() as u64)?;
    }
    Ok(())
}

/// Whether pieces come to the same as the file in one piece.
fn is_alike(alloc: Global, pieces: &[&[u8]], whole: &[u8]) -> Result<bool, Stop> {
    let mut answer = Answer::new(alloc)?;
    put_cut(alloc, pieces, &mut answer)?;
    Ok(answer.bytes() == whole)
}

/// Whether a file comes to the same byte by byte.
fn is_alike_in_bytes(alloc: Global, file: &[u8], whole: &[u8]) -> Result<bool, Stop> {
    let mut bytes = Vec::new(alloc);
    for piece in file.chunks(1) {
        bytes.push(piece).map_err(Memory::from)?;
    }
    is_alike(alloc, bytes.as_slice(), whole)
}

/// `cut_anyhow FILE`: in one piece, in each two pieces, and byte by byte
fn cut_anyhow(words: &mut Words, answer: &mut Answer) -> Result<(), Stop> {
    let alloc = answer.alloc();
    let file = words.next()?;
    put_cut(alloc, &[file], answer)?;
    for n in 0..file.len() {
        let (front, back) = file.split_at(n);
        if !is_alike(alloc, &[front, back], answer.bytes())? {
            answer.word(b"differs in two pieces at")?;
            return Ok(answer.number(n as u64)?);
        }
    }
    if !is_alike_in_bytes(alloc, file, answer.bytes())? {
        answer.word(b"differs byte by byte")?;
    }
    Ok(())
}
