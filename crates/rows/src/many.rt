//! Texts of many pieces.

use crate::head::read_head;
use crate::named::Named;
use corr_text::{Memory, Text};
use row_words::stop::Stop;
use row_words::words::Words;
use std::alloc::Global;

/// The text that the words `NAME COUNT PIECE` name: the piece so many times, each `%` in it six capital letters that count up.
///
/// `banks 2 "%AA "` is the text `AAAAAAAA BAAAAAAA ` with the name `banks`.
pub fn read_many(alloc: Global, words: &[u8], texts: &[Named]) -> Result<Named, Stop> {
    let head = read_head(alloc, words, texts)?;
    let mut words = Words::new(head.words.as_slice());
    let name = Text::from_bytes(alloc, words.next()?)?;
    let count = words.number()?;
    let piece = words.next()?;
    if !words.are_used() || head.answer.is_some() {
        return Err(Stop::Unreadable);
    }
    Ok(Named {
        name,
        bytes: many(alloc, count, piece)?,
    })
}

fn many(alloc: Global, count: u64, piece: &[u8]) -> Result<Text, Memory> {
    let mut text = Text::from_bytes(alloc, b"")?;
    for i in 0..count {
        put_piece(i, piece, &mut text)?;
    }
    Ok(text)
}

/// Adds the piece of this number, from 0.
fn put_piece(i: u64, piece: &[u8], text: &mut Text) -> Result<(), Memory> {
    for (at, part) in piece.split(|b| *b == b'%').enumerate() {
        if at > 0 {
            text.push(&letters(i))?;
        }
        text.push(part)?;
    }
    Ok(())
}

/// Six capital letters that count up, the first of them fastest.
fn letters(i: u64) -> [u8; 6] {
    [
        letter(i),
        letter(i / 26),
        letter(i / 676),
        letter(i / 17_576),
        letter(i / 456_976),
        letter(i / 11_881_376),
    ]
}

fn letter(i: u64) -> u8 {
    b'A' + (i % 26) as u8
}
