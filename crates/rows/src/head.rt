//! The head line of a row.

use crate::named::{Named, find_text};
use crate::step::{Act, At, step};
use corr_text::{Memory, Text};
use row_words::stop::Stop;
use std::alloc::Global;
use std::mem;

/// The words of a head line, and the answer where it stands there too.
#[derive(Drop)]
pub struct Head {
    pub words: Vec<Text>,
    pub answer: Option<Text>,
}

/// A head line that is cut into its words.
#[derive(Drop)]
struct Cutting<'a> {
    alloc: Global,
    texts: &'a [Named],
    at: At,
    words: Vec<Text>,
    word: Text,
}

/// The words of a head line, the named texts in place of `@NAME`, and its answer.
///
/// The line `read_bic ALPHDEFF = ALPHDEFF XXX` has two words and an answer.
pub fn read_head(alloc: Global, line: &[u8], texts: &[Named]) -> Result<Head, Stop> {
    let mut cutting = Cutting::new(alloc, texts)?;
    for b in line {
        cutting.take(*b)?;
    }
    cutting.finish()
}

impl<'a> Cutting<'a> {
    fn new(alloc: Global, texts: &'a [Named]) -> Result<Cutting<'a>, Memory> {
        Ok(Cutting {
            alloc,
            texts,
            at: At::Gap,
            words: Vec::new(alloc),
            word: Text::from_bytes(alloc, b"")?,
        })
    }

    fn take(&mut self, b: u8) -> Result<(), Stop> {
        let (at, act) = step(self.at, b).ok_or(Stop::Unreadable)?;
        self.at = at;
        match act {
            Act::Pass => Ok(()),
            Act::Add(b) => Ok(self.word.push(&[b])?),
            Act::EndPlain => self.end_plain(),
            Act::EndQuoted => self.end_word(),
        }
    }

    /// Ends a word without quotes: after an `@` it is the name of a text.
    fn end_plain(&mut self) -> Result<(), Stop> {
        if let [b'@', name @ ..] = self.word.bytes() {
            let bytes = find_text(self.texts, name).ok_or(Stop::Unreadable)?;
            self.word = Text::from_bytes(self.alloc, bytes)?;
        }
        self.end_word()
    }

    fn end_word(&mut self) -> Result<(), Stop> {
        let next = Text::from_bytes(self.alloc, b"")?;
        self.words
            .push(mem::replace(&mut self.word, next))
            .map_err(Memory::from)?;
        Ok(())
    }

    fn finish(mut self) -> Result<Head, Stop> {
        match self.at {
            At::Plain => self.end_plain()?,
            At::Closed | At::Sign | At::Answer => {}
            _ => return Err(Stop::Unreadable),
        }
        let Cutting {
            at,
            words,
            word,
            ..
        } = self;
        let answer = if matches!(at, At::Sign | At::Answer) {
            Some(word)
        } else {
            None
        };
        Ok(Head { words, answer })
    }
}
