//! The answer of a call, as text.

ghost use Rattle.std.specs.Prelude.{◌<◌};

use corr_text::{Memory, Text, put_digits};
use std::alloc::Global;

/// The words of an answer so far, with a space between two.
#[derive(Drop)]
pub struct Answer {
    alloc: Global,
    text: Text,
}

impl Answer {
    /// No word yet.
    pub fn new(alloc: Global) -> Result<Answer, Memory> {
        Ok(Answer {
            alloc,
            text: Text::from_bytes(alloc, b"")?,
        })
    }

    /// The allocator.
    pub fn alloc(&self) -> Global {
        self.alloc
    }

    /// The bytes of the words.
    pub fn bytes(&self) -> &[u8] {
        self.text.bytes()
    }

    /// Adds a word as it is.
    pub fn word(&mut self, word: &[u8]) -> Result<(), Memory> {
        if !self.text.bytes().is_empty() {
            self.text.push(b" ")?;
        }
        self.text.push(word)
    }

    /// Adds bytes to the last word, as they are.
    pub fn more(&mut self, bytes: &[u8]) -> Result<(), Memory> {
        self.text.push(bytes)
    }

    /// Adds a text as a word, in quotes where it is empty or has other than printed bytes.
    pub fn text(&mut self, bytes: &[u8]) -> Result<(), Memory> {
        if is_plain(bytes) {
            return self.word(bytes);
        }
        self.word(b"\"")?;
        for b in bytes {
            self.escaped(*b)?;
        }
        self.text.push(b"\"")
    }

    /// Adds a byte of a text in quotes.
    fn escaped(&mut self, b: u8) -> Result<(), Memory> {
        match b {
            b'\r' => self.text.push(b"\\r"),
            b'\n' => self.text.push(b"\\n"),
            b'"' => self.text.push(b"\\\""),
            b'\\' => self.text.push(b"\\\\"),
            b' '..=b'~' => self.text.push(&[b]),
            _ => self.text.push(&[b'\\', b'x', hex(b / 16), hex(b % 16)]),
        }
    }

    /// Adds a number in decimal digits.
    pub fn number(&mut self, n: u64) -> Result<(), Memory> {
        self.word(b"")?;
        put_digits(self.alloc, n, 1, &mut self.text)
    }

    /// Adds a number, with `-` before it where it is below 0.
    pub fn signed(&mut self, n: i64) -> Result<(), Memory> {
        self.word(if n < 0 { b"-" } else { b"" })?;
        put_digits(self.alloc, n.unsigned_abs(), 1, &mut self.text)
    }

    /// Adds `yes` or `no`.
    pub fn flag(&mut self, flag: bool) -> Result<(), Memory> {
        self.word(if flag { b"yes" } else { b"no" })
    }

    /// Adds `none`.
    pub fn none(&mut self) -> Result<(), Memory> {
        self.word(b"none")
    }
}

/// Whether bytes stand in a word without quotes.
fn is_plain(bytes: &[u8]) -> bool {
    !bytes.is_empty()
        && bytes
            .iter()
            .all(|b| b.is_ascii_graphic() && *b != b'"' && *b != b'\\')
}

/// The digit of a number below 16.
fn hex(n: u8) -> u8
    requires { n < 16 }
{
    if n < 10 { b'0' + n } else { b'a' + (n - 10) }
}
