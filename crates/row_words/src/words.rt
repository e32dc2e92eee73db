//! The words of a row that a call takes.

use crate::stop::Stop;
use corr_text::Text;

/// The words that are left, the row's body last.
#[derive(Clone, Copy)]
pub struct Words<'a> {
    left: &'a [Text],
}

impl<'a> Words<'a> {
    /// All words of a row after the name of its call.
    pub fn new(left: &'a [Text]) -> Words<'a> {
        Words { left }
    }

    /// The next word. `Unreadable`: none is left.
    pub fn next(&mut self) -> Result<&'a [u8], Stop> {
        let (first, left) = self.left.split_first().ok_or(Stop::Unreadable)?;
        self.left = left;
        Ok(first.bytes())
    }

    /// The next word as a number below 2^64, in decimal digits.
    pub fn number(&mut self) -> Result<u64, Stop> {
        decimal(self.next()?)
    }

    /// The next word as a number below 256.
    pub fn byte(&mut self) -> Result<u8, Stop> {
        u8::try_from(self.number()?).map_err(|_| Stop::Unreadable)
    }

    /// The next word as a number of `i64`, with `-` before it where it is below 0.
    pub fn signed(&mut self) -> Result<i64, Stop> {
        let word = self.next()?;
        match word {
            [b'-', magnitude @ ..] => 0i64
                .checked_sub_unsigned(decimal(magnitude)?)
                .ok_or(Stop::Unreadable),
            _ => i64::try_from(decimal(word)?).map_err(|_| Stop::Unreadable),
        }
    }

    /// The next word as a place or a number of things.
    pub fn place(&mut self) -> Result<usize, Stop> {
        Ok(self.number()? as usize)
    }

    /// The next word as a number of `i32`.
    pub fn small(&mut self) -> Result<i32, Stop> {
        i32::try_from(self.signed()?).map_err(|_| Stop::Unreadable)
    }

    /// The next word as so many bytes.
    pub fn array<const N: usize>(&mut self) -> Result<[u8; N], Stop> {
        let word = self.next()?;
        if word.len() != N {
            return Err(Stop::Unreadable);
        }
        let mut array = [0; N];
        array.copy_from_slice(word);
        Ok(array)
    }

    /// How many words are left.
    pub fn count(&self) -> usize {
        self.left.len()
    }

    /// All words that are left.
    pub fn rest(&mut self) -> &'a [Text] {
        let rest = self.left;
        self.left = &[];
        rest
    }

    /// Whether no word is left.
    pub fn are_used(&self) -> bool {
        self.left.is_empty()
    }
}

/// The number that decimal digits write.
fn decimal(digits: &[u8]) -> Result<u64, Stop> {
    if digits.is_empty() {
        return Err(Stop::Unreadable);
    }
    digits
        .iter()
        .try_fold(0, |n, digit| with_digit(n, *digit))
        .ok_or(Stop::Unreadable)
}

/// The number with one more digit.
fn with_digit(n: u64, digit: u8) -> Option<u64> {
    if !digit.is_ascii_digit() {
        return None;
    }
    n.checked_mul(10)?.checked_add((digit - b'0') as u64)
}
