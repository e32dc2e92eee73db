//! Fields, as words and as parts of an answer.

ghost use Rattle.std.specs.Prelude.{◌≤◌};

use corr_text::{List, Memory, Text};
use fin_fields::{Field, lend_field, tag_of};
use row_words::answer::Answer;
use row_words::stop::Stop;
use row_words::words::Words;

/// The number and the letter of a tag, as `52A` or `20`.
pub fn read_tag(word: &[u8]) -> Result<(u8, Option<u8>), Stop> {
    match word {
        [tens @ b'0'..=b'9', ones @ b'0'..=b'9'] => Ok((two_digits(*tens, *ones), None)),
        [tens @ b'0'..=b'9', ones @ b'0'..=b'9', letter] => {
            Ok((two_digits(*tens, *ones), Some(*letter)))
        }
        _ => Err(Stop::Unreadable),
    }
}

/// The number of two digits.
pub fn two_digits(tens: u8, ones: u8) -> u8
    requires tens { (48 ≤ tens) × (tens ≤ 57) }
    requires ones { (48 ≤ ones) × (ones ≤ 57) }
{
    10 * (tens - b'0') + (ones - b'0')
}

/// The field of a tag and the words that are left, each of them a line.
pub fn read_field(words: &mut Words, answer: &Answer) -> Result<Field, Stop> {
    let (tag, letter) = read_tag(words.next()?)?;
    let mut lines = List::new(answer.alloc());
    for line in words.rest() {
        lines.push(line.copy(answer.alloc())?)?;
    }
    Ok(Field { tag, letter, lines })
}

/// Adds a tag, as `:52A:`.
fn put_tag(f: &Field, answer: &mut Answer) -> Result<(), Memory> {
    let [tens, ones, letter] = tag_of(&lend_field(answer.alloc(), f)?);
    match f.letter {
        Some(_) => answer.word(&[b':', tens, ones, letter, b':']),
        None => answer.word(&[b':', tens, ones, b':']),
    }
}

/// Adds a field: its tag, and each of its lines.
pub fn put_field(f: &Field, answer: &mut Answer) -> Result<(), Memory> {
    put_tag(f, answer)?;
    put_lines(f.lines.as_slice(), answer)
}

/// Adds texts one after another.
pub fn put_lines(lines: &[Text], answer: &mut Answer) -> Result<(), Memory> {
    for line in lines {
        answer.text(line.bytes())?;
    }
    Ok(())
}
