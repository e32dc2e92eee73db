//! Parties, as parts of an answer.

use crate::fields::put_lines;
use corr_text::{Memory, Text};
use fin_parties::Party;
use row_words::answer::Answer;

/// Adds a text, or `none`.
pub fn put_some(text: &Option<Text>, answer: &mut Answer) -> Result<(), Memory> {
    match text {
        Some(text) => answer.text(text.bytes()),
        None => answer.none(),
    }
}

/// Adds a party: its kind and its parts.
pub fn put_parts(party: &Party, answer: &mut Answer) -> Result<(), Memory> {
    match party {
        Party::A { line, bic } => {
            answer.word(b"A")?;
            put_some(line, answer)?;
            answer.text(&bic.head)?;
            answer.text(&bic.branch)
        }
        Party::B { line, place } => {
            answer.word(b"B")?;
            put_some(line, answer)?;
            put_some(place, answer)
        }
        Party::C { line } => {
            answer.word(b"C")?;
            answer.text(line.bytes())
        }
        Party::D { line, lines } => put_named(b"D", line, lines.as_slice(), answer),
        Party::K { account, lines } => put_named(b"K", account, lines.as_slice(), answer),
        Party::F { line, lines } => put_named(b"F", line, lines.as_slice(), answer),
    }
}

/// Adds a party of several lines.
fn put_named(
    kind: &[u8],
    first: &Option<Text>,
    lines: &[Text],
    answer: &mut Answer,
) -> Result<(), Memory> {
    answer.word(kind)?;
    put_some(first, answer)?;
    put_lines(lines, answer)
}
