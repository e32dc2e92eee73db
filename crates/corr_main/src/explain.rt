//! What the codes and the tags of a report mean: `corr --explain`.

use corr_text::{Memory, Text};
use std::alloc::Global;

/// What a line begins with, up to its first space.
fn heading(line: &[u8]) -> &[u8] {
    match line.iter().position(|b| *b == b' ') {
        Some(end) => &line[..end],
        None => line,
    }
}

/// Whether a word is this code or tag: `56A` is `56a`.
fn is_of(heading: &[u8], word: &[u8]) -> bool {
    if heading.len() == 3 && heading[2] == b'a' {
        word.len() <= 3 && word.starts_with(&heading[..2])
    } else {
        heading == word
    }
}

/// Adds a line.
fn put_line(line: &[u8], out: &mut Text) -> Result<(), Memory> {
    out.push(line)?;
    out.push(b"\n")
}

/// Adds the line of a word, with those below it that begin with a space. Answers whether there is one.
fn put_meaning(word: &[u8], meanings: &[u8], out: &mut Text) -> Result<bool, Memory> {
    let mut is_told = false;
    let mut is_there = false;
    for line in meanings.split(|b| *b == b'\n') {
        if !line.starts_with(b" ") {
            is_told = is_of(heading(line), word);
        }
        if is_told {
            put_line(line, out)?;
            is_there = true;
        }
    }
    Ok(is_there)
}

/// What codes and tags mean, in their order, by the lines of `meanings`; none where a word is neither.
///
/// `Memory`: there was no room for the text.
pub fn explained(alloc: Global, words: &[Text], meanings: &[u8]) -> Result<Option<Text>, Memory> {
    let mut out = Text::from_bytes(alloc, b"")?;
    for word in words {
        if !put_meaning(word.bytes(), meanings, &mut out)? {
            return Ok(None);
        }
    }
    Ok(Some(out))
}
