//! One byte of a head line after another.

/// Where the next byte of a head line stands.
#[derive(Clone, Copy, Debug, PartialEq, Eq)]
pub enum At {
    /// Before a word.
    Gap,
    /// In a word without quotes.
    Plain,
    /// Between quotes.
    Quoted,
    /// After a `\`.
    Escape,
    /// After `\x`.
    Hex,
    /// After `\x` and a digit of this value.
    HexTail(u8),
    /// After the second quote.
    Closed,
    /// After the sign `=`.
    Sign,
    /// In the answer.
    Answer,
}

/// What a byte does.
#[derive(Clone, Copy, Debug, PartialEq, Eq)]
pub enum Act {
    /// Nothing but a step.
    Pass,
    /// It adds a byte to the word, or to the answer.
    Add(u8),
    /// It ends a word without quotes.
    EndPlain,
    /// It ends a word in quotes.
    EndQuoted,
}

/// The value of a hexadecimal digit.
fn hex(b: u8) -> Option<u8> {
    match b {
        b'0'..=b'9' => Some(b - b'0'),
        b'a'..=b'f' => Some(b - b'a' + 10),
        _ => None,
    }
}

/// The byte that stands for an escape of one letter.
fn escape(b: u8) -> Option<(At, Act)> {
    match b {
        b'r' => Some((At::Quoted, Act::Add(b'\r'))),
        b'n' => Some((At::Quoted, Act::Add(b'\n'))),
        b'"' | b'\\' => Some((At::Quoted, Act::Add(b))),
        b'x' => Some((At::Hex, Act::Pass)),
        _ => None,
    }
}

/// What a byte between quotes does.
fn quoted(b: u8) -> (At, Act) {
    match b {
        b'"' => (At::Closed, Act::EndQuoted),
        b'\\' => (At::Escape, Act::Pass),
        _ => (At::Quoted, Act::Add(b)),
    }
}

/// What the byte of two hexadecimal digits does.
fn pair(high: u8, low: u8) -> Option<(At, Act)> {
    let byte = high.checked_mul(16)?.checked_add(hex(low)?)?;
    Some((At::Quoted, Act::Add(byte)))
}

/// Where a byte leads, and what it does there; none where it can't stand.
pub fn step(at: At, b: u8) -> Option<(At, Act)> {
    match (at, b) {
        (At::Gap, b'=') => Some((At::Sign, Act::Pass)),
        (At::Gap, b'"') => Some((At::Quoted, Act::Pass)),
        (At::Plain, b' ') => Some((At::Gap, Act::EndPlain)),
        (At::Closed, b' ') => Some((At::Gap, Act::Pass)),
        (At::Sign, b' ') => Some((At::Answer, Act::Pass)),
        (At::Gap, b' ') | (At::Closed | At::Sign, _) => None,
        (At::Gap | At::Plain, _) => Some((At::Plain, Act::Add(b))),
        (At::Quoted, _) => Some(quoted(b)),
        (At::Escape, _) => escape(b),
        (At::Hex, _) => Some((At::HexTail(hex(b)?), Act::Pass)),
        (At::HexTail(high), _) => pair(high, b),
        (At::Answer, _) => Some((At::Answer, Act::Add(b))),
    }
}
