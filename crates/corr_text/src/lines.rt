//! The lines of a text.

ghost use Rattle.std.specs.Prelude.{◌≡◌, ◌==◌, ◌<◌, ◌≤◌, ◌+◌, ◌≢◌, [], ◌∷◌, false, not, length, take, drop, IfSome};
ghost use Rattle.std.specs.List.{list_any, position};
ghost use Rattle.corr_text.specs.Lines.{lines_of};
ghost use Rattle.corr_text.specs.inner.Lines.{trimmed};
ghost use Rattle.corr_text.specs.Sets.{is_x_byte};

use crate::set::is_x;

/// How many bytes are tested in a row.
const GROUP: usize = 8;

/// The first line of a text, without its end, and what stands after that end.
#[derive(Clone, Copy, Debug)]
pub struct FirstLine<'a> {
    pub line: &'a [u8],
    pub rest: &'a [u8],
}

fn without_return(line: &[u8]) -> &[u8]
    ensures { result.now ≡ trimmed line.now }
{
    if !line.is_empty() && line[line.len() - 1] == b'\r' {
        return &line[..line.len() - 1];
    }
    line
}

fn line_feed(text: &[u8]) -> Option<usize>
    ensures { result ≡ position (λ b. b == 10) text.now }
{
    text.iter().position(|b| *b == b'\n')
}

/// Cuts a text after its first line end, LF or CR LF; a text without one is its own first line.
///
/// The first line of `:20:A` CR LF `:21:B` is `:20:A`, and `:21:B` stands after it.
pub fn first_line(text: &[u8]) -> FirstLine<'_>
    requires { text.now ≢ [] }
    ensures cut { lines_of text.now ≡ result.line.now ∷ lines_of result.rest.now }
    ensures shorter { length result.rest.now < length text.now }
{
    match line_feed(text) {
        Some(at) => FirstLine {
            line: without_return(&text[..at]),
            rest: &text[at + 1..],
        },
        None => FirstLine {
            line: text,
            rest: &text[text.len()..],
        },
    }
}

/// As `first_outside_x`, byte after byte.
#[inline(always)]
fn outside_x(bytes: &[u8]) -> Option<usize>
    ensures { result ≡ position (λ b. not (is_x_byte b)) bytes.now }
{
    bytes.iter().position(|b| !is_x(*b))
}

/// The place of the first byte outside set X. Goes group by group: as a group has a known length, its tests are written out.
#[inline(never)]
fn first_outside_x(text: &[u8]) -> Option<usize>
    ensures { result ≡ position (λ b. not (is_x_byte b)) text.now }
{
    let mut at = 0;
    while GROUP <= text.len() - at {
        if let Some(k) = outside_x(&text[at..at + GROUP]) {
            return Some(at + k);
        }
        at += GROUP;
    }
    match outside_x(&text[at..]) {
        Some(k) => Some(at + k),
        None => None,
    }
}

fn cut_at(text: &[u8], at: usize, end: usize) -> FirstLine<'_>
    requires { at + end ≤ length text.now }
    ensures line { result.line.now ≡ take at text.now }
    ensures rest { result.rest.now ≡ drop (at + end) text.now }
{
    FirstLine {
        line: &text[..at],
        rest: &text[at + end..],
    }
}

/// Cuts a text as `first_line` does, where its first line has bytes of set X alone; none for any other, which
/// `first_line` cuts.
pub fn plain_line(text: &[u8]) -> Option<FirstLine<'_>>
    requires { text.now ≢ [] }
    ensures cut { IfSome result (λ first. lines_of text.now ≡ first.line.now ∷ lines_of first.rest.now) }
    ensures plain { IfSome result (λ first. list_any (λ b. not (is_x_byte b)) first.line.now ≡ false) }
    ensures shorter { IfSome result (λ first. length first.rest.now < length text.now) }
{
    let Some(at) = first_outside_x(text) else {
        return Some(cut_at(text, text.len(), 0));
    };
    if text[at] == b'\n' {
        return Some(cut_at(text, at, 1));
    }
    if text[at] == b'\r' && at + 1 < text.len() && text[at + 1] == b'\n' {
        return Some(cut_at(text, at, 2));
    }
    None
}
