//! Patterns of plain contents.

ghost use Rattle.std.specs.Prelude.{◌≡◌, true, false};
ghost use Rattle.std.specs.List.{list_all, list_any};
ghost use Rattle.corr_text.specs.Sets.{is_in};
ghost use Rattle.corr_text.specs.declared.set.Set.TheVariants.{X};
ghost use Rattle.fin_fields.specs.Faults.{has_other_byte};
ghost use Rattle.fin_fields.specs.Patterns.{is_run, meets};
ghost use Rattle.fin_fields.specs.inner.Patterns.{fits_count, fits_line, is_short};
ghost use Rattle.fin_fields.specs.declared.pattern.Pattern.TheVariants.{Lines};

use crate::field::Field;
use crate::line::Line;
use corr_text::{Set, Text, is_all_of};

/// A format of lines: `Lines` is `max*len x`, `Fixed` is `len!` of a set, `UpTo` is `len` of a set.
#[derive(Clone, Copy, Debug, PartialEq, Eq)]
pub enum Pattern {
    Lines { max: u8, len: u8 },
    Fixed { set: Set, len: u8 },
    UpTo { set: Set, len: u8 },
}

/// Whether a line is 1 to `len` bytes of the set.
pub fn is_run_of(set: Set, len: u8, line: &[u8]) -> bool
    ensures { result ≡ is_run (is_in set) len line.now }
{
    1 <= line.len() && line.len() <= len as usize && is_all_of(set, line)
}

/// Whether a line is 1 to `len` bytes.
fn is_short(len: u8, line: &[u8]) -> bool
    ensures { result ≡ is_short len line.now }
{
    1 <= line.len() && line.len() <= len as usize
}

/// Whether a line has bytes of set X alone. Where `plain` tells that it has no others they aren't tested.
#[tactic(auto, using(crate::proofs::laws::OfX::all_of_x))]
pub fn is_of_x(line: &[u8], plain: bool) -> bool
    requires { plain ≡ true → has_other_byte line.now ≡ false }
    ensures { result ≡ list_all (is_in X) line.now }
{
    plain || is_all_of(Set::X, line)
}

/// Whether a line is 1 to `len` bytes of set X. Where `plain` tells that it has no others only their number is tested.
pub fn is_x_run(len: u8, line: &[u8], plain: bool) -> bool
    requires { plain ≡ true → has_other_byte line.now ≡ false }
    ensures { result ≡ is_run (is_in X) len line.now }
{
    is_short(len, line) && is_of_x(line, plain)
}

/// Whether a format has so many lines.
fn fits_count(p: Pattern, count: usize) -> bool
    ensures { result ≡ fits_count p count }
{
    match p {
        Pattern::Lines { max, .. } => 1 <= count && count <= max as usize,
        Pattern::Fixed { .. } | Pattern::UpTo { .. } => count == 1,
    }
}

/// Whether a line is one of a format.
fn fits_line(p: Pattern, line: &[u8]) -> bool
    ensures { result ≡ fits_line p line.now }
{
    match p {
        Pattern::Lines { len, .. } => is_run_of(Set::X, len, line),
        Pattern::Fixed { set, len } => line.len() == len as usize && is_all_of(set, line),
        Pattern::UpTo { set, len } => is_run_of(set, len, line),
    }
}

/// Whether each of some lines is one of a format.
fn all_fit(p: Pattern, lines: &[Line<'_>]) -> bool
    ensures { result ≡ list_all (fits_line p) lines.now }
{
    lines.iter().all(|line| fits_line(p, line.bytes()))
}

/// The same of lines that are texts.
fn texts_fit(p: Pattern, lines: &[Text]) -> bool
    ensures { result ≡ list_all (fits_line p) lines.now }
{
    lines.iter().all(|line| fits_line(p, line.bytes()))
}

/// Whether lines have this format: for `Lines` 1 to `max` lines of 1 to `len` of X, for `Fixed` one line of exactly `len`
/// of the set, for `UpTo` one line of 1 to `len` of the set.
#[tactic(auto, using(crate::proofs::Formats::meets_by_parts))]
pub fn lines_match(lines: &[Line<'_>], p: Pattern) -> bool
    ensures { result ≡ meets p lines.now }
{
    fits_count(p, lines.len()) && all_fit(p, lines)
}

/// Whether each of some lines is 1 to `len` bytes.
fn are_short(len: u8, lines: &[Line<'_>]) -> bool
    ensures { result ≡ list_all (is_short len) lines.now }
{
    lines.iter().all(|line| is_short(len, line.bytes()))
}

/// Whether lines are 1 to `max` lines of 1 to `len` bytes of set X. Where `plain` tells that they have no other bytes only the
/// numbers are tested.
#[tactic(auto, using(crate::proofs::laws::OfX::runs_of_x))]
pub fn are_x_runs(max: u8, len: u8, lines: &[Line<'_>], plain: bool) -> bool
    requires { plain ≡ true → list_any has_other_byte lines.now ≡ false }
    ensures { result ≡ meets (Lines max len) lines.now }
{
    if plain {
        return 1 <= lines.len() && lines.len() <= max as usize && are_short(len, lines);
    }
    lines_match(lines, Pattern::Lines { max, len })
}

/// Whether a field's lines have this format, as `lines_match` says. Takes no memory.
#[tactic(auto, using(crate::proofs::Formats::meets_by_parts))]
pub fn matches(f: &Field, p: Pattern) -> bool
    ensures { result ≡ meets p f.now.lines }
{
    let lines = f.lines.as_slice();
    fits_count(p, lines.len()) && texts_fit(p, lines)
}
