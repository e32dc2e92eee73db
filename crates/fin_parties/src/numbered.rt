//! Numbered lines of a customer.

ghost use Rattle.std.specs.Prelude.{◌≡◌, nat_le};
ghost use Rattle.std.specs.List.{list_all, zip};
ghost use Rattle.fin_parties.specs.Party.{are_numbered, is_numbered, number_in};

use corr_text::Set;
use fin_fields::{Line, is_run_of};

fn is_numbered(line: &[u8]) -> bool
    ensures { result ≡ is_numbered line.now }
{
    match line {
        [number, b'/', text @ ..] => number.is_ascii_digit() && is_run_of(Set::X, 33, text),
        _ => false,
    }
}

fn all_numbered(lines: &[Line<'_>]) -> bool
    ensures { result ≡ list_all is_numbered lines.now }
{
    lines.iter().all(|line| is_numbered(line.bytes()))
}

fn number(line: &[u8]) -> u8
    ensures { result ≡ number_in line.now }
{
    match line {
        [number, ..] => *number,
        [] => 0,
    }
}

// Whether each line is numbered no higher than the one at its place in `next`.
fn rises_to(lines: &[Line<'_>], next: &[Line<'_>]) -> bool
    ensures { result ≡ list_all (λ p. nat_le (number_in p.0) (number_in p.1)) (zip lines.now next.now) }
{
    lines.iter().zip(next.iter()).all(|(line, next)| number(line.bytes()) <= number(next.bytes()))
}

/// Whether lines are one to four lines `1!n/33x`, the first numbered 1, none numbered lower than the one before it.
pub fn are_numbered(lines: &[Line<'_>]) -> bool
    ensures { result ≡ are_numbered lines.now }
{
    match lines {
        [] => false,
        [first, rest @ ..] => lines.len() <= 4
            && number(first.bytes()) == b'1'
            && all_numbered(lines)
            && rises_to(lines, rest),
    }
}
