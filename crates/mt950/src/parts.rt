//! The parts of a statement line, field 61: each from the front of what is left.

ghost use Rattle.std.specs.Prelude.{◌≡◌, ◌+◌, ◌≤◌, ◌==◌, ◌&&◌, ◌||◌, not, true, length, IfSome, option_map, position};
ghost use Rattle.std.specs.Option.{option_map_or};
ghost use Rattle.corr_text.specs.Sets.{is_in};
ghost use Rattle.fin_fields.specs.Patterns.{is_run};
ghost use Rattle.std.specs.Char.{is_ascii_digit};
ghost use Rattle.std.specs.List.{zip};
ghost use Rattle.corr_money.specs.Amounts.{is_comma};
ghost use Rattle.mt950.specs.Parts.{amount_part, date_in, detail_in, double_slash_in, entry_date_part, funds_in, is_entry_type, kind_in, mark_in, line_parts, references_in, reversal_in, split_references};

use crate::entry::Mark;
use corr_text::{Set, is_all_of};
use fin_contents::array_of;
use fin_fields::{Line, is_run_of};

/// The parts of a line in their order. Its date, its amount and its references are not yet read.
#[derive(Clone, Copy)]
pub struct Parts<'a> {
    pub date: &'a [u8],
    pub entry: Option<[u8; 4]>,
    pub mark: Mark,
    pub funds: Option<u8>,
    pub amount: &'a [u8],
    pub kind: [u8; 4],
    pub reference: &'a [u8],
    pub servicer: Option<&'a [u8]>,
}

// The value date: `6!n`.
fn date_in(line: &[u8]) -> Option<(&[u8], &[u8])>
    ensures { option_map (λ x. (x.0.now, x.1.now)) result ≡ date_in line.now }
{
    if line.len() < 6 || !is_all_of(Set::N, &line[..6]) {
        return None;
    }
    Some(line.split_at(6))
}

// The entry date, `4!n`, where four digits stand there.
fn entry_in(rest: &[u8]) -> (Option<[u8; 4]>, &[u8])
    ensures { (result.0, result.1.now) ≡ entry_date_part rest.now }
{
    if rest.len() < 4 || !is_all_of(Set::N, &rest[..4]) {
        return (None, rest);
    }
    (array_of::<4>(&rest[..4]), &rest[4..])
}

// After R: the reversal of a credit, or of a debit.
fn reversal_in(rest: &[u8]) -> Option<(Mark, &[u8])>
    ensures { option_map (λ x. (x.0, x.1.now)) result ≡ reversal_in rest.now }
{
    match rest {
        [b'C', rest @ ..] => Some((Mark::RC, rest)),
        [b'D', rest @ ..] => Some((Mark::RD, rest)),
        _ => None,
    }
}

// The mark.
fn mark_in(rest: &[u8]) -> Option<(Mark, &[u8])>
    ensures { option_map (λ x. (x.0, x.1.now)) result ≡ mark_in rest.now }
{
    match rest {
        [b'R', rest @ ..] => reversal_in(rest),
        [b'C', rest @ ..] => Some((Mark::C, rest)),
        [b'D', rest @ ..] => Some((Mark::D, rest)),
        _ => None,
    }
}

// The funds code: a capital letter, where one stands there.
fn funds_in(rest: &[u8]) -> (Option<u8>, &[u8])
    ensures { (result.0, result.1.now) ≡ funds_in rest.now }
{
    match rest {
        [letter, after @ ..] => {
            if letter.is_ascii_uppercase() {
                (Some(*letter), after)
            } else {
                (None, rest)
            }
        }
        [] => (None, rest),
    }
}

fn end_of_amount(rest: &[u8]) -> Option<usize>
    ensures { result ≡ position (λ b. not (is_ascii_digit b || is_comma b)) rest.now }
{
    rest.iter()
        .position(|b| !(b.is_ascii_digit() || *b == b','))
}

// The amount: the longest run of digits and commas, of one byte at least.
fn amount_in(rest: &[u8]) -> Option<(&[u8], &[u8])>
    ensures { option_map (λ x. (x.0.now, x.1.now)) result ≡ amount_part rest.now }
{
    let end = end_of_amount(rest).unwrap_or(rest.len());
    if end == 0 {
        return None;
    }
    Some(rest.split_at(end))
}

fn is_kind(kind: &[u8]) -> bool
    requires { length kind.now ≡ 4 }
    ensures { result ≡ is_entry_type kind.now }
{
    (kind.starts_with(b"S") && is_all_of(Set::N, &kind[1..]))
        || ((kind.starts_with(b"N") || kind.starts_with(b"F")) && is_all_of(Set::C, &kind[1..]))
}

// The type, `1!a3!c`: S and three digits, or N or F and three of C.
fn kind_in(rest: &[u8]) -> Option<([u8; 4], &[u8])>
    ensures { option_map (λ x. (x.0, x.1.now)) result ≡ kind_in rest.now }
{
    if rest.len() < 4 || !is_kind(&rest[..4]) {
        return None;
    }
    Some((array_of::<4>(&rest[..4])?, &rest[4..]))
}

fn first_pair(rest: &[u8], next: &[u8]) -> Option<usize>
    ensures { result ≡ position (λ p. (p.0 == 47) && (p.1 == 47)) (zip rest.now next.now) }
{
    rest.iter()
        .zip(next.iter())
        .position(|(c, d)| *c == b'/' && *d == b'/')
}

fn first_double_slash(rest: &[u8]) -> Option<usize>
    ensures { result ≡ double_slash_in rest.now }
{
    match rest {
        [] => None,
        [_, next @ ..] => first_pair(rest, next),
    }
}

fn double_slash_in(rest: &[u8]) -> Option<usize>
    ensures value { result ≡ double_slash_in rest.now }
    ensures within { IfSome result (λ at. at + 2 ≤ length rest.now) }
{
    first_double_slash(rest)
}

// The owner's reference, which the first `//` ends, and the servicer's after it.
fn split_references(rest: &[u8]) -> (&[u8], Option<&[u8]>)
    ensures { (result.0.now, option_map (λ b. b.now) result.1) ≡ split_references rest.now (double_slash_in rest.now) }
{
    match double_slash_in(rest) {
        Some(at) => (&rest[..at], Some(&rest[at + 2..])),
        None => (rest, None),
    }
}

fn is_reference(text: &[u8]) -> bool
    ensures { result ≡ is_run (is_in Set.X) 16 text.now }
{
    is_run_of(Set::X, 16, text)
}

fn is_servicer(text: Option<&[u8]>) -> bool
    ensures { result ≡ option_map_or (λ text. is_run (is_in Set.X) 16 text.now) text.entry true }
{
    match text {
        Some(text) => is_reference(text),
        None => true,
    }
}

// The references: 1 to 16 of X each.
fn references_in(rest: &[u8]) -> Option<(&[u8], Option<&[u8]>)>
    ensures { option_map (λ x. (x.0.now, option_map (λ b. b.now) x.1)) result ≡ references_in rest.now }
{
    let (reference, servicer) = split_references(rest);
    if is_reference(reference) && is_servicer(servicer) {
        return Some((reference, servicer));
    }
    None
}

/// The parts of a first line; none where it has another form.
#[tactic(auto, unfolding(crate::specs::Parts::line_parts))]
pub fn parts_in(line: &[u8]) -> Option<Parts<'_>>
    ensures { option_map (λ p. record { date = p.date.now; entry = p.entry; mark = p.mark; funds = p.funds; amount = p.amount.now; kind = p.kind; reference = p.reference.now; servicer = option_map (λ b. b.now) p.servicer }) result ≡ line_parts line.now }
{
    let (date, rest) = date_in(line)?;
    let (entry, rest) = entry_in(rest);
    let (mark, rest) = mark_in(rest)?;
    let (funds, rest) = funds_in(rest);
    let (amount, rest) = amount_in(rest)?;
    let (kind, rest) = kind_in(rest)?;
    let (reference, servicer) = references_in(rest)?;
    Some(Parts {
        date,
        entry,
        mark,
        funds,
        amount,
        kind,
        reference,
        servicer,
    })
}

/// The first line and the further one, which is 1 to 34 of X; none of other lines.
pub fn detail_in<'a>(lines: &[Line<'a>]) -> Option<(&'a [u8], Option<&'a [u8]>)>
    ensures { option_map (λ x. (x.0.now, option_map (λ b. b.now) x.1)) result ≡ detail_in lines.now }
{
    match lines {
        [line] => Some((line.bytes(), None)),
        [line, detail] => {
            if is_run_of(Set::X, 34, detail.bytes()) {
                Some((line.bytes(), Some(detail.bytes())))
            } else {
                None
            }
        }
        _ => None,
    }
}
