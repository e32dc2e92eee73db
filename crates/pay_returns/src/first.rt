//! The reference in the first field 20 of a text, found without memory.

ghost use Rattle.std.specs.Prelude.{◌≡◌, ◌==◌, ◌&&◌, not, is_some, None, option_map};
ghost use Rattle.std.specs.List.{list_all, list_any, zip};
ghost use Rattle.corr_text.specs.Lines.{lines_of};
ghost use Rattle.corr_text.specs.Slashes.{has_double_slash, has_stray_slash};
ghost use Rattle.fin_fields.specs.Faults.{field_fault, has_other_byte, is_misplaced};
ghost use Rattle.fin_fields.specs.Fields.{heading_of};
ghost use Rattle.fin_fields.specs.Headings.{heading_in};
ghost use Rattle.pay_returns.specs.References.{first_reference, is_reference, related_of};
ghost use Rattle.pay_returns.specs.inner.Walking.{begins_20, begins_field, content_20, ends_there, first_20, is_sound_line, only_line_20, part_of};

use corr_text::{Set, first_line, is_x};
use fin_fields::{HeadingLine, heading, is_run_of};

fn are_slashes(b: &[u8], next: &[u8]) -> bool
    ensures { result ≡ list_any (λ p. (p.0 == 47) && (p.1 == 47)) (zip b.now next.now) }
{
    b.iter()
        .zip(next.iter())
        .any(|(c, d)| *c == b'/' && *d == b'/')
}

fn has_double_slash(line: &[u8]) -> bool
    ensures { result ≡ has_double_slash line.now }
{
    match line {
        [] => false,
        [_, rest @ ..] => are_slashes(line, rest),
    }
}

fn has_stray_slash(line: &[u8]) -> bool
    ensures { result ≡ has_stray_slash line.now }
{
    match line {
        [] => false,
        [.., last] => line.starts_with(b"/") || *last == b'/' || has_double_slash(line),
    }
}

fn is_reference(line: &[u8]) -> bool
    ensures { result ≡ is_reference line.now }
{
    is_run_of(Set::X, 16, line) && !has_stray_slash(line)
}

/// Whether a line that begins no field may not continue one either.
fn breaks_off(line: &[u8]) -> bool
    requires { heading_of line.now ≡ None }
    ensures { result ≡ is_misplaced line.now }
{
    matches!(line, [] | [b':' | b'-', ..])
}

/// What a line gives to a field: what stands behind its heading, or all of it; none of a misplaced line.
fn part_of(line: &[u8]) -> Option<&[u8]>
    ensures { option_map (λ part. part.now) result ≡ part_of line.now }
{
    match heading(line) {
        Some(heading) => Some(heading.content),
        None if breaks_off(line) => None,
        None => Some(line),
    }
}

fn has_other_byte(bytes: &[u8]) -> bool
    ensures { result ≡ has_other_byte bytes.now }
{
    bytes.iter().any(|b| !is_x(*b))
}

fn is_sound_line(line: &[u8]) -> bool
    ensures { result ≡ is_sound_line line.now }
{
    match part_of(line) {
        Some(part) => !has_other_byte(part),
        None => false,
    }
}

fn are_sound_lines(text: &[u8]) -> bool
    ensures { result ≡ list_all is_sound_line (lines_of text.now) }
{
    let mut rest = text;
    while !rest.is_empty() {
        let next = first_line(rest);
        if !is_sound_line(next.line) {
            return false;
        }
        rest = next.rest;
    }
    true
}

fn begins_field(text: &[u8]) -> bool
    ensures { result ≡ begins_field (lines_of text.now) }
{
    !text.is_empty() && heading(first_line(text).line).is_some()
}

/// Whether a text has no fault: it can be cut into fields.
#[tactic(auto, using(crate::proofs::Faultless::faultless))]
fn is_faultless(text: &[u8]) -> bool
    ensures { result ≡ not (is_some (field_fault text.now)) }
{
    begins_field(text) && are_sound_lines(text)
}

/// The first line of a field 20, and the text after it.
#[derive(Clone, Copy)]
struct Begun<'a> {
    line: &'a [u8],
    rest: &'a [u8],
}

fn begins_20(heading: HeadingLine<'_>) -> bool
    ensures { result ≡ begins_20 (heading_in heading.entry) }
{
    heading.tag == 20 && heading.letter.unwrap_or(b' ') == b' '
}

/// The line that begins field 20, without its heading; none of any other line.
fn content_20(line: &[u8]) -> Option<&[u8]>
    ensures { option_map (λ content. content.now) result ≡ content_20 (heading_of line.now) }
{
    match heading(line) {
        Some(heading) if begins_20(heading) => Some(heading.content),
        _ => None,
    }
}

fn first_20(text: &[u8]) -> Option<Begun<'_>>
    ensures { option_map (λ begun. (begun.line.now, lines_of begun.rest.now)) result ≡ first_20 (lines_of text.now) }
{
    let mut rest = text;
    while !rest.is_empty() {
        let next = first_line(rest);
        if let Some(line) = content_20(next.line) {
            return Some(Begun {
                line,
                rest: next.rest,
            });
        }
        rest = next.rest;
    }
    None
}

/// Whether a field goes no further than to this text.
fn ends_there(text: &[u8]) -> bool
    ensures { result ≡ ends_there (lines_of text.now) }
{
    text.is_empty() || heading(first_line(text).line).is_some()
}

/// The only line of the first field 20, if it has one alone.
fn only_line_20(text: &[u8]) -> Option<&[u8]>
    ensures { option_map (λ line. line.now) result ≡ only_line_20 (lines_of text.now) }
{
    let begun = first_20(text)?;
    if !ends_there(begun.rest) {
        return None;
    }
    Some(begun.line)
}

/// The reference that the first field 20 of a text says; none where the text can't be cut into fields, has no such field, or one
/// that isn't one line with a reference. Takes no memory.
#[tactic(auto, using(crate::proofs::FirstField::first_walked))]
pub fn first_reference(text: &[u8]) -> Option<&[u8]>
    ensures { option_map (λ line. line.now) result ≡ first_reference text.now }
{
    if !is_faultless(text) {
        return None;
    }
    let line = only_line_20(text)?;
    if !is_reference(line) {
        return None;
    }
    Some(line)
}

/// What a return names as the reference of the payment of this text. Takes no memory.
pub(crate) fn related_of(text: &[u8]) -> &[u8]
    ensures { result.now ≡ related_of text.now }
{
    match first_reference(text) {
        Some(reference) => reference,
        None => b"NONREF",
    }
}
