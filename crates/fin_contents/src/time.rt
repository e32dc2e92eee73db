//! Times: field 13C.

ghost use Rattle.std.specs.Prelude.{◌≡◌, IfOk, Ok, Some};
ghost use Rattle.fin_contents.specs.Plain.{is_clock, is_time, time_of};
ghost use Rattle.fin_contents.specs.Writing.{line_field};
ghost use Rattle.fin_fields.specs.Writing.{IsField};
ghost use Rattle.fin_fields.specs.declared.field.Field.{Field as FieldSeen};
ghost use Rattle.fin_layout.specs.Reading.{Reads};

use crate::line::{first_slash, line_field, one_line};
use corr_text::{Memory, Set, Text, is_all_of};
use fin_fields::{Field, FieldLines, is_run_of};
use fin_layout::{Content, P24, Refusal};
use std::alloc::Global;

/// A time, `/`, 1 to 8 of C, `/4!n`, `+` or `-`, `4!n`. P24: the field is not one line of this form.
///
/// Example: `/CLSTIME/0915+0100`.
#[derive(Clone, Copy)]
pub struct Time;

/// Whether bytes are a time of day with its distance from UTC, `4!n`, `+` or `-`, `4!n`, as `0915+0100`.
pub fn is_clock(b: &[u8]) -> bool
    ensures { result ≡ is_clock b.now }
{
    b.len() == 9
        && is_all_of(Set::N, &b[..4])
        && (b[4..].starts_with(b"+") || b[4..].starts_with(b"-"))
        && is_all_of(Set::N, &b[5..])
}

fn is_time(line: &[u8]) -> bool
    ensures { result ≡ is_time line.now }
{
    let [b'/', rest @ ..] = line else {
        return false;
    };
    match first_slash(rest) {
        Some(at) => is_run_of(Set::C, 8, &rest[..at]) && is_clock(&rest[at + 1..]),
        None => false,
    }
}

#[tactic(auto, unfolding(crate::specs::Plain::time_of))]
fn read_time(alloc: Global, f: &FieldLines<'_>) -> Result<Text, Refusal>
    ensures { Reads result (time_of f.now) }
{
    match one_line(f) {
        Some(line) if is_time(line) => Ok(Text::from_bytes(alloc, line)?),
        _ => Err(Refusal::Bad(P24)),
    }
}

impl Content for Time {
    type Value = Text;

    ghost meaning = { λ _ f. time_of f };

    fn read(&self, alloc: Global, f: &FieldLines<'_>) -> Result<Text, Refusal> {
        read_time(alloc, f)
    }
}

/// Writes a time as field 13C. What was read is read again from it, and the field may stand in a text where the one that was
/// read did.
pub fn put_time(alloc: Global, time: &Text) -> Result<Field, Memory>
    ensures field { IfOk result (λ f. f ≡ line_field 13 (Some 67) time.now) }
    ensures again { IfOk result (λ f. (read : FieldSeen) → time_of read ≡ Ok time.now → time_of f ≡ Ok time.now) }
    ensures fit { IfOk result (λ f. (read : FieldSeen) → time_of read ≡ Ok time.now → IsField read → IsField f) }
{
    line_field(alloc, 13, Some(b'C'), time.bytes())
}
