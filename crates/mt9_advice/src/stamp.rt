//! When an entry was booked: field 13D.

ghost use Rattle.std.specs.Prelude.{◌≡◌};
ghost use Rattle.fin_layout.specs.Reading.{Reads};
ghost use Rattle.mt9_advice.specs.Advice.{is_stamp, stamp_of};

use corr_text::{Set, Text, is_all_of};
use fin_contents::{is_clock, one_line};
use fin_fields::FieldLines;
use fin_layout::{Content, P24, Refusal};
use std::alloc::Global;

/// A date and a time of day with its distance from UTC, `10!n`, `+` or `-`, `4!n`. P24: the field is not one line of this
/// form. The digits are not tested further.
///
/// Example: `2406031215+0200`.
#[derive(Clone, Copy)]
pub struct Stamp;

fn is_stamp(line: &[u8]) -> bool
    ensures { result ≡ is_stamp line.now }
{
    6 <= line.len() && is_all_of(Set::N, &line[..6]) && is_clock(&line[6..])
}

#[tactic(auto, unfolding(crate::specs::Advice::stamp_of))]
fn read_stamp(alloc: Global, f: &FieldLines<'_>) -> Result<Text, Refusal>
    ensures { Reads result (stamp_of f.now) }
{
    match one_line(f) {
        Some(line) if is_stamp(line) => Ok(Text::from_bytes(alloc, line)?),
        _ => Err(Refusal::Bad(P24)),
    }
}

impl Content for Stamp {
    type Value = Text;

    ghost meaning = { λ _ f. stamp_of f };

    fn read(&self, alloc: Global, f: &FieldLines<'_>) -> Result<Text, Refusal> {
        read_stamp(alloc, f)
    }
}
