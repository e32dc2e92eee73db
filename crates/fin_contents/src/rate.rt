//! Rates: field 36.

ghost use Rattle.std.specs.Prelude.{◌≡◌, IfOk, None, Ok};
ghost use Rattle.fin_contents.specs.Money.{rate_of};
ghost use Rattle.fin_contents.specs.Writing.{line_field};
ghost use Rattle.fin_fields.specs.Writing.{IsField};
ghost use Rattle.fin_fields.specs.declared.field.Field.{Field as FieldSeen};
ghost use Rattle.fin_layout.specs.Reading.{Reads};

use crate::codes::{T40, T43};
use crate::line::{line_field, one_line};
use corr_money::is_comma_number;
use corr_text::{Memory, Set, Text, is_all_of};
use fin_fields::{Field, FieldLines};
use fin_layout::{Content, P24, Refusal};
use std::alloc::Global;

/// The number of characters that a rate has at most.
const LENGTH: usize = 12;

/// A rate, `12d`. P24: the field is not one line of one or more characters of X. T40: it is not digits with exactly one
/// comma and a digit before it. T43: it has more than 12 characters.
#[derive(Clone, Copy)]
pub struct Rate;

#[tactic(auto, unfolding(crate::specs::Money::rate_of))]
fn read_rate(alloc: Global, f: &FieldLines<'_>) -> Result<Text, Refusal>
    ensures { Reads result (rate_of f.now) }
{
    let Some(line) = one_line(f) else {
        return Err(Refusal::Bad(P24));
    };
    if line.is_empty() || !is_all_of(Set::X, line) {
        return Err(Refusal::Bad(P24));
    }
    if !is_comma_number(line) {
        return Err(Refusal::Bad(T40));
    }
    if line.len() > LENGTH {
        return Err(Refusal::Bad(T43));
    }
    Ok(Text::from_bytes(alloc, line)?)
}

impl Content for Rate {
    type Value = Text;

    ghost meaning = { λ _ f. rate_of f };

    fn read(&self, alloc: Global, f: &FieldLines<'_>) -> Result<Text, Refusal> {
        read_rate(alloc, f)
    }
}

/// Writes a rate as field 36. What was read is read again from it, and the field may stand in a text where the one that was
/// read did.
pub fn put_rate(alloc: Global, rate: &Text) -> Result<Field, Memory>
    ensures field { IfOk result (λ f. f ≡ line_field 36 None rate.now) }
    ensures again { IfOk result (λ f. (read : FieldSeen) → rate_of read ≡ Ok rate.now → rate_of f ≡ Ok rate.now) }
    ensures fit { IfOk result (λ f. (read : FieldSeen) → rate_of read ≡ Ok rate.now → IsField read → IsField f) }
{
    line_field(alloc, 36, None, rate.bytes())
}
