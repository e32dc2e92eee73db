//! The numbers of a statement and of its page: field 28C.

ghost use Rattle.std.specs.Prelude.{◌≡◌, ◌<◌, IfSome};
ghost use Rattle.fin_layout.specs.Reading.{Reads};
ghost use Rattle.mt950.specs.Number.{few_digits_of, numbers_in, numbers_of};

use corr_text::digits;
use fin_contents::{first_slash, one_line};
use fin_fields::FieldLines;
use fin_layout::{Content, P24, Refusal};
use std::alloc::Global;

/// The number of a statement and, where it is given, that of its page.
#[derive(Clone, Copy, Debug, PartialEq, Eq)]
pub struct Numbers {
    pub number: u32,
    pub page: Option<u32>,
}

/// The numbers of a statement and of its page, `5n[/5n]`. P24: the field is not one line of this form.
///
/// Example: `155/1` is page 1 of statement 155.
#[derive(Clone, Copy)]
pub struct StatementNumber;

#[tactic(auto, using(crate::proofs::PageNumbers::few_digits))]
fn few_digits(b: &[u8]) -> Option<u32>
    ensures value { result ≡ few_digits_of b.now }
    ensures bound { IfSome result (λ n. n < 100000) }
{
    if b.len() > 5 {
        return None;
    }
    Some(digits(b)? as u32)
}

#[tactic(auto, unfolding(crate::specs::Number::numbers_in))]
fn numbers_in(line: &[u8]) -> Option<Numbers>
    ensures { result ≡ numbers_in line.now }
{
    match first_slash(line) {
        None => Some(Numbers {
            number: few_digits(line)?,
            page: None,
        }),
        Some(at) => Some(Numbers {
            number: few_digits(&line[..at])?,
            page: Some(few_digits(&line[at + 1..])?),
        }),
    }
}

#[tactic(auto, unfolding(crate::specs::Number::numbers_of))]
fn read_numbers(f: &FieldLines<'_>) -> Result<Numbers, Refusal>
    ensures { Reads result (numbers_of f.now) }
{
    let Some(line) = one_line(f) else {
        return Err(Refusal::Bad(P24));
    };
    match numbers_in(line) {
        Some(numbers) => Ok(numbers),
        None => Err(Refusal::Bad(P24)),
    }
}

impl Content for StatementNumber {
    type Value = Numbers;

    ghost meaning = { λ _ f. numbers_of f };

    fn read(&self, _alloc: Global, f: &FieldLines<'_>) -> Result<Numbers, Refusal> {
        read_numbers(f)
    }
}
