//! Fields of one word of a list: the operation, field 23B, and who bears the charges, field 71A.

ghost use Rattle.std.specs.Prelude.{◌≡◌};
ghost use Rattle.mt103.specs.Codes.{charge_of, is_word_of, operation_of, word_of};
ghost use Rattle.fin_layout.specs.Reading.{Reads, Refills};

use crate::codes::{T08, T36};
use corr_text::Code;
use fin_contents::{array_of, one_line};
use fin_fields::FieldLines;
use fin_layout::{Content, Refill, Refusal};
use std::alloc::Global;

/// The operations that 23B may name.
const OPERATIONS: [[u8; 4]; 5] = [*b"CRED", *b"CRTS", *b"SPAY", *b"SPRI", *b"SSTD"];

/// What 71A may say.
const CHARGES: [[u8; 3]; 3] = [*b"OUR", *b"SHA", *b"BEN"];

/// An operation. T36: the field is not one line of one of the five codes.
#[derive(Clone, Copy)]
pub struct Operation;

/// Who bears the charges. T08: the field is not one line OUR, SHA or BEN.
#[derive(Clone, Copy)]
pub struct Charge;

fn is_word_of<const N: usize>(words: &[[u8; N]], word: &[u8; N]) -> bool
    ensures { result ≡ is_word_of words.now word.now }
{
    for listed in words {
        if *listed == *word {
            return true;
        }
    }
    false
}

// Puts the word of a field into a place. After a refusal the place may hold any.
#[tactic(auto, unfolding(crate::specs::Codes::word_of))]
fn fill_word<const N: usize>(
    words: &[[u8; N]],
    refusal: Code,
    f: &FieldLines<'_>,
    place: &mut [u8; N],
) -> Result<(), Refusal>
    ensures { Refills result place.new (word_of N words.now refusal f.now) }
{
    let Some(line) = one_line(f) else {
        return Err(Refusal::Bad(refusal));
    };
    match array_of::<N>(line) {
        Some(word) if is_word_of(words, &word) => {
            *place = word;
            Ok(())
        }
        _ => Err(Refusal::Bad(refusal)),
    }
}

fn read_word<const N: usize>(
    words: &[[u8; N]],
    refusal: Code,
    f: &FieldLines<'_>,
) -> Result<[u8; N], Refusal>
    ensures { Reads result (word_of N words.now refusal f.now) }
{
    let mut word = [0; N];
    fill_word(words, refusal, f, &mut word)?;
    Ok(word)
}

impl Content for Operation {
    type Value = [u8; 4];

    ghost meaning = { λ _ f. operation_of f };

    fn read(&self, _alloc: Global, f: &FieldLines<'_>) -> Result<[u8; 4], Refusal> {
        read_word(&OPERATIONS, T36, f)
    }
}

impl Refill for Operation {
    fn refill(
        &self,
        _alloc: Global,
        f: &FieldLines<'_>,
        value: &mut [u8; 4],
    ) -> Result<(), Refusal> {
        fill_word(&OPERATIONS, T36, f, value)
    }
}

impl Content for Charge {
    type Value = [u8; 3];

    ghost meaning = { λ _ f. charge_of f };

    fn read(&self, _alloc: Global, f: &FieldLines<'_>) -> Result<[u8; 3], Refusal> {
        read_word(&CHARGES, T08, f)
    }
}

impl Refill for Charge {
    fn refill(
        &self,
        _alloc: Global,
        f: &FieldLines<'_>,
        value: &mut [u8; 3],
    ) -> Result<(), Refusal> {
        fill_word(&CHARGES, T08, f, value)
    }
}
