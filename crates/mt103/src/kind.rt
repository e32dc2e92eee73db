//! The kind of transaction: field 26T.

ghost use Rattle.mt103.specs.Codes.{kind_of};
ghost use Rattle.fin_layout.specs.Reading.{Reads};

use corr_text::{Set, is_all_of};
use fin_contents::{array_of, one_line};
use fin_fields::FieldLines;
use fin_layout::{Content, P24, Refusal};
use std::alloc::Global;

/// A kind of transaction, `3!c`. P24: the field is not one line of three capital letters or digits.
#[derive(Clone, Copy)]
pub struct Kind;

#[tactic(auto, unfolding(crate::specs::Codes::kind_of))]
fn read_kind(f: &FieldLines<'_>) -> Result<[u8; 3], Refusal>
    ensures { Reads result (kind_of f.now) }
{
    let Some(line) = one_line(f) else {
        return Err(Refusal::Bad(P24));
    };
    match array_of::<3>(line) {
        Some(kind) if is_all_of(Set::C, &kind) => Ok(kind),
        _ => Err(Refusal::Bad(P24)),
    }
}

impl Content for Kind {
    type Value = [u8; 3];

    ghost meaning = { λ _ f. kind_of f };

    fn read(&self, _alloc: Global, f: &FieldLines<'_>) -> Result<[u8; 3], Refusal> {
        read_kind(f)
    }
}
