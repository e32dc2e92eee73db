//! The rules on the currencies of an MT950's balances.

ghost use Rattle.std.specs.Prelude.{◌≡◌, true};
ghost use Rattle.std.specs.Option.{option_map_or};
ghost use Rattle.corr_text.specs.First.{first_of};
ghost use Rattle.mt950.specs.Rules.{same_two_letters, is_same, currency_rules};

use crate::balance::Stated;
use crate::said::Said;
use corr_money::Ccy;
use corr_text::{Code, Fault};
use fin_layout::P24;

/// The first two letters of the currencies of 60a, 62a and 64 differ, as the SWIFT User Handbook names it.
pub const C27: Code = Code(*b"C27");

fn agrees(a: Ccy, b: Ccy) -> bool
    ensures { result ≡ same_two_letters a b }
{
    a.0[0] == b.0[0] && a.0[1] == b.0[1]
}

fn available_agrees(opening: Ccy, available: &Option<Stated>) -> bool
    ensures { result ≡ option_map_or (λ stated. same_two_letters opening stated.ccy) available.now true }
{
    match available {
        Some(stated) => agrees(opening, stated.ccy),
        None => true,
    }
}

fn is_same(a: Ccy, b: Ccy) -> bool
    ensures { result ≡ is_same a b }
{
    a == b
}

fn available_is_same(opening: Ccy, available: &Option<Stated>) -> bool
    ensures { result ≡ option_map_or (λ stated. is_same opening stated.ccy) available.now true }
{
    match available {
        Some(stated) => is_same(opening, stated.ccy),
        None => true,
    }
}

/// The first rule that is broken: C27 of 62a, where the first two letters of the currencies differ; then P24 of 62a and of 64,
/// where the whole currency is another than that of 60a. None where none is broken.
pub fn currency_fault(said: &Said) -> Option<Fault>
    ensures { result ≡ first_of (currency_rules said.now) }
{
    let opening = said.opening.ccy;
    let (code, tag) = if !agrees(opening, said.closing.ccy)
        || !available_agrees(opening, &said.available)
    {
        (C27, *b"62 ")
    } else if !is_same(opening, said.closing.ccy) {
        (P24, *b"62 ")
    } else if !available_is_same(opening, &said.available) {
        (P24, *b"64 ")
    } else {
        return None;
    };
    Some(Fault { code, tag, nth: 1 })
}
