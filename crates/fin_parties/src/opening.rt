//! The lines of a party field, cut after an optional first line.

ghost use Rattle.std.specs.Prelude.{◌≡◌, true, false, option_map};
ghost use Rattle.std.specs.List.{list_any};
ghost use Rattle.fin_fields.specs.Faults.{has_other_byte};
ghost use Rattle.fin_parties.specs.Party.{opens, parts_of};
ghost use Rattle.fin_parties.specs.inner.Parts.{parts_in};

use crate::line::{has_slash, is_account_line, is_party_line};
use fin_fields::Line;

/// What a first line is that begins with a slash.
#[derive(Clone, Copy)]
pub enum Opening {
    PartyLine,
    AccountLine,
}

/// The first line where it begins with a slash, and the lines after it.
#[derive(Clone, Copy)]
pub struct Parts<'a, 't> {
    pub first: Option<&'t [u8]>,
    pub rest: &'a [Line<'t>],
}

fn opens(opening: Opening, line: &[u8], plain: bool) -> bool
    requires { plain ≡ true → has_other_byte line.now ≡ false }
    ensures { result ≡ opens opening line.now }
{
    match opening {
        Opening::PartyLine => is_party_line(line),
        Opening::AccountLine => is_account_line(line, plain),
    }
}

/// The parts of a field's lines, none where the first begins with a slash and has another format. Where `plain` tells that the
/// lines have no byte outside set X, the bytes of an account line aren't tested.
#[inline(always)]
#[tactic(auto, using(crate::proofs::OfX::first_line))]
pub fn parts_of<'a, 't>(
    opening: Opening,
    lines: &'a [Line<'t>],
    plain: bool,
) -> Option<Parts<'a, 't>>
    requires { plain ≡ true → list_any has_other_byte lines.now ≡ false }
    ensures { option_map parts_in result ≡ parts_of opening lines.now }
{
    match lines {
        [first, rest @ ..] if has_slash(first.bytes()) => {
            let first = first.bytes();
            if !opens(opening, first, plain) {
                return None;
            }
            Some(Parts {
                first: Some(first),
                rest,
            })
        }
        _ => Some(Parts {
            first: None,
            rest: lines,
        }),
    }
}
