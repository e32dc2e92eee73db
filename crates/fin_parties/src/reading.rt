//! Fields read as parties.

ghost use Rattle.std.specs.Prelude.{◌≡◌, true, false, Some, IfOk, IfErr, drop, option_map};
ghost use Rattle.std.specs.List.{list_any};
ghost use Rattle.fin_fields.specs.Faults.{has_other_byte};
ghost use Rattle.fin_parties.specs.Party.{account_party, after_first, bic_party, is_line, is_listing, is_name, listed_party, party_in, party_of, payer_party, place_party};
ghost use Rattle.fin_parties.specs.declared.opening.Opening.TheVariants.{PartyLine};
ghost use Rattle.fin_parties.specs.Faults.{TellsPartyFault};
ghost use Rattle.fin_parties.specs.inner.Faults.{ReadsParty};

use crate::fault::PartyFault;
use crate::form::{Form, Listing, form_of};
use crate::line::{has_slash, is_account_line};
use crate::numbered::are_numbered;
use crate::opening::{Opening, parts_of};
use crate::party::Party;
use corr_ids::read_bic;
use corr_text::{Memory, Set, Text};
use fin_fields::{Field, FieldLines, Line, are_x_runs, copy_lines, is_run_of, lend_field};
use std::alloc::Global;

fn is_line(line: &[u8]) -> bool
    ensures { result ≡ is_line line.now }
{
    is_run_of(Set::X, 35, line)
}

/// Whether lines are `4*35x`, the first without a slash at its beginning. Where `plain` tells that they have no byte outside set
/// X, their bytes aren't tested.
pub fn is_name(lines: &[Line<'_>], plain: bool) -> bool
    requires { plain ≡ true → list_any has_other_byte lines.now ≡ false }
    ensures { result ≡ is_name lines.now }
{
    match lines {
        [] => false,
        [first, ..] => !has_slash(first.bytes()) && are_x_runs(4, 35, lines, plain),
    }
}

fn copy_line(alloc: Global, line: Option<&[u8]>) -> Result<Option<Text>, Memory>
    ensures { IfOk result (λ copy. copy ≡ option_map (λ b. b.now) line.entry) }
{
    match line {
        Some(line) => Ok(Some(Text::from_bytes(alloc, line)?)),
        None => Ok(None),
    }
}

/// The account of a first line: what stands after its slash; none without a line.
pub fn copy_account(alloc: Global, line: Option<&[u8]>) -> Result<Option<Text>, Memory>
    ensures { IfOk result (λ copy. copy ≡ option_map (λ b. drop 1 b.now) line.entry) }
{
    match line {
        Some([_, account @ ..]) => Ok(Some(Text::from_bytes(alloc, account)?)),
        Some(line) => Ok(Some(Text::from_bytes(alloc, line)?)),
        None => Ok(None),
    }
}

#[inline(never)]
fn read_bic_party(alloc: Global, opening: Opening, lines: &[Line<'_>]) -> Result<Party, PartyFault>
    ensures { ReadsParty (after_first opening bic_party lines.now) result }
{
    let Some(parts) = parts_of(opening, lines, false) else {
        return Err(PartyFault::P24);
    };
    let [text] = parts.rest else {
        return Err(PartyFault::P24);
    };
    let Some(bic) = read_bic(text.bytes()) else {
        return Err(PartyFault::P24);
    };
    Ok(Party::A {
        line: copy_line(alloc, parts.first)?,
        bic,
    })
}

#[inline(never)]
fn read_place_party(alloc: Global, lines: &[Line<'_>]) -> Result<Party, PartyFault>
    ensures { ReadsParty (after_first PartyLine place_party lines.now) result }
{
    let Some(parts) = parts_of(Opening::PartyLine, lines, false) else {
        return Err(PartyFault::P24);
    };
    match (parts.first, parts.rest) {
        (Some(line), []) => Ok(Party::B {
            line: Some(Text::from_bytes(alloc, line)?),
            place: None,
        }),
        (first, [place]) if is_line(place.bytes()) => Ok(Party::B {
            line: copy_line(alloc, first)?,
            place: Some(place.copy(alloc)?),
        }),
        _ => Err(PartyFault::P24),
    }
}

#[inline(never)]
fn read_account_party(alloc: Global, lines: &[Line<'_>]) -> Result<Party, PartyFault>
    ensures { ReadsParty (account_party lines.now) result }
{
    match lines {
        [line] if is_account_line(line.bytes(), false) => Ok(Party::C {
            line: line.copy(alloc)?,
        }),
        _ => Err(PartyFault::P24),
    }
}

fn is_listing(listing: Listing, lines: &[Line<'_>]) -> bool
    ensures { result ≡ is_listing listing lines.now }
{
    match listing {
        Listing::Institution | Listing::Customer => is_name(lines, false),
        Listing::Payee => are_numbered(lines),
    }
}

#[inline(never)]
fn read_listed_party(
    alloc: Global,
    opening: Opening,
    listing: Listing,
    lines: &[Line<'_>],
) -> Result<Party, PartyFault>
    ensures { ReadsParty (after_first opening (listed_party listing) lines.now) result }
{
    let Some(parts) = parts_of(opening, lines, false) else {
        return Err(PartyFault::P24);
    };
    if !is_listing(listing, parts.rest) {
        return Err(PartyFault::P24);
    }
    let listed = copy_lines(alloc, parts.rest)?;
    match listing {
        Listing::Institution => Ok(Party::D {
            line: copy_line(alloc, parts.first)?,
            lines: listed,
        }),
        Listing::Customer => Ok(Party::K {
            account: copy_account(alloc, parts.first)?,
            lines: listed,
        }),
        Listing::Payee => Ok(Party::F {
            line: copy_line(alloc, parts.first)?,
            lines: listed,
        }),
    }
}

#[inline(never)]
fn read_payer_party(alloc: Global, lines: &[Line<'_>]) -> Result<Party, PartyFault>
    ensures { ReadsParty (payer_party lines.now) result }
{
    match lines {
        [line, rest @ ..] if is_line(line.bytes()) && are_numbered(rest) => Ok(Party::F {
            line: Some(line.copy(alloc)?),
            lines: copy_lines(alloc, rest)?,
        }),
        _ => Err(PartyFault::P24),
    }
}

/// The party that lines say by a grammar. P24 comes exactly where they aren't in it.
#[tactic(auto, unfolding(crate::specs::Party::party_in))]
pub fn read_lines(alloc: Global, form: Form, lines: &[Line<'_>]) -> Result<Party, PartyFault>
    ensures { ReadsParty (party_in form lines.now) result }
{
    match form {
        Form::BankA => read_bic_party(alloc, Opening::PartyLine, lines),
        Form::BankB => read_place_party(alloc, lines),
        Form::BankC => read_account_party(alloc, lines),
        Form::BankD => read_listed_party(alloc, Opening::PartyLine, Listing::Institution, lines),
        Form::CustomerA => read_bic_party(alloc, Opening::AccountLine, lines),
        Form::CustomerK => read_listed_party(alloc, Opening::AccountLine, Listing::Customer, lines),
        Form::PayerF => read_payer_party(alloc, lines),
        Form::PayeeF => read_listed_party(alloc, Opening::AccountLine, Listing::Payee, lines),
    }
}

/// As `read_party`, of a field whose lines stay in a text.
#[tactic(auto, unfolding(crate::specs::Party::party_of))]
pub fn read_party_lines(alloc: Global, f: &FieldLines<'_>) -> Result<Party, PartyFault>
    ensures party { IfOk result (λ p. party_of f.now ≡ Some p) }
    ensures fault { IfErr result (TellsPartyFault (party_of f.now)) }
{
    match form_of(f.tag(), f.letter()) {
        Some(form) => read_lines(alloc, form, f.lines()),
        None => Err(PartyFault::P24),
    }
}

/// The party that a field names, by the grammar of its tag and letter.
///
/// P24 comes exactly where the field isn't in that grammar (docs/messages.md, "Parties"): 52A to 58A, 53B, 54B, 55B, 57B,
/// 56C, 57C, 52D to 58D, 50A, 50F, 50K, 59, 59A and 59F have one. Whether a BIC is known is not tested.
pub fn read_party(alloc: Global, f: &Field) -> Result<Party, PartyFault>
    ensures party { IfOk result (λ p. party_of f.now ≡ Some p) }
    ensures fault { IfErr result (TellsPartyFault (party_of f.now)) }
{
    read_party_lines(alloc, &lend_field(alloc, f)?)
}
