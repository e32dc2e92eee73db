//! Fields read as parties into the memory of those before.

ghost use Rattle.std.specs.Prelude.{◌≡◌, true, false, Some, IfErr, OnOk, drop, option_map};
ghost use Rattle.std.specs.List.{list_any};
ghost use Rattle.fin_fields.specs.Faults.{has_other_byte};
ghost use Rattle.fin_parties.specs.Party.{after_first, customer_party, party_in, party_of, party_with};
ghost use Rattle.fin_parties.specs.declared.form.Listing.TheVariants.{Customer};
ghost use Rattle.fin_parties.specs.declared.opening.Opening.TheVariants.{AccountLine};
ghost use Rattle.fin_parties.specs.Faults.{TellsPartyFault};

use crate::fault::PartyFault;
use crate::form::{Form, form_of};
use crate::opening::{Opening, parts_of};
use crate::party::Party;
use crate::reading::{copy_account, is_name, read_lines};
use corr_text::{Memory, Text, clear, put};
use fin_fields::{FieldLines, Line, copy_lines, refill_lines};
use std::alloc::Global;

/// Makes a place hold a text, in the memory of the one that stands there.
fn fill_text(alloc: Global, b: &[u8], place: &mut Option<Text>) -> Result<(), Memory>
    ensures { OnOk result (place.new ≡ Some b.now) }
{
    match place {
        Some(text) => text.refill(b),
        None => {
            *place = Some(Text::from_bytes(alloc, b)?);
            Ok(())
        }
    }
}

/// Makes a place hold the account of a line, if there is one, in the memory of the text that stands there.
fn fill_account(alloc: Global, line: Option<&[u8]>, place: &mut Option<Text>) -> Result<(), Memory>
    ensures { OnOk result (place.new ≡ option_map (λ b. drop 1 b.now) line.entry) }
{
    match line {
        Some([_, account @ ..]) => fill_text(alloc, account, place),
        Some(line) => fill_text(alloc, line, place),
        None => {
            clear(place);
            Ok(())
        }
    }
}

/// Makes a place hold a customer: in the memory of the party that stands there, where it is a customer by name too.
fn hold_customer(
    alloc: Global,
    first: Option<&[u8]>,
    lines: &[Line<'_>],
    place: &mut Party,
) -> Result<(), Memory>
    ensures { OnOk result (place.new ≡ party_with Customer (option_map (λ b. b.now) first.entry) lines.now) }
{
    match place {
        Party::K {
            account,
            lines: listed,
        } => {
            fill_account(alloc, first, account)?;
            refill_lines(alloc, lines, listed)
        }
        _ => put_customer(alloc, first, lines, place),
    }
}

/// Puts a customer in the place of another party.
#[inline(never)]
fn put_customer(
    alloc: Global,
    first: Option<&[u8]>,
    lines: &[Line<'_>],
    place: &mut Party,
) -> Result<(), Memory>
    ensures { OnOk result (place.new ≡ party_with Customer (option_map (λ b. b.now) first.entry) lines.now) }
{
    let account = copy_account(alloc, first)?;
    let lines = copy_lines(alloc, lines)?;
    put(place, Party::K { account, lines });
    Ok(())
}

#[inline(never)]
fn fill_customer(
    alloc: Global,
    lines: &[Line<'_>],
    plain: bool,
    place: &mut Party,
) -> Result<(), PartyFault>
    requires { plain ≡ true → list_any has_other_byte lines.now ≡ false }
    ensures party { OnOk result (after_first AccountLine customer_party lines.now ≡ Some place.new) }
    ensures fault { IfErr result (TellsPartyFault (after_first AccountLine customer_party lines.now)) }
{
    let Some(parts) = parts_of(Opening::AccountLine, lines, plain) else {
        return Err(PartyFault::P24);
    };
    if !is_name(parts.rest, plain) {
        return Err(PartyFault::P24);
    }
    hold_customer(alloc, parts.first, parts.rest, place)?;
    Ok(())
}

#[inline(never)]
fn fill_other(
    alloc: Global,
    form: Form,
    lines: &[Line<'_>],
    place: &mut Party,
) -> Result<(), PartyFault>
    ensures party { OnOk result (party_in form lines.now ≡ Some place.new) }
    ensures fault { IfErr result (TellsPartyFault (party_in form lines.now)) }
{
    put(place, read_lines(alloc, form, lines)?);
    Ok(())
}

/// As `read_party_lines`, but the party is put into the place of another one, a customer by name in the memory of the customer
/// that stands there. After a fault the place may hold any party.
#[tactic(auto, unfolding(crate::specs::Party::party_of, crate::specs::Party::party_in))]
pub fn fill_party(alloc: Global, f: &FieldLines<'_>, place: &mut Party) -> Result<(), PartyFault>
    ensures party { OnOk result (party_of f.now ≡ Some place.new) }
    ensures fault { IfErr result (TellsPartyFault (party_of f.now)) }
{
    match form_of(f.tag(), f.letter()) {
        Some(Form::CustomerK) => fill_customer(alloc, f.lines(), f.is_plain(), place),
        Some(form) => fill_other(alloc, form, f.lines(), place),
        None => Err(PartyFault::P24),
    }
}
