//! The MT103 that is sent on.

ghost use Rattle.std.specs.Prelude.{◌≡◌, ◌++◌, [], IfOk, IfSome, OnOk, Some, codes};
ghost use Rattle.fin_layout.specs.Segments.{joined};
ghost use Rattle.fin_contents.specs.Writing.{IsAmount, IsValue, ccy_amount_field, some_field};
ghost use Rattle.advices.specs.Fields.{bank_field, copied_all, is_named, kept};
ghost use Rattle.advices.specs.inner.Spelled.{IsWritableAmount};
ghost use Rattle.advices.specs.Transfer.{account_bank, detail_fields, has_code, passed_instructions, intermediary, is_passed_on, ordered_amount, party_fields, taken_fields, tells_account_bank, tells_intermediary, term_fields, transfer_fields};

use crate::copying::{bank_field, first_named, is_named, push_copied};
use crate::received::{Received, push_ordering};
use corr_ids::Bic;
use corr_money::Amount;
use corr_text::{List, Memory, Text};
use day_model::Skip;
use fin_contents::{Value, put_ccy_amount, put_reference, put_value};
use fin_fields::{Field, FieldLines};
use std::alloc::Global;

/// 56a, if there is one and it is passed on.
pub fn intermediary<'a, 't>(fields: &'a [FieldLines<'t>], skip: Skip) -> Option<&'a FieldLines<'t>>
    ensures { some_field (λ f. f.now) result ≡ intermediary skip fields.now }
{
    match skip {
        Skip::Keep => first_named(fields, 56, b"ACD"),
        Skip::Mid | Skip::Both => None,
    }
}

/// 57a, if there is one and it is passed on.
pub fn account_bank<'a, 't>(fields: &'a [FieldLines<'t>], skip: Skip) -> Option<&'a FieldLines<'t>>
    ensures { some_field (λ f. f.now) result ≡ account_bank skip fields.now }
{
    match skip {
        Skip::Keep | Skip::Mid => first_named(fields, 57, b"ABCD"),
        Skip::Both => None,
    }
}

/// Adds 56a, where it is passed on.
pub fn push_intermediary(
    alloc: Global,
    fields: &[FieldLines<'_>],
    skip: Skip,
    out: &mut List<Field>,
) -> Result<(), Memory>
    ensures { OnOk result (out.new ≡ out.old ++ intermediary skip fields.now) }
{
    match intermediary(fields, skip) {
        Some(f) => out.push(f.to_owned(alloc)?),
        None => Ok(()),
    }
}

/// Adds 57a, where it is passed on.
pub fn push_account_bank(
    alloc: Global,
    fields: &[FieldLines<'_>],
    skip: Skip,
    out: &mut List<Field>,
) -> Result<(), Memory>
    ensures { OnOk result (out.new ≡ out.old ++ account_bank skip fields.now) }
{
    match account_bank(fields, skip) {
        Some(f) => out.push(f.to_owned(alloc)?),
        None => Ok(()),
    }
}

fn has_code(f: &FieldLines<'_>, code: &[u8; 4]) -> bool
    ensures { result ≡ has_code code.now f.now }
{
    match f.lines() {
        [line, ..] => line.bytes().starts_with(code),
        [] => false,
    }
}

fn tells_intermediary(f: &FieldLines<'_>) -> bool
    ensures { result ≡ tells_intermediary f.now }
{
    has_code(f, b"TELI") || has_code(f, b"PHOI")
}

fn tells_account_bank(f: &FieldLines<'_>) -> bool
    ensures { result ≡ tells_account_bank f.now }
{
    has_code(f, b"TELE") || has_code(f, b"PHON")
}

fn is_passed_on(f: &FieldLines<'_>, has_56: bool, has_57: bool) -> bool
    ensures { result ≡ is_passed_on has_56 has_57 f.now }
{
    is_named(f, 23, b"E")
        && (has_56 || !tells_intermediary(f))
        && (has_57 || !tells_account_bank(f))
}

fn push_if_passed_on(
    alloc: Global,
    f: &FieldLines<'_>,
    has_56: bool,
    has_57: bool,
    out: &mut List<Field>,
) -> Result<(), Memory>
    ensures { OnOk result (out.new ≡ out.old ++ kept (is_passed_on has_56 has_57) f.now) }
{
    if is_passed_on(f, has_56, has_57) {
        return out.push(f.to_owned(alloc)?);
    }
    Ok(())
}

// 23E, without what asks to tell a bank that the message doesn't name.
fn push_instructions(
    alloc: Global,
    fields: &[FieldLines<'_>],
    skip: Skip,
    out: &mut List<Field>,
) -> Result<(), Memory>
    ensures { OnOk result (out.new ≡ out.old ++ passed_instructions skip fields.now) }
{
    let has_56 = intermediary(fields, skip).is_some();
    let has_57 = account_bank(fields, skip).is_some();
    for f in fields {
        push_if_passed_on(alloc, f, has_56, has_57, out)?;
    }
    Ok(())
}

/// Adds 33B, and what was ordered where there is none.
pub fn push_ordered(
    alloc: Global,
    fields: &[FieldLines<'_>],
    ordered: &Amount,
    out: &mut List<Field>,
) -> Result<(), Memory>
    requires { IsAmount ordered.now }
    ensures { OnOk result (out.new ≡ out.old ++ ordered_amount ordered.now fields.now) }
{
    match first_named(fields, 33, b"B") {
        Some(f) => out.push(f.to_owned(alloc)?),
        None => out.push(put_ccy_amount(alloc, 33, Some(b'B'), ordered)?),
    }
}

// 20 to 36.
fn push_terms(
    alloc: Global,
    fields: &[FieldLines<'_>],
    reference: &Text,
    value: &Value,
    ordered: &Amount,
    skip: Skip,
    out: &mut List<Field>,
) -> Result<(), Memory>
    requires value { IsValue value.now }
    requires ordered { IsAmount ordered.now }
    ensures { OnOk result (out.new ≡ out.old ++ joined (term_fields fields.now reference.now value.now ordered.now skip)) }
{
    out.push(put_reference(alloc, 20, reference)?)?;
    push_copied(alloc, fields, 23, b"B", out)?;
    push_instructions(alloc, fields, skip, out)?;
    push_copied(alloc, fields, 26, b"T", out)?;
    out.push(put_value(alloc, value)?)?;
    push_ordered(alloc, fields, ordered, out)?;
    push_copied(alloc, fields, 36, b" ", out)
}

fn push_via(alloc: Global, via: &Option<Bic>, out: &mut List<Field>) -> Result<(), Memory>
    ensures { OnOk result (out.new ≡ out.old ++ some_field (bank_field 53) via.now) }
{
    match via {
        Some(via) => out.push(bank_field(alloc, 53, via)?),
        None => Ok(()),
    }
}

// 50a to 59a.
fn push_parties(
    alloc: Global,
    received: &Received<'_>,
    skip: Skip,
    via: &Option<Bic>,
    out: &mut List<Field>,
) -> Result<(), Memory>
    ensures { OnOk result (out.new ≡ out.old ++ joined (party_fields received.now skip via.now)) }
{
    let fields = received.fields.as_slice();
    push_copied(alloc, fields, 50, b"AFK", out)?;
    push_ordering(alloc, received, out)?;
    push_via(alloc, via, out)?;
    push_intermediary(alloc, fields, skip, out)?;
    push_account_bank(alloc, fields, skip, out)?;
    push_copied(alloc, fields, 59, b" AF", out)
}

fn push_charges(
    alloc: Global,
    fields: &[FieldLines<'_>],
    out: &mut List<Field>,
) -> Result<(), Memory>
    ensures { OnOk result (out.new ≡ out.old ++ copied_all (is_named 71 (codes "F")) fields.now) }
{
    for f in fields {
        push_if_charge(alloc, f, out)?;
    }
    Ok(())
}

fn push_if_charge(alloc: Global, f: &FieldLines<'_>, out: &mut List<Field>) -> Result<(), Memory>
    ensures { OnOk result (out.new ≡ out.old ++ kept (is_named 71 (codes "F")) f.now) }
{
    if is_named(f, 71, b"F") {
        return out.push(f.to_owned(alloc)?);
    }
    Ok(())
}

// Our own charge as a 71F, where there is one.
fn push_own_charge(
    alloc: Global,
    charge: Option<Amount>,
    out: &mut List<Field>,
) -> Result<(), Memory>
    requires { IfSome charge IsWritableAmount }
    ensures { OnOk result (out.new ≡ out.old ++ some_field (ccy_amount_field 71 (Some 70)) charge) }
{
    match charge {
        Some(amount) => out.push(put_ccy_amount(alloc, 71, Some(b'F'), &amount)?),
        None => Ok(()),
    }
}

// Each 71F as it came, and our own charge after them.
fn push_taken(
    alloc: Global,
    fields: &[FieldLines<'_>],
    charge: Option<Amount>,
    out: &mut List<Field>,
) -> Result<(), Memory>
    requires { IfSome charge IsWritableAmount }
    ensures { OnOk result (out.new ≡ out.old ++ taken_fields charge fields.now) }
{
    push_charges(alloc, fields, out)?;
    push_own_charge(alloc, charge, out)
}

// 70 to 77B.
fn push_details(
    alloc: Global,
    fields: &[FieldLines<'_>],
    charge: Option<Amount>,
    out: &mut List<Field>,
) -> Result<(), Memory>
    requires { IfSome charge IsWritableAmount }
    ensures { OnOk result (out.new ≡ out.old ++ joined (detail_fields charge fields.now)) }
{
    push_copied(alloc, fields, 70, b" ", out)?;
    push_copied(alloc, fields, 71, b"A", out)?;
    push_taken(alloc, fields, charge, out)?;
    push_copied(alloc, fields, 71, b"G", out)?;
    push_copied(alloc, fields, 72, b" ", out)?;
    push_copied(alloc, fields, 77, b"B", out)
}

/// The fields of the MT103 that is sent on: the received ones, but with our reference, the value that is credited, 33B and
/// 52A where they have none, `via` as 53A, of 56a, 57a and 23E what the next bank needs, and after the received 71F one of
/// our own charge.
#[tactic(auto, unfolding(crate::specs::Transfer::transfer_fields))]
pub fn transfer_fields(
    alloc: Global,
    received: &Received<'_>,
    reference: &Text,
    value: &Value,
    ordered: &Amount,
    charge: Option<Amount>,
    skip: Skip,
    via: &Option<Bic>,
) -> Result<List<Field>, Memory>
    requires value { IsValue value.now }
    requires ordered { IsAmount ordered.now }
    requires charge { IfSome charge IsWritableAmount }
    ensures { IfOk result (λ fields. fields ≡ transfer_fields received.now reference.now value.now ordered.now charge skip via.now) }
{
    let fields = received.fields.as_slice();
    let mut out = List::new(alloc);
    push_terms(alloc, fields, reference, value, ordered, skip, &mut out)?;
    push_parties(alloc, received, skip, via, &mut out)?;
    push_details(alloc, fields, charge, &mut out)?;
    Ok(out)
}
