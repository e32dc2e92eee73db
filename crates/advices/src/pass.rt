//! The MT202 COV that is passed on.

ghost use Rattle.std.specs.Prelude.{◌≡◌, ◌++◌, IfOk, OnOk};
ghost use Rattle.fin_layout.specs.Segments.{joined};
ghost use Rattle.fin_contents.specs.Writing.{IsValue};
ghost use Rattle.advices.specs.Pass.{pass_fields, passed_fields};
ghost use Rattle.advices.specs.Received.{sequence_b};

use crate::copying::push_copied;
use crate::received::{Received, push_ordering, sequence_a, sequence_b};
use crate::transfer::{push_account_bank, push_intermediary};
use corr_text::{List, Memory, Text};
use day_model::Skip;
use fin_contents::{Value, put_reference, put_value};
use fin_fields::{Field, FieldLines};
use std::alloc::Global;

// The first sequence: 20 to 72.
fn push_passed(
    alloc: Global,
    received: &Received<'_>,
    first: &[FieldLines<'_>],
    reference: &Text,
    value: &Value,
    skip: Skip,
    out: &mut List<Field>,
) -> Result<(), Memory>
    requires { IsValue value.now }
    ensures { OnOk result (out.new ≡ out.old ++ joined (passed_fields received.now first.now reference.now value.now skip)) }
{
    out.push(put_reference(alloc, 20, reference)?)?;
    push_copied(alloc, first, 21, b" ", out)?;
    out.push(put_value(alloc, value)?)?;
    push_ordering(alloc, received, out)?;
    push_intermediary(alloc, first, skip, out)?;
    push_account_bank(alloc, first, skip, out)?;
    push_copied(alloc, first, 58, b"AD", out)?;
    push_copied(alloc, first, 72, b" ", out)
}

fn push_all(alloc: Global, fields: &[FieldLines<'_>], out: &mut List<Field>) -> Result<(), Memory>
    ensures { OnOk result (out.new ≡ out.old ++ fields.now) }
{
    for f in fields {
        out.push(f.to_owned(alloc)?)?;
    }
    Ok(())
}

/// The fields of the MT202 COV that is passed on: the received ones, but with our reference, the value that is credited,
/// 52A where they have none, of 56a and 57a what the next bank needs, and neither 13C, 53a nor 54a.
#[tactic(auto, unfolding(crate::specs::Pass::pass_fields))]
pub fn pass_fields(
    alloc: Global,
    received: &Received<'_>,
    reference: &Text,
    value: &Value,
    skip: Skip,
) -> Result<List<Field>, Memory>
    requires { IsValue value.now }
    ensures { IfOk result (λ fields. fields ≡ pass_fields received.now reference.now value.now skip) }
{
    let fields = received.fields.as_slice();
    let mut out = List::new(alloc);
    push_passed(
        alloc,
        received,
        sequence_a(fields),
        reference,
        value,
        skip,
        &mut out,
    )?;
    push_all(alloc, sequence_b(fields), &mut out)?;
    Ok(out)
}
