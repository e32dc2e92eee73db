//! The MT202 COV that covers a transfer.

ghost use Rattle.std.specs.Prelude.{◌≡◌, ◌++◌, ◌∷◌, [], IfOk, None, OnOk};
ghost use Rattle.fin_layout.specs.Segments.{joined};
ghost use Rattle.fin_contents.specs.Writing.{IsAmount, IsValue, line_field};
ghost use Rattle.advices.specs.Cover.{cover_fields, covered_fields, covering_fields};

use crate::copying::{bank_field, push_copied};
use crate::received::{Received, push_ordering};
use crate::transfer::{push_account_bank, push_intermediary, push_ordered};
use corr_ids::Bic;
use corr_money::Amount;
use corr_text::{List, Memory, Text};
use day_model::Skip;
use fin_contents::{Value, put_reference, put_value};
use fin_fields::Field;
use std::alloc::Global;

// 20 and 21.
fn push_references(
    alloc: Global,
    reference: &Text,
    related: &Text,
    out: &mut List<Field>,
) -> Result<(), Memory>
    ensures { OnOk result (out.new ≡ out.old ++ line_field 20 None reference.now ∷ line_field 21 None related.now ∷ []) }
{
    out.push(put_reference(alloc, 20, reference)?)?;
    out.push(put_reference(alloc, 21, related)?)
}

// The first sequence: 20, 21, 32A and 58A.
fn push_covering(
    alloc: Global,
    reference: &Text,
    related: &Text,
    value: &Value,
    end: &Bic,
    out: &mut List<Field>,
) -> Result<(), Memory>
    requires { IsValue value.now }
    ensures { OnOk result (out.new ≡ out.old ++ joined (covering_fields reference.now related.now value.now end.now)) }
{
    push_references(alloc, reference, related, out)?;
    out.push(put_value(alloc, value)?)?;
    out.push(bank_field(alloc, 58, end)?)?;
    Ok(())
}

// The second sequence: 50a to 33B, as the transfer has them.
fn push_covered(
    alloc: Global,
    received: &Received<'_>,
    ordered: &Amount,
    skip: Skip,
    out: &mut List<Field>,
) -> Result<(), Memory>
    requires { IsAmount ordered.now }
    ensures { OnOk result (out.new ≡ out.old ++ joined (covered_fields received.now ordered.now skip)) }
{
    let fields = received.fields.as_slice();
    push_copied(alloc, fields, 50, b"AFK", out)?;
    push_ordering(alloc, received, out)?;
    push_intermediary(alloc, fields, skip, out)?;
    push_account_bank(alloc, fields, skip, out)?;
    push_copied(alloc, fields, 59, b" AF", out)?;
    push_copied(alloc, fields, 70, b" ", out)?;
    push_copied(alloc, fields, 72, b" ", out)?;
    push_ordered(alloc, fields, ordered, out)
}

/// The fields of the MT202 COV that covers the transfer of the reference `related` for the bank `end`.
#[tactic(auto, unfolding(crate::specs::Cover::cover_fields))]
pub fn cover_fields(
    alloc: Global,
    received: &Received<'_>,
    reference: &Text,
    related: &Text,
    value: &Value,
    ordered: &Amount,
    end: &Bic,
    skip: Skip,
) -> Result<List<Field>, Memory>
    requires value { IsValue value.now }
    requires ordered { IsAmount ordered.now }
    ensures { IfOk result (λ fields. fields ≡ cover_fields received.now reference.now related.now value.now ordered.now end.now skip) }
{
    let mut out = List::new(alloc);
    push_covering(alloc, reference, related, value, end, &mut out)?;
    push_covered(alloc, received, ordered, skip, &mut out)?;
    Ok(out)
}
