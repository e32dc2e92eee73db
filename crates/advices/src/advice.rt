//! The MT900 and the MT910 of a booked entry.

ghost use Rattle.std.specs.Prelude.{◌≡◌, IfOk};
ghost use Rattle.fin_contents.specs.Writing.{IsValue};
ghost use Rattle.advices.specs.Advice.{credit_fields, debit_fields};

use crate::copying::{push_copied, push_copied_as};
use crate::received::{Received, push_ordering};
use corr_text::{List, Memory, Text};
use fin_contents::{Value, put_reference, put_short_line, put_value};
use fin_fields::Field;
use std::alloc::Global;

/// The fields of the MT900, the confirmation of a debit: 21 is field 20 of the received message.
#[tactic(auto, unfolding(crate::specs::Advice::debit_fields))]
pub fn debit_fields(
    alloc: Global,
    received: &Received<'_>,
    reference: &Text,
    account: &Text,
    value: &Value,
) -> Result<List<Field>, Memory>
    requires { IsValue value.now }
    ensures { IfOk result (λ fields. fields ≡ debit_fields received.now reference.now account.now value.now) }
{
    let mut out = List::new(alloc);
    out.push(put_reference(alloc, 20, reference)?)?;
    push_copied_as(alloc, received.fields.as_slice(), 20, 21, &mut out)?;
    out.push(put_short_line(alloc, 25, account)?)?;
    out.push(put_value(alloc, value)?)?;
    Ok(out)
}

/// The fields of the MT910, the confirmation of a credit: 21 and 52a are those of the received message, 52a its sender
/// where it has none.
#[tactic(auto, unfolding(crate::specs::Advice::credit_fields))]
pub fn credit_fields(
    alloc: Global,
    received: &Received<'_>,
    reference: &Text,
    account: &Text,
    value: &Value,
) -> Result<List<Field>, Memory>
    requires { IsValue value.now }
    ensures { IfOk result (λ fields. fields ≡ credit_fields received.now reference.now account.now value.now) }
{
    let mut out = List::new(alloc);
    out.push(put_reference(alloc, 20, reference)?)?;
    push_copied(alloc, received.fields.as_slice(), 21, b" ", &mut out)?;
    out.push(put_short_line(alloc, 25, account)?)?;
    out.push(put_value(alloc, value)?)?;
    push_ordering(alloc, received, &mut out)?;
    Ok(out)
}
