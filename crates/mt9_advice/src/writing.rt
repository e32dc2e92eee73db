//! Advices written as block 4's lines.

ghost use Rattle.std.specs.Prelude.{◌≡◌, ◌++◌, List as Items, IfOk, None, Ok, OnOk, Some};
ghost use Rattle.fin_contents.specs.Writing.{IsReadable, IsValue, line_field, some_field};
ghost use Rattle.fin_fields.specs.Faults.{field_fault};
ghost use Rattle.fin_fields.specs.Fields.{fields_of};
ghost use Rattle.fin_fields.specs.Writing.{fields_text};
ghost use Rattle.fin_fields.specs.declared.field.Field.{Field as FieldSeen};
ghost use Rattle.fin_layout.specs.Segments.{joined};
ghost use Rattle.mt9_advice.specs.Advice.{mt900_of, mt910_of};
ghost use Rattle.mt9_advice.specs.Writing.{booking_fields, fields_900, fields_910};
ghost use Rattle.ref_tables.specs.Seen.{Tables};

use crate::credit::Mt910;
use crate::debit::Mt900;
use corr_text::{List, Memory, Text};
use fin_contents::{
    Value, line_field, push_party, push_texts, put_reference, put_short_line, put_value,
};
use fin_fields::{Field, put_fields};
use std::alloc::Global;

fn push_stamp(alloc: Global, at: &Option<Text>, fields: &mut List<Field>) -> Result<(), Memory>
    ensures { OnOk result (fields.new ≡ fields.old ++ some_field (line_field 13 (Some 68)) at.now) }
{
    match at {
        Some(at) => fields.push(line_field(alloc, 13, Some(b'D'), at.bytes())?),
        None => Ok(()),
    }
}

// 20, 21, 25, 13D and 32A.
fn push_booking(
    alloc: Global,
    reference: &Text,
    related: &Text,
    account: &Text,
    at: &Option<Text>,
    value: &Value,
    fields: &mut List<Field>,
) -> Result<(), Memory>
    requires { IsValue value.now }
    ensures { OnOk result (fields.new ≡ fields.old ++ joined (booking_fields reference.now related.now account.now at.now value.now)) }
{
    fields.push(put_reference(alloc, 20, reference)?)?;
    fields.push(put_short_line(alloc, 21, related)?)?;
    fields.push(put_short_line(alloc, 25, account)?)?;
    push_stamp(alloc, at, fields)?;
    fields.push(put_value(alloc, value)?)
}

#[tactic(auto, unfolding(crate::specs::Writing::fields_900))]
fn fields_900(alloc: Global, m: &Mt900) -> Result<List<Field>, Memory>
    requires { IsValue (record { day = m.now.value; amount = m.now.amount }) }
    ensures { IfOk result (λ fields. fields ≡ fields_900 m.now) }
{
    let value = Value {
        day: m.value,
        amount: m.amount,
    };
    let mut fields = List::new(alloc);
    push_booking(
        alloc,
        &m.reference,
        &m.related,
        &m.account,
        &m.at,
        &value,
        &mut fields,
    )?;
    push_party(alloc, 52, &m.p52, &mut fields)?;
    push_texts(alloc, 72, None, m.notes.as_slice(), &mut fields)?;
    Ok(fields)
}

#[tactic(auto, unfolding(crate::specs::Writing::fields_910))]
fn fields_910(alloc: Global, m: &Mt910) -> Result<List<Field>, Memory>
    requires { IsValue (record { day = m.now.value; amount = m.now.amount }) }
    ensures { IfOk result (λ fields. fields ≡ fields_910 m.now) }
{
    let value = Value {
        day: m.value,
        amount: m.amount,
    };
    let mut fields = List::new(alloc);
    push_booking(
        alloc,
        &m.reference,
        &m.related,
        &m.account,
        &m.at,
        &value,
        &mut fields,
    )?;
    push_party(alloc, 50, &m.payer, &mut fields)?;
    push_party(alloc, 52, &m.p52, &mut fields)?;
    push_party(alloc, 56, &m.p56, &mut fields)?;
    push_texts(alloc, 72, None, m.notes.as_slice(), &mut fields)?;
    Ok(fields)
}

/// Writes the confirmation of a debit as block 4's lines: its fields in the order of their places, each line ended by CR LF.
///
/// The confirmation is one that `read_mt900` gives of fields that were cut from a text (its clause `written`). The lines are cut
/// into fields without fault (`sound`), and under all tables under which the confirmation may be read they read as the same
/// one (`again`).
pub fn put_mt900(alloc: Global, m: &Mt900) -> Result<Text, Memory>
    requires { IsReadable mt900_of m.now }
    ensures text { IfOk result (λ text. text ≡ fields_text (fields_900 m.now)) }
    ensures sound { IfOk result (λ text. field_fault text ≡ None) }
    ensures again { IfOk result (λ text. (t : Tables) (fs : Items FieldSeen) → mt900_of t fs ≡ Ok m.now → mt900_of t (fields_of text) ≡ Ok m.now) }
{
    let fields = fields_900(alloc, m)?;
    put_fields(alloc, fields.as_slice())
}

/// Writes the confirmation of a credit as block 4's lines: its fields in the order of their places, each line ended by CR LF.
///
/// The confirmation is one that `read_mt910` gives of fields that were cut from a text (its clause `written`). The lines are cut
/// into fields without fault (`sound`), and under all tables under which the confirmation may be read they read as the same
/// one (`again`).
pub fn put_mt910(alloc: Global, m: &Mt910) -> Result<Text, Memory>
    requires { IsReadable mt910_of m.now }
    ensures text { IfOk result (λ text. text ≡ fields_text (fields_910 m.now)) }
    ensures sound { IfOk result (λ text. field_fault text ≡ None) }
    ensures again { IfOk result (λ text. (t : Tables) (fs : Items FieldSeen) → mt910_of t fs ≡ Ok m.now → mt910_of t (fields_of text) ≡ Ok m.now) }
{
    let fields = fields_910(alloc, m)?;
    put_fields(alloc, fields.as_slice())
}
