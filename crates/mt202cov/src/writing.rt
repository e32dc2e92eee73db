//! An MT202 COV written as block 4's lines.

ghost use Rattle.std.specs.Prelude.{◌≡◌, ◌++◌, List as Items, IfOk, Ok, OnOk, None};
ghost use Rattle.fin_contents.specs.Writing.{IsReadable};
ghost use Rattle.fin_fields.specs.Faults.{field_fault};
ghost use Rattle.fin_fields.specs.Fields.{fields_of};
ghost use Rattle.fin_fields.specs.Writing.{fields_text};
ghost use Rattle.fin_fields.specs.declared.field.Field.{Field as FieldSeen};
ghost use Rattle.fin_layout.specs.Segments.{joined};
ghost use Rattle.mt202cov.specs.Message.{mt202cov_of};
ghost use Rattle.mt202cov.specs.Writing.{bank_fields, mt202cov_fields, sequence_a_fields, sequence_b_fields, terms_fields};
ghost use Rattle.mt202cov.specs.inner.Writing.{AreAmounts};
ghost use Rattle.ref_tables.specs.Seen.{Tables};

use crate::message::Mt202Cov;
use corr_text::{List, Memory, Text};
use fin_contents::{
    Value, push_ccy_amount, push_party, push_texts, push_times, put_known_party, put_reference,
    put_value,
};
use fin_fields::{Field, put_fields};
use std::alloc::Global;

// 20 to 32A.
fn push_terms(alloc: Global, m: &Mt202Cov, fields: &mut List<Field>) -> Result<(), Memory>
    requires { AreAmounts m.now }
    ensures { OnOk result (fields.new ≡ fields.old ++ joined (terms_fields m.now)) }
{
    let value = Value {
        day: m.value,
        amount: m.amount,
    };
    fields.push(put_reference(alloc, 20, &m.reference)?)?;
    fields.push(put_reference(alloc, 21, &m.related)?)?;
    push_times(alloc, m.times.as_slice(), fields)?;
    fields.push(put_value(alloc, &value)?)
}

// 52a to 58a of sequence A.
fn push_banks(alloc: Global, m: &Mt202Cov, fields: &mut List<Field>) -> Result<(), Memory>
    ensures { OnOk result (fields.new ≡ fields.old ++ joined (bank_fields m.now)) }
{
    push_party(alloc, 52, &m.a52, fields)?;
    push_party(alloc, 53, &m.a53, fields)?;
    push_party(alloc, 54, &m.a54, fields)?;
    push_party(alloc, 56, &m.a56, fields)?;
    push_party(alloc, 57, &m.a57, fields)?;
    fields.push(put_known_party(alloc, 58, &m.a58)?)
}

fn push_sequence_a(alloc: Global, m: &Mt202Cov, fields: &mut List<Field>) -> Result<(), Memory>
    requires { AreAmounts m.now }
    ensures { OnOk result (fields.new ≡ fields.old ++ joined (sequence_a_fields m.now)) }
{
    push_terms(alloc, m, fields)?;
    push_banks(alloc, m, fields)?;
    push_texts(alloc, 72, None, m.a_notes.as_slice(), fields)
}

fn push_sequence_b(alloc: Global, m: &Mt202Cov, fields: &mut List<Field>) -> Result<(), Memory>
    requires { AreAmounts m.now }
    ensures { OnOk result (fields.new ≡ fields.old ++ joined (sequence_b_fields m.now)) }
{
    fields.push(put_known_party(alloc, 50, &m.payer)?)?;
    push_party(alloc, 52, &m.b52, fields)?;
    push_party(alloc, 56, &m.b56, fields)?;
    push_party(alloc, 57, &m.b57, fields)?;
    fields.push(put_known_party(alloc, 59, &m.payee)?)?;
    push_texts(alloc, 70, None, m.info.as_slice(), fields)?;
    push_texts(alloc, 72, None, m.b_notes.as_slice(), fields)?;
    push_ccy_amount(alloc, 33, Some(b'B'), &m.ordered, fields)
}

#[tactic(auto, unfolding(crate::specs::Writing::mt202cov_fields))]
fn mt202cov_fields(alloc: Global, m: &Mt202Cov) -> Result<List<Field>, Memory>
    requires { AreAmounts m.now }
    ensures { IfOk result (λ fields. fields ≡ mt202cov_fields m.now) }
{
    let mut fields = List::new(alloc);
    push_sequence_a(alloc, m, &mut fields)?;
    push_sequence_b(alloc, m, &mut fields)?;
    Ok(fields)
}

/// Writes a cover as block 4's lines: its fields in the order of their places, each line ended by CR LF.
///
/// The cover is one that `read_mt202cov` gives of fields that were cut from a text (its clause `written`). The lines are cut
/// into fields without fault (`sound`), and under all tables under which the cover may be read they read as the same cover
/// (`again`).
///
/// Example: the fields of sequence B follow `:58A:` and 72 of sequence A, and begin with `:50K:`.
pub fn put_mt202cov(alloc: Global, m: &Mt202Cov) -> Result<Text, Memory>
    requires { IsReadable mt202cov_of m.now }
    ensures text { IfOk result (λ text. text ≡ fields_text (mt202cov_fields m.now)) }
    ensures sound { IfOk result (λ text. field_fault text ≡ None) }
    ensures again { IfOk result (λ text. (t : Tables) (fs : Items FieldSeen) → mt202cov_of t fs ≡ Ok m.now → mt202cov_of t (fields_of text) ≡ Ok m.now) }
{
    let fields = mt202cov_fields(alloc, m)?;
    put_fields(alloc, fields.as_slice())
}
