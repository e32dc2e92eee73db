//! An MT103 written as block 4's lines.

ghost use Rattle.std.specs.Prelude.{◌≡◌, ◌++◌, List as Items, IfOk, None, Ok, OnOk, Some, map};
ghost use Rattle.fin_contents.specs.Writing.{IsReadable, line_field, some_field};
ghost use Rattle.fin_fields.specs.Faults.{field_fault};
ghost use Rattle.fin_fields.specs.Fields.{fields_of};
ghost use Rattle.fin_fields.specs.Writing.{fields_text};
ghost use Rattle.fin_fields.specs.declared.field.Field.{Field as FieldSeen};
ghost use Rattle.fin_layout.specs.Segments.{joined};
ghost use Rattle.mt103.specs.Message.{mt103_of};
ghost use Rattle.mt103.specs.Writing.{detail_segments, instr_field, money_fields, mt103_fields, head_segments, party_segments, text_after};
ghost use Rattle.mt103.specs.inner.Writing.{AreAmounts};
ghost use Rattle.ref_tables.specs.Seen.{Tables};

use crate::instruction::Instr;
use crate::message::Mt103;
use corr_text::{List, Memory, Text};
use fin_contents::{
    Value, line_field, push_ccy_amount, push_ccy_amounts, push_party, push_rate, push_texts,
    push_times, put_known_party, put_reference, put_value,
};
use fin_fields::{Field, put_fields};
use std::alloc::Global;

fn put_text_after(text: &Option<Text>, out: &mut Text) -> Result<(), Memory>
    ensures { OnOk result (out.new ≡ out.old ++ text_after text.now) }
{
    match text {
        Some(text) => {
            out.push(b"/")?;
            out.push(text.bytes())
        }
        None => Ok(()),
    }
}

fn put_instr(alloc: Global, i: &Instr) -> Result<Field, Memory>
    ensures { IfOk result (λ f. f ≡ instr_field i.now) }
{
    let mut line = Text::from_bytes(alloc, &i.code)?;
    put_text_after(&i.text, &mut line)?;
    line_field(alloc, 23, Some(b'E'), line.bytes())
}

fn push_instrs(alloc: Global, instrs: &[Instr], fields: &mut List<Field>) -> Result<(), Memory>
    ensures { OnOk result (fields.new ≡ fields.old ++ map instr_field instrs.now) }
{
    for instr in instrs {
        fields.push(put_instr(alloc, instr)?)?;
    }
    Ok(())
}

fn push_kind(alloc: Global, kind: &Option<[u8; 3]>, fields: &mut List<Field>) -> Result<(), Memory>
    ensures { OnOk result (fields.new ≡ fields.old ++ some_field (line_field 26 (Some 84)) kind.now) }
{
    match kind {
        Some(kind) => fields.push(line_field(alloc, 26, Some(b'T'), kind)?),
        None => Ok(()),
    }
}

// 20 to 26T.
fn push_order(alloc: Global, m: &Mt103, fields: &mut List<Field>) -> Result<(), Memory>
    ensures { OnOk result (fields.new ≡ fields.old ++ joined (head_segments m.now)) }
{
    fields.push(put_reference(alloc, 20, &m.reference)?)?;
    push_times(alloc, m.times.as_slice(), fields)?;
    fields.push(line_field(alloc, 23, Some(b'B'), &m.op)?)?;
    push_instrs(alloc, m.instrs.as_slice(), fields)?;
    push_kind(alloc, &m.kind, fields)
}

// 32A to 36.
fn push_money(alloc: Global, m: &Mt103, fields: &mut List<Field>) -> Result<(), Memory>
    requires { AreAmounts m.now }
    ensures { OnOk result (fields.new ≡ fields.old ++ joined (money_fields m.now)) }
{
    let value = Value {
        day: m.value,
        amount: m.amount,
    };
    fields.push(put_value(alloc, &value)?)?;
    push_ccy_amount(alloc, 33, Some(b'B'), &m.ordered, fields)?;
    push_rate(alloc, &m.rate, fields)
}

// 50a to 59a.
fn push_parties(alloc: Global, m: &Mt103, fields: &mut List<Field>) -> Result<(), Memory>
    ensures { OnOk result (fields.new ≡ fields.old ++ joined (party_segments m.now)) }
{
    fields.push(put_known_party(alloc, 50, &m.payer)?)?;
    push_party(alloc, 52, &m.p52, fields)?;
    push_party(alloc, 53, &m.p53, fields)?;
    push_party(alloc, 54, &m.p54, fields)?;
    push_party(alloc, 55, &m.p55, fields)?;
    push_party(alloc, 56, &m.p56, fields)?;
    push_party(alloc, 57, &m.p57, fields)?;
    fields.push(put_known_party(alloc, 59, &m.payee)?)
}

// 70 to 77B.
fn push_details(alloc: Global, m: &Mt103, fields: &mut List<Field>) -> Result<(), Memory>
    requires { AreAmounts m.now }
    ensures { OnOk result (fields.new ≡ fields.old ++ joined (detail_segments m.now)) }
{
    push_texts(alloc, 70, None, m.info.as_slice(), fields)?;
    fields.push(line_field(alloc, 71, Some(b'A'), &m.charge)?)?;
    push_ccy_amounts(alloc, 71, Some(b'F'), m.taken.as_slice(), fields)?;
    push_ccy_amount(alloc, 71, Some(b'G'), &m.given, fields)?;
    push_texts(alloc, 72, None, m.notes.as_slice(), fields)?;
    push_texts(alloc, 77, Some(b'B'), m.regulatory.as_slice(), fields)
}

#[tactic(auto, unfolding(crate::specs::Writing::mt103_fields))]
fn mt103_fields(alloc: Global, m: &Mt103) -> Result<List<Field>, Memory>
    requires { AreAmounts m.now }
    ensures { IfOk result (λ fields. fields ≡ mt103_fields m.now) }
{
    let mut fields = List::new(alloc);
    push_order(alloc, m, &mut fields)?;
    push_money(alloc, m, &mut fields)?;
    push_parties(alloc, m, &mut fields)?;
    push_details(alloc, m, &mut fields)?;
    Ok(fields)
}

/// Writes a transfer as block 4's lines: its fields in the order of their places, each line ended by CR LF.
///
/// The transfer is one that `read_mt103` gives of fields that were cut from a text (its clause `written`). The lines are cut
/// into fields without fault (`sound`), and under all tables under which the transfer may be read they read as the same
/// transfer (`again`).
///
/// Example: 123450 cents of EUR are written `EUR1234,50` whether they were read so or as `EUR1234,5`.
pub fn put_mt103(alloc: Global, m: &Mt103) -> Result<Text, Memory>
    requires { IsReadable mt103_of m.now }
    ensures text { IfOk result (λ text. text ≡ fields_text (mt103_fields m.now)) }
    ensures sound { IfOk result (λ text. field_fault text ≡ None) }
    ensures again { IfOk result (λ text. (t : Tables) (fs : Items FieldSeen) → mt103_of t fs ≡ Ok m.now → mt103_of t (fields_of text) ≡ Ok m.now) }
{
    let fields = mt103_fields(alloc, m)?;
    put_fields(alloc, fields.as_slice())
}
