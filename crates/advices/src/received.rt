//! The message that a pay came from.

ghost use Rattle.std.specs.Prelude.{◌≡◌, ◌≤◌, ◌++◌, All, IfOk, OnOk, length, position};
ghost use Rattle.corr_ids.specs.Bic.{IsBic};
ghost use Rattle.corr_ids.specs.Mir.{IsMir};
ghost use Rattle.fin_fields.specs.Writing.{IsField};
ghost use Rattle.advices.specs.Fields.{is_named};
ghost use Rattle.advices.specs.Received.{fields_for_52, fields_in, first_fields, is_payer, ordering, received_of, sequence_a, sequence_b};
ghost use Rattle.day_model.specs.Shape.{most_text};

use crate::copying::{bank_field, first_named, is_named};
use corr_ids::Bic;
use corr_text::{List, Memory};
use day_model::{Mt, Pay};
use fin_fields::{Field, FieldFault, FieldLines, cut_lines};
use std::alloc::Global;

/// A message that was received: its type, its sender, and the fields of its text, which stay there; none where it can't be cut
/// into fields.
#[derive(Debug, Drop)]
pub struct Received<'a> {
    pub mt: Mt,
    pub sender: Bic,
    pub fields: List<FieldLines<'a>>,
}

fn fields_in(alloc: Global, text: &[u8]) -> Result<List<FieldLines<'_>>, Memory>
    requires { length text.now ≤ most_text }
    ensures value { IfOk result (λ fields. fields ≡ fields_in text.now) }
    ensures fit { IfOk result (All IsField) }
{
    match cut_lines(alloc, text) {
        Ok(fields) => Ok(fields),
        Err(FieldFault::Memory) => Err(Memory),
        Err(_) => Ok(List::new(alloc)),
    }
}

/// The message that a pay came from.
pub fn received_of(alloc: Global, pay: &Pay) -> Result<Received<'_>, Memory>
    requires mir { IsMir pay.now.mir }
    requires text { length pay.now.text ≤ most_text }
    ensures value { IfOk result (λ received. received ≡ received_of pay.now) }
    ensures fit { IfOk result (λ received. All IsField received.fields) }
    ensures sender { IfOk result (λ received. IsBic received.sender) }
{
    let address = pay.mir.sender();
    Ok(Received {
        mt: pay.mt,
        sender: Bic {
            head: address.head,
            branch: address.branch,
        },
        fields: fields_in(alloc, pay.text.bytes())?,
    })
}

fn first_payer(fields: &[FieldLines<'_>]) -> Option<usize>
    ensures { result ≡ position is_payer fields.now }
{
    fields.iter().position(|f| is_named(f, 50, b"AFK"))
}

fn first_fields(fields: &[FieldLines<'_>]) -> usize
    ensures value { result ≡ first_fields fields.now }
    ensures within { result ≤ length fields.now }
{
    match first_payer(fields) {
        Some(at) => at,
        None => fields.len(),
    }
}

/// The first sequence of a cover: the fields before 50a.
pub fn sequence_a<'a, 't>(fields: &'a [FieldLines<'t>]) -> &'a [FieldLines<'t>]
    ensures { result.now ≡ sequence_a fields.now }
{
    &fields[..first_fields(fields)]
}

/// The second sequence of a cover: the fields from 50a on.
pub fn sequence_b<'a, 't>(fields: &'a [FieldLines<'t>]) -> &'a [FieldLines<'t>]
    ensures { result.now ≡ sequence_b fields.now }
{
    &fields[first_fields(fields)..]
}

fn fields_for_52<'a, 't>(mt: Mt, fields: &'a [FieldLines<'t>]) -> &'a [FieldLines<'t>]
    ensures { result.now ≡ fields_for_52 mt fields.now }
{
    match mt {
        Mt::Transfer => fields,
        Mt::Cover => sequence_a(fields),
    }
}

/// Adds the ordering institution: 52a, in a cover that of the first sequence, and the sender's BIC where there is none.
pub fn push_ordering(
    alloc: Global,
    received: &Received<'_>,
    out: &mut List<Field>,
) -> Result<(), Memory>
    ensures { OnOk result (out.new ≡ out.old ++ ordering received.now) }
{
    let fields = fields_for_52(received.mt, received.fields.as_slice());
    match first_named(fields, 52, b"AD") {
        Some(f) => out.push(f.to_owned(alloc)?),
        None => out.push(bank_field(alloc, 52, &received.sender)?),
    }
}
