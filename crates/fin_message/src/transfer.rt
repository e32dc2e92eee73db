//! A customer transfer: its fields, then its rules.

ghost use Rattle.std.specs.Prelude.{◌≡◌, ◌≤◌, IsTrue, length};
ghost use Rattle.fin_fields.specs.Fields.{fields_of, most_text_lines};
ghost use Rattle.fin_layout.specs.Reading.{Fills};
ghost use Rattle.fin_message.specs.Filling.{is_transfer};
ghost use Rattle.fin_message.specs.inner.Filling.{with_text};
ghost use Rattle.fin_message.specs.Verdict.{transfer_in};
ghost use Rattle.fin_message.specs.inner.Verdict.{ruled_of};

use crate::message::Message;
use crate::parts::fill_envelope;
use corr_ids::Envelope;
use corr_text::put;
use fin_blocks::Blocks;
use fin_fields::FieldLines;
use fin_layout::{Found, MtFault};
use mt103::{Mt103, fill_mt103};
use mt103_rules::first_rule;
use ref_tables::RefTables;
use std::alloc::Global;

fn is_transfer(message: &Message) -> bool
    ensures { result ≡ is_transfer message.now }
{
    matches!(message, Message::Transfer(_, _, _))
}

/// Puts a transfer that says nothing in the place of another message.
#[inline(never)]
fn put_blank(alloc: Global, out: &mut Message)
    ensures { IsTrue (is_transfer out.new) }
{
    put(out, Message::blank(alloc));
}

/// Makes a place hold a transfer, whatever it says.
fn make_transfer(alloc: Global, out: &mut Message)
    ensures { IsTrue (is_transfer out.new) }
{
    if !is_transfer(out) {
        put_blank(alloc, out);
    }
}

/// Fills a transfer with what these fields say, and tests its rules.
#[tactic(auto, unfolding(crate::specs::inner::Verdict::ruled_of))]
fn fill_transfer(
    alloc: Global,
    t: &RefTables,
    fields: &[FieldLines<'_>],
    envelope: &Envelope,
    found: &mut Found,
    transfer: &mut Mt103,
) -> Result<(), MtFault>
    requires few { length fields.now ≤ most_text_lines }
    ensures value { Fills result transfer.new (ruled_of t.now envelope.now fields.now) }
{
    fill_mt103(alloc, fields, t, found, transfer)?;
    match first_rule(transfer, &envelope.sender, &envelope.receiver, t) {
        Some(fault) => Err(MtFault::Bad(fault)),
        None => Ok(()),
    }
}

/// Puts the transfer that a message with these fields says into `out`, but for its text. `Bad`: the first test of its fields,
/// or the first of its rules; then `out` may say anything. `found` is room for the places of the fields.
#[tactic(auto, unfolding(crate::specs::Verdict::transfer_in))]
pub fn read_transfer(
    alloc: Global,
    t: &RefTables,
    blocks: &Blocks,
    fields: &[FieldLines<'_>],
    found: &mut Found,
    out: &mut Message,
) -> Result<(), MtFault>
    requires few { length fields.now ≤ most_text_lines }
    requires same { fields.now ≡ fields_of blocks.now.text }
    ensures { Fills result (with_text blocks.now.text out.new) (transfer_in t.now blocks.now) }
{
    make_transfer(alloc, out);
    match out {
        Message::Transfer(envelope, _, transfer) => {
            fill_envelope(blocks, envelope);
            fill_transfer(alloc, t, fields, envelope, found, transfer)
        }
        _ => unreachable!(),
    }
}
