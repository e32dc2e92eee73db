//! The confirmations of a debit and of a credit.

ghost use Rattle.std.specs.Prelude.{◌≡◌, ◌≤◌, length};
ghost use Rattle.fin_fields.specs.Fields.{fields_of, most_text_lines};
ghost use Rattle.fin_layout.specs.Reading.{Fills};
ghost use Rattle.fin_message.specs.inner.Filling.{with_text};
ghost use Rattle.fin_message.specs.Verdict.{credit_in, debit_in};

use crate::message::Message;
use crate::parts::envelope;
use corr_text::put;
use fin_blocks::Blocks;
use fin_fields::FieldLines;
use fin_layout::MtFault;
use mt9_advice::{read_mt900_lines, read_mt910_lines};
use ref_tables::RefTables;
use std::alloc::Global;

/// Puts the confirmation of a debit that a message with these fields says into `out`. `Bad`: the first test of its fields.
#[inline(never)]
#[tactic(auto, unfolding(crate::specs::Verdict::debit_in))]
pub fn read_debit(
    alloc: Global,
    t: &RefTables,
    blocks: &Blocks,
    fields: &[FieldLines<'_>],
    out: &mut Message,
) -> Result<(), MtFault>
    requires few { length fields.now ≤ most_text_lines }
    requires same { fields.now ≡ fields_of blocks.now.text }
    ensures { Fills result (with_text blocks.now.text out.new) (debit_in t.now blocks.now) }
{
    let advice = read_mt900_lines(alloc, fields, t)?;
    put(out, Message::Debit(envelope(blocks), advice));
    Ok(())
}

/// Puts the confirmation of a credit that a message with these fields says into `out`. `Bad`: the first test of its fields, or
/// its rule.
#[inline(never)]
#[tactic(auto, unfolding(crate::specs::Verdict::credit_in))]
pub fn read_credit(
    alloc: Global,
    t: &RefTables,
    blocks: &Blocks,
    fields: &[FieldLines<'_>],
    out: &mut Message,
) -> Result<(), MtFault>
    requires few { length fields.now ≤ most_text_lines }
    requires same { fields.now ≡ fields_of blocks.now.text }
    ensures { Fills result (with_text blocks.now.text out.new) (credit_in t.now blocks.now) }
{
    let advice = read_mt910_lines(alloc, fields, t)?;
    put(out, Message::Credit(envelope(blocks), advice));
    Ok(())
}
