//! A cover payment: its fields and its rules.

ghost use Rattle.std.specs.Prelude.{◌≡◌, ◌≤◌, length};
ghost use Rattle.fin_fields.specs.Fields.{fields_of, most_text_lines};
ghost use Rattle.fin_layout.specs.Reading.{Fills};
ghost use Rattle.fin_message.specs.inner.Filling.{with_text};
ghost use Rattle.fin_message.specs.Verdict.{cover_in};

use crate::message::Message;
use crate::parts::envelope;
use corr_text::{Text, put};
use fin_blocks::Blocks;
use fin_fields::FieldLines;
use fin_layout::MtFault;
use mt202cov::read_mt202cov_lines;
use ref_tables::RefTables;
use std::alloc::Global;

/// Puts the cover that a message with these fields says into `out`, but for its text. `Bad`: the first test of its fields, or
/// the first of its rules.
#[inline(never)]
#[tactic(auto, unfolding(crate::specs::Verdict::cover_in))]
pub fn read_cover(
    alloc: Global,
    t: &RefTables,
    blocks: &Blocks,
    fields: &[FieldLines<'_>],
    out: &mut Message,
) -> Result<(), MtFault>
    requires few { length fields.now ≤ most_text_lines }
    requires same { fields.now ≡ fields_of blocks.now.text }
    ensures { Fills result (with_text blocks.now.text out.new) (cover_in t.now blocks.now) }
{
    let cover = read_mt202cov_lines(alloc, fields, t)?;
    put(
        out,
        Message::Cover(envelope(blocks), Text::from_vec(Vec::new(alloc)), cover),
    );
    Ok(())
}
