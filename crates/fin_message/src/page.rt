//! A page of a statement.

ghost use Rattle.std.specs.Prelude.{◌≡◌, ◌≤◌, length};
ghost use Rattle.fin_fields.specs.Fields.{fields_of, most_text_lines};
ghost use Rattle.fin_layout.specs.Reading.{Fills};
ghost use Rattle.fin_message.specs.inner.Filling.{with_text};
ghost use Rattle.fin_message.specs.Verdict.{page_in};

use crate::message::Message;
use crate::parts::envelope;
use corr_text::put;
use fin_blocks::Blocks;
use fin_fields::FieldLines;
use fin_layout::MtFault;
use mt950::read_mt950_lines;
use ref_tables::RefTables;
use std::alloc::Global;

/// Puts the page of a statement that a message with these fields says into `out`. `Bad`: the first test of its fields, or of its
/// currencies.
#[inline(never)]
#[tactic(auto, unfolding(crate::specs::Verdict::page_in))]
pub fn read_page(
    alloc: Global,
    t: &RefTables,
    blocks: &Blocks,
    fields: &[FieldLines<'_>],
    out: &mut Message,
) -> Result<(), MtFault>
    requires few { length fields.now ≤ most_text_lines }
    requires same { fields.now ≡ fields_of blocks.now.text }
    ensures { Fills result (with_text blocks.now.text out.new) (page_in t.now blocks.now) }
{
    let page = read_mt950_lines(alloc, fields, t)?;
    put(out, Message::Page(envelope(blocks), page));
    Ok(())
}
