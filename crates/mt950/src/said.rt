//! What the fields of an MT950 say, with the currency of each balance.

ghost use Rattle.std.specs.Prelude.{◌≡◌, ◌≤◌, Some, length};
ghost use Rattle.fin_fields.specs.Fields.{most_text_lines};
ghost use Rattle.fin_layout.specs.Contents.{all_from};
ghost use Rattle.fin_layout.specs.Reading.{Gives};
ghost use Rattle.mt950.specs.Entry.{line_of};
ghost use Rattle.mt950.specs.Order.{at_lines};
ghost use Rattle.ref_tables.specs.Seen.{decimals_in};
ghost use Rattle.mt950.specs.Page.{said_of};

use crate::balance::{Stated, StatedBalance};
use crate::entry::Line61;
use crate::line::StatementLine;
use crate::number::{Numbers, StatementNumber};
use crate::order::ORDER;
use crate::places::{ACCOUNT, AVAILABLE, CLOSING, LINES, NUMBER, OPENING, REFERENCE};
use corr_text::{List, Text};
use fin_contents::{Reference, ShortLine};
use fin_fields::FieldLines;
use fin_layout::{Found, MtFault, read_all, read_one, read_optional};
use ref_tables::RefTables;
use std::alloc::Global;

/// What 20, 25, 28C, 60a, 61, 62a and 64 say.
#[derive(Drop)]
pub struct Said {
    pub reference: Text,
    pub account: Text,
    pub numbers: Numbers,
    pub opening: Stated,
    pub lines: List<Line61>,
    pub closing: Stated,
    pub available: Option<Stated>,
}

/// The lines, in the currency of the opening.
fn read_lines(
    alloc: Global,
    tables: &RefTables,
    opening: &Stated,
    fields: &[FieldLines<'_>],
    found: &Found,
) -> Result<List<Line61>, MtFault>
    requires few { length fields.now ≤ most_text_lines }
    requires each { length found.now ≤ length fields.now }
    requires known { decimals_in tables.now opening.now.ccy.0 ≡ Some opening.now.decimals }
    ensures { Gives result (all_from fields.now at_lines (line_of opening.now.decimals) 0 found.now fields.now) }
{
    let line = StatementLine {
        decimals: tables.decimals(opening.ccy).unwrap_or(0),
    };
    read_all(alloc, &line, fields, found, LINES)
}

/// What fields at these places say. `Bad`: what is wrong with the first of them that is refused, or P23 where one that must be
/// there is missing before it.
#[tactic(auto, unfolding(crate::specs::Page::said_of))]
pub fn read_said(
    alloc: Global,
    tables: &RefTables,
    fields: &[FieldLines<'_>],
    found: &Found,
) -> Result<Said, MtFault>
    requires few { length fields.now ≤ most_text_lines }
    requires each { length found.now ≤ length fields.now }
    ensures { Gives result (said_of tables.now fields.now found.now) }
{
    let stated = StatedBalance { tables };
    let reference = read_one(alloc, &Reference, &ORDER, fields, found, REFERENCE)?;
    let account = read_one(
        alloc,
        &ShortLine { most: 35 },
        &ORDER,
        fields,
        found,
        ACCOUNT,
    )?;
    let numbers = read_one(alloc, &StatementNumber, &ORDER, fields, found, NUMBER)?;
    let opening = read_one(alloc, &stated, &ORDER, fields, found, OPENING)?;
    let lines = read_lines(alloc, tables, &opening, fields, found)?;
    let closing = read_one(alloc, &stated, &ORDER, fields, found, CLOSING)?;
    let available = read_optional(alloc, &stated, fields, found, AVAILABLE)?;
    Ok(Said {
        reference,
        account,
        numbers,
        opening,
        lines,
        closing,
        available,
    })
}
