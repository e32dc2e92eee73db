//! The kind of content of field 61.

ghost use Rattle.std.specs.Prelude.{◌≤◌};
ghost use Rattle.corr_money.specs.Amounts.{most_decimals};

use crate::entry::{Line61, read_line};
use fin_fields::FieldLines;
use fin_layout::{Content, Refusal};
use std::alloc::Global;

/// A statement line in a currency of so many decimals, at most 4.
///
/// Its parts, in order: the value date, `6!n`; an entry date, `4!n`, or none; a mark, C, D, RC or RD; a capital letter or none;
/// the amount, the longest run of digits and commas; a type, `1!a3!c`, that begins with S, N or F and has three digits after S;
/// a reference, `16x`, which the first `//` ends; `//` and `16x`, or none; and a further line, `34x`, or none. P24: the field
/// has another form. T50: the value date is none. T40, T43, C03, P27: as in other amounts. Zero is accepted.
#[derive(Clone, Copy)]
pub struct StatementLine {
    pub decimals: u8,
    ghost few: { decimals ≤ most_decimals },
}

impl Content for StatementLine {
    ghost use Rattle.mt950.specs.Entry.{line_of};

    type Value = Line61;

    ghost meaning = { λ c f. line_of c.decimals f };

    fn read(&self, alloc: Global, f: &FieldLines<'_>) -> Result<Line61, Refusal> {
        read_line(alloc, self.decimals, f)
    }
}
