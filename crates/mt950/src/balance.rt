//! Balances: fields 60a, 62a and 64.

ghost use Rattle.std.specs.Prelude.{◌≡◌, ◌<◌, ◌≤◌, IsTrue, length};
ghost use Rattle.corr_money.specs.Amounts.{amount_end};
ghost use Rattle.fin_layout.specs.Reading.{Reads};
ghost use Rattle.mt950.specs.Balances.{is_balance_text, signed_by, stated_in, stated_of};

use corr_ids::{Day, day_from_yymmdd};
use corr_money::{Ccy, Minor};
use corr_text::Code;
use fin_contents::{T50, ccy_amount_in, is_dated_amount, one_line};
use fin_fields::FieldLines;
use fin_layout::{Content, P24, Refusal};
use ref_tables::RefTables;
use std::alloc::Global;

/// A balance on a day, in minor units, credits positive. `last` says that the field has the letter F: the first opening or the
/// last closing of a statement. Field 64 has no letter.
#[derive(Clone, Copy, Debug, PartialEq, Eq)]
pub struct Balance {
    pub last: bool,
    pub day: Day,
    pub signed: i64,
}

/// A balance with the currency that its field names, and the decimals of that currency.
#[derive(Clone, Copy, Debug, PartialEq, Eq)]
pub struct Stated {
    pub balance: Balance,
    pub ccy: Ccy,
    pub decimals: u8,
}

/// A balance, `1!a6!n3!a15d` with the mark C or D. P24: the field is not one line of this form. T50: the date is none. T52:
/// the currency is not in the table of currencies. T40, T43, C03, P27: as in other amounts. Zero is accepted.
///
/// Example: `D240603EUR1234,5` is a debit balance of 123450 cents.
#[derive(Clone, Copy)]
pub struct StatedBalance<'a> {
    pub tables: &'a RefTables,
}

fn is_balance(line: &[u8]) -> bool
    ensures value { result ≡ is_balance_text line.now }
    ensures long { IsTrue result → 11 ≤ length line.now }
{
    match line {
        [mark, dated @ ..] => (*mark == b'C' || *mark == b'D') && is_dated_amount(dated),
        [] => false,
    }
}

/// An amount as a balance: below 0 where its mark is D.
fn signed(mark: u8, minor: Minor) -> i64
    requires { minor.0 < amount_end }
    ensures { result ≡ signed_by mark minor.0 }
{
    if mark == b'D' {
        -(minor.0 as i64)
    } else {
        minor.0 as i64
    }
}

#[tactic(auto, using(crate::proofs::BalanceFields::small_amounts), unfolding(crate::specs::Balances::stated_in))]
fn stated_in(tables: &RefTables, last: bool, line: &[u8]) -> Result<Stated, Code>
    requires { IsTrue (is_balance_text line.now) }
    ensures { result ≡ stated_in tables.now last line.now }
{
    let Some(day) = day_from_yymmdd(&line[1..7]) else {
        return Err(T50);
    };
    let amount = ccy_amount_in(tables, &line[7..])?;
    Ok(Stated {
        balance: Balance {
            last,
            day,
            signed: signed(line[0], amount.minor),
        },
        ccy: amount.ccy,
        decimals: amount.decimals,
    })
}

#[tactic(auto, unfolding(crate::specs::Balances::stated_of))]
fn read_stated(tables: &RefTables, f: &FieldLines<'_>) -> Result<Stated, Refusal>
    ensures { Reads result (stated_of tables.now f.now) }
{
    let Some(line) = one_line(f) else {
        return Err(Refusal::Bad(P24));
    };
    if !is_balance(line) {
        return Err(Refusal::Bad(P24));
    }
    match stated_in(tables, f.letter() == Some(b'F'), line) {
        Ok(stated) => Ok(stated),
        Err(code) => Err(Refusal::Bad(code)),
    }
}

impl Content for StatedBalance<'_> {
    type Value = Stated;

    ghost meaning = { λ c f. stated_of c.tables.now f };

    fn read(&self, _alloc: Global, f: &FieldLines<'_>) -> Result<Stated, Refusal> {
        read_stated(self.tables, f)
    }
}
