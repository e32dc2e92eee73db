//! The line that tells how a command ended.

ghost use Rattle.std.specs.Prelude.{◌≡◌, ◌≤◌, ◌++◌, [], OnOk, OnErr, IfOk};
ghost use Rattle.corr_ids.specs.Day.{InCentury, yymmdd_of};
ghost use Rattle.corr_money.specs.Amounts.{most_decimals};
ghost use Rattle.corr_top.specs.declared.status.Status.TheVariants.{Full, Table, Unbalanced, Unfunded};
ghost use Rattle.corr_top.specs.Status.{HasLine, status_line_of, name_text, spaced_number, spaced_signed, status_text, why_text};

use crate::status::Status;
use corr_ids::{Day, put_yymmdd};
use corr_money::{Ccy, put_signed};
use corr_text::{Memory, Text, put_digits};
use ref_tables::{TableName, Why};
use std::alloc::Global;

#[tactic(auto, unfolding(crate::specs::Status::spaced_number))]
fn put_number(alloc: Global, n: u64, out: &mut Text) -> Result<(), Memory>
    ensures { OnOk result (out.new ≡ out.old ++ spaced_number n) }
{
    out.push(b" ")?;
    put_digits(alloc, n, 1, out)
}

#[tactic(auto, unfolding(crate::specs::Status::spaced_signed))]
fn put_balance(alloc: Global, v: i64, out: &mut Text) -> Result<(), Memory>
    ensures { OnOk result (out.new ≡ out.old ++ spaced_signed v) }
{
    let sign: &[u8] = if v < 0 { b"-" } else { b"" };
    out.push(b" ")?;
    out.push(sign)?;
    put_digits(alloc, v.unsigned_abs(), 1, out)
}

fn table_name(table: TableName) -> &'static [u8]
    ensures { result.now ≡ name_text table }
{
    match table {
        TableName::Bics => b"bics",
        TableName::Ccys => b"ccys",
        TableName::Countries => b"countries",
        TableName::Accounts => b"accounts",
        TableName::Ssi => b"ssi",
        TableName::Charges => b"charges",
    }
}

fn put_why(alloc: Global, why: Why, out: &mut Text) -> Result<(), Memory>
    ensures { OnOk result (out.new ≡ out.old ++ why_text why) }
{
    match why {
        Why::Columns => out.push(b" columns"),
        Why::Value { col } => {
            out.push(b" value")?;
            put_number(alloc, col as u64, out)
        }
        Why::Double { row } => {
            out.push(b" double")?;
            put_number(alloc, row as u64, out)
        }
        Why::Bic => out.push(b" bic"),
        Why::Currency => out.push(b" currency"),
        Why::Limits => out.push(b" limits"),
        Why::Overlap { row } => {
            out.push(b" overlap")?;
            put_number(alloc, row as u64, out)
        }
        Why::Span => out.push(b" span"),
        Why::Rows => out.push(b" rows"),
    }
}

/// Words and a number.
fn put_one(alloc: Global, words: &[u8], number: u64, out: &mut Text) -> Result<(), Memory>
    ensures { OnOk result (out.new ≡ out.old ++ words.now ++ spaced_number number) }
{
    out.push(words)?;
    put_number(alloc, number, out)
}

/// Words and a day.
fn put_date(words: &[u8], day: Day, out: &mut Text) -> Result<(), Memory>
    requires { InCentury day }
    ensures { OnOk result (out.new ≡ out.old ++ words.now ++ yymmdd_of day) }
{
    out.push(words)?;
    put_yymmdd(day, out)
}

/// Words and two numbers.
fn put_two(
    alloc: Global,
    words: &[u8],
    first: u64,
    second: u64,
    out: &mut Text,
) -> Result<(), Memory>
    ensures { OnOk result (out.new ≡ out.old ++ words.now ++ spaced_number first ++ spaced_number second) }
{
    out.push(words)?;
    put_number(alloc, first, out)?;
    put_number(alloc, second, out)
}

/// A table, one of its rows, and what is wrong with that.
fn put_table(
    alloc: Global,
    table: TableName,
    row: u32,
    why: Why,
    out: &mut Text,
) -> Result<(), Memory>
    ensures { OnOk result (out.new ≡ out.old ++ status_text (Table table row why)) }
{
    out.push(b"table ")?;
    out.push(table_name(table))?;
    put_number(alloc, row as u64, out)?;
    put_why(alloc, why, out)
}

/// A currency and the sum of its openings.
fn put_sum(alloc: Global, ccy: Ccy, decimals: u8, sum: i64, out: &mut Text) -> Result<(), Memory>
    requires { decimals ≤ most_decimals }
    ensures { OnOk result (out.new ≡ out.old ++ status_text (Unbalanced ccy decimals sum)) }
{
    out.push(b"unbalanced ")?;
    out.push(&ccy.0)?;
    out.push(b" ")?;
    put_signed(alloc, sum, decimals, out)
}

/// A journal without room.
fn put_full(alloc: Global, entries: u32, end: u64, need: u64, out: &mut Text) -> Result<(), Memory>
    ensures { OnOk result (out.new ≡ out.old ++ status_text (Full entries end need)) }
{
    put_two(alloc, b"full", entries as u64, end, out)?;
    put_number(alloc, need, out)
}

/// An account that can't take a leg.
fn put_unfunded(alloc: Global, leg: u8, balance: i64, out: &mut Text) -> Result<(), Memory>
    ensures { OnOk result (out.new ≡ out.old ++ status_text (Unfunded leg balance)) }
{
    put_one(alloc, b"unfunded", leg as u64, out)?;
    put_balance(alloc, balance, out)
}

fn put_status(alloc: Global, s: &Status, out: &mut Text) -> Result<(), Memory>
    requires { HasLine s.now }
    ensures { OnOk result (out.new ≡ out.old ++ status_text s.now) }
{
    match s {
        Status::Done => out.push(b"done"),
        Status::Usage => out.push(b"usage"),
        Status::Table { table, row, why } => put_table(alloc, *table, *row, *why, out),
        Status::ReadFault { before, after } => put_two(alloc, b"read fault", *before, *after, out),
        Status::WriteFault { before, after } => {
            put_two(alloc, b"write fault", *before, *after, out)
        }
        Status::DiskFault { before, after } => put_two(alloc, b"disk fault", *before, *after, out),
        Status::SecondDiskFault { before, after } => {
            put_two(alloc, b"second disk fault", *before, *after, out)
        }
        Status::NotAJournal => out.push(b"not a journal"),
        Status::Damaged { at } => put_one(alloc, b"damaged", *at, out),
        Status::Unbalanced { ccy, decimals, sum } => put_sum(alloc, *ccy, *decimals, *sum, out),
        Status::Exists { first } => put_one(alloc, b"exists", *first as u64, out),
        Status::Memory => out.push(b"no memory"),
        Status::DateBack { last } => put_date(b"date back ", *last, out),
        Status::TooLarge { bytes, messages } => {
            put_two(alloc, b"too large", *bytes, *messages as u64, out)
        }
        Status::Framing { at } => put_one(alloc, b"framing", *at, out),
        Status::Full { entries, end, need } => put_full(alloc, *entries, *end, *need, out),
        Status::Version { found } => put_one(alloc, b"version", *found as u64, out),
        Status::Unknown => out.push(b"unknown account"),
        Status::NoSecond => out.push(b"no second disk"),
        Status::NoPayment { entries } => put_one(alloc, b"no payment", *entries as u64, out),
        Status::Returned { place } => put_one(alloc, b"returned", *place as u64, out),
        Status::NotNext { number } => put_one(alloc, b"not next", *number as u64, out),
        Status::Unfunded { leg, balance } => put_unfunded(alloc, *leg, *balance, out),
    }
}

/// Adds the line of a status.
fn put_line(alloc: Global, s: &Status, out: &mut Text) -> Result<(), Memory>
    requires { HasLine s.now }
    ensures { OnOk result (out.new ≡ out.old ++ status_line_of s.now) }
{
    out.push(b"corr: ")?;
    put_status(alloc, s, out)
}

/// Makes `out` the line that tells a status, as `corr: read fault 0 1`, without a line end (docs/operating.md, "Statuses"),
/// in place of what it held.
///
/// The decimals of an `Unbalanced` are at most 4, and the day of a `DateBack` is of 1980 to 2079. `Memory`: there was no room
/// for the line; then `out` is empty.
pub fn put_status_line(alloc: Global, s: &Status, out: &mut Text) -> Result<(), Memory>
    requires { HasLine s.now }
    ensures ok { OnOk result (out.new ≡ status_line_of s.now) }
    ensures err { OnErr result (out.new ≡ []) }
{
    out.truncate(0);
    let put = put_line(alloc, s, out);
    if put.is_err() {
        out.truncate(0);
    }
    put
}

/// The line of `put_status_line` as a text of its own, of the same statuses. `Memory`: there was no room for it.
pub fn status_line(alloc: Global, s: &Status) -> Result<Text, Memory>
    requires { HasLine s.now }
    ensures { IfOk result (λ line. line ≡ status_line_of s.now) }
{
    let mut line = Text::from_bytes(alloc, b"")?;
    put_status_line(alloc, s, &mut line)?;
    Ok(line)
}
