//! The value date, currency and amount: field 32A.

ghost use Rattle.std.specs.Prelude.{◌≡◌, ◌≤◌, Err, IfErr, IfOk, IsTrue, Ok, OnOk, true, false, length};
ghost use Rattle.fin_contents.specs.Money.{is_dated_amount, value_in, value_of};
ghost use Rattle.fin_contents.specs.Writing.{IsValue, value_field};
ghost use Rattle.fin_fields.specs.Faults.{has_other_byte};
ghost use Rattle.fin_fields.specs.Writing.{IsField};
ghost use Rattle.fin_fields.specs.declared.field.Field.{Field as FieldSeen};
ghost use Rattle.fin_layout.specs.Reading.{Reads, Refills};
ghost use Rattle.ref_tables.specs.Seen.{Tables};

use crate::amount::{ccy_amount_in, is_ccy_amount, put_ccy_amount_text};
use crate::codes::{C08, P26, T50};
use crate::line::{line_field, one_line};
use crate::metal::is_metal;
use corr_ids::{Day, day_from_yymmdd, put_yymmdd};
use corr_money::{Amount, Ccy, Minor};
use corr_text::{Code, Memory, Set, Text, is_each_of};
use fin_fields::{Field, FieldLines};
use fin_layout::{Content, P24, Refill, Refusal};
use ref_tables::RefTables;
use std::alloc::Global;

/// A value date and an amount.
#[derive(Clone, Copy, Debug, PartialEq, Eq)]
pub struct Value {
    pub day: Day,
    pub amount: Amount,
}

impl Value {
    /// A place for values to be read into; what it holds before means nothing.
    pub fn blank() -> Value {
        Value {
            day: Day(0),
            amount: Amount {
                ccy: Ccy([0; 3]),
                minor: Minor(0),
                decimals: 0,
            },
        }
    }
}

/// A date, a currency and an amount, `6!n3!a15d`. P24: the field is not one line of six digits, three capital letters and
/// one or more characters of X. T50: the date is none. C08: the currency is XAU, XAG, XPD or XPT. T52, T40, T43, C03, P27:
/// as in other amounts. P26: the amount is zero.
///
/// Example: `240603EUR1234,5` is 3 June 2024 and 123450 cents.
#[derive(Clone, Copy)]
pub struct ValueDate<'a> {
    pub tables: &'a RefTables,
}

/// Whether a line is six digits, and a currency with an amount by their form.
pub fn is_dated_amount(line: &[u8]) -> bool
    ensures value { result ≡ is_dated_amount line.now }
    ensures long { IsTrue result → 10 ≤ length line.now }
{
    is_dated_line(line, false)
}

// As `is_dated_amount`. Where `plain` tells that the line has no byte outside set X those of the amount aren't tested.
fn is_dated_line(line: &[u8], plain: bool) -> bool
    requires { plain ≡ true → has_other_byte line.now ≡ false }
    ensures value { result ≡ is_dated_amount line.now }
    ensures long { IsTrue result → 10 ≤ length line.now }
{
    if line.len() < 10 {
        return false;
    }
    is_each_of(Set::N, &line[..6]) && is_ccy_amount(&line[6..], plain)
}

// Puts the value of a line into a place. After a fault the place may hold any.
#[tactic(auto, unfolding(crate::specs::Money::value_in))]
fn fill_value_in(tables: &RefTables, line: &[u8], place: &mut Value) -> Result<(), Code>
    requires { 10 ≤ length line.now }
    ensures ok { OnOk result (value_in tables.now line.now ≡ Ok place.new) }
    ensures err { IfErr result (λ code. value_in tables.now line.now ≡ Err code) }
{
    let Some(day) = day_from_yymmdd(&line[..6]) else {
        return Err(T50);
    };
    if is_metal(&line[6..9]) {
        return Err(C08);
    }
    place.day = day;
    place.amount = ccy_amount_in(tables, &line[6..])?;
    if place.amount.minor.0 == 0 {
        return Err(P26);
    }
    Ok(())
}

#[tactic(auto, unfolding(crate::specs::Money::value_of))]
fn fill_value(tables: &RefTables, f: &FieldLines<'_>, place: &mut Value) -> Result<(), Refusal>
    ensures { Refills result place.new (value_of tables.now f.now) }
{
    let Some(line) = one_line(f) else {
        return Err(Refusal::Bad(P24));
    };
    if !is_dated_line(line, f.is_plain()) {
        return Err(Refusal::Bad(P24));
    }
    match fill_value_in(tables, line, place) {
        Ok(()) => Ok(()),
        Err(code) => Err(Refusal::Bad(code)),
    }
}

fn read_value(tables: &RefTables, f: &FieldLines<'_>) -> Result<Value, Refusal>
    ensures { Reads result (value_of tables.now f.now) }
{
    let mut value = Value::blank();
    fill_value(tables, f, &mut value)?;
    Ok(value)
}

impl Content for ValueDate<'_> {
    type Value = Value;

    ghost meaning = { λ c f. value_of c.tables.now f };

    fn read(&self, _alloc: Global, f: &FieldLines<'_>) -> Result<Value, Refusal> {
        read_value(self.tables, f)
    }
}

impl Refill for ValueDate<'_> {
    fn refill(&self, _alloc: Global, f: &FieldLines<'_>, value: &mut Value) -> Result<(), Refusal> {
        fill_value(self.tables, f, value)
    }
}

/// Writes a value date and an amount as field 32A, the amount with exactly as many decimals as the currency has. What was
/// read under some tables is read again from it, and the field may stand in a text.
///
/// Example: 3 June 2024 and 123450 cents of EUR are `240603EUR1234,50`.
pub fn put_value(alloc: Global, value: &Value) -> Result<Field, Memory>
    requires { IsValue value.now }
    ensures field { IfOk result (λ f. f ≡ value_field value.now) }
    ensures again { IfOk result (λ f. (t : Tables) (read : FieldSeen) → value_of t read ≡ Ok value.now → value_of t f ≡ Ok value.now) }
    ensures fit { IfOk result (λ f. (t : Tables) (read : FieldSeen) → value_of t read ≡ Ok value.now → IsField f) }
{
    let mut line = Text::from_bytes(alloc, b"")?;
    put_yymmdd(value.day, &mut line)?;
    put_ccy_amount_text(alloc, &value.amount, &mut line)?;
    line_field(alloc, 32, Some(b'A'), line.bytes())
}
