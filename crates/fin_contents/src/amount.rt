//! Amounts with their currency: fields 33B, 71F and 71G.

ghost use Rattle.std.specs.Prelude.{◌≡◌, ◌≤◌, ◌++◌, IfOk, IsTrue, Ok, OnErr, OnOk, true, false, length, take};
ghost use Rattle.corr_money.specs.Amounts.{most_decimals};
ghost use Rattle.fin_contents.specs.Money.{amount_code, ccy_amount_in, ccy_amount_of, is_ccy_amount, minor_in};
ghost use Rattle.fin_contents.specs.Writing.{IsAmount, IsHeading, ccy_amount_field, ccy_amount_text};
ghost use Rattle.fin_fields.specs.Faults.{has_other_byte};
ghost use Rattle.fin_fields.specs.Writing.{IsField};
ghost use Rattle.fin_fields.specs.declared.field.Field.{Field as FieldSeen};
ghost use Rattle.fin_layout.specs.Reading.{Reads};
ghost use Rattle.ref_tables.specs.Seen.{Tables};

use crate::codes::{C03, P27, T40, T43, T52};
use crate::line::{line_field, one_line};
use corr_money::{Amount, AmountFault, Ccy, Minor, put_15d, read_15d};
use corr_text::{Code, Memory, Set, Text, is_each_of};
use fin_fields::{Field, FieldLines, is_of_x};
use fin_layout::{Content, P24, Refusal};
use ref_tables::RefTables;
use std::alloc::Global;

/// A currency and an amount, `3!a15d`. P24: the field is not one line of three capital letters and one or more characters
/// of X. T52: the currency is not in the table of currencies. T40, T43, C03, P27: the amount is none, too long, has more
/// decimals than the currency, or is not below 10^14 minor units.
#[derive(Clone, Copy)]
pub struct CcyAmount<'a> {
    pub tables: &'a RefTables,
}

/// Whether a line is three capital letters and one or more characters of X. Where `plain` tells that it has no other characters
/// those of the amount aren't tested.
#[tactic(auto, using(fin_fields::proofs::laws::OfX::rest_of_x))]
pub fn is_ccy_amount(line: &[u8], plain: bool) -> bool
    requires { plain ≡ true → has_other_byte line.now ≡ false }
    ensures value { result ≡ is_ccy_amount line.now }
    ensures long { IsTrue result → 4 ≤ length line.now }
{
    4 <= line.len() && is_each_of(Set::A, &line[..3]) && is_of_x(&line[3..], plain)
}

fn amount_code(e: AmountFault) -> Code
    ensures { result ≡ amount_code e }
{
    match e {
        AmountFault::T40 => T40,
        AmountFault::T43 => T43,
        AmountFault::C03 => C03,
        AmountFault::TooLarge => P27,
    }
}

/// The minor units that bytes spell in a currency with so many decimals, at most 4, or the code of what is wrong with them: T40,
/// T43, C03 or P27.
///
/// Example: with two decimals `1234,5` is 123450, and `1234` is T40.
pub fn minor_in(decimals: u8, b: &[u8]) -> Result<Minor, Code>
    requires { decimals ≤ most_decimals }
    ensures { result ≡ minor_in decimals b.now }
{
    match read_15d(b, decimals) {
        Ok(minor) => Ok(minor),
        Err(e) => Err(amount_code(e)),
    }
}

fn leading_ccy(line: &[u8]) -> Ccy
    requires { 3 ≤ length line.now }
    ensures { result ≡ record { 0 = take 3 line.now } }
{
    let mut code = [0; 3];
    code.copy_from_slice(&line[..3]);
    Ccy(code)
}

/// The currency and the amount of a line that has their form, three capital letters and then characters of an amount; or the
/// code of what is wrong with them: T52, T40, T43, C03 or P27.
#[tactic(auto, unfolding(crate::specs::Money::ccy_amount_in))]
pub fn ccy_amount_in(tables: &RefTables, line: &[u8]) -> Result<Amount, Code>
    requires { 4 ≤ length line.now }
    ensures { result ≡ ccy_amount_in tables.now line.now }
{
    let ccy = leading_ccy(line);
    let Some(decimals) = tables.decimals(ccy) else {
        return Err(T52);
    };
    match minor_in(decimals, &line[3..]) {
        Ok(minor) => Ok(Amount {
            ccy,
            minor,
            decimals,
        }),
        Err(code) => Err(code),
    }
}

#[tactic(auto, unfolding(crate::specs::Money::ccy_amount_of))]
fn read_ccy_amount(tables: &RefTables, f: &FieldLines<'_>) -> Result<Amount, Refusal>
    ensures { Reads result (ccy_amount_of tables.now f.now) }
{
    let Some(line) = one_line(f) else {
        return Err(Refusal::Bad(P24));
    };
    if !is_ccy_amount(line, f.is_plain()) {
        return Err(Refusal::Bad(P24));
    }
    match ccy_amount_in(tables, line) {
        Ok(amount) => Ok(amount),
        Err(code) => Err(Refusal::Bad(code)),
    }
}

impl Content for CcyAmount<'_> {
    type Value = Amount;

    ghost meaning = { λ c f. ccy_amount_of c.tables.now f };

    fn read(&self, _alloc: Global, f: &FieldLines<'_>) -> Result<Amount, Refusal> {
        read_ccy_amount(self.tables, f)
    }
}

/// Adds a currency and an amount with all its decimals.
///
/// `Memory`: there was no room; then nothing was added.
pub fn put_ccy_amount_text(alloc: Global, amount: &Amount, out: &mut Text) -> Result<(), Memory>
    requires { IsAmount amount.now }
    ensures ok { OnOk result (out.new ≡ out.old ++ ccy_amount_text amount.now) }
    ensures err { OnErr result (out.new ≡ out.old) }
{
    let before = out.bytes().len();
    out.push(&amount.ccy.0)?;
    if put_15d(alloc, amount.minor, amount.decimals, out).is_err() {
        out.truncate(before);
        return Err(Memory);
    }
    Ok(())
}

/// Writes a currency and an amount as a field of this tag and letter, with exactly as many decimals as the currency has.
/// What was read under some tables is read again from it, and the field may stand in a text.
///
/// Example: 123450 cents of EUR are `EUR1234,50`.
pub fn put_ccy_amount(
    alloc: Global,
    tag: u8,
    letter: Option<u8>,
    amount: &Amount,
) -> Result<Field, Memory>
    requires { IsAmount amount.now }
    ensures field { IfOk result (λ f. f ≡ ccy_amount_field tag letter amount.now) }
    ensures again { IfOk result (λ f. (t : Tables) (read : FieldSeen) → ccy_amount_of t read ≡ Ok amount.now → ccy_amount_of t f ≡ Ok amount.now) }
    ensures fit { IfOk result (λ f. (t : Tables) (read : FieldSeen) → ccy_amount_of t read ≡ Ok amount.now → IsHeading tag letter → IsField f) }
{
    let mut line = Text::from_bytes(alloc, b"")?;
    put_ccy_amount_text(alloc, amount, &mut line)?;
    line_field(alloc, tag, letter, line.bytes())
}
