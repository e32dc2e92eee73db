//! The amount that a received message orders.

ghost use Rattle.std.specs.Prelude.{◌≡◌, ◌<◌, ◌≤◌, IfSome, drop, length, take};
ghost use Rattle.corr_money.specs.Amounts.{amount_end, amount_of, most_decimals};
ghost use Rattle.advices.specs.Received.{amount_if, amount_in, minor_if, ordered_of};
ghost use Rattle.advices.specs.inner.Spelled.{IsWritableAmount};

use crate::copying::first_named;
use crate::received::Received;
use corr_money::{Amount, Ccy, Minor, read_15d};
use fin_contents::{is_dated_amount, one_line};
use fin_fields::FieldLines;

fn ccy_at(line: &[u8]) -> Ccy
    requires { 9 ≤ length line.now }
    ensures { result ≡ record { 0 = take 3 (drop 6 line.now) } }
{
    let mut code = [0; 3];
    code.copy_from_slice(&line[6..9]);
    Ccy(code)
}

fn minor_if(decimals: u8, b: &[u8]) -> Option<Minor>
    requires { decimals ≤ most_decimals }
    ensures value { result ≡ minor_if (amount_of decimals b.now) }
    ensures bound { IfSome result (λ m. m.0 < amount_end) }
{
    match read_15d(b, decimals) {
        Ok(minor) => Some(minor),
        Err(_) => None,
    }
}

/// The currency and the amount of a line of 32A's form, where the amount reads with so many decimals.
fn amount_if(decimals: u8, line: &[u8]) -> Option<Amount>
    requires { decimals ≤ most_decimals }
    ensures value { result ≡ amount_if decimals line.now }
    ensures spelled { IfSome result IsWritableAmount }
{
    if !is_dated_amount(line) {
        return None;
    }
    let minor = minor_if(decimals, &line[9..])?;
    Some(Amount {
        ccy: ccy_at(line),
        minor,
        decimals,
    })
}

fn amount_in(decimals: u8, fields: &[FieldLines<'_>]) -> Option<Amount>
    requires { decimals ≤ most_decimals }
    ensures value { result ≡ amount_in decimals fields.now }
    ensures spelled { IfSome result IsWritableAmount }
{
    let f = first_named(fields, 32, b"A")?;
    amount_if(decimals, one_line(f)?)
}

/// What was ordered: the currency and the amount of 32A, and where it has none those of the account.
pub fn ordered_of(received: &Received<'_>, own: &Amount) -> Amount
    requires { IsWritableAmount own.now }
    ensures value { result ≡ ordered_of received.now own.now }
    ensures spelled { IsWritableAmount result }
{
    match amount_in(own.decimals, received.fields.as_slice()) {
        Some(amount) => amount,
        None => *own,
    }
}
