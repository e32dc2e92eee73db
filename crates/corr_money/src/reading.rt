//! Amounts that are read.

ghost use Rattle.std.specs.Prelude.{◌≡◌, ◌==◌, ◌<◌, ◌≤◌, ◌-◌, ◌^◌, ◌++◌, IfOk, IsTrue, length, replicate};
ghost use Rattle.std.specs.List.{list_all, position};
ghost use Rattle.std.specs.Char.{is_ascii_digit};
ghost use Rattle.std.specs.Str.Parse.{digits_value, digits_value_after};
ghost use Rattle.corr_money.specs.Amounts.{amount_end, amount_of, is_comma, is_comma_number, most_decimals};

use crate::amount::Minor;
use crate::fault::AmountFault;

/// The number of characters that an amount has at most.
const LENGTH: usize = 15;

/// Amounts are below this number of minor units.
pub const AMOUNT_END: u64 = 100_000_000_000_000;

/// Whether each byte is a digit. Stops at the first that is none: amounts are short.
fn are_digits(b: &[u8]) -> bool
    ensures { result ≡ list_all is_ascii_digit b.now }
{
    b.iter().all(|c| c.is_ascii_digit())
}

fn first_comma(b: &[u8]) -> Option<usize>
    ensures { result ≡ position is_comma b.now }
{
    b.iter().position(|c| *c == b',')
}

/// The number of the digits `b` where they follow those of `before`.
fn number_after(before: u64, b: &[u8]) -> u64
    requires digits { IsTrue (list_all is_ascii_digit b.now) }
    requires fits { digits_value_after 10 before b.now < 2 ^ 64 }
    ensures { result ≡ digits_value_after 10 before b.now }
{
    let mut n = before;
    for c in b {
        n = n * 10 + (*c - b'0') as u64;
    }
    n
}

/// The number of minor units that the digits before a comma and those after it give.
fn minor(whole: &[u8], written: &[u8], decimals: u8) -> u64
    requires whole { IsTrue (list_all is_ascii_digit whole.now) }
    requires written { IsTrue (list_all is_ascii_digit written.now) }
    requires short { length whole.now ≤ 15 }
    requires few { length written.now ≤ decimals }
    requires most { decimals ≤ most_decimals }
    ensures { result ≡ digits_value 10 (whole.now ++ written.now ++ replicate (decimals - length written.now) 48) }
{
    let missing = &b"0000"[..decimals as usize - written.len()];
    number_after(number_after(number_after(0, whole), written), missing)
}

/// Whether bytes are digits with exactly one comma and at least one digit before it.
#[tactic(auto, unfolding(crate::specs::Amounts::is_comma_number))]
pub fn is_comma_number(b: &[u8]) -> bool
    ensures { result ≡ is_comma_number b.now }
{
    match first_comma(b) {
        Some(comma) => 0 < comma && are_digits(&b[..comma]) && are_digits(&b[comma + 1..]),
        None => false,
    }
}

/// The amount, in minor units of a currency with so many `decimals` (at most 4), that a field's `15d` writes: digits with
/// a decimal comma. Decimals that are not written count as zeros, so `1000,5` with 2 decimals is 100050.
///
/// `T40`: the bytes are not digits with exactly one comma and at least one digit before it. Else `T43`: there are more
/// than 15 characters. Else `C03`: there are more decimals than the currency has. Else `TooLarge`: the amount is not
/// below 10^14 minor units.
#[tactic(auto, unfolding(crate::specs::Amounts::amount_of, crate::specs::Amounts::is_comma_number, crate::specs::Amounts::minor_of))]
pub fn read_15d(b: &[u8], decimals: u8) -> Result<Minor, AmountFault>
    requires { decimals ≤ most_decimals }
    ensures value { result ≡ amount_of decimals b.now }
    ensures bound { IfOk result (λ m. m.0 < amount_end) }
{
    let Some(comma) = first_comma(b) else {
        return Err(AmountFault::T40);
    };
    let whole = &b[..comma];
    let written = &b[comma + 1..];
    if whole.is_empty() || !are_digits(whole) || !are_digits(written) {
        return Err(AmountFault::T40);
    }
    if b.len() > LENGTH {
        return Err(AmountFault::T43);
    }
    if written.len() > decimals as usize {
        return Err(AmountFault::C03);
    }
    let amount = minor(whole, written, decimals);
    if amount >= AMOUNT_END {
        return Err(AmountFault::TooLarge);
    }
    Ok(Minor(amount))
}
