//! Amounts that are written.

ghost use Rattle.std.specs.Prelude.{◌≡◌, ◌++◌, ◌<◌, ◌≤◌, OnOk, OnErr, Ok};
ghost use Rattle.corr_money.specs.Amounts.{amount_end, amount_of, amount_text, minor_of, signed_minor_of, signed_text, most_decimals};

use crate::amount::Minor;
use corr_text::{Decimal, Memory, Text};
use std::alloc::Global;

/// Adds a sign and a number of minor units: its digits with a comma before the last `decimals` of them.
#[tactic(auto, unfolding(crate::specs::Amounts::amount_text))]
fn put_amount(sign: &[u8], n: u64, decimals: u8, out: &mut Text) -> Result<(), Memory>
    requires { decimals ≤ most_decimals }
    ensures ok { OnOk result (out.new ≡ out.old ++ sign.now ++ amount_text decimals n) }
    ensures err { OnErr result (out.new ≡ out.old) }
{
    let mut decimal = Decimal::new();
    let digits = decimal.padded(n, decimals + 1);
    let (whole, rest) = digits.split_at(digits.len() - decimals as usize);
    out.push_all(&[sign, whole, b",", rest])
}

/// Adds an amount of a currency with so many `decimals` (at most 4): the whole units without leading zeros, a comma and
/// exactly `decimals` digits, as `1234,50`. `read_15d` reads it back.
///
/// `Memory`: there was no room; then nothing was added.
pub fn put_15d(_alloc: Global, m: Minor, decimals: u8, out: &mut Text) -> Result<(), Memory>
    requires decimals { decimals ≤ most_decimals }
    requires bound { m.0 < amount_end }
    ensures ok { OnOk result (out.new ≡ out.old ++ amount_text decimals m.0) }
    ensures read_back { amount_of decimals (amount_text decimals m.0) ≡ Ok m }
    ensures err { OnErr result (out.new ≡ out.old) }
{
    put_amount(b"", m.0, decimals, out)
}

/// Adds a number of minor units in the form of `put_15d`, with `-` before it where it is below 0.
///
/// `Memory`: there was no room; then nothing was added.
#[tactic(auto, using(crate::proofs::laws::Written::printing), unfolding(crate::specs::Amounts::signed_text))]
pub fn put_signed(_alloc: Global, v: i64, decimals: u8, out: &mut Text) -> Result<(), Memory>
    requires { decimals ≤ most_decimals }
    ensures ok { OnOk result (out.new ≡ out.old ++ signed_text decimals v) }
    ensures number { signed_minor_of decimals (signed_text decimals v) ≡ v }
    ensures err { OnErr result (out.new ≡ out.old) }
{
    let sign: &[u8] = if v < 0 { b"-" } else { b"" };
    put_amount(sign, v.unsigned_abs(), decimals, out)
}

/// Adds a total of minor units in the form of `put_15d`.
///
/// `Memory`: there was no room; then nothing was added.
#[tactic(auto, using(crate::proofs::laws::Written::printing))]
pub fn put_total(_alloc: Global, v: u64, decimals: u8, out: &mut Text) -> Result<(), Memory>
    requires { decimals ≤ most_decimals }
    ensures ok { OnOk result (out.new ≡ out.old ++ amount_text decimals v) }
    ensures number { minor_of decimals (amount_text decimals v) ≡ v }
    ensures err { OnErr result (out.new ≡ out.old) }
{
    put_amount(b"", v, decimals, out)
}
