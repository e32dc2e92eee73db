//! The words of a line.

ghost use Rattle.std.specs.Prelude.{◌≡◌, ◌<◌, ◌≤◌, ◌++◌, ◌∷◌, OnErr, OnOk};
ghost use Rattle.std.specs.Fmt.{decimal};
ghost use Rattle.corr_text.specs.Digits.{padded};
ghost use Rattle.corr_money.specs.Amounts.{amount_end, amount_text, signed_text, most_decimals};
ghost use Rattle.corr_report.specs.Bookings.{side_letter};

use corr_money::{Minor, put_15d, put_signed, put_total};
use corr_text::{Decimal, Memory, Text};
use day_model::Side;
use std::alloc::Global;

/// Adds a space and a word.
///
/// `Memory`: there was no room; then nothing was added.
pub fn put_word(word: &[u8], out: &mut Text) -> Result<(), Memory>
    ensures ok { OnOk result (out.new ≡ out.old ++ 32 ∷ word.now) }
    ensures err { OnErr result (out.new ≡ out.old) }
{
    out.push_all(&[b" ", word])
}

/// The letter of a side: `D` or `C`.
pub fn side_letter(side: Side) -> &'static [u8]
    ensures { result.now ≡ side_letter side }
{
    match side {
        Side::Debit => b"D",
        Side::Credit => b"C",
    }
}

/// Adds a space and a number, with zeros before it up to a width.
///
/// `Memory`: there was no room; then nothing was added.
pub fn put_number(_alloc: Global, n: u64, width: u8, out: &mut Text) -> Result<(), Memory>
    ensures ok { OnOk result (out.new ≡ out.old ++ 32 ∷ padded width n) }
    ensures err { OnErr result (out.new ≡ out.old) }
{
    let mut decimal = Decimal::new();
    put_word(decimal.padded(n, width), out)
}

/// Adds a space and an amount in minor units, with so many decimals.
///
/// `Memory`: there was no room; then nothing was added.
pub fn put_amount(alloc: Global, m: Minor, decimals: u8, out: &mut Text) -> Result<(), Memory>
    requires decimals { decimals ≤ most_decimals }
    requires bound { m.0 < amount_end }
    ensures ok { OnOk result (out.new ≡ out.old ++ 32 ∷ amount_text decimals m.0) }
    ensures err { OnErr result (out.new ≡ out.old) }
{
    let before = out.bytes().len();
    out.push(b" ")?;
    if put_15d(alloc, m, decimals, out).is_err() {
        out.truncate(before);
        return Err(Memory);
    }
    Ok(())
}

/// Adds a space and a balance in minor units, with so many decimals; one below 0 has a `-`.
///
/// `Memory`: there was no room; then nothing was added.
pub fn put_balance(alloc: Global, balance: i64, decimals: u8, out: &mut Text) -> Result<(), Memory>
    requires { decimals ≤ most_decimals }
    ensures ok { OnOk result (out.new ≡ out.old ++ 32 ∷ signed_text decimals balance) }
    ensures err { OnErr result (out.new ≡ out.old) }
{
    let before = out.bytes().len();
    out.push(b" ")?;
    if put_signed(alloc, balance, decimals, out).is_err() {
        out.truncate(before);
        return Err(Memory);
    }
    Ok(())
}

/// Adds a space and a total.
pub(crate) fn put_sum(alloc: Global, sum: u64, decimals: u8, out: &mut Text) -> Result<(), Memory>
    requires { decimals ≤ most_decimals }
    ensures { OnOk result (out.new ≡ out.old ++ 32 ∷ amount_text decimals sum) }
{
    out.push(b" ")?;
    put_total(alloc, sum, decimals, out)
}

/// The digits of a number, with no zeros before them, written into `room`.
pub(crate) fn plain(n: u64, room: &mut Decimal) -> &[u8]
    ensures { result.now ≡ decimal n }
{
    room.padded(n, 0)
}
