//! The forms of columns (docs/tables.md, "Columns"). What is read of a cell is none where the cell has another form.

ghost use Rattle.std.specs.Prelude.{◌≡◌, ◌<◌, ◌^◌, IfSome, None, option_map, pos, Some, if◌then◌else◌};
ghost use Rattle.ref_tables.specs.Columns.{charge_in_cell, decimals_in_cell, is_account_id as is_account_id_of, is_ccy, is_country, kind_in_cell, magnitude_of, signed_of, yes_of};

use corr_money::{AMOUNT_END, Ccy, Minor};
use corr_text::{Set, digits, is_all_of};

/// A currency code: three capital letters; none of any other bytes.
pub fn ccy(b: &[u8]) -> Option<Ccy>
    ensures { result ≡ (if is_ccy b.now then Some (record { 0 = b.now }) else None) }
{
    if b.len() != 3 || !is_all_of(Set::A, b) {
        return None;
    }
    let mut code = [0; 3];
    code.copy_from_slice(b);
    Some(Ccy(code))
}

/// A country code: two capital letters, as characters 5 and 6 of a BIC.
pub fn country(b: &[u8]) -> Option<[u8; 2]>
    ensures { result ≡ (if is_country b.now then Some b.now else None) }
{
    if b.len() != 2 || !is_all_of(Set::A, b) {
        return None;
    }
    let mut code = [0; 2];
    code.copy_from_slice(b);
    Some(code)
}

/// A number of decimals: one digit, 0 to 4.
pub fn decimals(b: &[u8]) -> Option<u8>
    ensures { result ≡ decimals_in_cell b.now }
{
    match b {
        [b] if b'0' <= *b && *b <= b'4' => Some(*b - b'0'),
        _ => None,
    }
}

/// `Y` or `N`.
pub fn yes_or_no(b: &[u8]) -> Option<bool>
    ensures { result ≡ yes_of b.now }
{
    match b {
        [b'Y'] => Some(true),
        [b'N'] => Some(false),
        _ => None,
    }
}

/// Whether these are 1 to 34 capital letters and digits.
pub fn is_account_id(b: &[u8]) -> bool
    ensures { result ≡ is_account_id_of b.now }
{
    1 <= b.len() && b.len() <= 34 && is_all_of(Set::C, b)
}

/// `C`, `V`, `N` or `F`.
pub fn kind(b: &[u8]) -> Option<u8>
    ensures { result ≡ kind_in_cell b.now }
{
    match b {
        [b] if *b == b'C' || *b == b'V' || *b == b'N' || *b == b'F' => Some(*b),
        _ => None,
    }
}

// The number that 1 to 15 digits write.
fn magnitude(b: &[u8]) -> Option<u64>
    ensures value { result ≡ magnitude_of b.now }
    ensures short { IfSome result (λ n. n < 10 ^ 15) }
{
    if b.len() > 15 {
        return None;
    }
    digits(b)
}

fn unsigned(b: &[u8]) -> Option<i64>
    ensures { result ≡ option_map pos (magnitude_of b.now) }
{
    let n = magnitude(b)?;
    Some(n as i64)
}

/// A signed number: a minus sign or none, then 1 to 15 digits.
pub fn signed(b: &[u8]) -> Option<i64>
    ensures { result ≡ signed_of b.now }
{
    match b {
        [b'-', rest @ ..] => Some(-unsigned(rest)?),
        _ => unsigned(b),
    }
}

/// A charge in minor units: 1 to 15 digits that write a number above 0 and below 10^14.
pub fn charge(b: &[u8]) -> Option<Minor>
    ensures { result ≡ charge_in_cell b.now }
{
    let n = magnitude(b)?;
    if n == 0 || n >= AMOUNT_END {
        return None;
    }
    Some(Minor(n))
}
