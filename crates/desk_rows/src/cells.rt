//! Cells of a row.

ghost use Rattle.std.specs.Prelude.{◌≡◌, ◌≤◌, ◌++◌, ◌∷◌, [], OnOk};
ghost use Rattle.std.specs.List.{flat_map, list_all};
ghost use Rattle.corr_money.specs.Amounts.{most_decimals};
ghost use Rattle.desk_rows.specs.Csv.{doubled, is_bare, point_of, pointed, quoted, signed_pointed};

use corr_text::{Decimal, Memory, Text};

/// Adds a comma and a cell.
pub fn put_cell(cell: &[u8], out: &mut Text) -> Result<(), Memory>
    ensures { OnOk result (out.new ≡ out.old ++ 44 ∷ cell.now) }
{
    out.push_all(&[b",", cell])
}

/// Whether a cell may have this byte without quotes.
fn is_bare(b: u8) -> bool
    ensures { result ≡ is_bare b }
{
    b != b',' && b != b'"' && b != b'\r' && b != b'\n'
}

/// Whether a text is a cell as it is.
fn are_bare(text: &[u8]) -> bool
    ensures { result ≡ list_all is_bare text.now }
{
    text.iter().all(|b| is_bare(*b))
}

/// Adds a byte of a text between quotes: a quote twice.
fn put_doubled_byte(b: u8, out: &mut Text) -> Result<(), Memory>
    ensures { OnOk result (out.new ≡ out.old ++ doubled b) }
{
    if b == b'"' {
        out.push(b"\"\"")
    } else {
        out.push(&[b])
    }
}

/// Adds the bytes of a text, a quote twice.
fn put_doubled(text: &[u8], out: &mut Text) -> Result<(), Memory>
    ensures { OnOk result (out.new ≡ out.old ++ flat_map doubled text.now) }
{
    for b in text {
        put_doubled_byte(*b, out)?;
    }
    Ok(())
}

/// Adds a text between quotes.
fn put_between_quotes(text: &[u8], out: &mut Text) -> Result<(), Memory>
    ensures { OnOk result (out.new ≡ out.old ++ 34 ∷ flat_map doubled text.now ++ 34 ∷ []) }
{
    out.push(b"\"")?;
    put_doubled(text, out)?;
    out.push(b"\"")
}

/// Adds a comma and a text as a cell, between quotes where a byte of it needs them.
#[tactic(auto, unfolding(crate::specs::Csv::quoted))]
pub fn put_quoted(text: &[u8], out: &mut Text) -> Result<(), Memory>
    ensures { OnOk result (out.new ≡ out.old ++ 44 ∷ quoted text.now) }
{
    out.push(b",")?;
    if are_bare(text) {
        out.push(text)
    } else {
        put_between_quotes(text, out)
    }
}

/// The point before so many decimals: none where there are none.
fn point(decimals: u8) -> &'static [u8]
    ensures { result.now ≡ point_of decimals }
{
    if decimals == 0 { b"" } else { b"." }
}

/// Adds a comma, a sign, and a number of minor units with a point before the last `decimals` of its digits.
#[tactic(auto, unfolding(crate::specs::Csv::pointed))]
pub fn put_pointed(sign: &[u8], n: u64, decimals: u8, out: &mut Text) -> Result<(), Memory>
    requires { decimals ≤ most_decimals }
    ensures { OnOk result (out.new ≡ out.old ++ 44 ∷ sign.now ++ pointed decimals n) }
{
    let mut decimal = Decimal::new();
    let digits = decimal.padded(n, decimals + 1);
    let (whole, rest) = digits.split_at(digits.len() - decimals as usize);
    out.push_all(&[b",", sign, whole])?;
    out.push(point(decimals))?;
    out.push(rest)
}

/// Adds a comma and a total of minor units.
pub fn put_total(n: u64, decimals: u8, out: &mut Text) -> Result<(), Memory>
    requires { decimals ≤ most_decimals }
    ensures { OnOk result (out.new ≡ out.old ++ 44 ∷ pointed decimals n) }
{
    put_pointed(b"", n, decimals, out)
}

/// Adds a comma and a number of minor units, with `-` before it where it is below 0.
#[tactic(auto, unfolding(crate::specs::Csv::signed_pointed))]
pub fn put_signed(v: i64, decimals: u8, out: &mut Text) -> Result<(), Memory>
    requires { decimals ≤ most_decimals }
    ensures { OnOk result (out.new ≡ out.old ++ 44 ∷ signed_pointed decimals v) }
{
    let sign: &[u8] = if v < 0 { b"-" } else { b"" };
    put_pointed(sign, v.unsigned_abs(), decimals, out)
}
