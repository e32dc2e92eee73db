//! Our references.

ghost use Rattle.std.specs.Prelude.{◌≡◌, IfOk};
ghost use Rattle.advices.specs.Fields.{ours};

use corr_text::{Memory, Text, put_digits};
use std::alloc::Global;

/// The reference of the `k`-th order, from 1, of the entry at a place, as `P00000001K1`.
pub fn ours(alloc: Global, place: u32, k: u32) -> Result<Text, Memory>
    ensures { IfOk result (λ text. text ≡ ours place k) }
{
    let number = k.to_string(alloc)?;
    let mut text = Text::from_bytes(alloc, b"P")?;
    put_digits(alloc, place as u64, 8, &mut text)?;
    text.push(b"K")?;
    text.push(number.as_bytes())?;
    Ok(text)
}
