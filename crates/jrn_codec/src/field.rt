//! Fields at the front of bytes: the value, and the bytes after it. Numbers are big-endian. `NoEntry`: the bytes are too few, or
//! spell no such value.

ghost use Rattle.std.specs.Prelude.{◌≡◌, IfOk, length};
ghost use Rattle.std.specs.Int.{w16, w32, w64};
ghost use Rattle.jrn_codec.specs.inner.Answers.{AnswersRead};
ghost use Rattle.jrn_codec.specs.inner.Reading.{cut, byte_at, number_at, signed_at, bic_at, short_at, long_at};

use crate::fault::EntryFault;
use corr_ids::{Bic, read_bic};

/// So many bytes.
pub fn cut(bytes: &[u8], n: usize) -> Result<(&[u8], &[u8]), EntryFault>
    ensures value { AnswersRead (λ x. (x.0.now, x.1.now)) result (cut n bytes.now) }
    ensures long { IfOk result (λ x. length x.0.now ≡ n) }
{
    if bytes.len() < n {
        return Err(EntryFault::NoEntry);
    }
    Ok(bytes.split_at(n))
}

/// One byte.
pub fn byte_at(bytes: &[u8]) -> Result<(u8, &[u8]), EntryFault>
    ensures { AnswersRead (λ x. (x.0, x.1.now)) result (byte_at bytes.now) }
{
    match bytes {
        [] => Err(EntryFault::NoEntry),
        [b, rest @ ..] => Ok((*b, rest)),
    }
}

/// A number of two bytes.
pub fn u16_at(bytes: &[u8]) -> Result<(u16, &[u8]), EntryFault>
    ensures { AnswersRead (λ x. (x.0, x.1.now)) result (number_at w16 bytes.now) }
{
    if bytes.len() < 2 {
        return Err(EntryFault::NoEntry);
    }
    let (front, rest) = bytes.split_at(2);
    Ok((u16::from_be_bytes([front[0], front[1]]), rest))
}

fn u32_at(bytes: &[u8]) -> Result<(u32, &[u8]), EntryFault>
    ensures { AnswersRead (λ x. (x.0, x.1.now)) result (number_at w32 bytes.now) }
{
    if bytes.len() < 4 {
        return Err(EntryFault::NoEntry);
    }
    let (front, rest) = bytes.split_at(4);
    let number = u32::from_be_bytes([front[0], front[1], front[2], front[3]]);
    Ok((number, rest))
}

/// A number of eight bytes.
pub fn u64_at(bytes: &[u8]) -> Result<(u64, &[u8]), EntryFault>
    ensures { AnswersRead (λ x. (x.0, x.1.now)) result (number_at w64 bytes.now) }
{
    if bytes.len() < 8 {
        return Err(EntryFault::NoEntry);
    }
    let (front, rest) = bytes.split_at(8);
    let number = u64::from_be_bytes([
        front[0], front[1], front[2], front[3], front[4], front[5], front[6], front[7],
    ]);
    Ok((number, rest))
}

/// A signed number of four bytes, in two's complement.
#[tactic(auto, unfolding(crate::specs::inner::Reading::signed_at))]
pub fn i32_at(bytes: &[u8]) -> Result<(i32, &[u8]), EntryFault>
    ensures { AnswersRead (λ x. (x.0, x.1.now)) result (signed_at w32 bytes.now) }
{
    let (number, rest) = u32_at(bytes)?;
    Ok((number.cast_signed(), rest))
}

/// A signed number of eight bytes, in two's complement.
#[tactic(auto, unfolding(crate::specs::inner::Reading::signed_at))]
pub fn i64_at(bytes: &[u8]) -> Result<(i64, &[u8]), EntryFault>
    ensures { AnswersRead (λ x. (x.0, x.1.now)) result (signed_at w64 bytes.now) }
{
    let (number, rest) = u64_at(bytes)?;
    Ok((number.cast_signed(), rest))
}

/// A BIC of 11 characters.
#[tactic(auto, unfolding(crate::specs::inner::Reading::spelled_at))]
pub fn bic_at(bytes: &[u8]) -> Result<(Bic, &[u8]), EntryFault>
    ensures { AnswersRead (λ x. (x.0, x.1.now)) result (bic_at bytes.now) }
{
    let (front, rest) = cut(bytes, 11)?;
    match read_bic(front) {
        Some(bic) => Ok((bic, rest)),
        None => Err(EntryFault::NoEntry),
    }
}

/// Bytes after their number in one byte.
#[tactic(auto, unfolding(crate::specs::inner::Reading::short_at))]
pub fn short_at(bytes: &[u8]) -> Result<(&[u8], &[u8]), EntryFault>
    ensures { AnswersRead (λ x. (x.0.now, x.1.now)) result (short_at bytes.now) }
{
    let (n, rest) = byte_at(bytes)?;
    cut(rest, n as usize)
}

/// Bytes after their number in four bytes.
#[tactic(auto, unfolding(crate::specs::inner::Reading::long_at))]
pub fn long_at(bytes: &[u8]) -> Result<(&[u8], &[u8]), EntryFault>
    ensures { AnswersRead (λ x. (x.0.now, x.1.now)) result (long_at bytes.now) }
{
    let (n, rest) = u32_at(bytes)?;
    cut(rest, n as usize)
}
