//! Reading legs.

ghost use Rattle.std.specs.Prelude.{◌≡◌, ◌==◌, ◌&&◌};
ghost use Rattle.std.specs.List.{list_any, zip};
ghost use Rattle.corr_text.specs.declared.set.Set.TheVariants.{X};
ghost use Rattle.corr_text.specs.Slashes.{has_double_slash, has_stray_slash};
ghost use Rattle.jrn_codec.specs.inner.Answers.{AnswersRead};
ghost use Rattle.jrn_codec.specs.inner.Reading.{byte_at, items_at, listed_at, mark_at};
ghost use Rattle.jrn_codec.specs.inner.RecordReading.{is_reference, leg_at, ours_at, quote_at, side_of, theirs_at};

use crate::fault::EntryFault;
use crate::field::{byte_at, short_at, u16_at, u64_at};
use corr_money::Minor;
use corr_text::{List, Set, Text, is_all_of};
use day_model::{AcctNo, Leg, Quote, Side};
use std::alloc::Global;

fn are_slashes(b: &[u8], next: &[u8]) -> bool
    ensures { result ≡ list_any (λ p. (p.0 == 47) && (p.1 == 47)) (zip b.now next.now) }
{
    b.iter()
        .zip(next.iter())
        .any(|(c, d)| *c == b'/' && *d == b'/')
}

fn has_double_slash(text: &[u8]) -> bool
    ensures { result ≡ has_double_slash text.now }
{
    match text {
        [] => false,
        [_, rest @ ..] => are_slashes(text, rest),
    }
}

fn has_stray_slash(text: &[u8]) -> bool
    ensures { result ≡ has_stray_slash text.now }
{
    match text {
        [] => false,
        [.., last] => text.starts_with(b"/") || *last == b'/' || has_double_slash(text),
    }
}

fn is_reference(text: &[u8]) -> bool
    ensures { result ≡ is_reference text.now }
{
    1 <= text.len() && text.len() <= 16 && is_all_of(Set::X, text) && !has_stray_slash(text)
}

#[tactic(auto, unfolding(crate::specs::inner::RecordReading::theirs_at))]
fn theirs_at(alloc: Global, bytes: &[u8]) -> Result<(Quote, &[u8]), EntryFault>
    ensures { AnswersRead (λ x. (x.0, x.1.now)) result (theirs_at bytes.now) }
{
    let (text, rest) = short_at(bytes)?;
    if !is_reference(text) {
        return Err(EntryFault::NoEntry);
    }
    Ok((Quote::Theirs(Text::from_bytes(alloc, text)?), rest))
}

#[tactic(auto, unfolding(crate::specs::inner::RecordReading::ours_at))]
fn ours_at(bytes: &[u8]) -> Result<(Quote, &[u8]), EntryFault>
    ensures { AnswersRead (λ x. (x.0, x.1.now)) result (ours_at bytes.now) }
{
    let (k, rest) = byte_at(bytes)?;
    Ok((Quote::Ours(k), rest))
}

#[tactic(auto, unfolding(crate::specs::inner::RecordReading::quote_at))]
fn quote_at(alloc: Global, bytes: &[u8]) -> Result<(Quote, &[u8]), EntryFault>
    ensures { AnswersRead (λ x. (x.0, x.1.now)) result (quote_at bytes.now) }
{
    let (mark, rest) = byte_at(bytes)?;
    match mark {
        0 => theirs_at(alloc, rest),
        1 => ours_at(rest),
        _ => Err(EntryFault::NoEntry),
    }
}

#[tactic(auto, unfolding(crate::specs::inner::Reading::mark_at))]
fn side_at(bytes: &[u8]) -> Result<(Side, &[u8]), EntryFault>
    ensures { AnswersRead (λ x. (x.0, x.1.now)) result (mark_at side_of bytes.now) }
{
    let (mark, rest) = byte_at(bytes)?;
    match mark {
        0 => Ok((Side::Debit, rest)),
        1 => Ok((Side::Credit, rest)),
        _ => Err(EntryFault::NoEntry),
    }
}

#[tactic(auto, unfolding(crate::specs::inner::RecordReading::leg_at))]
fn leg_at(alloc: Global, bytes: &[u8]) -> Result<(Leg, &[u8]), EntryFault>
    ensures { AnswersRead (λ x. (x.0, x.1.now)) result (leg_at bytes.now) }
{
    let (account, rest) = u16_at(bytes)?;
    let (side, rest) = side_at(rest)?;
    let (amount, rest) = u64_at(rest)?;
    let (quote, rest) = quote_at(alloc, rest)?;
    if account < 1 || 1000 < account {
        return Err(EntryFault::NoEntry);
    }
    let leg = Leg {
        account: AcctNo(account as u32),
        side,
        amount: Minor(amount),
        quote,
    };
    Ok((leg, rest))
}

fn legs_of(alloc: Global, count: u8, bytes: &[u8]) -> Result<(List<Leg>, &[u8]), EntryFault>
    ensures { AnswersRead (λ x. (x.0, x.1.now)) result (items_at leg_at count bytes.now) }
{
    let mut legs = List::new(alloc);
    let mut rest = bytes;
    for _ in 0..count {
        let (leg, after) = leg_at(alloc, rest)?;
        legs.push(leg)?;
        rest = after;
    }
    Ok((legs, rest))
}

/// Legs after their number in one byte.
#[tactic(auto, unfolding(crate::specs::inner::Reading::listed_at))]
pub fn legs_at(alloc: Global, bytes: &[u8]) -> Result<(List<Leg>, &[u8]), EntryFault>
    ensures { AnswersRead (λ x. (x.0, x.1.now)) result (listed_at leg_at bytes.now) }
{
    let (count, rest) = byte_at(bytes)?;
    legs_of(alloc, count, rest)
}
