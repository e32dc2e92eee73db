//! Reading orders.

ghost use Rattle.jrn_codec.specs.inner.Answers.{AnswersRead};
ghost use Rattle.jrn_codec.specs.inner.Reading.{bic_at, items_at, listed_at, mark_at, optional_at};
ghost use Rattle.jrn_codec.specs.inner.RecordReading.{cover_at, credit_at, debit_at, noticed_at, order_at, pass_at, skip_marked, transfer_at};

use crate::fault::EntryFault;
use crate::field::{bic_at, byte_at};
use corr_ids::Bic;
use corr_text::List;
use day_model::{Order, Skip};
use std::alloc::Global;

#[tactic(auto, unfolding(crate::specs::inner::Reading::mark_at))]
fn skip_at(bytes: &[u8]) -> Result<(Skip, &[u8]), EntryFault>
    ensures { AnswersRead (λ x. (x.0, x.1.now)) result (mark_at skip_marked bytes.now) }
{
    let (mark, rest) = byte_at(bytes)?;
    match mark {
        0 => Ok((Skip::Keep, rest)),
        1 => Ok((Skip::Mid, rest)),
        2 => Ok((Skip::Both, rest)),
        _ => Err(EntryFault::NoEntry),
    }
}

#[tactic(auto, unfolding(crate::specs::inner::Reading::optional_at))]
fn via_at(bytes: &[u8]) -> Result<(Option<Bic>, &[u8]), EntryFault>
    ensures { AnswersRead (λ x. (x.0, x.1.now)) result (optional_at bic_at bytes.now) }
{
    match bytes {
        [0, rest @ ..] => Ok((None, rest)),
        [1, rest @ ..] => {
            let (via, rest) = bic_at(rest)?;
            Ok((Some(via), rest))
        }
        _ => Err(EntryFault::NoEntry),
    }
}

#[tactic(auto, unfolding(crate::specs::inner::RecordReading::transfer_at))]
fn transfer_at(bytes: &[u8]) -> Result<(Order, &[u8]), EntryFault>
    ensures { AnswersRead (λ x. (x.0, x.1.now)) result (transfer_at bytes.now) }
{
    let (to, rest) = bic_at(bytes)?;
    let (skip, rest) = skip_at(rest)?;
    let (via, rest) = via_at(rest)?;
    Ok((Order::Transfer { to, skip, via }, rest))
}

#[tactic(auto, unfolding(crate::specs::inner::RecordReading::cover_at))]
fn cover_at(bytes: &[u8]) -> Result<(Order, &[u8]), EntryFault>
    ensures { AnswersRead (λ x. (x.0, x.1.now)) result (cover_at bytes.now) }
{
    let (to, rest) = bic_at(bytes)?;
    let (end, rest) = bic_at(rest)?;
    let (skip, rest) = skip_at(rest)?;
    Ok((Order::Cover { to, end, skip }, rest))
}

#[tactic(auto, unfolding(crate::specs::inner::RecordReading::pass_at))]
fn pass_at(bytes: &[u8]) -> Result<(Order, &[u8]), EntryFault>
    ensures { AnswersRead (λ x. (x.0, x.1.now)) result (pass_at bytes.now) }
{
    let (to, rest) = bic_at(bytes)?;
    let (skip, rest) = skip_at(rest)?;
    Ok((Order::Pass { to, skip }, rest))
}

#[tactic(auto, unfolding(crate::specs::inner::RecordReading::noticed_at))]
fn noticed_at(legs: usize, bytes: &[u8]) -> Result<((Bic, u8), &[u8]), EntryFault>
    ensures { AnswersRead (λ x. (x.0, x.1.now)) result (noticed_at legs bytes.now) }
{
    let (to, rest) = bic_at(bytes)?;
    let (leg, rest) = byte_at(rest)?;
    if leg < 1 || legs < leg as usize {
        return Err(EntryFault::NoEntry);
    }
    Ok(((to, leg), rest))
}

#[tactic(auto, unfolding(crate::specs::inner::RecordReading::debit_at))]
fn debit_at(legs: usize, bytes: &[u8]) -> Result<(Order, &[u8]), EntryFault>
    ensures { AnswersRead (λ x. (x.0, x.1.now)) result (debit_at legs bytes.now) }
{
    let ((to, leg), rest) = noticed_at(legs, bytes)?;
    Ok((Order::Debit { to, leg }, rest))
}

#[tactic(auto, unfolding(crate::specs::inner::RecordReading::credit_at))]
fn credit_at(legs: usize, bytes: &[u8]) -> Result<(Order, &[u8]), EntryFault>
    ensures { AnswersRead (λ x. (x.0, x.1.now)) result (credit_at legs bytes.now) }
{
    let ((to, leg), rest) = noticed_at(legs, bytes)?;
    Ok((Order::Credit { to, leg }, rest))
}

#[tactic(auto, unfolding(crate::specs::inner::RecordReading::order_at))]
fn order_at(legs: usize, bytes: &[u8]) -> Result<(Order, &[u8]), EntryFault>
    ensures { AnswersRead (λ x. (x.0, x.1.now)) result (order_at legs bytes.now) }
{
    let (kind, rest) = byte_at(bytes)?;
    match kind {
        1 => transfer_at(rest),
        2 => cover_at(rest),
        3 => pass_at(rest),
        4 => debit_at(legs, rest),
        5 => credit_at(legs, rest),
        _ => Err(EntryFault::NoEntry),
    }
}

fn orders_of(
    alloc: Global,
    legs: usize,
    count: u8,
    bytes: &[u8],
) -> Result<(List<Order>, &[u8]), EntryFault>
    ensures { AnswersRead (λ x. (x.0, x.1.now)) result (items_at (order_at legs) count bytes.now) }
{
    let mut orders = List::new(alloc);
    let mut rest = bytes;
    for _ in 0..count {
        let (order, after) = order_at(legs, rest)?;
        orders.push(order)?;
        rest = after;
    }
    Ok((orders, rest))
}

/// Orders after their number in one byte; a leg that an order names is one of so many.
#[tactic(auto, unfolding(crate::specs::inner::Reading::listed_at))]
pub fn orders_at(
    alloc: Global,
    legs: usize,
    bytes: &[u8],
) -> Result<(List<Order>, &[u8]), EntryFault>
    ensures { AnswersRead (λ x. (x.0, x.1.now)) result (listed_at (order_at legs) bytes.now) }
{
    let (count, rest) = byte_at(bytes)?;
    orders_of(alloc, legs, count, rest)
}
