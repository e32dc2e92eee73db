//! Reading changes.

ghost use Rattle.std.specs.Prelude.{◌≡◌, IfOk, IsTrue};
ghost use Rattle.std.specs.Bool.{OnTrue};
ghost use Rattle.day_model.specs.declared.change.What.{What as TheWhat};
ghost use Rattle.day_model.specs.Legal.{IsInForm};
ghost use Rattle.jrn_codec.specs.Answers.{IsGiven};
ghost use Rattle.jrn_codec.specs.inner.Answers.{AnswersRead};
ghost use Rattle.jrn_codec.specs.Change.{IsWhat, change_bytes};
ghost use Rattle.jrn_codec.specs.inner.ChangeReading.{change_read, ends_at, opened_at, what_at};

use crate::fault::EntryFault;
use crate::field::{byte_at, i64_at, u16_at};
use crate::header::account_at;
use day_model::{AcctNo, What, has_form};
use std::alloc::Global;

#[tactic(auto, unfolding(crate::specs::inner::ChangeReading::opened_at))]
fn opened_at(alloc: Global, bytes: &[u8]) -> Result<(What, &[u8]), EntryFault>
    ensures { AnswersRead (λ x. (x.0, x.1.now)) result (opened_at bytes.now) }
{
    let (account, rest) = account_at(alloc, bytes)?;
    Ok((What::Opened(account), rest))
}

#[tactic(auto, unfolding(crate::specs::inner::ChangeReading::ends_at))]
fn ends_at(bytes: &[u8]) -> Result<(What, &[u8]), EntryFault>
    ensures { AnswersRead (λ x. (x.0, x.1.now)) result (ends_at bytes.now) }
{
    let (number, rest) = u16_at(bytes)?;
    let (floor, rest) = i64_at(rest)?;
    let (ceil, rest) = i64_at(rest)?;
    let ends = What::Limits {
        account: AcctNo(number as u32),
        floor,
        ceil,
    };
    Ok((ends, rest))
}

#[tactic(auto, unfolding(crate::specs::inner::ChangeReading::what_at))]
fn what_at(alloc: Global, bytes: &[u8]) -> Result<(What, &[u8]), EntryFault>
    ensures { AnswersRead (λ x. (x.0, x.1.now)) result (what_at bytes.now) }
{
    let (kind, rest) = byte_at(bytes)?;
    match kind {
        0 => opened_at(alloc, rest),
        1 => ends_at(rest),
        _ => Err(EntryFault::NoEntry),
    }
}

#[tactic(auto, unfolding(crate::specs::inner::ChangeReading::change_read))]
fn change_of(alloc: Global, bytes: &[u8]) -> Result<What, EntryFault>
    ensures { AnswersRead (λ what. what) result (change_read bytes.now) }
{
    let (mark, rest) = byte_at(bytes)?;
    let (what, rest) = what_at(alloc, rest)?;
    if mark != 1 || !rest.is_empty() {
        return Err(EntryFault::NoEntry);
    }
    Ok(what)
}

fn is_in_form(what: &What) -> bool
    ensures sound { OnTrue result (IsInForm what.now) }
    ensures complete { IsInForm what.now → IsTrue result }
{
    match what {
        What::Opened(account) => has_form(account),
        What::Limits { .. } => true,
    }
}

/// The change whose record these bytes are, all of them.
///
/// `NoEntry` comes exactly where they are no change's record; `Memory` where there is no room for a new account.
pub fn read_change(alloc: Global, b: &[u8]) -> Result<What, EntryFault>
    ensures found { IfOk result (λ what. IsWhat what × (b.now ≡ change_bytes what)) }
    ensures only { (what : TheWhat) → IsWhat what → b.now ≡ change_bytes what → IsGiven what result }
{
    let what = change_of(alloc, b)?;
    if !is_in_form(&what) {
        return Err(EntryFault::NoEntry);
    }
    Ok(what)
}
