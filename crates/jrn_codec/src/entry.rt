//! Reading entries.

ghost use Rattle.std.specs.Prelude.{◌≡◌, IfOk};
ghost use Rattle.day_model.specs.declared.entry.Entry.{Entry};
ghost use Rattle.jrn_codec.specs.Answers.{IsGiven};
ghost use Rattle.jrn_codec.specs.inner.Answers.{AnswersRead};
ghost use Rattle.jrn_codec.specs.inner.Reading.{mark_at, optional_at};
ghost use Rattle.jrn_codec.specs.Record.{IsEntry, entry_bytes, entry_bytes_1};
ghost use Rattle.jrn_codec.specs.inner.RecordReading.{day_at, entry_read, entry_with, fate_at, in_century, is_whole_pay, mir_at, mt_of, outcome_at, stamp_at, uetr_at, unfunded_at};

use crate::fault::EntryFault;
use crate::field::{byte_at, cut, i32_at, i64_at, long_at};
use crate::leg::legs_at;
use crate::order::orders_at;
use corr_ids::{Day, FIRST_DAY, LAST_DAY, Mir, Uetr, read_mir, read_uetr};
use corr_text::{List, Text};
use day_model::{Entry, Leg, Mt, Order, Outcome, Pay, are_legs};
use std::alloc::Global;

/// The most bytes that the text of a pay has.
const MOST_TEXT: usize = 32768;

/// The first parts of a record: which message it was.
#[derive(Clone, Copy, Drop)]
pub struct Stamp {
    pub mir: Mir,
    pub mt: Mt,
    pub uetr: Option<Uetr>,
}

/// The next parts: when it was entered, its value date, and what became of it.
#[derive(Clone, Copy, Drop)]
pub struct Fate {
    pub day: Day,
    pub value: Day,
    pub outcome: Outcome,
}

#[tactic(auto, unfolding(crate::specs::inner::Reading::spelled_at))]
fn mir_at(bytes: &[u8]) -> Result<(Mir, &[u8]), EntryFault>
    ensures { AnswersRead (λ x. (x.0, x.1.now)) result (mir_at bytes.now) }
{
    let (front, rest) = cut(bytes, 28)?;
    match read_mir(front) {
        Some(mir) => Ok((mir, rest)),
        None => Err(EntryFault::NoEntry),
    }
}

#[tactic(auto, unfolding(crate::specs::inner::Reading::spelled_at))]
fn some_uetr_at(bytes: &[u8]) -> Result<(Uetr, &[u8]), EntryFault>
    ensures { AnswersRead (λ x. (x.0, x.1.now)) result (uetr_at bytes.now) }
{
    let (front, rest) = cut(bytes, 36)?;
    match read_uetr(front) {
        Some(uetr) => Ok((uetr, rest)),
        None => Err(EntryFault::NoEntry),
    }
}

#[tactic(auto, unfolding(crate::specs::inner::Reading::optional_at))]
fn uetr_at(bytes: &[u8]) -> Result<(Option<Uetr>, &[u8]), EntryFault>
    ensures { AnswersRead (λ x. (x.0, x.1.now)) result (optional_at uetr_at bytes.now) }
{
    match bytes {
        [0, rest @ ..] => Ok((None, rest)),
        [1, rest @ ..] => {
            let (uetr, rest) = some_uetr_at(rest)?;
            Ok((Some(uetr), rest))
        }
        _ => Err(EntryFault::NoEntry),
    }
}

#[tactic(auto, unfolding(crate::specs::inner::Reading::mark_at))]
fn mt_at(bytes: &[u8]) -> Result<(Mt, &[u8]), EntryFault>
    ensures { AnswersRead (λ x. (x.0, x.1.now)) result (mark_at mt_of bytes.now) }
{
    let (mark, rest) = byte_at(bytes)?;
    match mark {
        1 => Ok((Mt::Transfer, rest)),
        2 => Ok((Mt::Cover, rest)),
        _ => Err(EntryFault::NoEntry),
    }
}

#[tactic(auto, unfolding(crate::specs::inner::RecordReading::stamp_at))]
fn stamp_at(bytes: &[u8]) -> Result<(Stamp, &[u8]), EntryFault>
    ensures { AnswersRead (λ x. (x.0, x.1.now)) result (stamp_at bytes.now) }
{
    let (mir, rest) = mir_at(bytes)?;
    let (mt, rest) = mt_at(rest)?;
    let (uetr, rest) = uetr_at(rest)?;
    Ok((Stamp { mir, mt, uetr }, rest))
}

fn is_in_century(day: Day) -> bool
    ensures { result ≡ in_century day }
{
    FIRST_DAY <= day.0 && day.0 <= LAST_DAY
}

#[tactic(auto, unfolding(crate::specs::inner::RecordReading::day_at))]
fn day_at(bytes: &[u8]) -> Result<(Day, &[u8]), EntryFault>
    ensures { AnswersRead (λ x. (x.0, x.1.now)) result (day_at bytes.now) }
{
    let (number, rest) = i32_at(bytes)?;
    let day = Day(number);
    if !is_in_century(day) {
        return Err(EntryFault::NoEntry);
    }
    Ok((day, rest))
}

#[tactic(auto, unfolding(crate::specs::inner::RecordReading::unfunded_at))]
fn unfunded_at(bytes: &[u8]) -> Result<(Outcome, &[u8]), EntryFault>
    ensures { AnswersRead (λ x. (x.0, x.1.now)) result (unfunded_at bytes.now) }
{
    let (leg, rest) = byte_at(bytes)?;
    let (balance, rest) = i64_at(rest)?;
    Ok((Outcome::Unfunded { leg, balance }, rest))
}

#[tactic(auto, unfolding(crate::specs::inner::RecordReading::outcome_at))]
fn outcome_at(bytes: &[u8]) -> Result<(Outcome, &[u8]), EntryFault>
    ensures { AnswersRead (λ x. (x.0, x.1.now)) result (outcome_at bytes.now) }
{
    let (mark, rest) = byte_at(bytes)?;
    match mark {
        0 => Ok((Outcome::Booked, rest)),
        1 => unfunded_at(rest),
        _ => Err(EntryFault::NoEntry),
    }
}

#[tactic(auto, unfolding(crate::specs::inner::RecordReading::fate_at))]
fn fate_at(bytes: &[u8]) -> Result<(Fate, &[u8]), EntryFault>
    ensures { AnswersRead (λ x. (x.0, x.1.now)) result (fate_at bytes.now) }
{
    let (day, rest) = day_at(bytes)?;
    let (value, rest) = day_at(rest)?;
    let (outcome, rest) = outcome_at(rest)?;
    Ok((
        Fate {
            day,
            value,
            outcome,
        },
        rest,
    ))
}

fn is_whole(legs: &[Leg], text: &[u8], rest: &[u8]) -> bool
    ensures { result ≡ is_whole_pay legs.now text.now rest.now }
{
    are_legs(legs) && text.len() <= MOST_TEXT && rest.is_empty()
}

fn entry_with(stamp: Stamp, fate: Fate, legs: List<Leg>, orders: List<Order>, text: Text) -> Entry
    ensures { result ≡ entry_with stamp fate legs orders text }
{
    let pay = Pay {
        mir: stamp.mir,
        mt: stamp.mt,
        uetr: stamp.uetr,
        text,
        value: fate.value,
        legs,
        orders,
    };
    Entry {
        pay,
        day: fate.day,
        outcome: fate.outcome,
    }
}

#[tactic(auto, unfolding(crate::specs::inner::RecordReading::entry_read))]
fn entry_of(alloc: Global, bytes: &[u8]) -> Result<Entry, EntryFault>
    ensures { AnswersRead (λ e. e) result (entry_read bytes.now) }
{
    let (stamp, rest) = stamp_at(bytes)?;
    let (fate, rest) = fate_at(rest)?;
    let (legs, rest) = legs_at(alloc, rest)?;
    let (orders, rest) = orders_at(alloc, legs.as_slice().len(), rest)?;
    let (text, rest) = long_at(rest)?;
    if !is_whole(legs.as_slice(), text, rest) {
        return Err(EntryFault::NoEntry);
    }
    let text = Text::from_bytes(alloc, text)?;
    Ok(entry_with(stamp, fate, legs, orders, text))
}

/// The entry whose record in a journal of version 1 these bytes are, all of them.
///
/// `NoEntry` comes exactly where they are no entry's record of that version; `Memory` where there is no room for the entry.
pub fn read_entry_1(alloc: Global, b: &[u8]) -> Result<Entry, EntryFault>
    ensures found { IfOk result (λ e. IsEntry e × (b.now ≡ entry_bytes_1 e)) }
    ensures only { (e : Entry) → IsEntry e → b.now ≡ entry_bytes_1 e → IsGiven e result }
{
    entry_of(alloc, b)
}

/// The entry whose record these bytes are, all of them.
///
/// `NoEntry` comes exactly where they are no entry's record; `Memory` where there is no room for the entry.
pub fn read_entry(alloc: Global, b: &[u8]) -> Result<Entry, EntryFault>
    ensures found { IfOk result (λ e. IsEntry e × (b.now ≡ entry_bytes e)) }
    ensures only { (e : Entry) → IsEntry e → b.now ≡ entry_bytes e → IsGiven e result }
{
    match b {
        [0, parts @ ..] => read_entry_1(alloc, parts),
        _ => Err(EntryFault::NoEntry),
    }
}
