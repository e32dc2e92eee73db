//! The records in a journal's bytes.

ghost use Rattle.std.specs.Prelude.{◌≡◌, ◌≢◌, ◌<◌, ◌≤◌, ◌⊎◌, ◌++◌, ℕ, List, length, take, drop, slice_index, IfOk, OnOk, IfSome, IfNone};
ghost use Rattle.std.specs.Bool.{OnTrue, OnFalse};
ghost use Rattle.std.specs.Int.{w32, from_be_bytes};
ghost use Rattle.jrn_file.specs.inner.Opening.{BeginsWith, IsWhole, HasNoRecord, IsShut, IsTooLong};
ghost use Rattle.jrn_file.specs.inner.Pieces.{AreTakenOff};

use crate::held::Held;
use crate::loading::LoadFault;
use corr_text::{Memory, Text};
use std::alloc::Global;

/// The most bytes of a record.
const MAX_RECORD: usize = 1 << 20;

/// Takes the whole records in front out of the held bytes.
pub(crate) fn take_records(
    alloc: Global,
    held: &mut Held,
    records: &mut Vec<Text>,
) -> Result<(), Memory>
    ensures taken { OnOk result ((more : List (List ℕ)) × (records.new.items ≡ records.old.items ++ more) × AreTakenOff held.old more held.new) }
    ensures stopped { OnOk result (HasNoRecord held.new) }
{
    let at = copy_records(alloc, held.bytes(), records)?;
    held.drop_front(at);
    Ok(())
}

/// Copies the whole records in front of these bytes, and answers the place after them.
fn copy_records(alloc: Global, bytes: &[u8], records: &mut Vec<Text>) -> Result<usize, Memory>
    ensures taken { IfOk result (λ at. (more : List (List ℕ)) × (records.new.items ≡ records.old.items ++ more) × AreTakenOff bytes.now more (drop at bytes.now)) }
    ensures stopped { IfOk result (λ at. HasNoRecord (drop at bytes.now)) }
    ensures within { IfOk result (λ at. at ≤ length bytes.now) }
{
    let mut at = 0;
    while is_open(bytes, at) {
        match whole_record(&bytes[at + 1..]) {
            Some(record) => {
                records.push(Text::from_bytes(alloc, record)?)?;
                at += 5 + record.len();
            }
            None => return Ok(at),
        }
    }
    Ok(at)
}

/// Whether an open gate stands at this place.
fn is_open(bytes: &[u8], at: usize) -> bool
    ensures open { OnTrue result ((at < length bytes.now) × (slice_index bytes.now at ≢ 0)) }
    ensures shut { OnFalse result (at < length bytes.now → slice_index bytes.now at ≡ 0) }
{
    at < bytes.len() && bytes[at] != 0
}

/// Whether a closed gate stands in front.
pub(crate) fn is_closed(held: &[u8]) -> bool
    ensures shut { OnTrue result (IsShut held.now) }
    ensures open { OnFalse result (IsShut held.now → ⊥) }
{
    !held.is_empty() && held[0] == 0
}

/// Whether no more bytes make a record whole after the open gate in front: the last were read, which are fewer than were asked
/// for, or its length tells more than a record has.
pub(crate) fn is_last(count: usize, asked: usize, held: &[u8]) -> bool
    ensures last { OnTrue result ((count < asked) ⊎ IsTooLong held.now) }
    ensures more { OnFalse result (asked ≤ count) }
{
    count < asked || is_too_long(held)
}

/// Whether the length after the gate in front is there and tells more bytes than a record has.
fn is_too_long(held: &[u8]) -> bool
    ensures long { OnTrue result (IsTooLong held.now) }
{
    held.len() >= 5 && size_in_front(&held[1..]) as usize > MAX_RECORD
}

/// What an open gate at this place tells with no whole record after it, after these records.
pub(crate) fn refusal(gate: u64, records: Vec<Text>) -> LoadFault
    ensures none { length records.items ≡ 0 → result ≡ LoadFault.NotAJournal }
    ensures some { 0 < length records.items → result ≡ LoadFault.Cut gate records }
{
    if records.as_slice().is_empty() {
        return LoadFault::NotAJournal;
    }
    LoadFault::Cut { at: gate, records }
}

/// The record after an open gate, where it is whole.
fn whole_record(after: &[u8]) -> Option<&[u8]>
    ensures whole { IfSome result (λ r. BeginsWith after.now r.now) }
    ensures cut_short { IfNone result (IsWhole after.now → ⊥) }
{
    if after.len() < 5 {
        return None;
    }
    let size = size_in_front(after) as usize;
    if size > MAX_RECORD {
        return None;
    }
    if after.len() - 5 < size {
        return None;
    }
    Some(&after[4..4 + size])
}

/// The number in the first four bytes.
fn size_in_front(bytes: &[u8]) -> u32
    requires { 4 ≤ length bytes.now }
    ensures { result ≡ from_be_bytes w32 (take 4 bytes.now) }
{
    let mut size = [0; 4];
    size.copy_from_slice(&bytes[..4]);
    u32::from_be_bytes(size)
}
