//! The places of rows, by currency and bank.

ghost use Rattle.std.specs.Prelude.{◌≡◌, ◌≤◌, ◌++◌, OnOk, false, find, length, slice_get, true};
ghost use Rattle.std.specs.List.{list_any};
ghost use Rattle.std.specs.List.Sorted.{IsPartitionPoint};
ghost use Rattle.std.specs.Option.{option_and_then, option_copied, option_map_or};
ghost use Rattle.ssi_versions.specs.Index.{IsInDayOrder, head_of, key_by_bank, places_under, tail_of};
ghost use Rattle.ssi_versions.specs.inner.Index.{NotesPlace, has_begun, holds_at};
ghost use Rattle.ssi_versions.specs.Rows.{overlaps, shares_a_day};
ghost use Rattle.ssi_versions.specs.Instruction.{is_asked, is_in_force};

use crate::row::SsiRow;
use corr_ids::Day;
use corr_money::Ccy;
use corr_text::Memory;
use indexmap::IndexMap;
use std::alloc::Global;

fn head(bank: &[u8]) -> [u8; 8]
    ensures { result ≡ head_of bank.now }
{
    if bank.len() < 8 {
        return [0; 8];
    }
    let mut head = [0; 8];
    head.copy_from_slice(&bank[..8]);
    head
}

fn tail(bank: &[u8]) -> [u8; 3]
    ensures { result ≡ tail_of bank.now }
{
    if bank.len() != 11 {
        return [0; 3];
    }
    let mut tail = [0; 3];
    tail.copy_from_slice(&bank[8..]);
    tail
}

fn bank_key(bank: &[u8]) -> [u8; 11]
    ensures { result ≡ head_of bank.now ++ tail_of bank.now }
{
    let mut key = [0; 11];
    key[..8].copy_from_slice(&head(bank));
    key[8..].copy_from_slice(&tail(bank));
    key
}

/// What the rows of a currency and a bank's text are noted under.
pub fn key(ccy: Ccy, bank: &[u8]) -> [u8; 14]
    ensures { result ≡ key_by_bank ccy.0 bank.now }
{
    let mut key = [0; 14];
    key[..3].copy_from_slice(&ccy.0);
    key[3..].copy_from_slice(&bank_key(bank));
    key
}

/// The places that are noted for a key.
pub fn places_of<'a>(groups: &'a IndexMap<[u8; 14], Vec<usize>>, key: &[u8; 14]) -> &'a [usize]
    ensures { result.now ≡ places_under groups.now.entries key.now }
{
    match groups.get(key) {
        Some(places) => places.as_slice(),
        None => &[],
    }
}

/// Notes one more place for a key, before the place that stands at `at`.
pub fn note(
    alloc: Global,
    groups: &mut IndexMap<[u8; 14], Vec<usize>>,
    key: [u8; 14],
    at: usize,
    place: usize,
) -> Result<(), Memory>
    requires { at ≤ length (places_under groups.old.entries key) }
    ensures { OnOk result (NotesPlace groups.old.entries groups.new.entries key at place) }
{
    groups
        .entry(key)?
        .or_insert(Vec::new(alloc))
        .insert(at, place)?;
    Ok(())
}

fn shares_a_day(a: &SsiRow, b: &SsiRow) -> bool
    ensures { result ≡ shares_a_day a.now b.now }
{
    a.from.0 < b.until.0 && b.from.0 < a.until.0
}

/// Whether a table can't have both.
pub fn overlaps(a: &SsiRow, b: &SsiRow) -> bool
    ensures { result ≡ overlaps a.now b.now }
{
    a.ccy.0 == b.ccy.0 && a.bank.bytes() == b.bank.bytes() && shares_a_day(a, b)
}

fn has_begun_at(rows: &[SsiRow], at: usize, day: Day) -> bool
    ensures { result ≡ holds_at (has_begun day) rows.now at }
{
    match rows.get(at) {
        Some(row) => row.from.0 <= day.0,
        None => false,
    }
}

/// How many of these places have rows that begin by a day, where they stand in the order of days.
pub fn begun_by(rows: &[SsiRow], places: &[usize], day: Day) -> usize
    requires { IsInDayOrder rows.now places.now }
    ensures bound { result ≤ length places.now }
    ensures point { IsPartitionPoint (λ p. holds_at (has_begun day) rows.now p ≡ true) (λ p. holds_at (has_begun day) rows.now p ≡ false) places.now result }
{
    places.partition_point(|at| has_begun_at(rows, *at, day))
}

fn shares_a_day_at(rows: &[SsiRow], place: Option<&usize>, row: &SsiRow) -> bool
    ensures { result ≡ option_map_or (holds_at (shares_a_day row.now) rows.now) (option_copied place.entry) false }
{
    match place {
        Some(at) => match rows.get(*at) {
            Some(other) => shares_a_day(row, other),
            None => false,
        },
        None => false,
    }
}

/// Whether the row at one of these places shares a day with this one: only the last that begins by its first day can, or
/// the next one.
pub fn shares_any_day(rows: &[SsiRow], places: &[usize], row: &SsiRow) -> bool
    requires { IsInDayOrder rows.now places.now }
    ensures { result ≡ list_any (holds_at (shares_a_day row.now) rows.now) places.now }
{
    let begun = begun_by(rows, places, row.from);
    shares_a_day_at(rows, places[..begun].last(), row)
        || shares_a_day_at(rows, places.get(begun), row)
}

/// The row at a place, if there is one.
pub fn row_at(rows: &[SsiRow], place: Option<usize>) -> Option<&SsiRow>
    ensures { option_copied result ≡ option_and_then (slice_get rows.now) place }
{
    rows.get(place?)
}

fn is_in_force(row: &SsiRow, ccy: Ccy, day: Day) -> bool
    ensures { result ≡ is_in_force ccy day row.now }
{
    ccy.0 == row.ccy.0 && row.from.0 <= day.0 && day.0 < row.until.0
}

fn is_asked_at(rows: &[SsiRow], at: usize, ccy: Ccy, bank: &[u8], day: Day) -> bool
    ensures { result ≡ holds_at (is_asked ccy bank.now day) rows.now at }
{
    match rows.get(at) {
        Some(row) => is_in_force(row, ccy, day) && bank == row.bank.bytes(),
        None => false,
    }
}

/// The one of these places whose row is in force on a day, for a currency and a bank's text: only the last that begins by
/// that day can be.
pub fn first_in_force(
    rows: &[SsiRow],
    places: &[usize],
    ccy: Ccy,
    bank: &[u8],
    day: Day,
) -> Option<usize>
    requires { IsInDayOrder rows.now places.now }
    ensures { result ≡ find (holds_at (is_asked ccy bank.now day) rows.now) places.now }
{
    let at = *places[..begun_by(rows, places, day)].last()?;
    if is_asked_at(rows, at, ccy, bank, day) {
        Some(at)
    } else {
        None
    }
}
