//! Entries and lines, paired.

ghost use Rattle.std.specs.Prelude.{◌≡◌, ◌+◌, ℕ, All, IfOk, map};
ghost use Rattle.indexmap.specs.IndexSet.{contains};
ghost use Rattle.std.specs.Prelude.{nat_eq};
ghost use Rattle.statement.specs.Running.{placed_by};
ghost use Rattle.reconcile.specs.inner.Bounds.{CanBeKeyed, IsLine};
ghost use Rattle.reconcile.specs.Pairing.{is_paired, ours_left, pairs_of, theirs_left};

use crate::key::line_key;
use crate::waiting::Waiting;
use corr_text::{List, Memory};
use indexmap::IndexSet;
use mt950::Line61;
use statement::Movement;
use std::alloc::Global;

/// The pairs, and the numbers of the lines that are in none.
#[derive(Debug, Drop)]
pub struct Paired {
    pub pairs: List<(u32, u32)>,
    pub theirs: List<u32>,
}

/// The number of the line at a place, from 1. `Memory`: it is past 32 bits.
fn number_at(at: usize) -> Result<u32, Memory>
    ensures { IfOk result (λ number. number ≡ at + 1) }
{
    if u32::MAX as usize <= at {
        return Err(Memory);
    }
    Ok(at as u32 + 1)
}

/// Pairs lines with entries: each line in its order takes the first entry that shares with it what a pair shares, and that no line
/// before it took.
pub fn pair_up(alloc: Global, entries: &[Movement], lines: &[Line61]) -> Result<Paired, Memory>
    requires entries { All CanBeKeyed entries.now }
    requires lines { All IsLine lines.now }
    ensures pairs { IfOk result (λ paired. paired.pairs ≡ pairs_of (map placed_by entries.now) lines.now) }
    ensures theirs { IfOk result (λ paired. paired.theirs ≡ theirs_left (map placed_by entries.now) lines.now) }
{
    let mut waiting = Waiting::all(alloc, entries)?;
    let mut pairs = List::new(alloc);
    let mut theirs = List::new(alloc);
    for (at, line) in lines.iter().enumerate() {
        let number = number_at(at)?;
        match waiting.take(&line_key(line)) {
            Some(place) => pairs.push((place, number))?,
            None => theirs.push(number)?,
        }
    }
    Ok(Paired { pairs, theirs })
}

/// The entries of pairs.
fn places_in(alloc: Global, pairs: &[(u32, u32)]) -> Result<IndexSet<u32>, Memory>
    ensures { IfOk result (λ places. (place : ℕ) → contains nat_eq places place ≡ is_paired pairs.now place) }
{
    let mut places = IndexSet::new(alloc);
    for (place, _) in pairs {
        places.insert(*place)?;
    }
    Ok(places)
}

/// The places of the entries that are in no pair.
pub fn unpaired(
    alloc: Global,
    entries: &[Movement],
    pairs: &[(u32, u32)],
) -> Result<List<u32>, Memory>
    ensures { IfOk result (λ places. places ≡ ours_left pairs.now (map placed_by entries.now)) }
{
    let paired = places_in(alloc, pairs)?;
    let mut places = List::new(alloc);
    for entry in entries {
        if paired.contains(&entry.place) {
            continue;
        }
        places.push(entry.place)?;
    }
    Ok(places)
}
