//! The history of a journal.

ghost use Rattle.std.specs.Prelude.{◌≡◌, ◌<◌, ◌≤◌, ◌+◌, ◌-◌, ◌++◌, [], ◌∷◌, length, slice_get, OnOk, OnErr, IsOk};
ghost use Rattle.std.specs.List.{position_from};
ghost use Rattle.day_model.specs.Log.{most_entries};
ghost use Rattle.day_model.specs.Next.{entered_at, has_mir};

use crate::entry::Entry;
use corr_ids::Mir;
use corr_text::Memory;
use std::alloc::Global;
use std::marker::Model;

/// How many entries a history has at most.
pub const MOST_ENTRIES: u32 = 100_000;

/// The entries of a journal in their order, at most 100,000. Places are numbered from 1.
///
/// Contracts see its entries, and `spare`: for how many more there is room.
#[derive(Debug, Drop)]
pub struct History {
    log: Vec<Entry>,
}

fn first_of_mir(entries: &[Entry], mir: &Mir) -> Option<usize>
    ensures { result ≡ position_from (has_mir mir.now) 0 entries.now }
{
    entries.iter().position(|entry| entry.pay.mir == *mir)
}

impl Model for History {
    ghost use Rattle.std.specs.Prelude.{◌-◌, ◌≤◌, vec_capacity, length};
    ghost use Rattle.day_model.specs.Log.{Log, most_entries};

    ghost Value = { Log };

    ghost view = { λ h. record { entries = h.log.items; spare = vec_capacity h.log - length h.log.items } };

    ghost invariant = { λ h. length h.log.items ≤ most_entries };
}

impl History {
    /// No entry yet.
    pub fn new(alloc: Global) -> History
        ensures { result.entries ≡ [] }
    {
        History {
            log: Vec::new(alloc),
        }
    }

    /// Makes room for one entry more. The entries are as they were, whatever it answers.
    pub fn reserve(&mut self) -> Result<(), Memory>
        ensures same { self.new.entries ≡ self.old.entries }
        ensures room { OnOk result (1 ≤ self.new.spare) }
    {
        self.reserve_for(1)
    }

    /// Makes room for so many entries more. The entries are as they were, whatever it answers.
    pub fn reserve_for(&mut self, entries: usize) -> Result<(), Memory>
        ensures same { self.new.entries ≡ self.old.entries }
        ensures room { OnOk result (entries ≤ self.new.spare) }
    {
        self.log.reserve(entries)?;
        Ok(())
    }

    /// Adds an entry at the end of fewer than 100,000. It needs no memory where there is room, and takes room for one; where
    /// memory runs out, the entries are as they were.
    pub fn push(&mut self, e: Entry) -> Result<(), Memory>
        requires { length self.old.entries < most_entries }
        ensures ok { OnOk result (self.new.entries ≡ self.old.entries ++ e ∷ []) }
        ensures err { OnErr result (self.new.entries ≡ self.old.entries) }
        ensures room { 0 < self.old.spare → IsOk result }
        ensures left { self.old.spare ≤ self.new.spare + 1 }
    {
        self.log.push(e)?;
        Ok(())
    }

    /// How many entries there are: at most 100,000.
    pub fn len(&self) -> u32
        ensures count { result ≡ length self.now.entries }
        ensures few { result ≤ most_entries }
    {
        self.log.len() as u32
    }

    /// The entries.
    pub(crate) fn entries(&self) -> &[Entry]
        ensures value { result.now ≡ self.now.entries }
        ensures few { length self.now.entries ≤ most_entries }
    {
        self.log.as_slice()
    }

    /// The place, from 1, of the entry of this reference, none where it isn't entered.
    pub fn find(&self, mir: &Mir) -> Option<u32>
        ensures { result ≡ entered_at mir.now self.now.entries }
    {
        let at = first_of_mir(self.entries(), mir)?;
        Some(at as u32 + 1)
    }

    /// The entry at this place, from 1 to `len`.
    pub fn get(&self, place: u32) -> &Entry
        requires from_one { 1 ≤ place }
        requires there { place ≤ length self.now.entries }
        ensures { slice_get self.now.entries (place - 1) ≡ Some result.now }
    {
        &self.log[place as usize - 1]
    }
}
