//! The places of entries by their references.

ghost use Rattle.std.specs.Prelude.{◌≡◌, ◌+◌, ◌<◌, ◌≤◌, ◌++◌, [], ◌∷◌, None, length, take, OnErr, OnOk, IsOk};
ghost use Rattle.day_model.specs.Log.{most_entries};
ghost use Rattle.jrn_book.specs.inner.Index.{place_in};

use corr_ids::Mir;
use corr_text::Memory;
use indexmap::IndexSet;
use std::alloc::Global;
use std::marker::Model;

/// The references of a history in its order: a reference's index is its place less 1.
///
/// Contracts see the references, and `spare`: for how many more there is room.
#[derive(Drop)]
pub(crate) struct Index {
    references: IndexSet<[u8; 28]>,
}

impl Model for Index {
    ghost use Rattle.std.specs.Prelude.{◌≤◌, length};
    ghost use Rattle.indexmap.specs.IndexSet.{spare};
    ghost use Rattle.day_model.specs.Log.{most_entries};
    ghost use Rattle.jrn_book.specs.Index.{References};

    ghost Value = { References };

    ghost view = { λ x. record { references = x.references.keys; spare = spare x.references } };

    ghost invariant = { λ x. length x.references.keys ≤ most_entries };
}

impl Index {
    /// No reference yet.
    pub(crate) fn new(alloc: Global) -> Index
        ensures { result.references ≡ [] }
    {
        Index {
            references: IndexSet::new(alloc),
        }
    }

    /// The place of a reference, from 1.
    pub(crate) fn place(&self, mir: &Mir) -> Option<u32>
        ensures { result ≡ place_in mir.now.0 self.now.references }
    {
        let at = self.references.get_index_of(&mir.0)?;
        Some(at as u32 + 1)
    }

    /// Makes room for one reference more.
    pub(crate) fn reserve(&mut self) -> Result<(), Memory>
        ensures same { self.new.references ≡ self.old.references }
        ensures room { OnOk result (1 ≤ self.new.spare) }
    {
        self.reserve_for(1)
    }

    /// Makes room for so many references more.
    pub(crate) fn reserve_for(&mut self, count: usize) -> Result<(), Memory>
        ensures same { self.new.references ≡ self.old.references }
        ensures room { OnOk result (count ≤ self.new.spare) }
    {
        self.references.reserve(count)?;
        Ok(())
    }

    /// Keeps the first references, up to this many.
    pub(crate) fn truncate(&mut self, count: usize)
        ensures { self.new.references ≡ take count self.old.references }
    {
        self.references.truncate(count);
    }

    /// Adds a new reference at the end of fewer than 100,000. It needs no memory where there is room.
    pub(crate) fn push(&mut self, mir: &Mir) -> Result<(), Memory>
        requires new { place_in mir.now.0 self.old.references ≡ None }
        requires few { length self.old.references < most_entries }
        ensures ok { OnOk result (self.new.references ≡ self.old.references ++ mir.now.0 ∷ []) }
        ensures err { OnErr result (self.new.references ≡ self.old.references) }
        ensures room { 0 < self.old.spare → IsOk result }
        ensures left { self.old.spare ≤ self.new.spare + 1 }
    {
        self.references.insert(mir.0)?;
        Ok(())
    }
}
