//! Entries that wait for a line.

ghost use Rattle.std.specs.Prelude.{◌≡◌, ◌++◌, ◌∷◌, [], All, IfOk, OnOk, slice_get};
ghost use Rattle.reconcile.specs.inner.Bounds.{CanBeKeyed};
ghost use Rattle.reconcile.specs.inner.Waiting.{AllWait, WithoutFirst, places_with, waiting_for};
ghost use Rattle.reconcile.specs.declared.key.Key.{Key as KeyOf};

use crate::key::{Key, entry_key};
use corr_text::Memory;
use indexmap::IndexMap;
use statement::Movement;
use std::alloc::Global;
use std::collections::VecDeque;

/// The entries that no line has taken: their places in the journal, in its order, by what a line must share with them.
#[derive(Drop)]
pub struct Waiting {
    groups: IndexMap<Key, VecDeque<u32>>,
}

impl Waiting {
    /// One entry more.
    fn add(&mut self, alloc: Global, entry: &Movement) -> Result<(), Memory>
        requires { CanBeKeyed entry.now }
        ensures { OnOk result ((key : KeyOf) → waiting_for self.new key ≡ waiting_for self.old key ++ places_with key (entry.now ∷ [])) }
    {
        self.groups
            .entry(entry_key(entry))?
            .or_insert(VecDeque::new(alloc))
            .push_back(entry.place)?;
        Ok(())
    }

    /// All of these entries.
    pub fn all(alloc: Global, entries: &[Movement]) -> Result<Waiting, Memory>
        requires { All CanBeKeyed entries.now }
        ensures { IfOk result (AllWait entries.now) }
    {
        let mut waiting = Waiting {
            groups: IndexMap::new(alloc),
        };
        for entry in entries {
            waiting.add(alloc, entry)?;
        }
        Ok(waiting)
    }

    /// Takes the first of the entries that share this; none where there is none any more. It takes no memory.
    pub fn take(&mut self, key: &Key) -> Option<u32>
        ensures first { result ≡ slice_get (waiting_for self.old key.now) 0 }
        ensures rest { WithoutFirst key.now self.old self.new }
    {
        self.groups.get_mut(key)?.pop_front()
    }
}
