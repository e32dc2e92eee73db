//! The places that the fields of a message take.

ghost use Rattle.std.specs.Prelude.{◌≡◌, ◌<◌, ◌==◌, ◌++◌, ◌∷◌, [], ℕ, List, OnErr, OnOk};
ghost use Rattle.std.specs.List.{list_any};
ghost use Rattle.fin_layout.specs.Found.{AreNoted};
ghost use Rattle.fin_layout.specs.inner.Found.{IsNotedToo};
ghost use Rattle.fin_layout.specs.Order.{is_between};

use corr_text::Memory;
use std::alloc::Global;
use std::marker::Model;

/// Of how many places it is noted whether a field takes them: of all that an order has.
const NOTED: usize = 64;

/// The places that the fields of a message take, in the order of the fields.
#[derive(Debug, Drop)]
pub struct Found {
    places: Vec<usize>,
    // of each place below 64, whether a field takes it: most places of an order are asked for and not taken
    taken: [bool; NOTED],
}

impl Model for Found {
    ghost use Rattle.std.specs.Prelude as Std;
    ghost use Rattle.fin_layout.specs.Found.{AreNoted};

    ghost Value = { Std.List Std.ℕ };

    ghost view = { λ f. f.places.items };

    ghost invariant = { λ f. AreNoted f.taken f.places.items };
}

// Notes that a field takes a place.
fn note(taken: &mut [bool; NOTED], at: usize)
    ensures { IsNotedToo taken.old taken.new at }
{
    if at >= NOTED {
        return;
    }
    taken[at] = true;
}

// Whether one of the places from `first` to `last` is noted, both among them.
fn any_noted(taken: &[bool; NOTED], first: usize, last: usize) -> bool
    requires { last < 64 }
    ensures { (places : List ℕ) → AreNoted taken.now places → result ≡ list_any (is_between first last) places }
{
    for place in first..last + 1 {
        if taken[place] {
            return true;
        }
    }
    false
}

impl Found {
    /// No place yet.
    pub fn new(alloc: Global) -> Found
        ensures { result ≡ [] }
    {
        Found {
            places: Vec::new(alloc),
            taken: [false; NOTED],
        }
    }

    /// Forgets the places, and keeps their memory.
    pub fn clear(&mut self)
        ensures { self.new ≡ [] }
    {
        self.places.clear();
        self.taken = [false; NOTED];
    }

    /// Makes room for the places of this many fields more.
    pub(crate) fn reserve(&mut self, fields: usize) -> Result<(), Memory>
        ensures { self.new ≡ self.old }
    {
        self.places.reserve(fields)?;
        Ok(())
    }

    /// Adds the place of the next field.
    pub(crate) fn push(&mut self, at: usize) -> Result<(), Memory>
        ensures ok { OnOk result (self.new ≡ self.old ++ at ∷ []) }
        ensures err { OnErr result (self.new ≡ self.old) }
    {
        self.places.push(at)?;
        note(&mut self.taken, at);
        Ok(())
    }

    /// The places.
    pub fn as_slice(&self) -> &[usize]
        ensures { result.now ≡ self.now }
    {
        self.places.as_slice()
    }

    /// Whether a field takes a place.
    pub(crate) fn has(&self, place: usize) -> bool
        ensures { result ≡ list_any (λ p. p == place) self.now }
    {
        if place < NOTED {
            return self.taken[place];
        }
        self.places.as_slice().contains(&place)
    }
}

/// Whether a field takes one of the places from `first` to `last`, both among them and numbered from 0. `found` are the places
/// of the fields.
pub fn takes_any(found: &Found, first: usize, last: usize) -> bool
    ensures { result ≡ list_any (is_between first last) found.now }
{
    if last < NOTED {
        return any_noted(&found.taken, first, last);
    }
    let places = found.places.as_slice();
    places.iter().any(|place| *place >= first && *place <= last)
}
