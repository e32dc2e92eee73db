//! Passes: what a caller knows of what was acknowledged.

ghost use Rattle.std.specs.Prelude.{◌≡◌, ◌+◌, ◌<◌, ◌≤◌, ◌⊎◌, length, Some, None, IsOk, OnErr, OnOk};
ghost use mathlib.Core.List.{IsPrefix};
ghost use Rattle.front_word.specs.declared.view.Role.TheVariants.{Writer as WriterRole, Pass as PassRole};
ghost use Rattle.front_word.specs.inner.Views.{having_read, heard, having_seen, writer_note, pass_note};
ghost use Rattle.front_word.specs.Rule.{OwedPast};
ghost use Rattle.front_word.specs.inner.Rule.{IsKept};
ghost use Rattle.front_word.specs.Known.{HasRoom, having_met, places_in};

use crate::front::Front;
use crate::plays::{Look, ToPass, ToWriter, Watch};
use crate::view::View;
use crate::writer::Writer;
use atomic_table::Seat;
use corr_text::Memory;
use std::marker::Model;

/// What one caller knows: a beginning of what was acknowledged, and the places that were its own answers.
#[derive(Drop)]
pub struct Pass {
    pub(crate) seat: Seat<(), View>,
    pub(crate) seen: u64,
    pub(crate) mine: Vec<u32>,
}

impl Model for Pass {
    ghost use Rattle.std.specs.Prelude.{◌≡◌, ◌-◌, [], length, vec_len, vec_capacity};
    ghost use Rattle.front_word.specs.Known.{PassKnows};

    ghost Value = { PassKnows };

    ghost use Rattle.front_word.specs.declared.view.Role.TheVariants.{Pass as PassRole};
    ghost use Rattle.front_word.specs.Known.{pass_knows, HasPlaces};

    ghost view = { λ s. pass_knows s.seat.table_id s.seat.me.0 s.mine.items (vec_capacity s.mine - vec_len s.mine) };

    ghost invariant = { λ s. (s.seat.me.1 ≡ []) × (s.seat.me.0.role ≡ PassRole) × (s.seen ≡ s.seat.me.0.seen) × HasPlaces (length s.seat.me.0.base) s.seat.me.0.number s.seat.me.0.known s.mine.items };
}

impl Pass {
    /// Looks at the word, and answers it: how many entries were acknowledged. It is no less than what the pass saw before
    /// (`later`), and than how many entries it knows (`known`).
    pub fn look(&mut self, f: &Front) -> u64
        requires table { f.now ≡ self.old.table }
        ensures seen { self.new ≡ record self.old { seen = result } }
        ensures later { self.old.seen ≤ result }
        ensures known { length self.old.known ≤ result }
    {
        self.seen = f.table.shared.load::<Look>(&mut self.seat, 0);
        self.seen
    }

    /// The word as this pass saw it last, by `look` or `meet`; 0 before that.
    pub fn seen(&self) -> u64
        ensures { result ≡ self.now.seen }
    {
        self.seen
    }

    /// The places, from 1, at which calls with this pass answered, in the order of the calls: those that `meet` was given.
    pub fn mine(&self) -> &[u32]
        ensures { result.now ≡ self.now.mine }
    {
        self.mine.as_slice()
    }

    /// Makes room for one more place, and changes nothing else. Where there is room already, it changes nothing and answers Ok.
    /// `Memory`: there is none.
    pub fn reserve(&mut self) -> Result<(), Memory>
        ensures same { self.new ≡ record self.old { spare = self.new.spare } }
        ensures room { OnOk result (0 < self.new.spare) }
        ensures kept { self.old.spare ≤ self.new.spare }
        ensures none { OnErr result (self.new ≡ self.old) }
        ensures again { 0 < self.old.spare → (self.new ≡ self.old) × IsOk result }
    {
        self.reserve_for(1)
    }

    /// Makes room for at least so many more places, and changes nothing else, so that as many `meet` with a place have room. Where
    /// there is room already, it changes nothing and answers Ok. `Memory`: there is none.
    pub fn reserve_for(&mut self, places: usize) -> Result<(), Memory>
        ensures same { self.new ≡ record self.old { spare = self.new.spare } }
        ensures room { OnOk result (places ≤ self.new.spare) }
        ensures kept { self.old.spare ≤ self.new.spare }
        ensures none { OnErr result (self.new ≡ self.old) }
        ensures again { places ≤ self.old.spare → (self.new ≡ self.old) × IsOk result }
    {
        if places <= self.mine.capacity() - self.mine.len() {
            return Ok(());
        }
        self.mine.reserve(places).map_err(|_| Memory)
    }

    /// Lets the pass know all that the writer knows, and keeps a place, if one is given. Then both look at the word, and nothing
    /// is owed.
    ///
    /// Where a place is given, `reserve` has made room for it. Before the call nothing is owed, or an entry to this pass: then the
    /// place is given, and is that of the last entry.
    pub fn meet(&mut self, f: &Front, w: &mut Writer, place: Option<u32>)
        requires pass { f.now ≡ self.old.table }
        requires writer { f.now ≡ w.old.table }
        requires room { HasRoom place self.old.spare }
        requires owed { (w.old.owed ≡ None) ⊎ (w.old.owed ≡ Some self.old.number) }
        requires place { w.old.owed ≡ Some self.old.number → place ≡ Some (self.old.base + length w.old.acts) }
        ensures writer { w.new ≡ record w.old { owed = None } }
        ensures pass { self.new ≡ having_met self.old w.old place self.new.seen self.new.spare }
        ensures known { IsPrefix self.old.known w.old.acts }
        ensures seen { self.old.seen ≤ length w.old.acts }
        ensures mark { self.old.mark ≤ w.old.mark }
        ensures later { length w.old.acts ≤ self.new.seen }
        ensures spare { self.old.spare ≤ self.new.spare + places_in place }
        ensures owed { OwedPast w.old.acts (length self.old.known) self.old.number w.old.owed }
    {
        self.seen = exchange_notes(f, &mut self.seat, &mut w.seat);
        if let Some(place) = place {
            self.mine.push_reserved(place);
        }
    }
}

// Each reads a note of the other, and then looks.
fn exchange_notes(f: &Front, pass: &mut Seat<(), View>, writer: &mut Seat<(), View>) -> u64
    requires pass { f.now ≡ pass.old.table_id }
    requires writer { f.now ≡ writer.old.table_id }
    requires pass_role { pass.old.me.0.role ≡ PassRole }
    requires writer_role { writer.old.me.0.role ≡ WriterRole }
    ensures pass { (pass.new.table_id ≡ pass.old.table_id) × (pass.new.me.1 ≡ pass.old.me.1) × (pass.new.me.0 ≡ having_seen result (having_read pass.old.me.0 (writer_note writer.old.me.0))) }
    ensures writer { (writer.new.table_id ≡ writer.old.table_id) × (writer.new.me.1 ≡ writer.old.me.1) × (writer.new.me.0 ≡ heard writer.old.me.0 (pass_note (having_read pass.old.me.0 (writer_note writer.old.me.0)))) }
    ensures later { length (having_read pass.old.me.0 (writer_note writer.old.me.0)).known ≤ result }
    ensures pass_kept { IsKept (having_read pass.old.me.0 (writer_note writer.old.me.0)) }
    ensures writer_kept { IsKept (heard writer.old.me.0 (pass_note (having_read pass.old.me.0 (writer_note writer.old.me.0)))) }
{
    let shared = &f.table.shared;
    let note = shared.split_seat::<ToPass>(writer);
    shared.join_seat::<ToPass>(pass, note);
    let note = shared.split_seat::<ToWriter>(pass);
    shared.join_seat::<ToWriter>(writer, note);
    let seen = shared.load::<Look>(pass, 0);
    shared.load::<Watch>(writer, 0);
    seen
}
