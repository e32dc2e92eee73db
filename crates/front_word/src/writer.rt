//! The writer: it publishes, makes passes and takes them back.

ghost use Rattle.std.specs.Prelude.{◌≡◌, ◌+◌, ◌<◌, ◌≤◌, ◌∷◌, ◌++◌, [], length, max, Some, None, IfOk, OnErr};
ghost use mathlib.Core.List.{IsPrefix};
ghost use Rattle.front_word.specs.declared.view.Act.{Act};
ghost use Rattle.front_word.specs.Known.{newcomer, HasPlaces};
ghost use Rattle.front_word.specs.Rule.{IsNumber, OwedPast, Among};
ghost use Rattle.day_model.specs.Log.{most_entries};

use crate::front::Front;
use crate::pass::Pass;
use crate::plays::{Count, Deed, Publish, Raise, Watch, Whole};
use crate::view::View;
use atomic_table::Seat;
use corr_text::Memory;
use std::alloc::Global;
use std::marker::{Brand, Model};

/// The first seat, with which entries are published. It knows all of them.
#[derive(Drop)]
pub struct Writer {
    pub(crate) seat: Seat<(), View>,
}

impl Model for Writer {
    ghost use Rattle.std.specs.Prelude.{◌≡◌, []};
    ghost use Rattle.front_word.specs.Known.{WriterKnows};

    ghost Value = { WriterKnows };

    ghost use Rattle.front_word.specs.declared.view.Role.TheVariants.{Writer as WriterRole};
    ghost use Rattle.front_word.specs.Known.{writer_knows};
    ghost use Rattle.front_word.specs.Rule.{AreTagged, Among, IsNumber};

    ghost view = { λ s. writer_knows s.seat.table_id s.seat.me.0 };

    ghost invariant = { λ s. (s.seat.me.1 ≡ []) × (s.seat.me.0.role ≡ WriterRole) × AreTagged s.seat.me.0.made s.seat.me.0.known };
}

impl Writer {
    /// Adds one to the word. Which entry this is, and for which of the passes that this writer made, is named by the caller's
    /// contract; it is owed to that pass then. Before, nothing is owed, and there are fewer than 100,000 entries.
    pub fn publish(&mut self, f: &Front)
        ghost act: { Act }
        requires table { f.now ≡ self.old.table }
        requires clear { self.old.owed ≡ None }
        requires number { IsNumber self.old.made act.by }
        requires room { length self.old.base + length self.old.acts < most_entries }
        ensures { self.new ≡ record self.old { acts = self.old.acts ++ act ∷ []; owed = Some act.by } }
    {
        self.publish_as::<Brand>(f);
    }

    fn publish_as<A: Deed>(&mut self, f: &Front)
        requires table { f.now ≡ self.old.table }
        requires clear { self.old.owed ≡ None }
        requires number { IsNumber self.old.made A.act.by }
        requires room { length self.old.base + length self.old.acts < most_entries }
        ensures { self.new ≡ record self.old { acts = self.old.acts ++ A.act ∷ []; owed = Some A.act.by } }
    {
        f.table.shared.fetch_add::<Publish<A>>(&mut self.seat, 0, 1);
    }

    /// Raises the mark, a count of the disk's faults, to this count where it is less.
    pub fn mark(&mut self, f: &Front, count: u64)
        requires table { f.now ≡ self.old.table }
        ensures { self.new ≡ record self.old { mark = max self.old.mark count } }
    {
        self.mark_as::<Brand>(f, count);
    }

    fn mark_as<C: Count>(&mut self, f: &Front, count: u64)
        requires table { f.now ≡ self.old.table }
        requires count { count ≡ C.count }
        ensures { self.new ≡ record self.old { mark = max self.old.mark count } }
    {
        let _ = count;
        f.table.shared.load::<Raise<C>>(&mut self.seat, 0);
    }

    /// A new pass with the next number, from 1, which knows what the writer knows and has no place yet. Where memory runs out,
    /// the writer is as it was.
    pub fn split(&mut self, alloc: Global, f: &Front) -> Result<Pass, Memory>
        requires table { f.now ≡ self.old.table }
        ensures pass { IfOk result (λ p. p ≡ newcomer self.old p.spare) }
        ensures made { IfOk result (λ _. self.new ≡ record self.old { made = self.old.made + 1 }) }
        ensures err { OnErr result (self.new ≡ self.old) }
    {
        let seat = f.table.shared.split_seat::<Whole>(&mut self.seat);
        Ok(Pass {
            seat,
            seen: 0,
            mine: Vec::new(alloc),
        })
    }

    /// Takes a pass back, and looks: so what the pass knew is a beginning of what was published (`known`), its mark is at most
    /// the writer's (`mark`), it hadn't come back before (`back`), and each entry of its own that it knew has its place in `mine`
    /// (`places`).
    pub fn join(&mut self, f: &Front, p: Pass)
        requires writer { f.now ≡ self.old.table }
        requires pass { f.now ≡ p.table }
        ensures same { self.new ≡ record self.old { back = p.number ∷ self.old.back } }
        ensures known { IsPrefix p.known self.old.acts }
        ensures owed { OwedPast self.old.acts (length p.known) p.number self.old.owed }
        ensures back { Among p.number self.old.back → ⊥ }
        ensures mark { p.mark ≤ self.old.mark }
        ensures places { HasPlaces p.base p.number p.known p.mine }
    {
        let Pass {
            seat,
            seen: _,
            mine: _,
        } = p;
        f.table.shared.join_seat::<Whole>(&mut self.seat, seat);
        f.table.shared.load::<Watch>(&mut self.seat, 0);
    }
}
