//! What stands behind the journal's lock: the journal's book, and the seat with which its entries are published.

ghost use Rattle.std.specs.Prelude.{◌≡◌, ◌+◌, ◌<◌, ◌≤◌, length, None};
ghost use Rattle.day_model.specs.Fit.{FitsAccounts};
ghost use Rattle.day_model.specs.Log.{most_entries};
ghost use Rattle.day_model.specs.Shape.{HasShape};
ghost use Rattle.front_word.specs.Rule.{IsNumber};
ghost use Rattle.jrn_book.specs.Deciding.{HoldsAll};
ghost use Rattle.corr_books.specs.inner.Meeting.{IsNext, MeetsAfter, act_of, owing, writer_after};
ghost use Rattle.corr_books.specs.Passes.{Belongs};
ghost use Rattle.corr_books.specs.Telling.{Told};

use crate::entering::enter;
use crate::naming::{Act, BooksName, Paid};
use acct_locks::Held;
use corr_disk::Disk;
use corr_ids::Day;
use day_model::{Outcome, Pay};
use front_word::{Front, Pass, Writer};
use jrn_book::{CommitFault, Committed, JrnBook};
use std::marker::{Brand, Model, PhantomData};

/// The book of one opening, the writer that has published its entries, and the day that they get.
#[derive(Drop)]
pub(crate) struct Stand<N: BooksName, D: Disk> {
    pub(crate) book: JrnBook<D>,
    pub(crate) writer: Writer,
    pub(crate) day: Day,
    pub(crate) of: PhantomData<N>,
}

impl<N: BooksName, D: Disk> Model for Stand<N, D> {
    ghost use Rattle.corr_books.specs.inner.Stand.{StandKnows, IsStand};

    ghost Value = { StandKnows D };

    ghost view = { λ s. record { book = s.book; writer = s.writer; day = s.day } };

    ghost invariant = { λ s. IsStand D.Disk N.opening N.past N.table (record { book = s.book; writer = s.writer; day = s.day }) };
}

impl<N: BooksName, D: Disk> Stand<N, D> {
    /// Enters a pay whose accounts are held, and lets the pass know.
    pub(crate) fn book<H: Held>(
        &mut self,
        f: &Front,
        held: &mut H,
        pass: &mut Pass,
        p: &Pay,
    ) -> Result<Committed, CommitFault>
        requires front { f.now ≡ N.opening.word }
        requires pass { Belongs N.opening pass.old }
        requires fits { FitsAccounts N.opening.accounts p.now }
        requires shape { HasShape p.now }
        requires held { HoldsAll (H.held held.old) p.now.legs }
        requires table { H.table held.old ≡ N.table }
        ensures told { Told N.opening p.now pass.old result pass.new }
        ensures pass { Belongs N.opening pass.new }
    {
        if pass.reserve().is_err() {
            return Err(CommitFault::Memory);
        }
        let answer = enter(&mut self.book, held, p, self.day);
        tell::<Brand, Pay>(&mut self.writer, f, pass, p, self.day, &answer);
        answer
    }
}

/// Publishes what was entered, and lets the pass know all. The pass meets the writer before the entry is published too: so it
/// shows that the entry is past all that it knew. `of` tells proofs which pay was answered: the pay, or its place in a batch.
pub(crate) fn tell<P: Paid, T>(
    w: &mut Writer,
    f: &Front,
    pass: &mut Pass,
    of: &T,
    day: Day,
    answer: &Result<Committed, CommitFault>,
)
    requires table { (f.now ≡ w.old.table) × (f.now ≡ pass.old.table) }
    requires owed { w.old.owed ≡ None }
    requires number { IsNumber w.old.made pass.old.number }
    requires base { pass.old.base ≡ length w.old.base }
    requires room { 0 < pass.old.spare }
    requires place { IsNext w.old.base w.old.acts answer.now }
    ensures writer { w.new ≡ writer_after w.old pass.old.number P.pay day answer.now }
    ensures pass { MeetsAfter w.old w.new answer.now pass.old pass.new }
    ensures left { pass.old.spare ≤ pass.new.spare + 1 }
{
    let _ = of;
    if let Err(CommitFault::Memory) = answer {
        return;
    }
    pass.meet(f, w, None);
    let place = match answer {
        Ok(Committed::New { place, outcome }) => {
            publish::<P>(w, f, pass, day, *outcome);
            Some(*place)
        }
        Ok(Committed::Kept { place, .. }) => Some(*place),
        Err(CommitFault::DiskFault { after, .. }) => {
            w.mark(f, *after);
            None
        }
        Err(CommitFault::Broken { now, .. }) => {
            w.mark(f, *now);
            None
        }
        Err(CommitFault::Conflict { .. }) | Err(CommitFault::Full { .. }) => None,
        Err(CommitFault::Memory) => None,
    };
    pass.meet(f, w, place);
}

/// Publishes the entry that a pay became, for a pass.
fn publish<P: Paid>(w: &mut Writer, f: &Front, pass: &Pass, day: Day, outcome: Outcome)
    requires table { f.now ≡ w.old.table }
    requires owed { w.old.owed ≡ None }
    requires number { IsNumber w.old.made pass.now.number }
    requires room { length w.old.base + length w.old.acts < most_entries }
    ensures { w.new ≡ owing w.old (act_of pass.now.number P.pay day outcome) }
{
    publish_as::<P, Brand>(w, f, pass, day, outcome);
}

fn publish_as<P: Paid, A: Act>(w: &mut Writer, f: &Front, pass: &Pass, day: Day, outcome: Outcome)
    requires act { A.act ≡ act_of pass.now.number P.pay day outcome }
    requires table { f.now ≡ w.old.table }
    requires owed { w.old.owed ≡ None }
    requires number { IsNumber w.old.made A.act.by }
    requires room { length w.old.base + length w.old.acts < most_entries }
    ensures { w.new ≡ owing w.old A.act }
{
    let _ = pass;
    let _ = day;
    let _ = outcome;
    w.publish(f);
}
