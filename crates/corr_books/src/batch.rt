//! Pays that are booked together: their accounts are held at once, and new entries come to the disk under one sync.

ghost use Rattle.std.specs.Prelude.{◌≡◌, ◌+◌, ◌≤◌, ◌++◌, [], All, Err, IfOk, None, OnOk, length, map, replicate, true, vec_capacity};
ghost use Rattle.std.specs.List.{list_any};
ghost use Rattle.day_model.specs.Fit.{FitsAccounts};
ghost use Rattle.day_model.specs.Shape.{HasShape};
ghost use Rattle.front_word.specs.Rule.{IsNumber};
ghost use Rattle.acct_locks.specs.Holdings.{EachOnce, Holds};
ghost use Rattle.jrn_book.specs.Batches.{is_memory, most_batch};
ghost use Rattle.jrn_book.specs.Deciding.{HoldsAll};
ghost use Rattle.corr_books.specs.Passes.{Belongs};
ghost use Rattle.corr_books.specs.TellingAll.{NoneEntered, NoneTried, ToldAll, stops};
ghost use Rattle.corr_books.specs.inner.TellingAll.{AreNextInTurn, HasAccountsOf, MeetsInTurn, RiseOrStay};

use crate::books::Books;
use crate::entering::enter_all;
use crate::naming::{Batch, BooksName};
use crate::stand::{Stand, tell};
use acct_locks::{Held, HeldAll};
use corr_disk::Disk;
use corr_ids::Day;
use corr_text::Memory;
use day_model::{Accounts, AcctNo, Leg, Pay};
use front_word::{Front, Pass, Writer};
use jrn_book::{CommitFault, Committed};
use std::alloc::Global;
use std::marker::Brand;
use std::sync::Wait;
use work_pool::Gate;

/// Answers so many pays that there is no memory. There is room for the answers.
fn want_memory(answers: &mut Vec<Result<Committed, CommitFault>>, count: usize)
    requires room { length answers.old.items + count ≤ vec_capacity answers.old }
    ensures each { answers.new.items ≡ answers.old.items ++ replicate count (Err CommitFault.Memory) }
    ensures capacity { vec_capacity answers.new ≡ vec_capacity answers.old }
{
    for _at in 0..count {
        answers.push_reserved(Err(CommitFault::Memory));
    }
}

// Adds the accounts of legs to numbers.
fn put_accounts(legs: &[Leg], numbers: &mut Vec<u32>) -> Result<(), Memory>
    ensures { OnOk result (numbers.new.items ≡ numbers.old.items ++ map (λ leg. leg.account.0) legs.now) }
{
    for leg in legs {
        numbers.push(leg.account.0)?;
    }
    Ok(())
}

/// The accounts of the legs of pays, in rising order. An account may stand there more than once.
fn accounts_of_all(alloc: Global, a: &Accounts, pays: &[Pay]) -> Result<Vec<u32>, Memory>
    requires fits { All (FitsAccounts a.now) pays.now }
    ensures numbers { IfOk result (λ numbers. HasAccountsOf a.now pays.now numbers.items) }
{
    let _ = a;
    let mut numbers = Vec::new(alloc);
    for p in pays {
        put_accounts(p.legs.as_slice(), &mut numbers)?;
    }
    numbers.sort_unstable();
    Ok(numbers)
}

/// Takes each of these accounts once; the numbers don't fall.
fn take_each<N: BooksName, R: Wait>(rt: &R, held: &mut HeldAll<'_, N>, numbers: &[u32])
    requires none { held.old.held ≡ [] }
    requires room { length numbers.now ≤ held.old.most }
    requires there { All (λ n. n ≤ held.old.count) numbers.now }
    requires ordered { RiseOrStay 1 numbers.now }
    ensures held { All (λ n. Holds held.new.held n) numbers.now }
    ensures once { EachOnce held.new.held }
    ensures same { held.new.table ≡ held.old.table }
{
    let mut last = 0;
    for n in numbers {
        if last < *n {
            held.take(rt, AcctNo(*n));
            last = *n;
        }
    }
}

/// Whether no pay behind one of this answer was tried.
fn stops_batch(answer: &Result<Committed, CommitFault>) -> bool
    ensures { result ≡ stops answer.now }
{
    match answer {
        Ok(_) | Err(CommitFault::Conflict { .. }) | Err(CommitFault::Full { .. }) => false,
        Err(CommitFault::DiskFault { .. }) | Err(CommitFault::Broken { .. }) => true,
        Err(CommitFault::Memory) => true,
    }
}

/// Tells a pass the answers to the pays of a batch, one after another, up to the first behind which none was tried.
fn tell_all<B: Batch>(
    w: &mut Writer,
    f: &Front,
    pass: &mut Pass,
    day: Day,
    answers: &[Result<Committed, CommitFault>],
)
    requires pays { length B.pays ≡ length answers.now }
    requires table { (f.now ≡ w.old.table) × (f.now ≡ pass.old.table) }
    requires owed { w.old.owed ≡ None }
    requires number { IsNumber w.old.made pass.old.number }
    requires base { pass.old.base ≡ length w.old.base }
    requires room { length B.pays ≤ pass.old.spare }
    requires places { AreNextInTurn w.old pass.old.number B.pays day answers.now }
    ensures { MeetsInTurn w.old pass.old.number B.pays day answers.now pass.old w.new pass.new }
{
    for (at, answer) in answers.iter().enumerate() {
        let place = at;
        tell::<Brand, usize>(w, f, pass, &place, day, answer);
        if stops_batch(answer) {
            return;
        }
    }
}

impl<N: BooksName, D: Disk> Stand<N, D> {
    /// Enters the pays of a batch, whose accounts are held, and lets the pass know, one answer after another. The answers are put into
    /// an empty list that has room for them.
    pub(crate) fn book_all<H: Held>(
        &mut self,
        f: &Front,
        held: &mut H,
        pass: &mut Pass,
        pays: Vec<Pay>,
        answers: &mut Vec<Result<Committed, CommitFault>>,
    )
        requires front { f.now ≡ N.opening.word }
        requires pass { Belongs N.opening pass.old }
        requires few { (length pays.items ≤ most_batch) × (length pays.items ≤ N.opening.most) }
        requires fits { All (FitsAccounts N.opening.accounts) pays.items }
        requires shape { All HasShape pays.items }
        requires held { All (λ p. HoldsAll (H.held held.old) p.legs) pays.items }
        requires table { H.table held.old ≡ N.table }
        requires none { answers.old.items ≡ [] }
        requires room { length pays.items ≤ vec_capacity answers.old }
        ensures told { ToldAll N.opening pays.items pass.old answers.new.items pass.new }
        ensures together { list_any stops answers.new.items ≡ true → NoneEntered pass.old pass.new answers.new.items }
        ensures memory { list_any is_memory answers.new.items ≡ true → NoneTried pass.old pass.new answers.new.items }
        ensures pass { Belongs N.opening pass.new }
        ensures capacity { vec_capacity answers.new ≡ vec_capacity answers.old }
    {
        self.book_all_as::<Brand, H>(f, held, pass, pays, answers);
    }

    // The same, where the pays have a name.
    fn book_all_as<B: Batch, H: Held>(
        &mut self,
        f: &Front,
        held: &mut H,
        pass: &mut Pass,
        pays: Vec<Pay>,
        answers: &mut Vec<Result<Committed, CommitFault>>,
    )
        requires named { B.pays ≡ pays.items }
        requires front { f.now ≡ N.opening.word }
        requires pass { Belongs N.opening pass.old }
        requires few { (length pays.items ≤ most_batch) × (length pays.items ≤ N.opening.most) }
        requires fits { All (FitsAccounts N.opening.accounts) pays.items }
        requires shape { All HasShape pays.items }
        requires held { All (λ p. HoldsAll (H.held held.old) p.legs) pays.items }
        requires table { H.table held.old ≡ N.table }
        requires none { answers.old.items ≡ [] }
        requires room { length pays.items ≤ vec_capacity answers.old }
        ensures told { ToldAll N.opening pays.items pass.old answers.new.items pass.new }
        ensures together { list_any stops answers.new.items ≡ true → NoneEntered pass.old pass.new answers.new.items }
        ensures memory { list_any is_memory answers.new.items ≡ true → NoneTried pass.old pass.new answers.new.items }
        ensures pass { Belongs N.opening pass.new }
        ensures capacity { vec_capacity answers.new ≡ vec_capacity answers.old }
    {
        let count = pays.len();
        if pass.reserve_for(count).is_err() {
            want_memory(answers, count);
            return;
        }
        enter_all(&mut self.book, held, pays, self.day, answers);
        tell_all::<B>(&mut self.writer, f, pass, self.day, answers.as_slice());
    }
}

impl<N: BooksName, D: Disk> Books<N, D> {
    /// Books pays together, by any thread that has a pass of these books: waits for the locks of all of their accounts in rising order,
    /// passes the gate for each pay, waits for the journal and commits all of them under one sync. The answers are put into an empty list
    /// that has room for them. It may wait longer than as many calls of `book` would for each of their locks, since it holds all of them.
    ///
    /// Each pay fits the accounts of the books and has the shape of what is written down; there are at most 1,024, and no more than the
    /// name of the books tells. The answers are those of as many calls of `book`, one after another, by a pass that nobody else uses
    /// (`ToldAll`), up to one of `DiskFault`, `Broken` or `Memory`: the pays behind it aren't tried, and tell the pass nothing. Behind
    /// `Memory` each answer is that, behind a failure `Broken` with the disk's count at the opening and one to which it has risen.
    ///
    /// All new entries are acknowledged together (`together`): where one answer is `DiskFault`, `Broken` or `Memory` none is `New`, and
    /// no pay of the batch was entered. Where one is `Memory` (`memory`) all are, and the pass is as before.
    pub fn book_all<R: Wait, G: Gate>(
        &self,
        rt: &R,
        alloc: Global,
        pass: &mut Pass,
        worker: u32,
        pays: Vec<Pay>,
        gate: &G,
        answers: &mut Vec<Result<Committed, CommitFault>>,
    )
        requires pass { Belongs N.opening pass.old }
        requires few { (length pays.items ≤ most_batch) × (length pays.items ≤ N.opening.most) }
        requires fits { All (FitsAccounts N.opening.accounts) pays.items }
        requires shape { All HasShape pays.items }
        requires none { answers.old.items ≡ [] }
        requires room { length pays.items ≤ vec_capacity answers.old }
        ensures told { ToldAll N.opening pays.items pass.old answers.new.items pass.new }
        ensures together { list_any stops answers.new.items ≡ true → NoneEntered pass.old pass.new answers.new.items }
        ensures memory { list_any is_memory answers.new.items ≡ true → NoneTried pass.old pass.new answers.new.items }
        ensures pass { Belongs N.opening pass.new }
        ensures capacity { vec_capacity answers.new ≡ vec_capacity answers.old }
    {
        let Ok(held) = self.hold_all_of(rt, alloc, pays.as_slice()) else {
            want_memory(answers, pays.len());
            return;
        };
        let mut held = held;
        for p in pays.as_slice() {
            gate.pass(worker, &p.mir);
        }
        self.stand
            .lock(rt)
            .book_all(&self.front, &mut held, pass, pays, answers);
        drop(held);
    }

    // Waits for all accounts of these pays.
    fn hold_all_of<R: Wait>(
        &self,
        rt: &R,
        alloc: Global,
        pays: &[Pay],
    ) -> Result<HeldAll<'_, N>, Memory>
        requires fits { All (FitsAccounts N.opening.accounts) pays.now }
        ensures held { IfOk result (λ h. All (λ p. HoldsAll h.held p.legs) pays.now) }
        ensures table { IfOk result (λ h. h.table ≡ N.table) }
    {
        let numbers = accounts_of_all(alloc, &self.accounts, pays)?;
        let mut held = self.purses.hold_all(alloc, numbers.len())?;
        take_each(rt, &mut held, numbers.as_slice());
        Ok(held)
    }
}
