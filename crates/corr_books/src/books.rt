//! Books: the parts of one opening under a name, behind their locks.

ghost use Rattle.std.specs.Prelude.{◌≡◌, length};
ghost use Rattle.day_model.specs.Chart.{IsChart, accounts_of};
ghost use Rattle.day_model.specs.Fit.{FitsAccounts};
ghost use Rattle.day_model.specs.Shape.{HasShape};
ghost use Rattle.jrn_book.specs.Deciding.{HoldsAll};
ghost use Rattle.corr_books.specs.Passes.{Belongs};
ghost use Rattle.corr_books.specs.Telling.{Told};

use crate::naming::BooksName;
use crate::rising::rising;
use crate::stand::Stand;
use acct_locks::{Held, Purses};
use corr_disk::Disk;
use day_model::{Accounts, Pay};
use front_word::{Front, Pass};
use jrn_book::{CommitFault, Committed};
use std::sync::{Mutex, Wait};
use work_pool::Gate;

/// The books of one opening, which threads share. Each that books has a pass of its own.
///
/// `N` names the accounts, the history at the opening, the day that entries get, the disk's count of faults then, the number
/// of passes and the two tables.
#[derive(Drop)]
pub struct Books<N: BooksName, D: Disk> {
    pub(crate) accounts: Accounts,
    pub(crate) front: Front,
    pub(crate) purses: Purses<N>,
    pub(crate) made: u32,
    pub(crate) stand: Mutex<Stand<N, D>>,
    ghost accounts_are: { accounts ≡ N.opening.accounts },
    ghost front_is: { front ≡ N.opening.word },
    ghost purses_are: { purses ≡ length (accounts_of N.opening.accounts) },
    ghost made_is: { made ≡ N.opening.made },
}

impl<N: BooksName, D: Disk> Books<N, D> {
    /// The accounts. Takes no memory.
    pub fn accounts(&self) -> &Accounts
        ensures value { result.now ≡ N.opening.accounts }
        ensures sound { IsChart N.opening.accounts }
    {
        // What always holds of accounts.
        let _count = self.accounts.count();
        &self.accounts
    }

    /// Books a pay, by any thread that has a pass of these books: waits for the locks of its two accounts, or three, in rising
    /// order, passes the gate, waits for the journal and commits. The pass then knows all that was entered before, and its own
    /// places have that of the answer after `New` and `Kept`. `worker` is told to the gate alone.
    ///
    /// The pay fits the accounts of the books and has the shape of what is written down. It answers as `commit` does, and each
    /// answer shows its cause by what the pass knows then (`Told`): `New` the entry, past all that the pass knew; `Kept` and
    /// `Conflict` the entry with the pay's reference; `Full` a history without it that has no room; `DiskFault` and `Broken`
    /// that the disk's count of faults has risen since the opening. After `Memory` the pass is as before.
    pub fn book<R: Wait, G: Gate>(
        &self,
        rt: &R,
        pass: &mut Pass,
        worker: u32,
        p: &Pay,
        gate: &G,
    ) -> Result<Committed, CommitFault>
        requires pass { Belongs N.opening pass.old }
        requires fits { FitsAccounts N.opening.accounts p.now }
        requires shape { HasShape p.now }
        ensures told { Told N.opening p.now pass.old result pass.new }
        ensures pass { Belongs N.opening pass.new }
    {
        let accounts = rising(&self.accounts, p);
        let held = self.purses.hold();
        let held = held.take(rt, accounts.low).take(rt, accounts.next);
        match accounts.last {
            None => self.book_held(rt, held, pass, worker, p, gate),
            Some(last) => {
                let held = held.take(rt, last);
                self.book_held(rt, held, pass, worker, p, gate)
            }
        }
    }

    // Books a pay whose accounts are held, and gives them back.
    fn book_held<H: Held + Drop, R: Wait, G: Gate>(
        &self,
        rt: &R,
        held: H,
        pass: &mut Pass,
        worker: u32,
        p: &Pay,
        gate: &G,
    ) -> Result<Committed, CommitFault>
        requires pass { Belongs N.opening pass.old }
        requires fits { FitsAccounts N.opening.accounts p.now }
        requires shape { HasShape p.now }
        requires held { HoldsAll (H.held held) p.now.legs }
        requires table { H.table held ≡ N.table }
        ensures told { Told N.opening p.now pass.old result pass.new }
        ensures pass { Belongs N.opening pass.new }
    {
        let mut held = held;
        gate.pass(worker, &p.mir);
        let answer = self.stand.lock(rt).book(&self.front, &mut held, pass, p);
        drop(held);
        answer
    }
}
