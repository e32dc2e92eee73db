//! Many accounts held at once, in a list.

ghost use Rattle.std.specs.Prelude.{◌≡◌, ◌<◌, ◌≤◌, [], All, HoldsAt, IfOk, length};
ghost use Rattle.acct_locks.specs.Holdings.{EachOnce, Holds, TakesNext};

use crate::held::{Held, Holder};
use crate::locked::Locked;
use crate::name::Name;
use crate::purses::Purses;
use crate::sides::BookSides;
use corr_text::Memory;
use day_model::{AcctNo, Leg};
use std::alloc::Global;
use std::marker::Model;
use std::sync::Wait;

/// Holds any number of accounts, in rising order: a list of held locks.
///
/// Contracts see the table that they are of, how many accounts that has, the held purses from the one taken first, and for how many
/// there is room.
#[derive(Drop)]
pub struct HeldAll<'a, N: Name> {
    purses: &'a Purses<N>,
    locked: Vec<Locked<'a, N>>,
}

impl<'a, N: Name> Model for HeldAll<'a, N> {
    ghost use Rattle.std.specs.Prelude.{vec_capacity};
    ghost use Rattle.acct_locks.specs.Holdings.{AllHand, AreRising};

    ghost Value = { AllHand };

    ghost view = { λ h. record { table = N.table; count = h.purses.now; held = h.locked.items; most = vec_capacity h.locked } };

    ghost invariant = { λ h. AreRising h.locked.items };
}

impl<N: Name> Purses<N> {
    /// Holds no account yet, and has room for so many, so that no `take` needs memory. `Memory`: there was no room for them.
    pub fn hold_all(&self, alloc: Global, most: usize) -> Result<HeldAll<'_, N>, Memory>
        ensures { IfOk result (λ h. h ≡ record { table = N.table; count = self.now; held = []; most = most }) }
    {
        let locked = Vec::with_capacity(alloc, most)?;
        Ok(HeldAll {
            purses: self,
            locked,
        })
    }
}

impl<'a, N: Name> HeldAll<'a, N> {
    /// Waits for the lock of an account of the table, whose number is greater than those of all that are held. There is room for
    /// one more. It takes no memory.
    pub fn take<R: Wait>(&mut self, rt: &R, n: AcctNo)
        requires there { (0 < n.0) × (n.0 ≤ self.old.count) }
        requires room { length self.old.held < self.old.most }
        requires rising { All (λ h. h.number < n.0) self.old.held }
        ensures taken { TakesNext self.old n.0 self.new }
        ensures once { EachOnce self.new.held }
    {
        let guard = self.purses.lock(rt, n.0);
        self.locked.push_reserved(Locked { guard });
    }

    /// Drops the locks.
    pub fn give_back(self) {
        drop(self);
    }

    // Where a held account stands.
    fn place(&self, n: u32) -> usize
        requires held { Holds self.now.held n }
        ensures there { result < length self.now.held }
        ensures is { HoldsAt (λ h. h.number ≡ n) self.now.held result }
    {
        let mut low = 0;
        let mut high = self.locked.len();
        while low + 1 < high {
            let middle = low + (high - low) / 2;
            if self.locked[middle].number() <= n {
                low = middle;
            } else {
                high = middle;
            }
        }
        low
    }
}

impl<'a, N: Name> Holder for HeldAll<'a, N> {
    ghost table = { λ h. h.table };

    ghost count = { λ h. h.count };

    ghost held = { λ h. h.held };

    ghost most = { λ h. h.most };

    fn settle_one(&mut self, sides: &mut BookSides, leg: &Leg) {
        let at = self.place(leg.account.0);
        let purses = self.purses;
        self.locked[at].add(purses, sides, leg);
    }
}

impl<'a, N: Name> Held for HeldAll<'a, N> {
    fn totals(&self, n: AcctNo) -> (u64, u64) {
        let at = self.place(n.0);
        self.locked[at].totals()
    }

    fn agree(&mut self, sides: &mut BookSides, n: AcctNo) {
        let at = self.place(n.0);
        let purses = self.purses;
        self.locked[at].agree(purses, sides);
    }
}
