//! Accounts held in rising order.

ghost use Rattle.std.specs.Prelude.{◌≡◌, ◌<◌, ◌≤◌, [], ◌∷◌};
ghost use Rattle.acct_locks.specs.Holdings.{Holding, IsAbove, Takes};

use crate::held::{Held, Holder};
use crate::name::Name;
use crate::purses::{Named, Purses};
use crate::sides::BookSides;
use day_model::{AcctNo, Leg};
use std::marker::Model;
use std::sync::{MutexGuard, Wait};

/// Holds no account.
#[derive(Drop)]
pub struct Held0<'a, N: Name> {
    purses: &'a Purses<N>,
}

impl<'a, N: Name> Model for Held0<'a, N> {
    ghost use Rattle.std.specs.Prelude.{[]};
    ghost use Rattle.acct_locks.specs.Holdings.{Hand};

    ghost Value = { Hand };

    ghost view = { λ h. record { table = N.table; count = h.purses.now; held = [] } };
}

/// Holds one account more than `H`.
#[derive(Drop)]
pub struct More<'a, H: Held, N: Name> {
    purses: &'a Purses<N>,
    rest: H,
    last: MutexGuard<'a, Named<N>>,
}

impl<'a, H: Held, N: Name> Model for More<'a, H, N> {
    ghost use Rattle.std.specs.Prelude.{◌≡◌, ◌∷◌};
    ghost use Rattle.std.specs.Sync.Mutex.{mutex_guard_value};
    ghost use Rattle.acct_locks.specs.Holdings.{Hand};

    ghost Value = { Hand };

    ghost view = { λ h. record { table = N.table; count = h.purses.now; held = (mutex_guard_value h.last).purse ∷ H.held h.rest } };

    ghost invariant = { λ h. H.table h.rest ≡ N.table };
}

// `Held0` holds no account, so no call of these meets its conditions. Reading the field shows it.
impl<'a, N: Name> Holder for Held0<'a, N> {
    ghost table = { λ h. h.table };

    ghost count = { λ h. h.count };

    ghost held = { λ h. h.held };

    ghost most = { λ h. 0 };

    fn settle_one(&mut self, sides: &mut BookSides, leg: &Leg) {
        let _ = &self.purses;
        unreachable!()
    }
}

impl<'a, N: Name> Held for Held0<'a, N> {
    fn totals(&self, n: AcctNo) -> (u64, u64) {
        let _ = &self.purses;
        unreachable!()
    }

    fn agree(&mut self, sides: &mut BookSides, n: AcctNo) {
        let _ = &self.purses;
        unreachable!()
    }
}

impl<'a, H: Held, N: Name> Holder for More<'a, H, N> {
    ghost table = { λ h. h.table };

    ghost count = { λ h. h.count };

    ghost held = { λ h. h.held };

    ghost most = { λ h. 0 };

    fn settle_one(&mut self, sides: &mut BookSides, leg: &Leg) {
        if self.last.purse.number() == leg.account.0 {
            let purses = self.purses;
            self.last.purse.add(purses.seat_table(), sides, leg);
        } else {
            self.rest.settle_one(sides, leg);
        }
    }
}

impl<'a, H: Held, N: Name> Held for More<'a, H, N> {
    fn totals(&self, n: AcctNo) -> (u64, u64) {
        if self.last.purse.number() == n.0 {
            self.last.purse.totals()
        } else {
            self.rest.totals(n)
        }
    }

    fn agree(&mut self, sides: &mut BookSides, n: AcctNo) {
        if self.last.purse.number() == n.0 {
            let purses = self.purses;
            self.last.purse.agree(purses.seat_table(), sides);
        } else {
            self.rest.agree(sides, n);
        }
    }
}

/// Holds one account.
pub type Held1<'a, N> = More<'a, Held0<'a, N>, N>;

/// Holds two accounts.
pub type Held2<'a, N> = More<'a, Held1<'a, N>, N>;

/// Holds three accounts.
pub type Held3<'a, N> = More<'a, Held2<'a, N>, N>;

impl<N: Name> Purses<N> {
    /// Holds no account yet.
    pub fn hold(&self) -> Held0<'_, N>
        ensures { result ≡ record { table = N.table; count = self.now; held = [] } }
    {
        Held0 { purses: self }
    }
}

fn take_more<'a, H: Held, N: Name, R: Wait>(
    rt: &R,
    purses: &'a Purses<N>,
    rest: H,
    n: AcctNo,
) -> More<'a, H, N>
    requires table { H.table rest ≡ N.table }
    requires there { (0 < n.0) × (n.0 ≤ purses.now) }
    ensures { (h : Holding) × (h.number ≡ n.0) × (result ≡ record { table = N.table; count = purses.now; held = h ∷ H.held rest }) }
{
    let last = purses.lock(rt, n.0);
    More { purses, rest, last }
}

impl<'a, N: Name> Held0<'a, N> {
    /// Waits for the lock of an account of the table.
    pub fn take<R: Wait>(self, rt: &R, n: AcctNo) -> Held1<'a, N>
        requires there { (0 < n.0) × (n.0 ≤ self.count) }
        requires rising { IsAbove n.0 self.held }
        ensures taken { Takes self.entry n.0 result }
    {
        let purses = self.purses;
        take_more(rt, purses, self, n)
    }

    /// Drops the locks, of which there are none.
    pub fn give_back(self) {
        drop(self);
    }
}

/// Held accounts beside which another may be taken: none, one or two of them. It is public for `take` alone.
pub trait TakesAnother: Held {}

impl<'a, N: Name> TakesAnother for Held0<'a, N> {}

impl<'a, N: Name> TakesAnother for More<'a, Held0<'a, N>, N> {}

impl<'a, H: TakesAnother, N: Name> More<'a, H, N> {
    /// Waits for the lock of an account of the table, whose number is greater than the last one held.
    pub fn take<R: Wait>(self, rt: &R, n: AcctNo) -> More<'a, More<'a, H, N>, N>
        requires there { (0 < n.0) × (n.0 ≤ self.count) }
        requires rising { IsAbove n.0 self.held }
        ensures taken { Takes self.entry n.0 result }
    {
        let purses = self.purses;
        take_more(rt, purses, self, n)
    }
}

impl<'a, H: Held + Drop, N: Name> More<'a, H, N> {
    /// Drops the locks.
    pub fn give_back(self) {
        drop(self);
    }
}
