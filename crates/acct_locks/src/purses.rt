//! The purses behind their locks.

ghost use Rattle.std.specs.Prelude.{◌≡◌, ◌<◌, ◌≤◌, length};
ghost use Rattle.std.specs.Sync.Mutex.{mutex_guard_value};

use crate::name::Name;
use crate::purse::Purse;
use crate::seats::SeatTable;
use std::marker::{Model, PhantomData};
use std::sync::{Mutex, MutexGuard, Wait};

/// A purse of the table that `N` names.
#[derive(Drop)]
pub(crate) struct Named<N: Name> {
    pub(crate) purse: Purse,
    pub(crate) of: PhantomData<N>,
    pub ghost named: { purse.table ≡ N.table },
}

/// One purse for each account, each behind a lock of its own. Contracts see how many there are.
#[derive(Drop)]
pub struct Purses<N: Name> {
    pub(crate) seat_table: SeatTable,
    pub(crate) locks: Vec<Mutex<Named<N>>>,
}

impl<N: Name> Model for Purses<N> {
    ghost use Rattle.std.specs.Prelude.{◌≡◌, ℕ, length};

    ghost Value = { ℕ };

    ghost view = { λ p. length p.locks.items };

    ghost invariant = { λ p. (p.seat_table.shared.table_id ≡ N.table) × (p.seat_table.shared.table_id.words ≡ 1) };
}

impl<N: Name> Purses<N> {
    pub(crate) fn seat_table(&self) -> &SeatTable
        ensures { (result.now.shared.table_id ≡ N.table) × (result.now.shared.table_id.words ≡ 1) }
    {
        &self.seat_table
    }

    /// Waits for the lock of an account. What stands behind a lock is known by its type alone, so the purse's own
    /// number is compared: were it another account's, the call would wait for ever.
    pub(crate) fn lock<R: Wait>(&self, rt: &R, number: u32) -> MutexGuard<'_, Named<N>>
        requires { (0 < number) × (number ≤ self.now) }
        ensures { (mutex_guard_value result).purse.number ≡ number }
    {
        for _ in rt.forever() {
            let guard = self.locks[number as usize - 1].lock(rt);
            if guard.purse.number() == number {
                return guard;
            }
        }
        unreachable!()
    }
}
