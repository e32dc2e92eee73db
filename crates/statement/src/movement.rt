//! Movements on an account.

ghost use Rattle.std.specs.Prelude.{◌≡◌, ◌-◌, ◌∷◌, [], ◌++◌, length, take, OnErr, OnOk};
ghost use Rattle.statement.specs.inner.Index.{last_balance};

use corr_ids::Day;
use corr_money::Minor;
use corr_text::{Memory, Text};
use day_model::{Mt, Side};
use std::alloc::Global;
use std::marker::Model;

/// A booked leg on an account: the place (from 1) and the day of its entry, what a line says of it, and the balance after its
/// entry.
///
/// `value` is the value date, `returned` tells whether the entry is a return, and `reference` is what the line quotes. `amount` and `balance` are in minor units, a balance with
/// credits positive.
#[derive(Debug, Drop)]
pub struct Movement {
    pub place: u32,
    pub day: Day,
    pub value: Day,
    pub mt: Mt,
    pub side: Side,
    pub returned: bool,
    pub amount: Minor,
    pub reference: Text,
    pub balance: i64,
}

/// Movements in the order of the journal.
#[derive(Debug, Drop)]
pub struct Movements {
    items: Vec<Movement>,
}

impl Model for Movements {
    ghost use Rattle.std.specs.Prelude.{List};
    ghost use Rattle.statement.specs.declared.movement.Movement.{Movement as Moved};

    ghost Value = { List Moved };

    ghost view = { λ m. m.items.items };
}

impl Movements {
    /// None yet.
    pub fn new(alloc: Global) -> Movements
        ensures { result ≡ [] }
    {
        Movements {
            items: Vec::new(alloc),
        }
    }

    /// The movements.
    pub fn as_slice(&self) -> &[Movement]
        ensures { result.now ≡ self.now }
    {
        self.items.as_slice()
    }

    /// Adds a movement at the end. Where memory runs out, they are as they were.
    pub fn push(&mut self, movement: Movement) -> Result<(), Memory>
        ensures ok { OnOk result (self.new ≡ self.old ++ movement ∷ []) }
        ensures err { OnErr result (self.new ≡ self.old) }
    {
        self.items.push(movement)?;
        Ok(())
    }

    /// Takes the last movement away.
    pub fn undo(&mut self)
        ensures { self.new ≡ take (length self.old - 1) self.old }
    {
        self.items.pop();
    }
}

/// The balance after movements that follow on this one.
#[tactic(auto, using(crate::proofs::Parted::last_at))]
pub fn balance_after(balance: i64, movements: &[Movement]) -> i64
    ensures { result ≡ last_balance balance movements.now }
{
    match movements {
        [.., last] => last.balance,
        [] => balance,
    }
}
