//! A leader, the packets that it ever sent, and a follower, over a link that loses, repeats and reorders packets.

ghost use Rattle.std.specs.Prelude.{◌≡◌, OnErr, OnOk};
ghost use Rattle.standby.specs.Worlds.{KeepsConfirmed, KeepsLeader, RunsAreSound, first_state, step_of};

use crate::event::WorldEvent;
use crate::stage::Stage;
use corr_text::{Memory, Text};
use std::alloc::Global;
use std::marker::Model;

/// A leader's acknowledged records, the packets that were ever sent, and the records of a follower, with how many of them it has
/// confirmed.
///
/// The follower confirms what it holds after each event, and what it held before a delivery: so what a delivery added is not yet
/// confirmed, and a stop directly after it may take it back.
#[derive(Drop)]
pub struct World {
    stage: Stage,
}

impl Model for World {
    ghost use Rattle.standby.specs.Worlds.{IsSoundWorld, WorldState};

    ghost Value = { WorldState };

    ghost view = { λ w. w.stage };

    ghost invariant = { λ w. IsSoundWorld w.stage };
}

impl World {
    /// Nothing is acknowledged, sent or held.
    ///
    /// Whatever events follow, in whatever order, the follower's records are the first of the leader's.
    pub fn new(alloc: Global) -> World
        ensures first { result ≡ first_state }
        ensures runs { RunsAreSound first_state }
    {
        World {
            stage: Stage::new(alloc),
        }
    }

    /// Takes one event. One that isn't possible changes nothing, nor does one for which memory runs out.
    ///
    /// Whatever events follow, in whatever order, the follower's records are the first of the leader's, and none is taken back that was
    /// confirmed.
    pub fn step(&mut self, e: &WorldEvent) -> Result<(), Memory>
        ensures ok { OnOk result (self.new ≡ step_of self.old e.now) }
        ensures err { OnErr result (self.new ≡ self.old) }
        ensures runs { RunsAreSound self.old }
        ensures confirmed { KeepsConfirmed self.old self.new }
        ensures leader { KeepsLeader self.old self.new }
    {
        self.stage.apply(e)
    }

    /// The records that the leader acknowledged. Takes no memory.
    pub fn leader(&self) -> &[Text]
        ensures { result.now ≡ self.now.leader }
    {
        self.stage.leader()
    }

    /// The records that the follower holds. Takes no memory.
    pub fn follower(&self) -> &[Text]
        ensures { result.now ≡ self.now.follower }
    {
        self.stage.follower()
    }

    /// How many records the follower has confirmed. Takes no memory.
    pub fn confirmed(&self) -> u64
        ensures { result ≡ self.now.confirmed }
    {
        self.stage.confirmed()
    }
}
