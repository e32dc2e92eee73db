//! A worker of a run.

use crate::desk::Halt;
use fin_layout::Found;
use fin_message::Message;
use front_word::Pass;
use std::marker::Model;

/// A worker of a run: its pass of the books, why it serves no more, if it doesn't, where it reads its messages into, and room
/// for the places of their fields.
#[derive(Drop)]
pub struct Worker {
    pub pass: Pass,
    pub halted: Option<Halt>,
    pub room: Message,
    pub found: Found,
}

impl Model for Worker {
    ghost use Rattle.corr_top.specs.inner.Workers.{Worker};

    ghost Value = { Worker };

    ghost view = { λ worker. record { pass = worker.pass; halted = worker.halted } };
}
