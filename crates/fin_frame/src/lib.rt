//! A file of messages, cut as its bytes come in, or at once where it is whole.
#![tactic(auto)]

mod cutter;
mod fault;
mod group;
mod next;
mod pieces;
mod place;
mod stage;
mod whole;

pub use cutter::Cutter;
pub use fault::FrameFault;
pub use pieces::PieceCutter;
pub use place::Place;
pub use whole::{Framed, cut_whole};
