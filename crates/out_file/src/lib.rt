//! The file of messages that leave: its whole messages, and what it should hold after a stop.
#![tactic(auto)]

mod cutting;
mod law;
mod mending;

pub use law::cuts_are_mended;
pub use mending::mended;
