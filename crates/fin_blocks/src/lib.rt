//! The blocks of a message (docs/messages.md, "Blocks").
#![tactic(auto)]

mod application;
mod basic;
mod blocks;
mod fault;
mod forms;
mod groups;
mod reading;
mod text;
mod trailers;
mod user;
mod writing;

pub use blocks::{App, Blocks};
pub use fault::{BlockFault, P01, P02, P03, P04, P05, P06};
pub use reading::{fill_blocks, read_blocks};
pub use writing::put_blocks;
