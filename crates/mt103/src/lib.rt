//! MT103, the customer transfer: its fields in their order, what they say, and what is wrong with them.
#![tactic(auto)]

mod banks;
mod closing;
mod codes;
mod details;
mod instruction;
mod kind;
mod message;
mod misfit;
mod order;
mod parties;
mod places;
mod reading;
mod terms;
mod verdict;
mod word;
mod writing;

pub use codes::{D97, D98, E46, P28, T08, T36};
pub use instruction::Instr;
pub use message::{Mt103, blank};
pub use order::ORDER;
pub use verdict::{fill_mt103, read_mt103};
pub use writing::put_mt103;
