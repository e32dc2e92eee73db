//! Statements that other banks send, against our books: pages put together, compared entry by entry and line by line, and what is
//! told of them.
#![tactic(auto)]

mod comparing;
mod grouping;
mod key;
mod law;
mod lines;
mod pairing;
mod telling;
mod waiting;

pub use comparing::{Compared, compare};
pub use grouping::pieces;
pub use law::{few_compared, none_left_out};
pub use telling::breaks;
