//! MT202 COV, the cover of a customer transfer: its fields in their order, what they say, and what is wrong with them.
#![tactic(auto)]

mod banks;
mod codes;
mod customers;
mod details;
mod message;
mod order;
mod places;
mod reading;
mod rules;
mod sequences;
mod terms;
mod verdict;
mod writing;

pub use codes::{C68, C81};
pub use message::Mt202Cov;
pub use order::ORDER;
pub use verdict::{read_mt202cov, read_mt202cov_lines};
pub use writing::put_mt202cov;
