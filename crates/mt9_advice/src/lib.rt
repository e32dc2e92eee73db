//! MT900 and MT910, the confirmations of a debit and of a credit: their fields in their order, what they say, and what is
//! wrong with them.
#![tactic(auto)]

mod booking;
mod credit;
mod debit;
mod order;
mod places;
mod stamp;
mod writing;

pub use credit::{C06, Mt910, read_mt910, read_mt910_lines};
pub use debit::{Mt900, read_mt900, read_mt900_lines};
pub use order::{ORDER_900, ORDER_910};
pub use writing::{put_mt900, put_mt910};
