//! Money: currencies, amounts and their spelling.
#![tactic(auto)]

mod amount;
mod fault;
mod reading;
mod writing;

pub use amount::{Amount, Ccy, Minor};
pub use fault::AmountFault;
pub use reading::{AMOUNT_END, is_comma_number, read_15d};
pub use writing::{put_15d, put_signed, put_total};
