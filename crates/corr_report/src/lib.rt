//! What is printed of a day: the report of a run, the entries of a journal and the summary of a trial; and a day of
//! messages, made from a number.
#![tactic(auto)]

mod currency;
mod entries;
mod generator;
mod outcome;
mod replies;
mod summing;
mod totals;
mod turnover;
mod words;

pub use entries::{booking, bookings};
pub use generator::generated;
pub use replies::{put_refused, put_reply_line, put_report_end, reply_line, report};
pub use summing::summary;
pub use words::{put_amount, put_balance, put_number, put_word, side_letter};
