//! Rows for a desk and its tools: files of rows with commas (RFC 4180) of what a journal says.
#![tactic(auto)]

mod account_rows;
mod cells;
mod entry_rows;
mod law;
mod until;

pub use account_rows::balances;
pub use entry_rows::entries;
pub use law::{balances_cancel, entries_read_back, rows_are_plain};
