//! The standing settlement instructions: how a bank is paid in a currency, from which day until which (docs/tables.md, "ssi").
#![tactic(auto)]

mod columns;
mod index;
mod method;
mod reading;
mod row;
mod ssi;

pub use method::Method;
pub use row::SsiRow;
pub use ssi::Ssi;
