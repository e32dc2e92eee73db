//! The reference tables: banks, currencies, countries, accounts and charges, read from their files (docs/tables.md).
#![tactic(auto)]

mod account;
mod accounts;
mod banks;
mod charges;
mod columns;
mod countries;
mod currencies;
mod fault;
mod keyed;
mod rows;
mod tables;

pub use account::AccountRow;
pub use accounts::{read_account_words, read_accounts};
pub use charges::{Charges, read_charges};
pub use columns::{ccy, is_account_id};
pub use fault::{TableFault, TableName, Why, bad};
pub use rows::{cell, read_rows};
pub use tables::{RefTables, read_banks, read_tables, with_countries, with_currencies};
