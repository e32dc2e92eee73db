//! Identifiers: banks, terminals, message references, transaction references, days.
//!
//! Their grammars stand in docs/messages.md, "Identifiers and dates". No reader takes memory.
#![tactic(auto)]

mod address;
mod bic;
mod day;
mod envelope;
mod mir;
mod uetr;

pub use address::{LtAddress, read_lt};
pub use bic::{Bic, put_bic, read_bic, with_branch};
pub use day::{Day, FIRST_DAY, LAST_DAY, day_from_yymmdd, day_of_year, put_yymmdd};
pub use envelope::Envelope;
pub use mir::{Mir, read_mir};
pub use uetr::{Uetr, read_uetr};
