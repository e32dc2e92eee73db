//! Parties: institutions and customers, as the fields of a message name them (docs/messages.md, "Parties").
#![tactic(auto)]

mod fault;
mod filling;
mod form;
mod line;
mod numbered;
mod opening;
mod party;
mod reading;
mod writing;

pub use fault::PartyFault;
pub use filling::fill_party;
pub use line::account_of;
pub use party::Party;
pub use reading::{read_party, read_party_lines};
pub use writing::put_party;
