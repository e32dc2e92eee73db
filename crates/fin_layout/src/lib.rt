//! The fields of a message type in their order: which place each field takes, which field is at fault, and what the
//! fields at a place say. Every message type names its places and its kinds of content, and has the rest from here. A message
//! has at most 65,535 fields.
#![tactic(auto)]

mod content;
mod fault;
mod finding;
mod found;
mod naming;
mod place;
mod placing;
mod reading;
mod structure;

pub use content::{Content, Refill, refusal};
pub use fault::{MtFault, P22, P23, P24, Refusal};
pub use finding::find;
pub use found::{Found, takes_any};
pub use naming::{absent, fault_at};
pub use place::Place;
pub use placing::{missing, places, put_places};
pub use reading::{fill_all, fill_one, fill_optional, read_all, read_one, read_optional};
pub use structure::{check_structure, fill_structure};
