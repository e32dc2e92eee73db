//! Returned payments: the pay that takes back what was booked, and which entry of a history takes which one back.
#![tactic(auto)]

mod after;
mod chain;
mod fault;
mod first;
mod law;
mod making;
mod notices;
mod opposite;
mod origin;
mod references;

pub use chain::{named_place, returns};
pub use fault::ReturnFault;
pub use first::first_reference;
pub use law::{return_laws, tag_laws};
pub use making::return_pay;
pub use notices::{Notices, first_credit};
pub use opposite::is_opposite;
pub use origin::{Lent, Origin};
pub use references::{own_reference, quote_text};
