//! A whole message: what it says, or the first test that it fails (docs/messages.md, "The tests of a message").
#![tactic(auto)]

mod advices;
mod codes;
mod cover;
mod direction;
mod fault;
mod fields;
mod heading;
mod judging;
mod message;
mod page;
mod parts;
mod transfer;

pub use codes::{P07, P08, P09, P10, P11, P12, P13, P20, P21};
pub use fault::MessageFault;
pub use judging::{check_sent, verdict, verdict_into};
pub use message::Message;
