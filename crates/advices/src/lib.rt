//! The messages that are sent of a booked payment: transfers, covers, and confirmations of debits and credits
//! (docs/messages.md, "What is sent when").
#![tactic(auto)]

mod advice;
mod copying;
mod cover;
mod entry;
mod law;
mod legs;
mod ordered;
mod pass;
mod received;
mod reference;
mod sending;
mod transfer;

pub use entry::orders;
pub use law::{sent_messages_pass, sent_onward_reads};
