//! Between which two accounts a payment is booked: the debit side by the sender's cover, the credit side by the bank or the
//! customer that it is for (docs/operating.md, "Accounts of a payment").
#![tactic(auto)]

mod choice;
mod codes;
mod cover;
mod credit;
mod debit;
mod ledger;
mod lent;
mod routed;
mod target;

pub use choice::{route, route_lent};
pub use codes::{P30, P31, P32, P33, P35, P36, P38};
pub use cover::Cover;
pub use ledger::account_with;
pub use lent::{LentCover, LentTarget};
pub use routed::Routed;
pub use target::Target;
