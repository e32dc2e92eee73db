//! The pay of a message: between which accounts it is booked, and what is sent on (docs/operating.md, "Accounts of a payment"
//! and "Messages that are sent on").
#![tactic(auto)]

mod ask;
mod asked;
mod asking;
mod charging;
mod cover;
mod fault;
mod legs;
mod orders;
mod planning;
mod target;
mod way;

pub use ask::Ask;
pub use asked::Asked;
pub use asking::asked_of;
pub use charging::{Charge, Charged};
pub use fault::{P34, P39, P40, PlanFault};
pub use planning::{accounts_of, pay_on, plan};
