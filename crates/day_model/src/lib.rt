//! Accounts, pays and the history of a journal; and workers that enter pays into it, as a machine that takes one event after
//! another (`Core`).
#![tactic(auto)]

mod account;
mod account_totals;
mod accounts;
mod change;
mod changing;
mod copy;
mod core_event;
mod core_job;
mod core_ledger;
mod core_machine;
mod core_ready;
mod entry;
mod equal;
mod fault;
mod fit;
mod funds;
mod gap;
mod history;
mod kind;
mod law;
mod listed;
mod pay;
mod reply;
mod rows;
mod same;

pub use account::{Account, AcctNo};
pub use account_totals::{add_legs, balance_with, legs_booked, totals, with_leg};
pub use accounts::Accounts;
pub use change::{Change, Item, Refusal, What};
pub use core_event::Event;
pub use core_machine::Core;
pub use entry::{Entry, Outcome};
pub use fault::AccountsFault;
pub use fit::{are_legs, legs_sum};
pub use funds::{after_leg, balance, decide, may_hold};
pub use history::{History, MOST_ENTRIES};
pub use kind::Kind;
pub use law::{change_laws, fold_laws, item_laws, totals_laws};
pub use pay::{Leg, Mt, Order, Pay, Quote, Side, Skip};
pub use reply::Reply;
pub use rows::{has_form, rows_hold};
