//! The book of a journal: its accounts, which may change, and its history, each entry on the disk before it is acknowledged,
//! booked by the totals of held purses.
#![tactic(auto)]

mod answer;
mod batching;
mod book;
mod changing;
mod committing;
mod deciding;
mod drafting;
mod failing;
mod index;
mod next;
mod opening;
mod past;
mod reading;
mod room;
mod settling;
mod turning;
mod version;

pub use answer::{CommitFault, Committed, Failed};
pub use book::JrnBook;
pub use changing::{ChangeFault, change_book, change_opened};
pub use opening::{open_book, open_old, open_past};
pub use past::{Past, Ready};
