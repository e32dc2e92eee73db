//! The statements that the home bank sends: the pages of an account on a day, and an index of a history by its accounts.
#![tactic(auto)]

mod index;
mod ledger;
mod line;
mod movement;
mod page;
mod paging;
mod references;

pub use index::HistoryIndex;
pub use movement::Movement;
pub use page::PlacedPage;
pub use paging::{page_values, pages, pages_with};
