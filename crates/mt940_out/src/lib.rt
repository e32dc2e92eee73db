//! MT940, the statement of a customer's account: pages of an MT950 whose lines have notes of what was paid, read and written; and
//! the pages that the home bank sends of its customers' accounts.
#![tactic(auto)]

mod beside;
mod message;
mod note;
mod page;
mod paging;
mod reading;
mod writing;

pub use page::Page940;
pub use paging::{customer_pages, customer_pages_with};
pub use reading::read_mt940;
pub use writing::put_mt940;
