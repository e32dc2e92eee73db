//! MT950, the statement of an account: the fields of a page in their order, what they say, and what is wrong with them; and the
//! pages of a statement joined.
#![tactic(auto)]

mod balance;
mod entry;
mod joining;
mod line;
mod number;
mod order;
mod page;
mod parts;
mod places;
mod reading;
mod rules;
mod said;
mod writing;

pub use balance::Balance;
pub use entry::{Line61, Mark};
pub use joining::{PageFault, Statement, join_pages};
pub use order::ORDER;
pub use page::Page950;
pub use reading::{read_mt950, read_mt950_lines};
pub use rules::C27;
pub use writing::{fields_950, put_mt950};
