//! Books: the parts of one opening of a journal behind their locks, into which several threads book, and what each of them
//! knows afterwards.
#![tactic(auto)]

mod batch;
mod books;
mod closing;
mod entering;
mod law;
mod naming;
mod opening;
mod rising;
mod seating;
mod stand;
mod taking;

pub use books::Books;
pub use closing::{CloseFault, Closed};
pub use law::told_stands;
pub use naming::BooksName;
pub use opening::{BooksFault, Opened, open_books};
