//! Account locks: one purse with an account's totals behind each lock, and the sides of the book that agree with them.
#![tactic(auto)]

mod all;
mod hands;
mod held;
mod locked;
mod loose;
mod name;
mod purse;
mod purses;
mod seats;
mod sides;
mod steps;

pub use all::HeldAll;
pub use hands::{Held0, Held1, Held2, Held3};
pub use held::Held;
pub use loose::Loose;
pub use name::Name;
pub use purses::Purses;
pub use sides::BookSides;
pub use std::marker::Brand;
