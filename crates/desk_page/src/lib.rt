//! The page of a day for a desk: a file of HTML of the messages of a file, by what is to be done with them, and of the books.
#![tactic(auto)]

mod account_table;
mod ahead;
mod books;
mod cells;
mod day_page;
mod escape;
mod group;
mod groups;
mod lacking;
mod law;
mod leaving;
mod mark;
mod message_rows;
mod nostros;
mod party;
mod reasons;
mod row;
mod standing;
mod twice;

pub use day_page::page;
pub use group::Group;
pub use law::{each_account_once, each_stands_once, texts_are_escaped};
pub use party::party_text;
pub use row::{Payment, Row, Standing};
pub use standing::standing_for;
