//! Bytes, lists, codes and digits: what every other crate stands on.
#![tactic(auto)]

mod brace;
mod buf;
mod copying;
mod decimal;
mod ending;
mod failed;
mod fault;
mod lines;
mod list;
mod memory;
mod set;
mod text;

pub use brace::{has_brace, next_brace};
pub use buf::Buf;
pub use copying::{copy_texts, push_texts};
pub use decimal::{Decimal, all_digits, digits, put_digits};
pub use ending::{clear, let_go, put};
pub use failed::Failed;
pub use fault::{Code, Fault};
pub use lines::{FirstLine, first_line, plain_line};
pub use list::List;
pub use memory::Memory;
pub use set::{Set, is_all_of, is_each_of, is_set, is_x};
pub use text::Text;
