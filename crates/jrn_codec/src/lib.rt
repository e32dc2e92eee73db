//! The bytes of the journal's records: one spelling for each header, each entry and each change (docs/journal.md, "The header
//! record" and "The records behind it"), and the readers of version 1.
#![tactic(auto)]

mod change;
mod change_writing;
mod entry;
mod entry_writing;
mod fault;
mod field;
mod header;
mod header_writing;
mod item;
mod leg;
mod length;
mod order;
mod writing;

pub use change::read_change;
pub use change_writing::put_change;
pub use entry::{read_entry, read_entry_1};
pub use entry_writing::put_entry;
pub use fault::EntryFault;
pub use header::{read_head, read_head_1};
pub use header_writing::put_head;
pub use item::read_item;
pub use length::record_len;
