//! Where bytes come from and where they go, each with a count of its faults.
#![tactic(auto)]

mod count;
mod files;
mod mem_sink;
mod mem_source;
mod sink;
mod source;
mod std_sink;
mod std_source;

pub use corr_text::Failed;
pub use count::{count_fault, counted};
pub use files::{open_at, read_some, read_some_at, write_some};
pub use mem_sink::MemSink;
pub use mem_source::MemSource;
pub use sink::Sink;
pub use source::Source;
pub use std_sink::StdSink;
pub use std_source::StdSource;
