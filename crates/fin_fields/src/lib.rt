//! The lines of block 4 cut into fields, and fields written back as lines (docs/messages.md, "Fields").
#![tactic(auto)]

mod cutting;
mod fault;
mod field;
mod field_lines;
mod heading_line;
mod lending;
mod line;
mod outside;
mod pattern;
mod tag;
mod writing;

pub use cutting::{cut_fields, cut_lines};
pub use fault::FieldFault;
pub use field::Field;
pub use field_lines::FieldLines;
pub use heading_line::{HeadingLine, heading};
pub use lending::{lend_field, lend_fields, own_fields};
pub use line::{Line, copy_lines, refill_lines};
pub use pattern::{Pattern, are_x_runs, is_of_x, is_run_of, is_x_run, lines_match, matches};
pub use tag::{letter_of, nth_of, tag_of};
pub use writing::put_fields;
