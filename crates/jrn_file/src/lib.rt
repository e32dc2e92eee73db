//! A journal on one disk: records that are each on it before they are acknowledged, whatever moment it stops at.
#![tactic(auto)]

mod entering;
mod fault;
mod file;
mod filling;
mod frame;
mod held;
mod loading;
mod making;
mod making_with;
mod opening;
mod reading;
mod sending;

pub use fault::{AppendFault, MakeFault, OpenFault};
pub use file::{Ending, JFile};
pub use making::create;
pub use making_with::create_with;
pub use opening::{open_file, read_file};
