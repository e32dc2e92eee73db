//! The room of a command over files, sinks and disks in memory, for the tests of the commands.
#![tactic(auto)]

mod commands;
mod days;

pub use commands::{
    Ended, Failing, Files, WHOLE, booked, call, call_after, call_at, call_between, call_over,
    call_plain, call_received, entries_in, is_done, journal, long_lived, run, wrote,
};
pub use days::{CHARGED, FILES, SENT};
