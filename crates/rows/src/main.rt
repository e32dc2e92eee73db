//! Runs rows of cases: a row of a file names a call, its words and its answer (README.md).
#![tactic(auto)]

mod calls;
mod file;
mod head;
mod many;
mod named;
mod step;

use crate::file::run_file;
use anyhow::{Context, Error, Result, anyhow};
use corr_text::Memory;
use std::io::Write;
use std::{env, fs};

/// Runs the rows of each file that the command line names, and prints what differs.
fn main(rt: HostRuntime) -> Result<()> {
    for name in env::args(&rt)?.skip(1) {
        let rows = fs::read(&rt, name.as_str()).context(format_args!("reading {name}"))?;
        let report = run_file(rt.alloc(), name.as_str().as_bytes(), rows.as_slice()).map_err(
            no_memory,
        )?;
        rt.stdout().write_all(report.bytes())?;
    }
    Ok(())
}

/// The error of a program that found no room.
fn no_memory(_: Memory) -> Error {
    anyhow!("no memory")
}
