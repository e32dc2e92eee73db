//! A sink over a file or over standard output.

ghost use Rattle.std.specs.Prelude.{◌≡◌, ◌<◌, length, None, IfOk};
ghost use Rattle.std.specs.Io.{WritesAtMost};

use crate::count::counted;
use crate::files::{open_at, write_some};
use crate::sink::Sink;
use corr_text::{Failed, Text};
use std::fs::OpenOptions;
use std::io;
use std::marker::Model;
use std::rt::Files;

/// Where the bytes go.
#[derive(Drop)]
enum Target<F> {
    Out,
    Path(Text),
    File(F),
}

/// A file that is appended to, or standard output. Contracts see its count of faults.
///
/// A write that takes nothing of a piece that is not empty is a failure. A write that a signal interrupts is
/// made again.
#[derive(Drop)]
pub struct StdSink<'a, R: Files> {
    rt: &'a R,
    target: Target<R::File>,
    faults: u64,
}

impl<'a, R: Files> Model for StdSink<'a, R> {
    ghost use Rattle.std.specs.Prelude.{ℕ};

    ghost Value = { ℕ };

    ghost view = { λ s. s.faults };
}

impl<'a, R: Files> StdSink<'a, R> {
    /// The file at a path, which the first write opens, or makes where there is none. Each write appends.
    /// Where the path is not UTF-8 each write fails.
    pub fn file(rt: &'a R, path: Text) -> StdSink<'a, R>
        ensures { result ≡ 0 }
    {
        StdSink {
            rt,
            target: Target::Path(path),
            faults: 0,
        }
    }

    /// Standard output.
    pub fn out(rt: &'a R) -> StdSink<'a, R>
        ensures { result ≡ 0 }
    {
        StdSink {
            rt,
            target: Target::Out,
            faults: 0,
        }
    }
}

impl<'a, R: Files + Print> StdSink<'a, R> {
    // Opens the file where it is not open.
    fn open(&mut self) -> Result<(), Failed>
        ensures count { self.new ≡ self.old }
    {
        if let Target::Path(path) = &self.target {
            let mut how = OpenOptions::new();
            how.append(true).create(true);
            self.target = Target::File(open_at(self.rt, path, &how)?);
        }
        Ok(())
    }

    // Hands the piece on; how much of it was taken.
    fn put(&mut self, piece: &[u8]) -> Result<usize, Failed>
        ensures bound { WritesAtMost result piece.now }
        ensures progress { IfOk result (λ n. 0 < length piece.now → 0 < n) }
        ensures count { self.new ≡ self.old }
    {
        self.open()?;
        match &mut self.target {
            Target::Out => write_some(&mut io::writer(self.rt), piece),
            Target::File(file) => write_some(file, piece),
            Target::Path(_) => Err(Failed),
        }
    }
}

impl<'a, R: Files + Print> Sink for StdSink<'a, R> {
    ghost held = { λ _. None };

    ghost faults = { λ s. s };

    fn write(&mut self, piece: &[u8]) -> Result<usize, Failed> {
        let answer = self.put(piece);
        counted(answer, &mut self.faults)
    }

    fn faults(&self) -> u64 {
        self.faults
    }
}
