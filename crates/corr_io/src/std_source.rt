//! A source over a file.

ghost use Rattle.std.specs.Prelude.{◌≡◌, None};
ghost use Rattle.std.specs.Io.{ReadsAtMost};

use crate::count::counted;
use crate::files::{open_at, read_some};
use crate::source::Source;
use corr_text::{Failed, Text};
use std::fs::OpenOptions;
use std::marker::Model;
use std::rt::Files;

/// A file that is read from its front. It is opened at the first read; contracts see its count of faults.
///
/// An error of an open file, as of a folder, is a failure and never the end. A read that a signal interrupts
/// is made again.
#[derive(Drop)]
pub struct StdSource<'a, R: Files> {
    rt: &'a R,
    path: Text,
    file: Option<R::File>,
    faults: u64,
}

impl<'a, R: Files> Model for StdSource<'a, R> {
    ghost use Rattle.std.specs.Prelude.{ℕ};

    ghost Value = { ℕ };

    ghost view = { λ s. s.faults };
}

impl<'a, R: Files> StdSource<'a, R> {
    /// The file at a path, which is not touched yet. Where there is none, or where the path is not UTF-8,
    /// each read fails.
    pub fn new(rt: &'a R, path: Text) -> StdSource<'a, R>
        ensures { result ≡ 0 }
    {
        StdSource {
            rt,
            path,
            file: None,
            faults: 0,
        }
    }

    // Reads from the file, which is opened first where it is not open.
    fn take(&mut self, buf: &mut [u8]) -> Result<usize, Failed>
        ensures bound { ReadsAtMost result buf.new }
        ensures count { self.new ≡ self.old }
    {
        if self.file.is_none() {
            let mut how = OpenOptions::new();
            how.read(true);
            self.file = Some(open_at(self.rt, &self.path, &how)?);
        }
        match &mut self.file {
            Some(file) => read_some(file, buf),
            None => Err(Failed),
        }
    }
}

impl<'a, R: Files> Source for StdSource<'a, R> {
    ghost left = { λ _. None };

    ghost faults = { λ s. s };

    fn read(&mut self, buf: &mut [u8]) -> Result<usize, Failed> {
        let answer = self.take(buf);
        counted(answer, &mut self.faults)
    }

    fn faults(&self) -> u64 {
        self.faults
    }
}
