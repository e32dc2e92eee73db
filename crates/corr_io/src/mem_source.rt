//! A source over bytes in memory, with failures to order.

ghost use Rattle.std.specs.Prelude.{◌≡◌, [], ◌++◌, min, length, take, Some, is_err, IfOk};
ghost use Rattle.std.specs.Io.{ReadsAtMost};
ghost use Rattle.std.specs.Io.KnownBytes.{ReadConsumes};
ghost use Rattle.corr_text.specs.Faults.{HasCause, counted};
ghost use Rattle.corr_io.specs.InMemory.{Supply, is_next_failing};

use crate::count::{count_fault, is_ordered};
use crate::source::Source;
use corr_text::{Failed, List, Text};
use std::marker::Model;

/// A source that gives the bytes of a text and fails at the calls that it was told to fail at.
#[derive(Debug, Drop)]
pub struct MemSource {
    bytes: Text,
    at: usize,
    calls: u64,
    faults: u64,
    fails: List<u64>,
}

impl Model for MemSource {
    ghost use Rattle.std.specs.Prelude.{◌≤◌, length, drop};
    ghost use Rattle.corr_io.specs.InMemory.{Supply};

    ghost Value = { Supply };

    ghost view = { λ s. record { left = drop s.at s.bytes; calls = s.calls; faults = s.faults; fails = s.fails } };

    ghost invariant = { λ s. s.at ≤ length s.bytes };
}

impl MemSource {
    /// A source of these bytes, of which the reads with these numbers fail. The first read has number 1.
    pub fn new(bytes: Text, fails: List<u64>) -> MemSource
        ensures { result ≡ record { left = bytes; calls = 0; faults = 0; fails = fails } }
    {
        MemSource {
            bytes,
            at: 0,
            calls: 0,
            faults: 0,
            fails,
        }
    }

    // The next bytes, as many as the buffer and what is left allow.
    fn take(&mut self, buf: &mut [u8]) -> usize
        ensures count { result ≡ min (length buf.old) (length self.old.left) }
        ensures bytes { self.old.left ≡ take result buf.new ++ self.new.left }
        ensures calls { self.new.calls ≡ self.old.calls }
        ensures faults { self.new.faults ≡ self.old.faults }
        ensures fails { self.new.fails ≡ self.old.fails }
    {
        let bytes = self.bytes.bytes();
        let n = buf.len().min(bytes.len() - self.at);
        let end = self.at + n;
        buf[..n].copy_from_slice(&bytes[self.at..end]);
        self.at = end;
        n
    }
}

impl Source for MemSource {
    ghost left = { λ s. Some s.left };

    ghost faults = { λ s. s.faults };

    /// Reads as many of the next bytes as `buf` has room for. It fails exactly at the calls that it was told
    /// to fail at, so with an empty list of them its count stays as it is.
    fn read(&mut self, buf: &mut [u8]) -> Result<usize, Failed>
        ensures bound { ReadsAtMost result buf.new }
        ensures bytes { ReadConsumes (Some self.old.left) (Some self.new.left) result buf.new }
        ensures cause { HasCause self.old.faults self.new.faults result }
        ensures fails { is_err result ≡ is_next_failing self.old.fails self.old.calls }
        ensures full { IfOk result (λ n. n ≡ min (length buf.old) (length self.old.left)) }
        ensures never { self.old.fails ≡ [] → self.new.faults ≡ self.old.faults }
        ensures calls { self.new.calls ≡ counted self.old.calls }
        ensures same { self.new.fails ≡ self.old.fails }
    {
        let fails = is_ordered(&self.fails, self.calls);
        self.calls = self.calls.saturating_add(1);
        if fails {
            return Err(count_fault(&mut self.faults));
        }
        Ok(self.take(buf))
    }

    fn faults(&self) -> u64 {
        self.faults
    }
}
