//! A sink in memory, with failures to order.

ghost use Rattle.std.specs.Prelude.{◌≡◌, ◌<◌, ◌⊎◌, [], length, Some, is_ok, false, IfOk, OnErr, IsTrue};
ghost use Rattle.std.specs.Io.{WritesAtMost};
ghost use Rattle.std.specs.Io.KnownBytes.{WriteAppends};
ghost use Rattle.corr_text.specs.Faults.{HasCause, counted};
ghost use Rattle.corr_io.specs.InMemory.{Stock, is_next_failing};

use crate::count::{count_fault, is_ordered};
use crate::sink::Sink;
use corr_text::{Buf, Failed, List};
use std::alloc::Global;
use std::marker::Model;

/// A sink that keeps what is written to it and fails at the calls that it was told to fail at.
#[derive(Debug, Drop)]
pub struct MemSink {
    kept: Buf,
    calls: u64,
    faults: u64,
    fails: List<u64>,
}

impl Model for MemSink {
    ghost use Rattle.corr_io.specs.InMemory.{Stock};

    ghost Value = { Stock };

    ghost view = { λ s. record { held = s.kept.bytes; spare = s.kept.spare; calls = s.calls; faults = s.faults; fails = s.fails } };
}

impl MemSink {
    /// An empty sink, of which the writes with these numbers fail. The first write has number 1.
    pub fn new(alloc: Global, fails: List<u64>) -> MemSink
        ensures held { result.held ≡ [] }
        ensures calls { result.calls ≡ 0 }
        ensures faults { result.faults ≡ 0 }
        ensures fails { result.fails ≡ fails }
    {
        MemSink {
            kept: Buf::new(alloc),
            calls: 0,
            faults: 0,
            fails,
        }
    }

    /// The bytes that were written.
    pub fn bytes(&self) -> &[u8]
        ensures { result.now ≡ self.now.held }
    {
        self.kept.bytes()
    }
}

impl Sink for MemSink {
    ghost held = { λ s. Some s.held };

    ghost faults = { λ s. s.faults };

    /// Keeps the whole piece. It fails at the calls that it was told to fail at, and else only where it finds
    /// no memory for the piece; its count rises at each failure and at nothing else.
    fn write(&mut self, piece: &[u8]) -> Result<usize, Failed>
        ensures bound { WritesAtMost result piece.now }
        ensures progress { IfOk result (λ n. 0 < length piece.now → 0 < n) }
        ensures bytes { WriteAppends (Some self.old.held) (Some self.new.held) result piece.now }
        ensures cause { HasCause self.old.faults self.new.faults result }
        ensures fails { IsTrue (is_next_failing self.old.fails self.old.calls) → is_ok result ≡ false }
        ensures otherwise { OnErr result (IsTrue (is_next_failing self.old.fails self.old.calls) ⊎ (self.old.spare < length piece.now)) }
        ensures full { IfOk result (λ n. n ≡ length piece.now) }
        ensures calls { self.new.calls ≡ counted self.old.calls }
        ensures same { self.new.fails ≡ self.old.fails }
    {
        let fails = is_ordered(&self.fails, self.calls);
        self.calls = self.calls.saturating_add(1);
        if fails || self.kept.push(piece).is_err() {
            return Err(count_fault(&mut self.faults));
        }
        Ok(piece.len())
    }

    fn faults(&self) -> u64 {
        self.faults
    }
}
