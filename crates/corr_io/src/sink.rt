//! Where bytes go.

ghost use Rattle.std.specs.Prelude.{◌≡◌, ◌<◌, ℕ, List, length, IfOk};
ghost use Rattle.std.specs.declared.option.Option.{Option};
ghost use Rattle.std.specs.Io.{WritesAtMost};
ghost use Rattle.std.specs.Io.KnownBytes.{WriteAppends};
ghost use Rattle.corr_text.specs.Faults.{HasCause};

use corr_text::Failed;

/// A place that bytes are written to, each after the last.
///
/// Contracts see the bytes that it holds, where it tells them, and a count of its faults. Each call that
/// succeeds leaves that count, and each that fails adds one to it; it stays at `2^64 - 1` once it is there.
pub trait Sink {
    ghost held: { Self → Option (List ℕ) };

    ghost faults: { Self → ℕ };

    /// Appends bytes from the front of `piece` and answers how many they are, at least one where the piece is
    /// not empty.
    ///
    /// `Failed` comes only where the count of faults rose; nothing was appended then.
    fn write(&mut self, piece: &[u8]) -> Result<usize, Failed>
        ensures bound { WritesAtMost result piece.now }
        ensures progress { IfOk result (λ n. 0 < length piece.now → 0 < n) }
        ensures bytes { WriteAppends (held self.old) (held self.new) result piece.now }
        ensures cause { HasCause (faults self.old) (faults self.new) result };

    /// How many faults there were.
    fn faults(&self) -> u64
        ensures { result ≡ faults self.now };
}
