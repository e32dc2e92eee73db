//! Where bytes come from.

ghost use Rattle.std.specs.Prelude.{◌≡◌, ℕ, List};
ghost use Rattle.std.specs.declared.option.Option.{Option};
ghost use Rattle.std.specs.Io.{ReadsAtMost};
ghost use Rattle.std.specs.Io.KnownBytes.{ReadConsumes};
ghost use Rattle.corr_text.specs.Faults.{HasCause};

use corr_text::Failed;

/// A place that bytes are read from, in order.
///
/// Contracts see the bytes that are left, where it tells them, and a count of its faults. Each call that
/// succeeds leaves that count, and each that fails adds one to it; it stays at `2^64 - 1` once it is there.
pub trait Source {
    ghost left: { Self → Option (List ℕ) };

    ghost faults: { Self → ℕ };

    /// Reads the next bytes into the front of `buf` and answers how many they are; they are then no longer
    /// left, and what stands after them in `buf` is not said.
    ///
    /// 0 into a buffer that is not empty means that nothing is left. `Failed` comes only where the count of
    /// faults rose; no byte is lost then.
    fn read(&mut self, buf: &mut [u8]) -> Result<usize, Failed>
        ensures bound { ReadsAtMost result buf.new }
        ensures bytes { ReadConsumes (left self.old) (left self.new) result buf.new }
        ensures cause { HasCause (faults self.old) (faults self.new) result };

    /// How many faults there were.
    fn faults(&self) -> u64
        ensures { result ≡ faults self.now };
}
