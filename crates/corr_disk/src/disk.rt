//! The trait of a disk.

ghost use Rattle.std.specs.Prelude.{◌≡◌, ◌+◌, ◌≤◌, ℕ, Bool, true, false, List, Option, Some, length, IsTrue, IsSome, IsOk, IsErr, IfOk, OnOk, OnErr};
ghost use Rattle.corr_disk.specs.Calls.{CallsMade};
ghost use Rattle.corr_disk.specs.Disk.{written, Torn, Follows, NoMore, Only, Elapses, ReadsAt, IsAsBefore, most_disk_bytes};
ghost use Rattle.corr_text.specs.Faults.{HasCause};

use corr_text::Failed;

/// The most bytes that a disk has: 1 GiB.
pub const MOST_DISK_BYTES: u64 = 1 << 30;

/// One file, and what a crash may leave of it. Each call that succeeds leaves its count of faults, and each that
/// answers `Failed` adds one to it; the count stays at `2^64 - 1` once it is there.
///
/// Between two syncs an image may hold any bytes in each written range and may end anywhere between the old
/// and the new end. After a sync the only image is what a read gives.
pub trait Disk {
    /// Whether its bytes and its images are told. Where they aren't, as of a real file, the other members say nothing.
    ghost honest: { Self → Bool };

    /// The bytes that a read gives.
    ghost reads: { Self → List ℕ };

    /// The images that a crash at this moment may leave.
    ghost may_leave: { Self → List ℕ → Type 0 };

    /// The moment, as a number that doesn't fall.
    ghost moment: { Self → ℕ };

    /// What a crash at some moment from that one on might have left, during a call or between two.
    ghost left_since: { Self → ℕ → List ℕ → Type 0 };

    /// How often it has failed.
    ghost faults: { Self → ℕ };

    /// What is known of the call that comes after so many others: that it is going to fail (`Some true`), that
    /// it isn't, unless memory runs out (`Some false`), or nothing. A call of which something is known has no
    /// effect where it fails.
    ghost plan: { Self → ℕ → Option Bool };

    /// The count of faults. Takes no memory.
    fn faults(&self) -> u64
        ensures { result ≡ faults self.now };

    /// The number of bytes.
    ///
    /// `Failed` comes only where the count of faults rose.
    fn len(&mut self) -> Result<u64, Failed>
        ensures answer { IsTrue (honest self.old) → IfOk result (λ n. n ≡ length (reads self.old)) }
        ensures reads { reads self.new ≡ reads self.old }
        ensures crash { NoMore (may_leave self.old) (may_leave self.new) }
        ensures time { Elapses (moment self.old) (moment self.new) (left_since self.old) (left_since self.new) (may_leave self.new) }
        ensures honest { honest self.new ≡ honest self.old }
        ensures cause { HasCause (faults self.old) (faults self.new) result }
        ensures planned { plan self.old 0 ≡ Some true → IsErr result }
        ensures passes { plan self.old 0 ≡ Some false → IsOk result }
        ensures no_effect { IsSome (plan self.old 0) → OnErr result (IsAsBefore reads may_leave self.old self.new) }
        ensures next { CallsMade 1 (plan self.old) (plan self.new) };

    /// Reads the bytes from place `at` on, and answers how many came. Fewer than the buffer holds come only at
    /// the end, and none only at the end or for an empty buffer.
    ///
    /// `Failed` comes only where the count of faults rose.
    fn read_at(&mut self, at: u64, buf: &mut [u8]) -> Result<usize, Failed>
        ensures within { IfOk result (λ n. n ≤ length buf.old) }
        ensures answer { IsTrue (honest self.old) → IfOk result (λ n. ReadsAt (reads self.old) at n buf.old buf.new) }
        ensures reads { reads self.new ≡ reads self.old }
        ensures crash { NoMore (may_leave self.old) (may_leave self.new) }
        ensures time { Elapses (moment self.old) (moment self.new) (left_since self.old) (left_since self.new) (may_leave self.new) }
        ensures honest { honest self.new ≡ honest self.old }
        ensures cause { HasCause (faults self.old) (faults self.new) result }
        ensures planned { plan self.old 0 ≡ Some true → IsErr result }
        ensures passes { plan self.old 0 ≡ Some false → IsOk result }
        ensures no_effect { IsSome (plan self.old 0) → OnErr result (IsAsBefore reads may_leave self.old self.new) }
        ensures next { CallsMade 1 (plan self.old) (plan self.new) };

    /// Writes all of `bytes` from place `at` on, over what is there and past the end. `at` is the length at most, and the
    /// bytes end at 2^30 at most.
    ///
    /// `Failed` comes only where the count of faults rose. A read of this range then gives any bytes, but where
    /// something was known of the call.
    fn write_at(&mut self, at: u64, bytes: &[u8]) -> Result<(), Failed>
        requires no_gap { IsTrue (honest self.old) → at ≤ length (reads self.old) }
        requires room { at + length bytes.now ≤ most_disk_bytes }
        ensures answer { IsTrue (honest self.old) → OnOk result (reads self.new ≡ written at bytes.now (reads self.old)) }
        ensures elsewhere { IsTrue (honest self.old) → Torn at (length bytes.now) (reads self.old) (reads self.new) }
        ensures crash { Follows (Torn at (length bytes.now)) (may_leave self.old) (may_leave self.new) }
        ensures time { Elapses (moment self.old) (moment self.new) (left_since self.old) (left_since self.new) (may_leave self.new) }
        ensures honest { honest self.new ≡ honest self.old }
        ensures cause { HasCause (faults self.old) (faults self.new) result }
        ensures planned { plan self.old 0 ≡ Some true → IsErr result }
        ensures no_effect { IsSome (plan self.old 0) → OnErr result (IsAsBefore reads may_leave self.old self.new) }
        ensures next { CallsMade 1 (plan self.old) (plan self.new) };

    /// Makes what a read gives the only image.
    ///
    /// `Failed` comes only where the count of faults rose. Each image is then one from before.
    fn sync(&mut self) -> Result<(), Failed>
        ensures durable { OnOk result (Only (reads self.old) (may_leave self.new)) }
        ensures reads { reads self.new ≡ reads self.old }
        ensures crash { NoMore (may_leave self.old) (may_leave self.new) }
        ensures time { Elapses (moment self.old) (moment self.new) (left_since self.old) (left_since self.new) (may_leave self.new) }
        ensures honest { honest self.new ≡ honest self.old }
        ensures cause { HasCause (faults self.old) (faults self.new) result }
        ensures planned { plan self.old 0 ≡ Some true → IsErr result }
        ensures passes { plan self.old 0 ≡ Some false → IsOk result }
        ensures no_effect { IsSome (plan self.old 0) → OnErr result (IsAsBefore reads may_leave self.old self.new) }
        ensures next { CallsMade 1 (plan self.old) (plan self.new) };

    /// This moment is one of those since an earlier one.
    ghost counts_now: { (disk : Self) (t : ℕ) (c : List ℕ) → t ≤ moment disk → may_leave disk c → left_since disk t c };

    /// Since this moment there is no other.
    ghost only_now: { (disk : Self) (c : List ℕ) → left_since disk (moment disk) c → may_leave disk c };

    /// What a read gives is one of the images: a process that ends leaves what it has written.
    ghost reads_may_stay: { (disk : Self) → IsTrue (honest disk) → may_leave disk (reads disk) };
}
