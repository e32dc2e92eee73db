//! A new journal.

ghost use Rattle.std.specs.Prelude.{◌≡◌, ◌+◌, ◌≤◌, ℕ, [], ◌∷◌, length, take, Some, IsTrue, IsErr, IfOk, IfErr, OnOk, IfNone, IfSome, MatchResult};
ghost use Rattle.corr_disk.specs.Calls.{CallsMade, AtMostCalls};
ghost use Rattle.corr_disk.specs.Disk.{Only, LeavesOnly, most_disk_bytes};
ghost use Rattle.corr_text.specs.Faults.{HasCause};
ghost use Rattle.jrn_file.specs.Faults.{MakeCause, IsRefusal};
ghost use Rattle.jrn_file.specs.Journal.{StandsFor, IsFrame, record_in};
ghost use Rattle.jrn_file.specs.Making.{IsOther, IsUnmade, IsUnmadeOrMade, calls_to_make, made_over};
ghost use Rattle.jrn_file.specs.inner.Making.{IsFront, calls_to_look};
ghost use Rattle.jrn_file.specs.Reading.{most_record_bytes};
ghost use Rattle.jrn_file.specs.Untouched.{IsUntouched};

use crate::entering::enter;
use crate::fault::MakeFault;
use crate::frame::framed;
use corr_disk::{Disk, Failed};
use corr_text::Memory;
use std::alloc::Global;

/// What stands in front on a disk.
#[derive(Drop)]
pub(crate) enum Front {
    /// At most one byte.
    Short,
    /// More, after a closed gate.
    Closed,
    /// More, after this byte.
    Open(u8),
}

/// Makes a journal of this header record and no record on a disk that has at most one byte or begins with a byte
/// 0, and gives the disk back.
///
/// `Exists` comes exactly where the disk has more than one byte and its first byte is not 0: nothing is written
/// then. `DiskFault` comes only where the disk's count of faults rose, which it does at nothing else. `Memory` comes
/// before any call of the disk. Bytes after the new journal stay as they are. Where the disk stops at any moment, it
/// holds the new journal, or `create` may be given again. The header record has at most 1,048,576 bytes.
pub fn create<D: Disk>(alloc: Global, disk: D, head: &[u8]) -> Result<D, (D, MakeFault)>
    requires { length head.now ≤ most_record_bytes }

    ensures made { IsTrue (D.honest disk) → IfOk result (λ made. StandsFor (D.reads made) head.now []) }
    ensures bytes { IsTrue (D.honest disk) → IfOk result (λ made. D.reads made ≡ made_over head.now (D.reads disk)) }
    ensures durable { IsTrue (D.honest disk) → IfOk result (λ made. Only (D.reads made) (D.may_leave made)) }

    // Exists exactly where something else stands there, and then nothing is written, whatever the answer.
    ensures cause { IfErr result (λ e. MakeCause (D.faults disk) (D.faults e.0) (λ first. IsTrue (D.honest disk) → IsOther (D.reads disk) first) e.1) }
    ensures exists { (first : ℕ) → IsTrue (D.honest disk) → IsOther (D.reads disk) first → IfErr result (λ e. IsRefusal first e.1) × IsErr result }
    ensures untouched { (first : ℕ) → IsTrue (D.honest disk) → IsOther (D.reads disk) first
        → IfErr result (λ e. IsUntouched D.reads D.may_leave D.moment D.left_since disk e.0) }

    // Memory runs out before any call of the disk, or not at all.
    ensures memory { IfErr result (λ e. e.1 ≡ MakeFault.Memory → e.0 ≡ disk) }

    // A crash at any moment leaves a disk on which nothing is made yet, or the new journal.
    ensures any_moment { IsTrue (D.honest disk) → Only (D.reads disk) (D.may_leave disk) → IsUnmade (D.reads disk)
        → MatchResult result
        (λ made. LeavesOnly D.moment D.left_since disk made (IsUnmadeOrMade head.now))
        (λ e. LeavesOnly D.moment D.left_since disk e.0 (IsUnmadeOrMade head.now)) }

    // It makes the calls of the disk that it needs, and no more where it fails.
    ensures calls { IsTrue (D.honest disk) → IfOk result (λ made. CallsMade (calls_to_make (D.reads disk)) (D.plan disk) (D.plan made)) }
    ensures no_more_calls { IsTrue (D.honest disk) → IfErr result (λ e. AtMostCalls (calls_to_make (D.reads disk)) (D.plan disk) (D.plan e.0)) }

    ensures honest { MatchResult result (λ made. D.honest made ≡ D.honest disk) (λ e. D.honest e.0 ≡ D.honest disk) }
    ensures kept { IfOk result (λ made. D.faults made ≡ D.faults disk) }
{
    let mut disk = disk;
    let before = disk.faults();
    let frame = match framed(alloc, head) {
        Ok(frame) => frame,
        Err(Memory) => return Err((disk, MakeFault::Memory)),
    };
    match make(&mut disk, frame.as_slice()) {
        Ok(None) => Ok(disk),
        Ok(Some(first)) => Err((disk, MakeFault::Exists { first })),
        Err(Failed) => {
            let after = disk.faults();
            Err((disk, MakeFault::DiskFault { before, after }))
        }
    }
}

/// Makes the journal, or answers the first byte of what stands there.
fn make<D: Disk>(disk: &mut D, frame: &[u8]) -> Result<Option<u8>, Failed>
    requires frame { IsFrame frame.now }
    requires room { 1 + length frame.now ≤ most_disk_bytes }
    ensures honest { D.honest disk.new ≡ D.honest disk.old }
    ensures cause { HasCause (D.faults disk.old) (D.faults disk.new) result }
    ensures made { IsTrue (D.honest disk.old) → IfOk result (λ other. IfNone other (StandsFor (D.reads disk.new) (record_in frame.now) [])) }
    ensures bytes { IsTrue (D.honest disk.old) → IfOk result (λ other. IfNone other (D.reads disk.new ≡ made_over (record_in frame.now) (D.reads disk.old))) }
    ensures durable { IsTrue (D.honest disk.old) → IfOk result (λ other. IfNone other (Only (D.reads disk.new) (D.may_leave disk.new))) }
    ensures other { IsTrue (D.honest disk.old) → IfOk result (λ other. IfSome other (IsOther (D.reads disk.old))) }
    ensures exists { (first : ℕ) → IsTrue (D.honest disk.old) → IsOther (D.reads disk.old) first → IfOk result (λ other. other ≡ Some first) }
    ensures untouched { (first : ℕ) → IsTrue (D.honest disk.old) → IsOther (D.reads disk.old) first → IsUntouched D.reads D.may_leave D.moment D.left_since disk.old disk.new }
    ensures any_moment { IsTrue (D.honest disk.old) → Only (D.reads disk.old) (D.may_leave disk.old) → IsUnmade (D.reads disk.old)
        → LeavesOnly D.moment D.left_since disk.old disk.new (IsUnmadeOrMade (record_in frame.now)) }
    ensures calls { IsTrue (D.honest disk.old) → OnOk result (CallsMade (calls_to_make (D.reads disk.old)) (D.plan disk.old) (D.plan disk.new)) }
    ensures no_more_calls { IsTrue (D.honest disk.old) → AtMostCalls (calls_to_make (D.reads disk.old)) (D.plan disk.old) (D.plan disk.new) }
{
    match look_in_front(disk)? {
        Front::Open(first) => Ok(Some(first)),
        Front::Closed => {
            enter_head(disk, frame)?;
            Ok(None)
        }
        Front::Short => {
            blank(disk)?;
            enter_head(disk, frame)?;
            Ok(None)
        }
    }
}

/// Looks at the front of a disk.
pub(crate) fn look_in_front<D: Disk>(disk: &mut D) -> Result<Front, Failed>
    ensures front { IsTrue (D.honest disk.old) → IfOk result (λ front. IsFront front (D.reads disk.old)) }
    ensures honest { D.honest disk.new ≡ D.honest disk.old }
    ensures cause { HasCause (D.faults disk.old) (D.faults disk.new) result }
    ensures untouched { IsUntouched D.reads D.may_leave D.moment D.left_since disk.old disk.new }
    ensures calls { IfOk result (λ front. CallsMade (calls_to_look front) (D.plan disk.old) (D.plan disk.new)) }
    ensures no_more_calls { AtMostCalls 2 (D.plan disk.old) (D.plan disk.new) }
{
    if disk.len()? <= 1 {
        return Ok(Front::Short);
    }
    let mut first = [0];
    disk.read_at(0, &mut first)?;
    match first[0] {
        0 => Ok(Front::Closed),
        first => Ok(Front::Open(first)),
    }
}

/// Puts a closed gate on a disk that has at most one byte.
pub(crate) fn blank<D: Disk>(disk: &mut D) -> Result<(), Failed>
    requires { IsTrue (D.honest disk.old) → length (D.reads disk.old) ≤ 1 }
    ensures honest { D.honest disk.new ≡ D.honest disk.old }
    ensures cause { HasCause (D.faults disk.old) (D.faults disk.new) result }
    ensures closed { IsTrue (D.honest disk.old) → OnOk result (D.reads disk.new ≡ 0 ∷ []) }
    ensures durable { OnOk result (Only (D.reads disk.new) (D.may_leave disk.new)) }
    ensures any_moment { IsTrue (D.honest disk.old) → Only (D.reads disk.old) (D.may_leave disk.old)
        → LeavesOnly D.moment D.left_since disk.old disk.new IsUnmade }
    ensures calls { OnOk result (CallsMade 2 (D.plan disk.old) (D.plan disk.new)) }
    ensures no_more_calls { AtMostCalls 2 (D.plan disk.old) (D.plan disk.new) }
{
    disk.write_at(0, &[0])?;
    disk.sync()
}

/// Enters the header record after the closed gate in front.
fn enter_head<D: Disk>(disk: &mut D, frame: &[u8]) -> Result<(), Failed>
    requires closed { IsTrue (D.honest disk.old) → take 1 (D.reads disk.old) ≡ 0 ∷ [] }
    requires frame { IsFrame frame.now }
    requires room { 1 + length frame.now ≤ most_disk_bytes }
    ensures honest { D.honest disk.new ≡ D.honest disk.old }
    ensures cause { HasCause (D.faults disk.old) (D.faults disk.new) result }
    ensures made { IsTrue (D.honest disk.old) → OnOk result (StandsFor (D.reads disk.new) (record_in frame.now) []) }
    ensures bytes { IsTrue (D.honest disk.old) → OnOk result (D.reads disk.new ≡ made_over (record_in frame.now) (D.reads disk.old)) }
    ensures durable { OnOk result (Only (D.reads disk.new) (D.may_leave disk.new)) }
    ensures any_moment { IsTrue (D.honest disk.old) → Only (D.reads disk.old) (D.may_leave disk.old)
        → LeavesOnly D.moment D.left_since disk.old disk.new (IsUnmadeOrMade (record_in frame.now)) }
    ensures calls { OnOk result (CallsMade 4 (D.plan disk.old) (D.plan disk.new)) }
    ensures no_more_calls { AtMostCalls 4 (D.plan disk.old) (D.plan disk.new) }
{
    enter(disk, 0, frame)
}
