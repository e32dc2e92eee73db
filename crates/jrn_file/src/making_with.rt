//! A new journal with records in it.

ghost use Rattle.std.specs.Prelude.{◌≡◌, ◌<◌, ◌≤◌, ◌∷◌, ◌^◌, ℕ, All, length, Some, IsTrue, IsErr, IsSome, IfOk, IfErr, IfNone, IfSome, MatchResult};
ghost use Rattle.corr_disk.specs.Calls.{AtMostCalls, CallsMade};
ghost use Rattle.corr_disk.specs.Disk.{LeavesOnly, Only, most_disk_bytes};
ghost use Rattle.corr_text.specs.Faults.{HasCause};
ghost use Rattle.jrn_file.specs.Faults.{IsRefusal, MakeWithCause};
ghost use Rattle.jrn_file.specs.Journal.{StandsFor, journal_bytes};
ghost use Rattle.jrn_file.specs.Making.{IsOther, IsUnmade, IsUnmadeOrMadeWith, calls_to_make_with, made_with_over, most_piece_bytes};
ghost use Rattle.jrn_file.specs.inner.Making.{Refuses};
ghost use Rattle.jrn_file.specs.Reading.{most_record_bytes};
ghost use Rattle.jrn_file.specs.inner.Sending.{StartsAt};
ghost use Rattle.jrn_file.specs.Untouched.{IsUntouched};

use crate::fault::MakeFault;
use crate::filling::fill;
use crate::making::{Front, blank, look_in_front};
use crate::sending::Sender;
use corr_disk::{Disk, Failed, MOST_DISK_BYTES};
use corr_text::Text;
use std::alloc::Global;

/// The most bytes of one write of records.
const PIECE: usize = 1 << 20;

/// Why nothing is made.
#[derive(Drop)]
pub(crate) enum Refusal {
    /// More than one byte is there, of which this is the first, and it is not 0.
    Other(u8),
    /// The journal has more than 2^30 bytes.
    TooLong,
}

/// Makes a journal of this header record and these records on a disk that has at most one byte or begins with a byte
/// 0, and gives the disk back: so a journal is carried over to another disk.
///
/// `Exists` comes exactly where the disk has more than one byte and its first byte is not 0: nothing is written then.
/// After it comes `Full`, exactly where the journal has more than 2^30 bytes: it tells 0 and this length, and nothing is
/// written then. `DiskFault` comes only where the disk's count of faults rose, which it does at nothing else. `Memory`
/// comes before any call of the disk. Bytes after the new journal stay as they are. The records are written in pieces of
/// 2^20 bytes behind a closed gate, which is opened once all of them are on the disk: where the disk stops at any moment,
/// it holds the new journal with all of its records, or `create_with` may be given again. The header and each record have
/// at most 1,048,576 bytes.
pub fn create_with<D: Disk>(
    alloc: Global,
    disk: D,
    head: &[u8],
    records: &[Text],
) -> Result<D, (D, MakeFault)>
    requires size { length (journal_bytes head.now records.now) < 2 ^ 64 }
    requires short { All (λ r. length r ≤ most_record_bytes) (head.now ∷ records.now) }

    ensures made { IsTrue (D.honest disk) → IfOk result (λ made. StandsFor (D.reads made) head.now records.now) }
    ensures bytes { IsTrue (D.honest disk) → IfOk result (λ made. D.reads made ≡ made_with_over head.now records.now (D.reads disk)) }
    ensures durable { IsTrue (D.honest disk) → IfOk result (λ made. Only (D.reads made) (D.may_leave made)) }

    // Exists exactly where something else stands there, and then nothing is written, whatever the answer.
    ensures cause { IfErr result (λ e. MakeWithCause (D.faults disk) (D.faults e.0) (λ first. IsTrue (D.honest disk) → IsOther (D.reads disk) first)
        (length (journal_bytes head.now records.now)) (IsUntouched D.reads D.may_leave D.moment D.left_since disk e.0) e.1) }
    ensures exists { (first : ℕ) → IsTrue (D.honest disk) → IsOther (D.reads disk) first → IfErr result (λ e. IsRefusal first e.1) × IsErr result }
    ensures untouched { (first : ℕ) → IsTrue (D.honest disk) → IsOther (D.reads disk) first
        → IfErr result (λ e. IsUntouched D.reads D.may_leave D.moment D.left_since disk e.0) }

    // A journal that is too long isn't made.
    ensures full { most_disk_bytes < length (journal_bytes head.now records.now) → IsErr result }

    // Memory runs out before any call of the disk, or not at all.
    ensures memory { IfErr result (λ e. e.1 ≡ MakeFault.Memory → e.0 ≡ disk) }

    // A crash at any moment leaves a disk on which nothing is made yet, or the new journal with all of its records.
    ensures any_moment { IsTrue (D.honest disk) → Only (D.reads disk) (D.may_leave disk) → IsUnmade (D.reads disk)
        → MatchResult result
        (λ made. LeavesOnly D.moment D.left_since disk made (IsUnmadeOrMadeWith head.now records.now))
        (λ e. LeavesOnly D.moment D.left_since disk e.0 (IsUnmadeOrMadeWith head.now records.now)) }

    // It makes the calls of the disk that it needs, and no more where it fails.
    ensures calls { IsTrue (D.honest disk) → IfOk result (λ made. CallsMade (calls_to_make_with most_piece_bytes (length (journal_bytes head.now records.now)) (D.reads disk)) (D.plan disk) (D.plan made)) }
    ensures no_more_calls { IsTrue (D.honest disk) → IfErr result (λ e. AtMostCalls (calls_to_make_with most_piece_bytes (length (journal_bytes head.now records.now)) (D.reads disk)) (D.plan disk) (D.plan e.0)) }

    ensures honest { MatchResult result (λ made. D.honest made ≡ D.honest disk) (λ e. D.honest e.0 ≡ D.honest disk) }
    ensures kept { IfOk result (λ made. D.faults made ≡ D.faults disk) }
{
    let mut disk = disk;
    let before = disk.faults();
    let Ok(mut sender) = Sender::new(alloc, PIECE, 1) else {
        return Err((disk, MakeFault::Memory));
    };
    let size = size_of_journal(head, records);
    match make_with(&mut disk, &mut sender, size, head, records) {
        Ok(None) => Ok(disk),
        Ok(Some(Refusal::Other(first))) => Err((disk, MakeFault::Exists { first })),
        Ok(Some(Refusal::TooLong)) => Err((disk, MakeFault::Full { end: 0, need: size })),
        Err(Failed) => {
            let after = disk.faults();
            Err((disk, MakeFault::DiskFault { before, after }))
        }
    }
}

/// How many bytes a journal of this header and these records has.
fn size_of_journal(head: &[u8], records: &[Text]) -> u64
    requires { length (journal_bytes head.now records.now) < 2 ^ 64 }
    ensures { result ≡ length (journal_bytes head.now records.now) }
{
    let mut size = 6 + head.len() as u64;
    for record in records {
        size += 5 + record.bytes().len() as u64;
    }
    size
}

/// Makes the journal, which has so many bytes, or says why not.
fn make_with<D: Disk>(
    disk: &mut D,
    sender: &mut Sender,
    size: u64,
    head: &[u8],
    records: &[Text],
) -> Result<Option<Refusal>, Failed>
    requires size { size ≡ length (journal_bytes head.now records.now) }
    requires short { All (λ r. length r ≤ most_record_bytes) (head.now ∷ records.now) }
    requires sender { StartsAt most_piece_bytes 1 sender.old }
    ensures honest { D.honest disk.new ≡ D.honest disk.old }
    ensures cause { HasCause (D.faults disk.old) (D.faults disk.new) result }
    ensures made { IsTrue (D.honest disk.old) → IfOk result (λ refusal. IfNone refusal (StandsFor (D.reads disk.new) head.now records.now)) }
    ensures bytes { IsTrue (D.honest disk.old) → IfOk result (λ refusal. IfNone refusal (D.reads disk.new ≡ made_with_over head.now records.now (D.reads disk.old))) }
    ensures durable { IfOk result (λ refusal. IfNone refusal (Only (D.reads disk.new) (D.may_leave disk.new))) }
    ensures refused { IfOk result (λ refusal. IfSome refusal (Refuses (IsTrue (D.honest disk.old)) (D.reads disk.old) size
        (IsUntouched D.reads D.may_leave D.moment D.left_since disk.old disk.new))) }
    ensures exists { (first : ℕ) → IsTrue (D.honest disk.old) → IsOther (D.reads disk.old) first → IfOk result (λ refusal. refusal ≡ Some (Refusal.Other first)) }
    ensures full { most_disk_bytes < size → IfOk result IsSome }
    ensures untouched { (first : ℕ) → IsTrue (D.honest disk.old) → IsOther (D.reads disk.old) first → IsUntouched D.reads D.may_leave D.moment D.left_since disk.old disk.new }
    ensures any_moment { IsTrue (D.honest disk.old) → Only (D.reads disk.old) (D.may_leave disk.old) → IsUnmade (D.reads disk.old)
        → LeavesOnly D.moment D.left_since disk.old disk.new (IsUnmadeOrMadeWith head.now records.now) }
    ensures calls { IsTrue (D.honest disk.old) → IfOk result (λ refusal. IfNone refusal (CallsMade (calls_to_make_with most_piece_bytes size (D.reads disk.old)) (D.plan disk.old) (D.plan disk.new))) }
    ensures no_more_calls { IsTrue (D.honest disk.old) → AtMostCalls (calls_to_make_with most_piece_bytes size (D.reads disk.old)) (D.plan disk.old) (D.plan disk.new) }
{
    let is_long = size > MOST_DISK_BYTES;
    match look_in_front(disk)? {
        Front::Open(first) => Ok(Some(Refusal::Other(first))),
        Front::Closed => {
            if is_long {
                return Ok(Some(Refusal::TooLong));
            }
            fill(disk, sender, head, records)?;
            Ok(None)
        }
        Front::Short => {
            if is_long {
                return Ok(Some(Refusal::TooLong));
            }
            blank(disk)?;
            fill(disk, sender, head, records)?;
            Ok(None)
        }
    }
}
