//! The records of a new journal onto the disk.

ghost use Rattle.std.specs.Prelude.{◌≡◌, ◌+◌, ◌-◌, ◌/◌, ◌<◌, ◌≤◌, ◌∷◌, ◌++◌, All, length, IsTrue, OnOk};
ghost use Rattle.std.specs.Int.{div_ceil};
ghost use Rattle.corr_disk.specs.Calls.{AtMostCalls, CallsMade};
ghost use Rattle.corr_disk.specs.Disk.{LeavesOnly, Only, most_disk_bytes, written};
ghost use Rattle.corr_text.specs.Faults.{HasCause};
ghost use Rattle.jrn_file.specs.Journal.{StandsFor, frames_of, journal_bytes};
ghost use Rattle.jrn_file.specs.Making.{IsUnmadeOrMadeWith, made_with_over};
ghost use Rattle.jrn_file.specs.Reading.{most_record_bytes};
ghost use Rattle.jrn_file.specs.inner.Sending.{IsSent, IsShutFront, LeavesShut, SendsBy, StartsAt, StaysShut, open_frames, place_of};

use crate::entering::OPEN;
use crate::sending::Sender;
use corr_disk::{Disk, Failed};
use corr_text::Text;

/// A closed gate, as it is written.
const CLOSED: u8 = 0;

/// Writes a journal of this header and these records behind the closed gate in front, piece by piece, and opens that
/// gate once all of them are on the disk.
pub(crate) fn fill<D: Disk>(
    disk: &mut D,
    sender: &mut Sender,
    head: &[u8],
    records: &[Text],
) -> Result<(), Failed>
    requires shut { IsTrue (D.honest disk.old) → IsShutFront (D.reads disk.old) }
    requires short { All (λ r. length r ≤ most_record_bytes) (head.now ∷ records.now) }
    requires room { length (journal_bytes head.now records.now) ≤ most_disk_bytes }
    requires sender { StartsAt (length sender.old.buffer.items) 1 sender.old }
    ensures honest { D.honest disk.new ≡ D.honest disk.old }
    ensures cause { HasCause (D.faults disk.old) (D.faults disk.new) result }
    ensures made { IsTrue (D.honest disk.old) → OnOk result (StandsFor (D.reads disk.new) head.now records.now) }
    ensures bytes { IsTrue (D.honest disk.old) → OnOk result (D.reads disk.new ≡ made_with_over head.now records.now (D.reads disk.old)) }
    ensures durable { OnOk result (Only (D.reads disk.new) (D.may_leave disk.new)) }
    ensures any_moment { IsTrue (D.honest disk.old) → Only (D.reads disk.old) (D.may_leave disk.old)
        → LeavesOnly D.moment D.left_since disk.old disk.new (IsUnmadeOrMadeWith head.now records.now) }
    ensures calls { OnOk result (CallsMade (div_ceil (length (journal_bytes head.now records.now) - 1) (length sender.old.buffer.items) + 3) (D.plan disk.old) (D.plan disk.new)) }
    ensures no_more_calls { AtMostCalls (div_ceil (length (journal_bytes head.now records.now) - 1) (length sender.old.buffer.items) + 3) (D.plan disk.old) (D.plan disk.new) }
{
    send(disk, sender, head, records)?;
    disk.sync()?;
    disk.write_at(0, &[OPEN])?;
    disk.sync()
}

/// Writes all but the gate in front.
fn send<D: Disk>(
    disk: &mut D,
    sender: &mut Sender,
    head: &[u8],
    records: &[Text],
) -> Result<(), Failed>
    requires some { IsTrue (D.honest disk.old) → 1 ≤ length (D.reads disk.old) }
    requires room { 1 + length (frames_of head.now records.now) ≤ most_disk_bytes }
    requires sender { StartsAt (length sender.old.buffer.items) 1 sender.old }
    ensures honest { D.honest disk.new ≡ D.honest disk.old }
    ensures cause { HasCause (D.faults disk.old) (D.faults disk.new) result }
    ensures written { IsTrue (D.honest disk.old) → OnOk result (D.reads disk.new ≡ written 1 (frames_of head.now records.now) (D.reads disk.old)) }
    ensures shut { LeavesShut (D.may_leave disk.old) → StaysShut D.may_leave D.moment D.left_since disk.old disk.new }
    ensures calls { OnOk result (CallsMade (div_ceil (length (frames_of head.now records.now)) (length sender.old.buffer.items)) (D.plan disk.old) (D.plan disk.new)) }
    ensures no_more_calls { AtMostCalls (div_ceil (length (frames_of head.now records.now)) (length sender.old.buffer.items)) (D.plan disk.old) (D.plan disk.new) }
{
    give_records(disk, sender, head, records)?;
    sender.give(disk, &[CLOSED])?;
    sender.finish(disk)
}

/// Gives the header and the records to the disk: each after its length in four bytes, and with an open gate in front of each but the
/// header.
fn give_records<D: Disk>(
    disk: &mut D,
    sender: &mut Sender,
    head: &[u8],
    records: &[Text],
) -> Result<(), Failed>
    requires by { SendsBy (length sender.old.buffer.items) sender.old }
    requires no_gap { IsTrue (D.honest disk.old) → place_of sender.old ≤ length (D.reads disk.old) }
    requires room { place_of sender.old + sender.old.filled + length (open_frames head.now records.now) ≤ most_disk_bytes }
    ensures sent { OnOk result (IsSent (length sender.old.buffer.items) sender.old sender.new (open_frames head.now records.now)
        (D.honest disk.old) (D.reads disk.old) (D.reads disk.new) (D.plan disk.old) (D.plan disk.new)) }
    ensures shut { 0 < place_of sender.old → LeavesShut (D.may_leave disk.old) → StaysShut D.may_leave D.moment D.left_since disk.old disk.new }
    ensures honest { D.honest disk.new ≡ D.honest disk.old }
    ensures cause { HasCause (D.faults disk.old) (D.faults disk.new) result }
    ensures no_more_calls { AtMostCalls ((sender.old.filled + length (open_frames head.now records.now)) / length sender.old.buffer.items) (D.plan disk.old) (D.plan disk.new) }
{
    give_both(disk, sender, &(head.len() as u32).to_be_bytes(), head)?;
    for record in records {
        let record = record.bytes();
        let [a, b, c, d] = (record.len() as u32).to_be_bytes();
        give_both(disk, sender, &[OPEN, a, b, c, d], record)?;
    }
    Ok(())
}

/// Gives some bytes to the disk and then others.
fn give_both<D: Disk>(
    disk: &mut D,
    sender: &mut Sender,
    first: &[u8],
    second: &[u8],
) -> Result<(), Failed>
    requires by { SendsBy (length sender.old.buffer.items) sender.old }
    requires no_gap { IsTrue (D.honest disk.old) → place_of sender.old ≤ length (D.reads disk.old) }
    requires room { place_of sender.old + sender.old.filled + (length first.now + length second.now) ≤ most_disk_bytes }
    ensures sent { OnOk result (IsSent (length sender.old.buffer.items) sender.old sender.new (first.now ++ second.now)
        (D.honest disk.old) (D.reads disk.old) (D.reads disk.new) (D.plan disk.old) (D.plan disk.new)) }
    ensures shut { 0 < place_of sender.old → LeavesShut (D.may_leave disk.old) → StaysShut D.may_leave D.moment D.left_since disk.old disk.new }
    ensures honest { D.honest disk.new ≡ D.honest disk.old }
    ensures cause { HasCause (D.faults disk.old) (D.faults disk.new) result }
    ensures no_more_calls { AtMostCalls ((sender.old.filled + (length first.now + length second.now)) / length sender.old.buffer.items) (D.plan disk.old) (D.plan disk.new) }
{
    sender.give(disk, first)?;
    sender.give(disk, second)
}
