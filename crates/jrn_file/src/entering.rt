//! One record onto the disk.

ghost use Rattle.std.specs.Prelude.{◌≡◌, ◌+◌, ◌<◌, ◌≤◌, [], ◌∷◌, length, IsTrue, OnOk};
ghost use Rattle.corr_disk.specs.Calls.{CallsMade, AtMostCalls};
ghost use Rattle.corr_disk.specs.Disk.{written, Only, LeavesOnly, most_disk_bytes};
ghost use Rattle.corr_text.specs.Faults.{HasCause};
ghost use Rattle.jrn_file.specs.inner.Making.{IsEntering};

use corr_disk::{Disk, Failed};

/// An open gate, as it is written.
pub(crate) const OPEN: u8 = 1;

/// Writes a frame after the closed gate at this place, and opens the gate once the frame is on the disk.
pub(crate) fn enter<D: Disk>(disk: &mut D, gate: u64, frame: &[u8]) -> Result<(), Failed>
    requires gate { IsTrue (D.honest disk.old) → gate < length (D.reads disk.old) }
    requires room { gate + 1 + length frame.now ≤ most_disk_bytes }
    ensures honest { D.honest disk.new ≡ D.honest disk.old }
    ensures cause { HasCause (D.faults disk.old) (D.faults disk.new) result }
    ensures entered { IsTrue (D.honest disk.old) → OnOk result (D.reads disk.new ≡ written gate (1 ∷ []) (written (gate + 1) frame.now (D.reads disk.old))) }
    ensures durable { OnOk result (Only (D.reads disk.new) (D.may_leave disk.new)) }
    ensures any_moment { IsTrue (D.honest disk.old) → Only (D.reads disk.old) (D.may_leave disk.old)
        → LeavesOnly D.moment D.left_since disk.old disk.new (IsEntering gate frame.now (D.reads disk.old)) }
    ensures calls { OnOk result (CallsMade 4 (D.plan disk.old) (D.plan disk.new)) }
    ensures no_more_calls { AtMostCalls 4 (D.plan disk.old) (D.plan disk.new) }
{
    disk.write_at(gate + 1, frame)?;
    disk.sync()?;
    disk.write_at(gate, &[OPEN])?;
    disk.sync()
}
