//! One packet.

ghost use Rattle.std.specs.Prelude.{◌≡◌, ◌≢◌, ◌+◌, false, true, IsTrue, OnOk};
ghost use Rattle.std.specs.Bool.{OnFalse, OnTrue};
ghost use Rattle.corr_disk.specs.Disk.{LeavesOnly};
ghost use Rattle.standby.specs.Following.{IsKept, disk_in, held_in};
ghost use Rattle.standby.specs.Held.{IsHeld};
ghost use Rattle.standby.specs.Taking.{IsBeforeOrTaken, Ships, TakeShows, broken_after, leaves_all};

use crate::answer::{TakeFault, Took};
use crate::packet::whole_packet;
use crate::place::Place;
use corr_disk::Disk;
use std::alloc::Global;

fn is_next(number: u32, have: u32) -> bool
    ensures next { OnTrue result (number ≡ have + 1) }
    ensures other { OnFalse result (number ≢ have + 1) }
{
    number as u64 == have as u64 + 1
}

/// Takes a packet where a follower stands whose disk didn't fail.
pub(crate) fn take_packet<D: Disk>(
    alloc: Global,
    place: &mut Place<D>,
    packet: &[u8],
) -> Result<Took, TakeFault>
    requires good { IsHeld (held_in place.old) }
    requires kept { IsKept D.honest D.reads D.may_leave place.old }
    ensures shows { TakeShows (held_in place.old) false 0 (D.faults (disk_in place.old)) (D.faults (disk_in place.new)) packet.now (held_in place.new) result }
    ensures ships { OnOk result (Ships (held_in place.old) packet.now (held_in place.new)) }
    ensures good { IsHeld (held_in place.new) }
    ensures kept { broken_after false result ≡ false → IsKept D.honest D.reads D.may_leave place.new }
    ensures any_moment { IsTrue (D.honest (disk_in place.old)) → LeavesOnly D.moment D.left_since (disk_in place.old) (disk_in place.new) (IsBeforeOrTaken (held_in place.old) packet.now) }
    ensures same { leaves_all result ≡ true → IsTrue (D.honest (disk_in place.old)) → disk_in place.new ≡ disk_in place.old }
    ensures honest { D.honest (disk_in place.new) ≡ D.honest (disk_in place.old) }
{
    match whole_packet(packet) {
        None => Err(TakeFault::NotAPacket),
        Some((number, record)) => {
            let have = place.count();
            if !is_next(number, have) {
                return Ok(Took::Skipped { have });
            }
            place.add(alloc, number, record)?;
            Ok(Took::Added { have: number })
        }
    }
}
