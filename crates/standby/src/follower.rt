//! A follower: a second machine's journal.

ghost use Rattle.std.specs.Prelude.{◌≡◌, false, true, IsTrue, IfErr, IfOk, IfSome, MatchResult, OnOk, length};
ghost use Rattle.corr_disk.specs.Disk.{LeavesOnly};
ghost use Rattle.standby.specs.Following.{Counts};
ghost use Rattle.standby.specs.Held.{IsHeld, IsOnDisk, count_of, entries_of};
ghost use Rattle.standby.specs.Taking.{IsBeforeOrTaken, Ships, TakeShows, broken_after, is_disk_fault, leaves_all};

use crate::answer::{TakeFault, Took};
use crate::place::Place;
use crate::taking::take_packet;
use corr_disk::Disk;
use std::alloc::Global;
use std::marker::Model;

/// The journal of a second machine, to which the records of a leader are added as their packets arrive, each on the disk before it is
/// told.
///
/// Contracts see what is held (no record, or those of accounts and a history), the disk, the disk's count of faults when the
/// follower began, and whether the disk failed since.
#[derive(Drop)]
pub struct Follower<D: Disk> {
    pub(crate) place: Place<D>,
    pub(crate) at_open: u64,
    pub(crate) broken: bool,
    pub(crate) alloc: Global,
}

impl<D: Disk> Model for Follower<D> {
    ghost use Rattle.standby.specs.Following.{Following, IsFollowing, disk_in, held_in};

    ghost Value = { Following D };

    ghost view = { λ f. record { held = held_in f.place; disk = disk_in f.place; at_open = f.at_open; broken = f.broken } };

    ghost invariant = { λ f. IsFollowing D.honest D.reads D.may_leave D.faults f.place f.at_open f.broken };
}

fn is_disk_fault(fault: TakeFault) -> bool
    ensures { result ≡ is_disk_fault fault }
{
    matches!(fault, TakeFault::DiskFault { .. })
}

impl<D: Disk> Follower<D> {
    /// How many records are held, which is the number of the last one. Takes no memory.
    pub fn have(&self) -> u32
        ensures { result ≡ count_of self.now.held }
    {
        self.place.count()
    }

    /// How many of the records that are held are entries. Takes no memory.
    pub fn entries(&self) -> u32
        ensures { result ≡ length (entries_of self.now.held) }
    {
        self.place.entries()
    }

    /// The disk. Takes no memory. Unless the disk failed, what is held is on it, and a crash leaves nothing else. Its count of faults is
    /// that of the beginning, and one more where it failed.
    pub fn into_disk(self) -> D
        ensures disk { result ≡ self.disk }
        ensures good { IsHeld self.held }
        ensures stands { self.broken ≡ false → IsOnDisk D.honest D.reads D.may_leave result self.held }
        ensures counts { Counts self.broken self.at_open (D.faults result) }
    {
        self.place.into_disk()
    }

    /// Takes a packet. Where its number is one more than the records held, and its record is the header of accounts (number 1) or that
    /// of an entry or a change that is legal next, the record is added, and is on the disk at `Added`. A packet with another number is
    /// skipped, and its record isn't looked at.
    ///
    /// The faults come in the order of `Broken`, `NotAPacket`, `NotNext`, `Full`, `DiskFault`, and `Memory` at any place after
    /// `Broken`; `DiskFault` comes only where the disk's count of faults rose. What was held is held still after each. The first
    /// record takes the calls of `create`, each later one the four of `append`, and a packet that is not added takes none.
    pub fn take(&mut self, packet: &[u8]) -> Result<Took, TakeFault>
        // The answer, and what it tells.
        ensures shows { TakeShows self.old.held self.old.broken self.old.at_open (D.faults self.old.disk) (D.faults self.new.disk) packet.now self.new.held result }

        // What is held after it is what the packet makes of what was held.
        ensures ships { OnOk result (Ships self.old.held packet.now self.new.held) }

        // What is held is that of a journal, and at Ok it is on the disk, of which a crash leaves nothing else.
        ensures good { IsHeld self.new.held }
        ensures durable { OnOk result (IsOnDisk D.honest D.reads D.may_leave self.new.disk self.new.held) }

        // A crash at any moment of the call leaves what was held, or that with the record of this packet.
        ensures any_moment { self.old.broken ≡ false → IsTrue (D.honest self.old.disk)
            → LeavesOnly D.moment D.left_since self.old.disk self.new.disk (IsBeforeOrTaken self.old.held packet.now) }

        ensures broken { self.new.broken ≡ broken_after self.old.broken result }
        ensures same { self.new.at_open ≡ self.old.at_open }
        ensures untouched { leaves_all result ≡ true → IsTrue (D.honest self.old.disk) → self.new ≡ self.old }
        ensures honest { D.honest self.new.disk ≡ D.honest self.old.disk }
    {
        if self.broken {
            return Err(TakeFault::Broken {
                at_open: self.at_open,
                now: self.place.faults(),
            });
        }
        match take_packet(self.alloc, &mut self.place, packet) {
            Ok(took) => Ok(took),
            Err(fault) => {
                self.broken = is_disk_fault(fault);
                Err(fault)
            }
        }
    }
}
