//! The command `follow`: packets that were received are taken into the journal of a second machine.

ghost use Rattle.std.specs.Prelude.{◌≡◌, ◌≤◌, false, IfErr, IfOk, OnOk, List, [], length, ℕ};
ghost use Rattle.standby.specs.declared.packet.Packet.{Packet};
ghost use Rattle.standby.specs.Held.{IsHeld, IsOnDisk, records_of};
ghost use Rattle.standby.specs.Shipping.{shipped};
ghost use Rattle.corr_top.specs.Commands.{meaning_of};
ghost use Rattle.corr_top.specs.inner.Ends.{HasTexts};
ghost use Rattle.corr_top.specs.Followed.{ArePackets, EndsWithin, HasFile, StopsAtPackets, follow_line};
ghost use Rattle.corr_top.specs.inner.Followed.{GivesFollowed, GivesTaken};
ghost use Rattle.corr_top.specs.MessageFile.{most_message_bytes};
ghost use Rattle.corr_top.specs.Stops.{status_of_taking};
ghost use Rattle.corr_top.specs.declared.words.Command.TheVariants.{Plain as PlainCommand};
ghost use Rattle.corr_top.specs.declared.words.Plain.TheVariants as plain;

use crate::cutting::{FILE_LIMIT, FileStop};
use crate::reading::read_whole;
use crate::room::Room;
use crate::status::Status;
use crate::writing::Texts;
use corr_disk::Disk;
use corr_io::{Sink, Source};
use corr_text::{Memory, Text, put_digits};
use standby::{Follower, TakeFault, first_packet};
use std::alloc::Global;

/// The bytes of the file of packets.
fn read_packets<S: Source>(alloc: Global, source: &mut S) -> Result<Text, FileStop>
    ensures read { IfOk result (HasFile S.Source source.old source.new) }
    ensures stopped { IfErr result (λ stop. (bytes : List ℕ) × StopsAtPackets S.Source source.old source.new bytes stop) }
{
    let file = read_whole(alloc, source, FILE_LIMIT)?;
    let count = file.bytes().len();
    if count > FILE_LIMIT {
        return Err(FileStop::TooLarge {
            bytes: count as u64,
            messages: 0,
        });
    }
    Ok(file)
}

/// How many packets a file is; or the place at which they end, with more bytes behind it that begin with no whole packet.
fn count_packets(file: &[u8]) -> Result<u32, u64>
    requires { length file.now ≤ most_message_bytes }
    ensures are { IfOk result (λ count. (packets : List Packet) × ArePackets file.now packets × (count ≡ length packets)) }
    ensures within { IfErr result (EndsWithin file.now) }
{
    let mut count = 0;
    let mut rest = file;
    while let Some((_, _, after)) = first_packet(rest) {
        count += 1;
        rest = after;
    }
    if rest.is_empty() {
        Ok(count)
    } else {
        Err((file.len() - rest.len()) as u64)
    }
}

/// Takes the packets of a file, one after another, up to the first that is not taken. Told with why are the entries that are held then.
fn take_packets<D: Disk>(follower: &mut Follower<D>, file: &[u8]) -> Result<(), (TakeFault, u32)>
    requires whole { follower.old.broken ≡ false }
    requires good { IsHeld follower.old.held }
    requires durable { IsOnDisk D.honest D.reads D.may_leave follower.old.disk follower.old.held }
    ensures gives { (packets : List Packet) → ArePackets file.now packets → GivesTaken D.Disk follower.old.disk follower.new.disk follower.old.held packets result }
    ensures ships { OnOk result ((packets : List Packet) → ArePackets file.now packets → records_of follower.new.held ≡ shipped (records_of follower.old.held) packets) }
    ensures honest { D.honest follower.new.disk ≡ D.honest follower.old.disk }
{
    let mut rest = file;
    while let Some((_, _, after)) = first_packet(rest) {
        let packet = &rest[..rest.len() - after.len()];
        if let Err(fault) = follower.take(packet) {
            return Err((fault, follower.entries()));
        }
        rest = after;
    }
    Ok(())
}

/// The status of a packet that was not taken, where so many entries are held.
fn take_status(entries: u32, fault: TakeFault) -> Status
    ensures { result ≡ status_of_taking entries fault }
{
    match fault {
        TakeFault::NotAPacket => Status::Framing { at: 0 },
        TakeFault::NotNext { number } => Status::NotNext { number },
        TakeFault::Full { end, need } => Status::Full { entries, end, need },
        TakeFault::DiskFault { before, after } => Status::DiskFault { before, after },
        TakeFault::Broken { at_open, now } => Status::DiskFault {
            before: at_open,
            after: now,
        },
        TakeFault::Memory => Status::Memory,
    }
}

/// The line that tells how many packets there were, how many records were added, and how many are held.
fn line(alloc: Global, packets: u32, before: u32, have: u32) -> Result<Text, Memory>
    ensures { IfOk result (λ text. text ≡ follow_line packets before have) }
{
    let mut out = Text::from_bytes(alloc, b"PACKETS ")?;
    put_digits(alloc, packets as u64, 6, &mut out)?;
    out.push(b" ADDED ")?;
    put_digits(alloc, have.saturating_sub(before) as u64, 6, &mut out)?;
    out.push(b" HAVE ")?;
    put_digits(alloc, have as u64, 8, &mut out)?;
    out.push(b"\n")?;
    Ok(out)
}

/// That line as the report; nothing is sent.
fn texts(alloc: Global, packets: u32, before: u32, have: u32) -> Result<Texts, Memory>
    ensures { IfOk result (λ texts. (texts.report ≡ follow_line packets before have) × (texts.out ≡ [])) }
{
    Ok(Texts {
        report: line(alloc, packets, before, have)?,
        out: Text::from_bytes(alloc, b"")?,
    })
}

/// Reads the file of packets and takes them: the texts, or why there are none.
fn tell_taken<S: Source, D: Disk>(
    alloc: Global,
    source: &mut S,
    follower: &mut Follower<D>,
) -> Result<Texts, Status>
    requires whole { follower.old.broken ≡ false }
    requires good { IsHeld follower.old.held }
    requires durable { IsOnDisk D.honest D.reads D.may_leave follower.old.disk follower.old.held }
    ensures gives { GivesFollowed S.Source D.Disk source.old source.new follower.old.disk follower.new.disk follower.old.held result }
    ensures honest { D.honest follower.new.disk ≡ D.honest follower.old.disk }
{
    let file = read_packets(alloc, source)?;
    let packets = match count_packets(file.bytes()) {
        Ok(packets) => packets,
        Err(at) => return Err(Status::Framing { at }),
    };
    let before = follower.have();
    if let Err((fault, entries)) = take_packets(follower, file.bytes()) {
        return Err(take_status(entries, fault));
    }
    let have = follower.have();
    Ok(texts(alloc, packets, before, have)?)
}

/// Begins a follower on the journal's disk, reads the file of packets, and takes them.
pub fn follow<S: Source, K: Sink, D: Disk>(
    alloc: Global,
    room: Room<S, K, D>,
) -> (Room<S, K, D>, Result<Texts, Status>)
    ensures texts { HasTexts S.Source D.Disk (meaning_of (PlainCommand plain.Follow)) room result.0 result.1 }
    ensures honest { D.honest result.0.disk ≡ D.honest room.disk }
{
    let mut room = room;
    let mut follower = match Follower::begin(alloc, room.disk) {
        Ok(follower) => follower,
        Err((disk, fault)) => {
            room.disk = disk;
            return (room, Err(Status::from(fault)));
        }
    };
    let texts = tell_taken(alloc, &mut room.received, &mut follower);
    room.disk = follower.into_disk();
    (room, texts)
}
