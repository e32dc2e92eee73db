//! The packets of a journal.

ghost use Rattle.std.specs.Prelude.{◌≡◌, ◌<◌, ◌≤◌, ◌-◌, ◌^◌, ◌∷◌, All, Some, IfNone, IfOk, IfSome, length, slice_get};
ghost use Rattle.standby.specs.Packets.{packet_of, packets_of};

use corr_text::{Memory, Text};
use std::alloc::Global;

/// The record with a number, which counts from 1: the header, then the others. None where there are fewer.
fn record_at<'a>(head: &'a [u8], recs: &'a [Text], number: u64) -> Option<&'a [u8]>
    requires { 1 ≤ number }
    ensures there { IfSome result (λ r. slice_get (head.now ∷ recs.now) (number - 1) ≡ Some r.now) }
    ensures none { IfNone result (length (head.now ∷ recs.now) < number) }
{
    if number == 1 {
        return Some(head);
    }
    match recs.get(number as usize - 2) {
        Some(r) => Some(r.bytes()),
        None => None,
    }
}

/// The packet of a record.
fn packet(alloc: Global, number: u32, body: &[u8]) -> Result<Text, Memory>
    requires { length body.now ≤ 2 ^ 30 }
    ensures { IfOk result (λ packet. packet ≡ packet_of number body.now) }
{
    let mut packet = Text::with_room(alloc, &number.to_be_bytes(), body.len().saturating_add(4))?;
    packet.push(&(body.len() as u32).to_be_bytes())?;
    packet.push(body)?;
    Ok(packet)
}

/// The packets of a journal's records, the header first, with the numbers from `from` to `until`, as many as there are. Numbers count
/// from 1. The header and each record have at most 2^30 bytes.
///
/// `Memory`: there is no room for them.
pub fn packets(
    alloc: Global,
    head: &[u8],
    recs: &[Text],
    from: u32,
    until: u32,
) -> Result<Vec<Text>, Memory>
    requires from { 1 ≤ from }
    requires order { from ≤ until }
    requires short { All (λ r. length r ≤ 2 ^ 30) (head.now ∷ recs.now) }
    ensures { IfOk result (λ packets. packets.items ≡ packets_of (head.now ∷ recs.now) from until) }
{
    let mut packets = Vec::new(alloc);
    for number in from as u64..until as u64 + 1 {
        match record_at(head, recs, number) {
            Some(r) => packets.push(packet(alloc, number as u32, r)?)?,
            None => return Ok(packets),
        }
    }
    Ok(packets)
}
