//! One packet.

ghost use Rattle.std.specs.Prelude.{◌≡◌, ◌≤◌, ℕ, List, take, IfNone, IfSome, length};
ghost use Rattle.std.specs.Int.{w32, from_be_bytes};
ghost use Rattle.standby.specs.Packets.{BeginsWithPacket, IsNoPacket, IsPacket};

use corr_text::Text;

/// A packet: the number of a record, from 1, and the record.
#[derive(Debug, Drop)]
pub struct Packet {
    pub number: u32,
    pub body: Text,
}

/// The number in the first four bytes.
fn number_in_front(bytes: &[u8]) -> u32
    requires { 4 ≤ length bytes.now }
    ensures { result ≡ from_be_bytes w32 (take 4 bytes.now) }
{
    let mut number = [0; 4];
    number.copy_from_slice(&bytes[..4]);
    u32::from_be_bytes(number)
}

/// The number and the record of the packet in front of these bytes, and the bytes after it. None exactly where no whole packet
/// stands in front: its number in four bytes, most significant first, its length in four, and as many bytes. Takes no memory.
pub fn first_packet(bytes: &[u8]) -> Option<(u32, &[u8], &[u8])>
    ensures found { IfSome result (λ p. BeginsWithPacket bytes.now p.0 p.1.now p.2.now) }
    ensures none { IfNone result ((number : ℕ) (r rest : List ℕ) → BeginsWithPacket bytes.now number r rest → ⊥) }
{
    if bytes.len() < 8 {
        return None;
    }
    let number = number_in_front(bytes);
    let size = number_in_front(&bytes[4..]) as usize;
    let after = &bytes[8..];
    if after.len() < size {
        return None;
    }
    Some((number, &after[..size], &after[size..]))
}

/// The number and the record of a packet, which these bytes are, all of them.
pub(crate) fn whole_packet(bytes: &[u8]) -> Option<(u32, &[u8])>
    ensures found { IfSome result (λ p. IsPacket bytes.now p.0 p.1.now) }
    ensures none { IfNone result (IsNoPacket bytes.now) }
{
    let (number, body, rest) = first_packet(bytes)?;
    if !rest.is_empty() {
        return None;
    }
    Some((number, body))
}
