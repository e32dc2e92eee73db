//! What may happen to a leader, its packets and a follower.

use corr_text::Text;

/// An event.
///
/// - `Add`: the leader acknowledges a record.
/// - `Send`: the packet of its record with this number, from 1, is sent.
/// - `Deliver`: the packet with this place, from 1, among those that were ever sent reaches the follower. It may come again.
/// - `Reopen`: the follower stops, and opens again with its first so many records.
#[derive(Debug, Drop)]
pub enum WorldEvent {
    Add(Text),
    Send(u32),
    Deliver(u32),
    Reopen(u32),
}
