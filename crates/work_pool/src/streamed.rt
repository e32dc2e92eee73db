//! What workers leave of a feed.

use crate::desk::Desk;
use corr_text::Memory;

/// What became of passes and a feed: the passes in their order, the feed, and one reply a job in the order of the feed.
#[derive(Drop)]
pub struct Streamed<K: Desk, F: Drop> {
    /// As the serves left them.
    pub passes: Vec<K::Pass>,

    /// As the last call of `next` left it.
    pub feed: F,

    /// `Memory`: jobs may have been served before.
    pub replies: Result<Vec<K::Reply>, Memory>,
}
