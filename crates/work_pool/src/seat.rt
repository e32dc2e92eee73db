//! Where a worker sits.

use crate::hand::Hand;

/// A worker's number (from 1), its pass, and its jobs.
#[derive(Drop)]
pub struct Seat<P, J, R> {
    pub worker: u32,
    pub pass: P,
    pub hand: Hand<J, R>,
}
