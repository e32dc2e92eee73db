//! Entries of the journal.

use crate::pay::Pay;
use corr_ids::Day;

/// Whether a pay was booked, or which leg (from 1) its account could not take, with that account's balance before it, in
/// minor units.
#[derive(Clone, Copy, Debug, PartialEq, Eq)]
pub enum Outcome {
    Booked,
    Unfunded { leg: u8, balance: i64 },
}

/// A pay with the day on which it was entered and its outcome.
#[derive(Debug, Drop)]
pub struct Entry {
    pub pay: Pay,
    pub day: Day,
    pub outcome: Outcome,
}
