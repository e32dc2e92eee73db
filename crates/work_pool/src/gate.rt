//! Gates: where a worker may be held.

use corr_ids::Mir;

/// Where a worker passes between its account locks and the journal. A test holds workers there.
pub trait Gate {
    /// Is called by the worker with this number, from 1, at the job with this message input reference. It may take its time.
    fn pass(&self, worker: u32, mir: &Mir);
}

/// The gate that does nothing.
#[derive(Clone, Copy, Debug, Drop)]
pub struct OpenGate;

impl Gate for OpenGate {
    fn pass(&self, _worker: u32, _mir: &Mir) {}
}
