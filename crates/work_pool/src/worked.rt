//! What workers leave.

use crate::desk::Desk;
use corr_text::Memory;

/// What became of passes and jobs: the passes in their order, and one reply a job in the order of the jobs.
#[derive(Drop)]
pub struct Worked<K: Desk> {
    /// As the serves left them.
    pub passes: Vec<K::Pass>,

    /// `Memory`: no job was served.
    pub replies: Result<Vec<K::Reply>, Memory>,
}
