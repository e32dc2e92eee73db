//! What the workers of a core may do.

use crate::account::AcctNo;
use crate::pay::Pay;

/// A step of one worker, or a fault. Workers are numbered from 1.
///
/// A worker draws a pay, takes its accounts one by one, the least first, commits it and gives its accounts back.
/// After a fault nothing is entered any more.
#[derive(Debug, Drop)]
pub enum Event {
    Draw { worker: u32, pay: Pay },
    Take { worker: u32, account: AcctNo },
    Commit { worker: u32 },
    GiveBack { worker: u32 },
    Fault,
}
