//! Received or sent.

/// Which way a message goes.
#[derive(Clone, Copy, Debug, PartialEq, Eq)]
pub enum Direction {
    /// To the home bank: block 2 is of output form and names the sender.
    Received,
    /// From the home bank: block 2 is of input form and names the receiver.
    Sent,
}
