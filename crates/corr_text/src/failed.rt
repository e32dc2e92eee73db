//! The failure of a device.

/// A source, a sink or a disk could not do what was asked; its count of faults says that it was so.
#[derive(Clone, Copy, Debug, PartialEq, Eq)]
pub struct Failed;
