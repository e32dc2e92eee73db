//! The places of the fields in their order.

/// 20.
pub const REFERENCE: usize = 0;

/// 25.
pub const ACCOUNT: usize = 1;

/// 28C.
pub const NUMBER: usize = 2;

/// 60a.
pub const OPENING: usize = 3;

/// 61.
pub const LINES: usize = 4;

/// 62a.
pub const CLOSING: usize = 5;

/// 64.
pub const AVAILABLE: usize = 6;
