//! The places of the fields in their orders.

/// 20.
pub const REFERENCE: usize = 0;

/// 21.
pub const RELATED: usize = 1;

/// 25.
pub const ACCOUNT: usize = 2;

/// 13D.
pub const STAMP: usize = 3;

/// 32A.
pub const VALUE: usize = 4;

/// 52a in an MT900.
pub const ORDERING_900: usize = 5;

/// 72 in an MT900.
pub const NOTES_900: usize = 6;

/// 50a in an MT910.
pub const PAYER: usize = 5;

/// 52a in an MT910.
pub const ORDERING_910: usize = 6;

/// 56a in an MT910.
pub const INTERMEDIARY: usize = 7;

/// 72 in an MT910.
pub const NOTES_910: usize = 8;
