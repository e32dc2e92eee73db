//! The places of the fields in their order.

/// 20.
pub const REFERENCE: usize = 0;

/// 13C.
pub const TIMES: usize = 1;

/// 23B.
pub const OPERATION: usize = 2;

/// 23E.
pub const INSTRUCTIONS: usize = 3;

/// 26T.
pub const KIND: usize = 4;

/// 32A.
pub const VALUE: usize = 5;

/// 33B.
pub const ORDERED: usize = 6;

/// 36.
pub const RATE: usize = 7;

/// 50a.
pub const PAYER: usize = 8;

/// 52a.
pub const ORDERING: usize = 9;

/// 53a.
pub const SENDERS_BANK: usize = 10;

/// 54a.
pub const RECEIVERS_BANK: usize = 11;

/// 55a.
pub const THIRD_BANK: usize = 12;

/// 56a.
pub const INTERMEDIARY: usize = 13;

/// 57a.
pub const ACCOUNT_BANK: usize = 14;

/// 59a.
pub const PAYEE: usize = 15;

/// 70.
pub const INFO: usize = 16;

/// 71A.
pub const CHARGE: usize = 17;

/// 71F.
pub const TAKEN: usize = 18;

/// 71G.
pub const GIVEN: usize = 19;

/// 72.
pub const NOTES: usize = 20;

/// 77B.
pub const REGULATORY: usize = 21;
