//! The places of the fields in their order.

/// 20.
pub const REFERENCE: usize = 0;

/// 21.
pub const RELATED: usize = 1;

/// 13C.
pub const TIMES: usize = 2;

/// 32A.
pub const VALUE: usize = 3;

/// 52a of sequence A.
pub const A_ORDERING: usize = 4;

/// 53a.
pub const A_SENDERS_BANK: usize = 5;

/// 54a.
pub const A_RECEIVERS_BANK: usize = 6;

/// 56a of sequence A.
pub const A_INTERMEDIARY: usize = 7;

/// 57a of sequence A.
pub const A_ACCOUNT_BANK: usize = 8;

/// 58a.
pub const BENEFICIARY: usize = 9;

/// 72 of sequence A.
pub const A_NOTES: usize = 10;

/// 50a.
pub const PAYER: usize = 11;

/// 52a of sequence B.
pub const B_ORDERING: usize = 12;

/// 56a of sequence B.
pub const B_INTERMEDIARY: usize = 13;

/// 57a of sequence B.
pub const B_ACCOUNT_BANK: usize = 14;

/// 59a.
pub const PAYEE: usize = 15;

/// 70.
pub const INFO: usize = 16;

/// 72 of sequence B.
pub const B_NOTES: usize = 17;

/// 33B.
pub const ORDERED: usize = 18;
