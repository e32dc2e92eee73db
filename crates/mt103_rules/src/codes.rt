//! The codes of the rules of an MT103, as the SWIFT User Handbook names them.

use corr_text::Code;

/// 71G in another currency than 32A.
pub const C02: Code = Code(*b"C02");

/// 56a without 57a.
pub const C81: Code = Code(*b"C81");

/// No 33B between two listed countries.
pub const D49: Code = Code(*b"D49");

/// SHA with 71G.
pub const D50: Code = Code(*b"D50");

/// 71F or 71G without 33B.
pub const D51: Code = Code(*b"D51");

/// 36 missing where 33B has another currency than 32A, or there in any other case.
pub const D75: Code = Code(*b"D75");

/// SPRI with a 23E other than SDVA, TELB, PHOB and INTC.
pub const E01: Code = Code(*b"E01");

/// SSTD or SPAY with a 23E.
pub const E02: Code = Code(*b"E02");

/// A service level with 53D.
pub const E03: Code = Code(*b"E03");

/// A service level with 53B without a party line.
pub const E04: Code = Code(*b"E04");

/// A service level with 54a of another option than A.
pub const E05: Code = Code(*b"E05");

/// 55a without 53a or without 54a.
pub const E06: Code = Code(*b"E06");

/// A service level with 55a of another option than A.
pub const E07: Code = Code(*b"E07");

/// A service level with 57B, or with 57D without a party line.
pub const E09: Code = Code(*b"E09");

/// A service level with 59a without an account.
pub const E10: Code = Code(*b"E10");

/// OUR with 71F.
pub const E13: Code = Code(*b"E13");

/// BEN without 71F, or with 71G.
pub const E15: Code = Code(*b"E15");

/// SPRI with 56a.
pub const E16: Code = Code(*b"E16");

/// SSTD or SPAY with 56D, or with 56C without a clearing code.
pub const E17: Code = Code(*b"E17");

/// 23E CHQB with an account in 59a.
pub const E18: Code = Code(*b"E18");

/// 23E TELI or PHOI without 56a.
pub const E44: Code = Code(*b"E44");

/// 23E TELE or PHON without 57a.
pub const E45: Code = Code(*b"E45");
