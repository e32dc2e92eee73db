//! The codes of the rules of an MT202 COV, as the SWIFT User Handbook names them.

use corr_text::Code;

/// 56a of sequence B without 57a of sequence B.
pub const C68: Code = Code(*b"C68");

/// 56a of sequence A without 57a of sequence A.
pub const C81: Code = Code(*b"C81");
