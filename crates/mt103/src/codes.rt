//! The codes with which contents of an MT103 are refused: P28 is this program's own, the others are the handbook's
//! (docs/messages.md, "All codes").

use corr_text::Code;

/// A text with a code of 23E that takes none.
pub const D97: Code = Code(*b"D97");

/// A 23E whose code stands before an earlier one's in the list of codes.
pub const D98: Code = Code(*b"D98");

/// A 23E whose code came before.
pub const E46: Code = Code(*b"E46");

/// A code of 23E that is not in the list of codes.
pub const P28: Code = Code(*b"P28");

/// A 71A other than OUR, SHA and BEN.
pub const T08: Code = Code(*b"T08");

/// A 23B other than CRED, CRTS, SPAY, SPRI and SSTD.
pub const T36: Code = Code(*b"T36");
