//! The codes with which shared contents are refused. Those that begin with `P` are this program's own, the others the
//! handbook's (docs/messages.md, "All codes").

use corr_text::Code;

/// More decimals than the currency has.
pub const C03: Code = Code(*b"C03");

/// A precious metal in field 32A.
pub const C08: Code = Code(*b"C08");

/// A BIC whose head is not in the table of banks.
pub const P25: Code = Code(*b"P25");

/// A zero amount in field 32A.
pub const P26: Code = Code(*b"P26");

/// An amount that is not below 10^14 minor units.
pub const P27: Code = Code(*b"P27");

/// A reference that begins or ends with a slash or has two slashes in a row.
pub const T26: Code = Code(*b"T26");

/// A number that is not digits with exactly one comma and a digit before it.
pub const T40: Code = Code(*b"T40");

/// An amount of more than 15 characters, or a rate of more than 12.
pub const T43: Code = Code(*b"T43");

/// A date that no calendar has.
pub const T50: Code = Code(*b"T50");

/// A currency that is not in the table of currencies.
pub const T52: Code = Code(*b"T52");
