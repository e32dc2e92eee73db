//! The codes of the tests of a whole message, which are this program's own (docs/messages.md, "All codes").

use corr_text::Code;

/// Block 2 is not of the form of a message that goes this way.
pub const P07: Code = Code(*b"P07");
/// Block 1 is not the home bank's, by the first eight characters.
pub const P08: Code = Code(*b"P08");
/// A test and training message: trailer TNG.
pub const P09: Code = Code(*b"P09");
/// A possible duplicate: trailer PDE.
pub const P10: Code = Code(*b"P10");
/// Another type than 103, 202, 900, 910 and 950.
pub const P11: Code = Code(*b"P11");
/// The other bank, the sender or of a sent message the receiver, is not in the table of banks.
pub const P12: Code = Code(*b"P12");
/// Field 119 of block 3 is not as the type wants it: none in 103, `COV` in 202.
pub const P13: Code = Code(*b"P13");
/// A line of block 4 that neither begins a field nor may continue one.
pub const P20: Code = Code(*b"P20");
/// A field with a character outside X.
pub const P21: Code = Code(*b"P21");
