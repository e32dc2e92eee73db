//! Codes of refusals, and the faults that carry them.

/// A code of three characters, as `E15` or `P41`: those that begin with `P` are this program's own, the others the handbook's
/// (docs/messages.md, "All codes").
#[derive(Clone, Copy, Debug, PartialEq, Eq)]
pub struct Code(pub [u8; 3]);

/// What is wrong with a message: the code, the tag that it is told of, and which of that tag it is.
///
/// `nth` counts from 1. It is 0 for what is missing and for a block (`B1` to `B5`); with P20 it is the line of block 4, or 0
/// where there is none. A tag of two characters has a space as its third byte.
#[derive(Clone, Copy, Debug, PartialEq, Eq)]
pub struct Fault {
    pub code: Code,
    pub tag: [u8; 3],
    pub nth: u16,
}
