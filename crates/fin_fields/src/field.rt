//! A field of block 4.

use corr_text::{List, Text};

/// A field: its number, its letter if it has one, and its lines, the first of which stands after `:20:` or `:50K:`.
///
/// Example: `:59:/CUST1` and `A PAYEE` are tag 59, no letter, and these two lines, `/CUST1` and `A PAYEE`.
#[derive(Debug, Drop)]
pub struct Field {
    pub tag: u8,
    pub letter: Option<u8>,
    pub lines: List<Text>,
}
