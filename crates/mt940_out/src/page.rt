//! A page of a customer's statement.

use corr_text::{List, Text};
use mt950::Page950;

/// A page of the statement of a customer's account.
#[derive(Debug, Drop)]
pub struct Page940 {
    /// What the fields without 86 say.
    pub page: Page950,
    /// Of each line, in their order, the lines of the 86 behind it; none where there is no 86.
    pub notes: List<List<Text>>,
}
