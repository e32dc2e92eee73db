//! For whom a payment is.

use corr_ids::Bic;
use corr_text::Text;

/// For whom a payment is, as its fields 56a, 57a, 58a and 59a say.
#[derive(Debug, Drop)]
pub enum Target {
    /// A customer of the home bank, with the account that 59a names, if it names one.
    Customer { account: Option<Text> },
    /// Another bank, named by field 56, 57 or 58.
    Bank { bic: Bic, field: u8 },
    /// A bank that is named without a BIC.
    NoBic,
}
