//! How the sender covers a payment.

use corr_ids::Bic;
use corr_text::Text;

/// By which account the sender covers a payment, as its fields 53a and 54a say.
#[derive(Debug, Drop)]
pub enum Cover {
    /// By the account between the sender and the home bank.
    Relation,
    /// Over this bank.
    Bank(Bic),
    /// By the account with this id.
    Account(Text),
    /// Over a bank that is named without a BIC.
    NoBic,
}
