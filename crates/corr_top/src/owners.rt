//! Whose accounts' statements are printed.

ghost use Rattle.std.specs.Prelude.{◌≡◌};
ghost use Rattle.corr_top.specs.Statements.{kind_of};

use day_model::Kind;

/// The owners of accounts of a kind, who are sent statements of them.
#[derive(Clone, Copy)]
pub enum Owners {
    /// The banks that have vostro accounts: they are sent MT950 messages.
    Banks,
    /// The home bank's customers: theirs are MT940 messages, with notes of what was paid.
    Customers,
}

impl Owners {
    /// The letter of the kind of their accounts.
    pub fn letter(self) -> u8
        ensures { result ≡ kind_of self }
    {
        match self {
            Owners::Banks => Kind::Vostro.letter(),
            Owners::Customers => Kind::Customer.letter(),
        }
    }
}
