//! Kinds of accounts.

ghost use Rattle.std.specs.Prelude.{◌≡◌};
ghost use Rattle.day_model.specs.Chart.{kind_letter};

/// Whose account it is: a customer's, a bank's with the home bank (vostro), the home bank's with a bank (nostro), or the
/// home bank's own, which takes charges.
#[derive(Clone, Copy, Debug, PartialEq, Eq)]
pub enum Kind {
    Customer,
    Vostro,
    Nostro,
    Fee,
}

impl Kind {
    /// The letter of the kind, as the field `kind` of an account has it: `C`, `V`, `N` or `F`.
    pub fn letter(self) -> u8
        ensures { result ≡ kind_letter self }
    {
        match self {
            Kind::Customer => b'C',
            Kind::Vostro => b'V',
            Kind::Nostro => b'N',
            Kind::Fee => b'F',
        }
    }
}
