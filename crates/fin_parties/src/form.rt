//! The grammars of party fields.

ghost use Rattle.std.specs.Prelude.{◌≡◌};
ghost use Rattle.fin_parties.specs.Party.{form_of};

/// A grammar, named by whom the field tells of and by its letter.
#[derive(Clone, Copy)]
pub enum Form {
    /// 52A to 58A: an institution by its BIC.
    BankA,
    /// 53B, 54B, 55B, 57B: an institution by a party line, a place or both.
    BankB,
    /// 56C, 57C: an institution by an account.
    BankC,
    /// 52D to 58D: an institution by name and address.
    BankD,
    /// 50A, 59A: a customer by a BIC.
    CustomerA,
    /// 50K, 59: a customer by name and address.
    CustomerK,
    /// 50F: the payer by numbered lines.
    PayerF,
    /// 59F: the payee by numbered lines.
    PayeeF,
}

/// What stands after an optional first line.
#[derive(Clone, Copy)]
pub enum Listing {
    /// 52D to 58D: the name and address of an institution.
    Institution,
    /// 50K, 59: the name and address of a customer.
    Customer,
    /// 59F: a payee's numbered lines.
    Payee,
}

/// The grammar of a tag and a letter, none where a party has no such field.
#[tactic(auto, unfolding(crate::specs::Party::form_of))]
pub fn form_of(tag: u8, letter: Option<u8>) -> Option<Form>
    ensures { result ≡ form_of tag letter }
{
    match letter {
        Some(b'A') => match tag {
            52..=58 => Some(Form::BankA),
            50 | 59 => Some(Form::CustomerA),
            _ => None,
        },
        Some(b'B') if matches!(tag, 53 | 54 | 55 | 57) => Some(Form::BankB),
        Some(b'C') if matches!(tag, 56 | 57) => Some(Form::BankC),
        Some(b'D') if matches!(tag, 52..=58) => Some(Form::BankD),
        Some(b'F') => match tag {
            50 => Some(Form::PayerF),
            59 => Some(Form::PayeeF),
            _ => None,
        },
        Some(b'K') if tag == 50 => Some(Form::CustomerK),
        None if tag == 59 => Some(Form::CustomerK),
        _ => None,
    }
}
