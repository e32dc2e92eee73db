//! A cover and a target that stay where a message names them.

ghost use Rattle.std.specs.Prelude.{◌≡◌};
ghost use Rattle.routing.specs.Lent.{cover_lent, target_lent};

use crate::cover::Cover;
use crate::target::Target;
use corr_ids::Bic;

/// A `Cover` whose bank or account stays where it is.
#[derive(Clone, Copy)]
pub enum LentCover<'a> {
    /// By the account between the sender and the home bank.
    Relation,
    /// Over this bank.
    Bank(&'a Bic),
    /// By the account with this id.
    Account(&'a [u8]),
    /// Over a bank that is named without a BIC.
    NoBic,
}

/// A `Target` whose account or bank stays where it is.
#[derive(Clone, Copy)]
pub enum LentTarget<'a> {
    /// A customer of the home bank, with the account that 59a names, if it names one.
    Customer { account: Option<&'a [u8]> },
    /// Another bank, named by field 56, 57 or 58.
    Bank { bic: &'a Bic, field: u8 },
    /// A bank that is named without a BIC.
    NoBic,
}

/// The same cover, where it is.
pub fn lend_cover(cover: &Cover) -> LentCover<'_>
    ensures { cover_lent result ≡ cover.now }
{
    match cover {
        Cover::Relation => LentCover::Relation,
        Cover::Bank(bank) => LentCover::Bank(bank),
        Cover::Account(id) => LentCover::Account(id.bytes()),
        Cover::NoBic => LentCover::NoBic,
    }
}

/// The same target, where it is.
pub fn lend_target(target: &Target) -> LentTarget<'_>
    ensures { target_lent result ≡ target.now }
{
    match target {
        Target::Customer { account: Some(id) } => LentTarget::Customer {
            account: Some(id.bytes()),
        },
        Target::Customer { account: None } => LentTarget::Customer { account: None },
        Target::Bank { bic, field } => LentTarget::Bank { bic, field: *field },
        Target::NoBic => LentTarget::NoBic,
    }
}
