//! The account to debit.

ghost use Rattle.std.specs.Prelude.{◌≡◌, IfOk, IsTrue};
ghost use Rattle.routing.specs.Accounts.{fits_at};
ghost use Rattle.routing.specs.Lent.{cover_lent};
ghost use Rattle.routing.specs.Route.{cover_of_bank, debit_of, is_bank, relation_of};

use crate::codes::{P31, P32, P35};
use crate::ledger::{Wanted, account_with, named};
use crate::lent::LentCover;
use corr_ids::Bic;
use corr_money::Amount;
use corr_text::Code;
use day_model::{Accounts, AcctNo, Kind};

fn is_bank(a: &Bic, b: &Bic) -> bool
    ensures { result ≡ is_bank a.now b.now }
{
    a.head == b.head
}

fn relation(sender: &Bic, amount: &Amount, a: &Accounts) -> Result<AcctNo, Code>
    ensures value { result ≡ relation_of sender.now amount.now a.now }
    ensures fits { IfOk result (λ n. IsTrue (fits_at a.now amount.now n)) }
{
    if let Some(vostro) = account_with(Kind::Vostro, sender, amount, a) {
        return Ok(vostro);
    }
    account_with(Kind::Nostro, sender, amount, a).ok_or(P31)
}

fn over_bank(bank: &Bic, sender: &Bic, amount: &Amount, a: &Accounts) -> Result<AcctNo, Code>
    ensures value { result ≡ cover_of_bank bank.now sender.now amount.now a.now }
    ensures fits { IfOk result (λ n. IsTrue (fits_at a.now amount.now n)) }
{
    if is_bank(bank, sender) || is_bank(bank, a.home()) {
        return relation(sender, amount, a);
    }
    account_with(Kind::Nostro, bank, amount, a).ok_or(P32)
}

/// The account to debit, or why there is none: P31, P32 or P35.
pub fn debit_side(
    sender: &Bic,
    amount: &Amount,
    cover: LentCover<'_>,
    a: &Accounts,
) -> Result<AcctNo, Code>
    ensures value { result ≡ debit_of sender.now amount.now (cover_lent cover.entry) a.now }
    ensures fits { IfOk result (λ n. IsTrue (fits_at a.now amount.now n)) }
{
    match cover {
        LentCover::Relation => relation(sender, amount, a),
        LentCover::Bank(bank) => over_bank(bank, sender, amount, a),
        LentCover::Account(id) => named(id, &Wanted::Relation(*sender), amount, a).ok_or(P32),
        LentCover::NoBic => Err(P35),
    }
}
