//! The accounts that a payment may be booked on.

ghost use Rattle.std.specs.Prelude.{◌≡◌, IfSome, IsTrue, Some};
ghost use Rattle.day_model.specs.declared.account.Account.{Account};
ghost use Rattle.day_model.specs.Chart.{account_at, is_owned, kind_letter};
ghost use Rattle.routing.specs.Accounts.{account_with, fits_amount, fits_at, account_named, serves};

use corr_ids::Bic;
use corr_money::Amount;
use day_model::{Account, Accounts, AcctNo, Kind};

/// What an account that is named by its id has to be.
#[derive(Clone, Copy)]
pub enum Wanted {
    /// A customer's account.
    Customer,
    /// A vostro account of this bank or a nostro account with it.
    Relation(Bic),
    /// A vostro account of this bank.
    Vostro(Bic),
    /// A nostro account with this bank.
    Nostro(Bic),
}

fn fits(amount: &Amount, account: &Account) -> bool
    ensures { result ≡ fits_amount amount.now account.now }
{
    account.ccy == amount.ccy && account.decimals == amount.decimals
}

fn is_owned(kind: Kind, bank: &Bic, amount: &Amount, account: &Account) -> bool
    ensures { result ≡ is_owned (kind_letter kind) bank.now.head amount.now.ccy amount.now.decimals account.now }
{
    account.kind == kind.letter() && account.owner.head == bank.head && fits(amount, account)
}

fn serves(wanted: &Wanted, amount: &Amount, account: &Account) -> bool
    ensures { result ≡ serves wanted.now amount.now account.now }
{
    match wanted {
        Wanted::Customer => account.kind == Kind::Customer.letter() && fits(amount, account),
        Wanted::Relation(bank) => {
            is_owned(Kind::Vostro, bank, amount, account)
                || is_owned(Kind::Nostro, bank, amount, account)
        }
        Wanted::Vostro(bank) => is_owned(Kind::Vostro, bank, amount, account),
        Wanted::Nostro(bank) => is_owned(Kind::Nostro, bank, amount, account),
    }
}

/// The account of this kind that a bank owns, in the amount's currency and decimals; none where there is none. Takes no memory.
pub fn account_with(kind: Kind, bank: &Bic, amount: &Amount, a: &Accounts) -> Option<AcctNo>
    ensures value { result ≡ account_with (kind_letter kind) bank.now amount.now a.now }
    ensures fits { IfSome result (λ n. IsTrue (fits_at a.now amount.now n)) }
    ensures kind { IfSome result (λ n. (x : Account) → account_at a.now n.0 ≡ Some x → x.kind ≡ kind_letter kind) }
{
    a.owned(kind.letter(), &bank.head, amount.ccy, amount.decimals)
}

/// The account with this id, if it fits the amount and is what is wanted.
pub fn named(id: &[u8], wanted: &Wanted, amount: &Amount, a: &Accounts) -> Option<AcctNo>
    ensures value { result ≡ account_named id.now wanted.now amount.now a.now }
    ensures fits { IfSome result (λ n. IsTrue (fits_at a.now amount.now n)) }
{
    let n = a.find(id)?;
    if !serves(wanted, amount, a.get(n)) {
        return None;
    }
    Some(n)
}
