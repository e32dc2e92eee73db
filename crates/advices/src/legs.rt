//! The legs of a pay, with their accounts.

ghost use Rattle.std.specs.Prelude.{◌≡◌, ◌-◌, IfSome, Some, length, slice_get};
ghost use Rattle.day_model.specs.Chart.{IsChart, IsFormed};
ghost use Rattle.day_model.specs.Fit.{FitsAccounts};
ghost use Rattle.day_model.specs.Shape.{IsNumbered};
ghost use Rattle.advices.specs.Legs.{charge_of, debited_amount, leg_account, leg_amount};
ghost use Rattle.advices.specs.inner.Spelled.{IsWritableAmount};

use corr_money::{Amount, Minor};
use day_model::{Account, Accounts, Kind, Leg, Pay, Side, legs_sum};

fn leg_at(legs: &[Leg], n: u8) -> &Leg
    requires { IsNumbered (length legs.now) n }
    ensures { slice_get legs.now (n - 1) ≡ Some result.now }
{
    &legs[n as usize - 1]
}

/// The account of leg `n`, from 1.
pub fn leg_account<'a>(a: &'a Accounts, pay: &Pay, n: u8) -> &'a Account
    requires fits { FitsAccounts a.now pay.now }
    requires leg { IsNumbered (length pay.now.legs) n }
    ensures value { leg_account a.now pay.now n ≡ Some result.now }
    ensures formed { IsFormed result.now }
    ensures sound { IsChart a.now }
{
    a.get(leg_at(pay.legs.as_slice(), n).account)
}

/// The amount of leg `n`, from 1, in the currency of its account.
pub fn leg_amount(a: &Accounts, pay: &Pay, n: u8) -> Amount
    requires fits { FitsAccounts a.now pay.now }
    requires leg { IsNumbered (length pay.now.legs) n }
    ensures value { leg_amount a.now pay.now n ≡ Some result }
    ensures spelled { IsWritableAmount result }
    ensures sound { IsChart a.now }
{
    let account = leg_account(a, pay, n);
    Amount {
        ccy: account.ccy,
        minor: leg_at(pay.legs.as_slice(), n).amount,
        decimals: account.decimals,
    }
}

/// The sum of the debit legs, in the currency of the first leg's account.
pub fn debited_amount(a: &Accounts, pay: &Pay) -> Amount
    requires { FitsAccounts a.now pay.now }
    ensures value { debited_amount a.now pay.now ≡ Some result }
    ensures spelled { IsWritableAmount result }
    ensures sound { IsChart a.now }
{
    let account = leg_account(a, pay, 1);
    Amount {
        ccy: account.ccy,
        minor: Minor(legs_sum(Side::Debit, pay.legs.as_slice())),
        decimals: account.decimals,
    }
}

/// The amount of the second leg, the credit, which is sent on.
pub fn sent_amount(a: &Accounts, pay: &Pay) -> Amount
    requires { FitsAccounts a.now pay.now }
    ensures value { leg_amount a.now pay.now 2 ≡ Some result }
    ensures spelled { IsWritableAmount result }
    ensures sound { IsChart a.now }
{
    leg_amount(a, pay, 2)
}

/// The charge that a pay takes: the amount of a third leg on an account for charges, none where there is no such leg.
pub fn charge_of(a: &Accounts, pay: &Pay) -> Option<Amount>
    requires { FitsAccounts a.now pay.now }
    ensures value { result ≡ charge_of a.now pay.now }
    ensures spelled { IfSome result IsWritableAmount }
{
    if pay.legs.as_slice().len() < 3 || leg_account(a, pay, 3).kind != Kind::Fee.letter() {
        return None;
    }
    Some(leg_amount(a, pay, 3))
}
