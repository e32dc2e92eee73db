//! The accounts of a pay, in rising order.

ghost use Rattle.std.specs.Prelude.{◌≡◌, ◌≤◌, [], ◌∷◌, length, None};
ghost use Rattle.day_model.specs.Fit.{FitsAccounts};
ghost use Rattle.corr_books.specs.inner.Numbers.{AreRising, inserted, numbers_of, sorted_accounts};

use day_model::{Accounts, AcctNo, Leg, Pay};

/// Two accounts or three, in rising order.
#[derive(Clone, Copy, Drop)]
pub(crate) struct TwoOrThree {
    pub(crate) low: AcctNo,
    pub(crate) next: AcctNo,
    pub(crate) last: Option<AcctNo>,
}

fn two(one: AcctNo, other: AcctNo) -> TwoOrThree
    ensures none { result.last ≡ None }
    ensures sorted { numbers_of result ≡ inserted one.0 (other.0 ∷ []) }
{
    let (low, next) = if one.0 < other.0 {
        (one, other)
    } else {
        (other, one)
    };
    TwoOrThree {
        low,
        next,
        last: None,
    }
}

fn with_third(n: AcctNo, two: TwoOrThree) -> TwoOrThree
    requires { two.last ≡ None }
    ensures { numbers_of result ≡ inserted n.0 (numbers_of two) }
{
    let TwoOrThree { low, next, .. } = two;
    let (low, next, last) = if n.0 < low.0 {
        (n, low, next)
    } else if n.0 < next.0 {
        (low, n, next)
    } else {
        (low, next, n)
    };
    TwoOrThree {
        low,
        next,
        last: Some(last),
    }
}

fn sorted(legs: &[Leg]) -> TwoOrThree
    requires { (2 ≤ length legs.now) × (length legs.now ≤ 3) }
    ensures { numbers_of result ≡ sorted_accounts legs.now }
{
    match legs {
        [first, second] => two(first.account, second.account),
        [first, second, third] => with_third(first.account, two(second.account, third.account)),
        _ => unreachable!(),
    }
}

/// The accounts of a pay's legs, the lowest number first.
pub(crate) fn rising(a: &Accounts, p: &Pay) -> TwoOrThree
    requires { FitsAccounts a.now p.now }
    ensures { AreRising a.now p.now.legs (numbers_of result) }
{
    sorted(p.legs.as_slice())
}
