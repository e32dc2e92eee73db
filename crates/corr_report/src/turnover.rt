//! What the booked entries move in a currency.

ghost use Rattle.std.specs.Prelude.{◌≡◌, ◌<◌, ◌≤◌, ◌^◌, length, if◌then◌else◌};
ghost use Rattle.day_model.specs.Chart.{accounts_of, is_same_ccy};
ghost use Rattle.corr_report.specs.inner.Totals.{part_at, part_of, sum_over};

use corr_money::Ccy;
use day_model::{Account, Accounts, AcctNo, Side};

fn part(side: Side, pair: (u64, u64)) -> u64
    ensures { result ≡ part_of side pair }
{
    match side {
        Side::Credit => pair.0,
        Side::Debit => pair.1,
    }
}

fn part_of_account(side: Side, pairs: &[(u64, u64)], n: u32) -> u64
    requires from_one { 1 ≤ n }
    requires there { n ≤ length pairs.now }
    ensures { result ≡ part_at side pairs.now n }
{
    let pair = &pairs[n as usize - 1];
    part(side, *pair)
}

fn beside(account: &Account, ccy: Ccy, sum: u64) -> u64
    ensures { result ≡ (if is_same_ccy account.now.ccy ccy then sum else 0) }
{
    if account.ccy == ccy { sum } else { 0 }
}

/// The sum of one side of the accounts of a currency.
pub(crate) fn sum_of(a: &Accounts, ccy: Ccy, side: Side, pairs: &[(u64, u64)]) -> u64
    requires long { length pairs.now ≡ length (accounts_of a.now) }
    requires fits { sum_over (part_at side pairs.now) ccy 1 (accounts_of a.now) < 2 ^ 64 }
    ensures { result ≡ sum_over (part_at side pairs.now) ccy 1 (accounts_of a.now) }
{
    let mut sum = 0;
    for n in 1..a.count() + 1 {
        sum += beside(a.get(AcctNo(n)), ccy, part_of_account(side, pairs, n));
    }
    sum
}
