//! Openings that don't add up.

ghost use Rattle.std.specs.Prelude.{◌≡◌, List, IfOk};
ghost use Rattle.day_model.specs.Chart.{AreRows, opening_sum};
ghost use Rattle.day_model.specs.declared.account.Account.{Account};
ghost use Rattle.day_model.specs.Gap.{is_before};
ghost use Rattle.day_model.specs.inner.Gap.{AreOpeningSums, FirstGap, GapOf, earlier_of};

use crate::account::Account;
use corr_money::Ccy;
use corr_text::Memory;
use indexmap::IndexMap;
use std::alloc::Global;
use std::cmp::Ordering;

/// A currency whose openings don't sum to 0, its decimals and that sum.
#[derive(Clone, Copy, Debug)]
pub(crate) struct Gap {
    pub ccy: Ccy,
    pub decimals: u8,
    pub sum: i64,
}

/// The sum of each currency's openings: each opening is added once.
fn opening_sums(alloc: Global, rows: &[Account]) -> Result<IndexMap<[u8; 3], i64>, Memory>
    requires { AreRows rows.now }
    ensures { IfOk result (λ sums. AreOpeningSums sums.entries rows.now) }
{
    let mut sums = IndexMap::new(alloc);
    for row in rows {
        *sums.entry(row.ccy.0)?.or_insert(0) += row.opening;
    }
    Ok(sums)
}

fn gap_of(sums: &IndexMap<[u8; 3], i64>, row: &Account) -> Option<Gap>
    ensures { (rows : List Account) → AreOpeningSums sums.now.entries rows → GapOf rows row.now result }
{
    let sum = sums.get(&row.ccy.0).copied().unwrap_or(0);
    if sum == 0 {
        return None;
    }
    Some(Gap {
        ccy: row.ccy,
        decimals: row.decimals,
        sum,
    })
}

fn comes_before(c: Ccy, d: Ccy) -> bool
    ensures { result ≡ is_before c d }
{
    c.0.cmp(&d.0) == Ordering::Less
}

fn earlier(first: Option<Gap>, second: Option<Gap>) -> Option<Gap>
    ensures { result ≡ earlier_of first second }
{
    match (first, second) {
        (None, second) => second,
        (Some(gap), None) => Some(gap),
        (Some(gap), Some(other)) => {
            if comes_before(other.ccy, gap.ccy) {
                Some(other)
            } else {
                Some(gap)
            }
        }
    }
}

/// The first currency in byte order whose openings don't sum to 0.
pub(crate) fn first_gap(alloc: Global, rows: &[Account]) -> Result<Option<Gap>, Memory>
    requires { AreRows rows.now }
    ensures { IfOk result (FirstGap rows.now) }
{
    let sums = opening_sums(alloc, rows)?;
    let mut first = None;
    for row in rows {
        first = earlier(first, gap_of(&sums, row));
    }
    Ok(first)
}
