//! Currencies in byte order.

ghost use Rattle.std.specs.Prelude.{◌≡◌, ◌≤◌, [], IfOk, OnOk};
ghost use Rattle.std.specs.List.{All, list_any, position};
ghost use Rattle.corr_money.specs.Amounts.{most_decimals};
ghost use Rattle.day_model.specs.Chart.{accounts_of, is_same_ccy};
ghost use Rattle.corr_report.specs.Totals.{currencies_of, entered};
ghost use Rattle.day_model.specs.Gap.{is_before};

use corr_money::Ccy;
use corr_text::Memory;
use day_model::{Accounts, AcctNo};
use std::alloc::Global;

/// A currency and the number of its decimals.
#[derive(Clone, Copy, Debug, PartialEq, Eq)]
pub(crate) struct Currency {
    pub(crate) ccy: Ccy,
    pub(crate) decimals: u8,
}

fn is_earlier(ccy: Ccy, other: Ccy) -> bool
    ensures { result ≡ is_before ccy other }
{
    ccy.0.cmp(&other.0).is_lt()
}

fn is_among(ccy: Ccy, units: &[Currency]) -> bool
    ensures { result ≡ list_any (λ unit. is_same_ccy unit.ccy ccy) units.now }
{
    units.iter().any(|unit| unit.ccy == ccy)
}

fn first_greater(ccy: Ccy, units: &[Currency]) -> Option<usize>
    ensures { result ≡ position (λ unit. is_before ccy unit.ccy) units.now }
{
    units.iter().position(|unit| is_earlier(ccy, unit.ccy))
}

fn enter(new: Currency, units: &mut Vec<Currency>) -> Result<(), Memory>
    requires { new.decimals ≤ most_decimals }
    ensures value { OnOk result (units.new.items ≡ entered new units.old.items) }
    ensures decimals { All (λ unit. unit.decimals ≤ most_decimals) units.old.items → All (λ unit. unit.decimals ≤ most_decimals) units.new.items }
{
    if is_among(new.ccy, units.as_slice()) {
        return Ok(());
    }
    match first_greater(new.ccy, units.as_slice()) {
        Some(at) => units.insert(at, new)?,
        None => units.push(new)?,
    }
    Ok(())
}

/// The currencies of the accounts, each once, in byte order.
pub(crate) fn currencies(alloc: Global, a: &Accounts) -> Result<Vec<Currency>, Memory>
    ensures value { IfOk result (λ units. units.items ≡ currencies_of [] (accounts_of a.now)) }
    ensures decimals { IfOk result (λ units. All (λ unit. unit.decimals ≤ most_decimals) units.items) }
{
    let mut units = Vec::new(alloc);
    for n in 1..a.count() + 1 {
        let account = a.get(AcctNo(n));
        let unit = Currency {
            ccy: account.ccy,
            decimals: account.decimals,
        };
        enter(unit, &mut units)?;
    }
    Ok(units)
}
