//! The totals of a history, currency by currency.

ghost use Rattle.std.specs.Prelude.{◌≡◌, ◌≤◌, ◌++◌, OnOk};
ghost use Rattle.corr_money.specs.Amounts.{most_decimals};
ghost use Rattle.day_model.specs.Legal.{IsLegal};
ghost use Rattle.corr_report.specs.Totals.{total_line, total_lines};

use crate::currency::{Currency, currencies};
use crate::turnover::sum_of;
use crate::words::{put_sum, put_word};
use corr_text::{Memory, Text};
use day_model::{Accounts, History, Side, totals};
use std::alloc::Global;

fn put_line(
    alloc: Global,
    unit: Currency,
    debits: u64,
    credits: u64,
    out: &mut Text,
) -> Result<(), Memory>
    requires { unit.decimals ≤ most_decimals }
    ensures { OnOk result (out.new ≡ out.old ++ total_line unit debits credits) }
{
    out.push(b"TOTAL")?;
    put_word(&unit.ccy.0, out)?;
    put_word(b"DEBIT", out)?;
    put_sum(alloc, debits, unit.decimals, out)?;
    put_word(b"CREDIT", out)?;
    put_sum(alloc, credits, unit.decimals, out)?;
    out.push(b"\n")
}

/// Adds the totals over the booked entries, a line for each currency of the accounts, in byte order.
pub(crate) fn put_totals(
    alloc: Global,
    a: &Accounts,
    h: &History,
    out: &mut Text,
) -> Result<(), Memory>
    requires { IsLegal a.now h.now.entries }
    ensures { OnOk result (out.new ≡ out.old ++ total_lines a.now h.now.entries) }
{
    let pairs = totals(alloc, a, h)?;
    let units = currencies(alloc, a)?;
    for unit in units.as_slice() {
        let debits = sum_of(a, unit.ccy, Side::Debit, pairs.as_slice());
        let credits = sum_of(a, unit.ccy, Side::Credit, pairs.as_slice());
        put_line(alloc, *unit, debits, credits, out)?;
    }
    Ok(())
}
