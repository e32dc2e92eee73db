//! The summary of a history: how much there is of it, and where its accounts stand.

ghost use Rattle.std.specs.Prelude.{◌≡◌, ◌≤◌, ◌++◌, IfOk, OnOk};
ghost use Rattle.corr_money.specs.Amounts.{most_decimals};
ghost use Rattle.day_model.specs.Legal.{IsLegal};
ghost use Rattle.corr_report.specs.Summary.{balance_line, balances_of, summary_of};

use crate::replies::put_counts;
use crate::totals::put_totals;
use crate::words::{put_balance, put_word};
use corr_text::{Memory, Text};
use day_model::{Account, Accounts, AcctNo, History, balance};
use std::alloc::Global;

fn put_line(alloc: Global, account: &Account, balance: i64, out: &mut Text) -> Result<(), Memory>
    requires { account.now.decimals ≤ most_decimals }
    ensures { OnOk result (out.new ≡ out.old ++ balance_line balance account.now) }
{
    out.push(b"BALANCE")?;
    put_word(account.id.bytes(), out)?;
    put_balance(alloc, balance, account.decimals, out)?;
    out.push(b"\n")
}

fn put_balances(alloc: Global, a: &Accounts, h: &History, out: &mut Text) -> Result<(), Memory>
    requires { IsLegal a.now h.now.entries }
    ensures { OnOk result (out.new ≡ out.old ++ balances_of a.now h.now.entries) }
{
    for n in 1..a.count() + 1 {
        put_line(alloc, a.get(AcctNo(n)), balance(a, h, AcctNo(n)), out)?;
    }
    Ok(())
}

/// The summary of a history each of whose entries came of one message: the counts of messages and entries, the debits
/// and credits of each currency, as in a report, and a line for each account with its balance (docs/operating.md, "A trial").
///
/// The history is legal for the accounts. `Memory`: there was no room for the text.
pub fn summary(alloc: Global, a: &Accounts, h: &History) -> Result<Text, Memory>
    requires { IsLegal a.now h.now.entries }
    ensures { IfOk result (λ text. text ≡ summary_of a.now h.now.entries) }
{
    let mut out = Text::from_bytes(alloc, b"")?;
    put_counts(alloc, h.len() as u64, h.len() as u64, &mut out)?;
    put_totals(alloc, a, h, &mut out)?;
    put_balances(alloc, a, h, &mut out)?;
    Ok(out)
}
