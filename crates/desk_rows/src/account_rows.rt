//! The accounts and their balances.

ghost use Rattle.std.specs.Prelude.{◌≡◌, ◌≤◌, ◌++◌, ◌∷◌, IfOk, OnOk, pos, ◌+ℤ◌, ◌-ℤ◌};
ghost use Rattle.corr_ids.specs.Bic.{bic_text};
ghost use Rattle.corr_money.specs.Amounts.{most_decimals};
ghost use Rattle.day_model.specs.Chart.{IsSmall};
ghost use Rattle.day_model.specs.Legal.{IsLegal};
ghost use Rattle.desk_rows.specs.Balances.{account_cells, account_row, balance_rows, limit_cells, name_cells, total_cells};
ghost use Rattle.desk_rows.specs.Until.{entries_until};

use crate::cells::{put_cell, put_signed, put_total};
use crate::until::totals_until;
use corr_ids::{Bic, Day, put_bic};
use corr_text::{Memory, Text};
use day_model::{Account, Accounts, AcctNo, History, balance_with};
use std::alloc::Global;

/// The names of the columns.
const HEADER: &[u8] = b"id,kind,owner,currency,floor,ceiling,opening,debits,credits,balance\r\n";

/// Adds a comma and a bank.
fn put_owner(owner: &Bic, out: &mut Text) -> Result<(), Memory>
    ensures { OnOk result (out.new ≡ out.old ++ 44 ∷ bic_text owner.now) }
{
    out.push(b",")?;
    put_bic(owner, out)
}

/// Adds the id, the kind, the owner and the currency of an account.
fn put_names(account: &Account, out: &mut Text) -> Result<(), Memory>
    ensures { OnOk result (out.new ≡ out.old ++ name_cells account.now) }
{
    out.push(account.id.bytes())?;
    put_cell(&[account.kind], out)?;
    put_owner(&account.owner, out)?;
    put_cell(&account.ccy.0, out)
}

/// Adds the floor, the ceiling and the opening of an account.
fn put_limits(account: &Account, out: &mut Text) -> Result<(), Memory>
    requires { account.now.decimals ≤ most_decimals }
    ensures { OnOk result (out.new ≡ out.old ++ limit_cells account.now) }
{
    put_signed(account.floor, account.decimals, out)?;
    put_signed(account.ceil, account.decimals, out)?;
    put_signed(account.opening, account.decimals, out)
}

/// Adds the columns of an account as the table of accounts has them.
fn put_account(account: &Account, out: &mut Text) -> Result<(), Memory>
    requires { account.now.decimals ≤ most_decimals }
    ensures { OnOk result (out.new ≡ out.old ++ account_cells account.now) }
{
    put_names(account, out)?;
    put_limits(account, out)
}

/// Adds what an account's debits and credits sum to, and its balance.
fn put_totals(
    debits: u64,
    credits: u64,
    balance: i64,
    decimals: u8,
    out: &mut Text,
) -> Result<(), Memory>
    requires { decimals ≤ most_decimals }
    ensures { OnOk result (out.new ≡ out.old ++ total_cells decimals debits credits balance) }
{
    put_total(debits, decimals, out)?;
    put_total(credits, decimals, out)?;
    put_signed(balance, decimals, out)?;
    out.push(b"\r\n")
}

/// Adds the row of an account with these credits and debits.
fn put_row(account: &Account, totals: (u64, u64), out: &mut Text) -> Result<(), Memory>
    requires decimals { account.now.decimals ≤ most_decimals }
    requires small { IsSmall ((account.now.opening +ℤ pos totals.0) -ℤ pos totals.1) }
    ensures { OnOk result (out.new ≡ out.old ++ account_row account.now totals.1 totals.0 ((account.now.opening +ℤ pos totals.0) -ℤ pos totals.1)) }
{
    put_account(account, out)?;
    put_totals(
        totals.1,
        totals.0,
        balance_with(account, totals),
        account.decimals,
        out,
    )
}

/// The accounts with their limits, their opening balances, what was debited and credited, and their balances, after all entries, or
/// after those up to a day: a header, and a row for each account in the order of their numbers (docs/operating.md, "Balances").
///
/// The history is legal for the accounts. `Memory`: there was no room for the text.
pub fn balances(
    alloc: Global,
    a: &Accounts,
    h: &History,
    until: Option<Day>,
) -> Result<Text, Memory>
    requires { IsLegal a.now h.now.entries }
    ensures { IfOk result (λ text. text ≡ balance_rows a.now (entries_until until h.now.entries)) }
{
    let totals = totals_until(alloc, a, h, until)?;
    let mut out = Text::from_bytes(alloc, HEADER)?;
    for n in 1..a.count() + 1 {
        put_row(a.get(AcctNo(n)), totals[n as usize - 1], &mut out)?;
    }
    Ok(out)
}
