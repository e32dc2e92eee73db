//! The accounts and their room.

ghost use Rattle.std.specs.Prelude.{◌≡◌, ◌≤◌, ◌++◌, IfOk, OnOk};
ghost use Rattle.std.specs.List.{flat_map, list_any};
ghost use Rattle.corr_money.specs.Amounts.{most_decimals};
ghost use Rattle.day_model.specs.Chart.{IsSmall, accounts_of, is_same_ccy};
ghost use Rattle.indexmap.specs.IndexSet.{insert_key};
ghost use Rattle.desk_page.specs.AccountTable.{account_if, account_line, account_lines, accounts_section, ccy_begin, ccy_table, ccys_of, limit_cells, owner_cells, room_cell, room_cells};
ghost use Rattle.desk_page.specs.inner.Books.{AreSound, chart_in, entries_in};

use crate::books::{Books, balance_in};
use crate::cells::{put_bank, put_bar, put_cell, put_money};
use crate::escape::put_escaped;
use crate::lacking::room_of;
use crate::mark::{Piece, mark};
use corr_money::Ccy;
use corr_text::{Memory, Text};
use day_model::{Account, Accounts, AcctNo, Side};
use std::alloc::Global;

/// Adds whose an account is.
#[tactic(auto, unfolding(crate::specs::AccountTable::owner_cells))]
fn put_owner(account: &Account, out: &mut Text) -> Result<(), Memory>
    ensures { OnOk result (out.new ≡ out.old ++ owner_cells account.now) }
{
    put_cell(account.id.bytes(), out)?;
    put_cell(&[account.kind], out)?;
    put_bank(&account.owner, out)
}

/// Adds an account's balance, its floor and its ceiling.
#[tactic(auto, unfolding(crate::specs::AccountTable::limit_cells))]
fn put_limits(alloc: Global, account: &Account, balance: i64, out: &mut Text) -> Result<(), Memory>
    requires { account.now.decimals ≤ most_decimals }
    ensures { OnOk result (out.new ≡ out.old ++ limit_cells account.now balance) }
{
    put_money(alloc, balance, account.decimals, out)?;
    put_money(alloc, account.floor, account.decimals, out)?;
    put_money(alloc, account.ceil, account.decimals, out)
}

/// Adds an account's room on a side.
fn put_room_on(
    alloc: Global,
    side: Side,
    account: &Account,
    balance: i64,
    out: &mut Text,
) -> Result<(), Memory>
    requires decimals { account.now.decimals ≤ most_decimals }
    requires balance { IsSmall balance }
    requires ends { IsSmall account.now.floor × IsSmall account.now.ceil }
    ensures { OnOk result (out.new ≡ out.old ++ room_cell side account.now balance) }
{
    let room = room_of(side, account, balance);
    put_money(alloc, room, account.decimals, out)
}

/// Adds an account's room to its floor and to its ceiling, and a bar of it.
#[tactic(auto, unfolding(crate::specs::AccountTable::room_cells))]
fn put_room(alloc: Global, account: &Account, balance: i64, out: &mut Text) -> Result<(), Memory>
    requires decimals { account.now.decimals ≤ most_decimals }
    requires balance { IsSmall balance }
    requires ends { IsSmall account.now.floor × IsSmall account.now.ceil }
    ensures { OnOk result (out.new ≡ out.old ++ room_cells account.now balance) }
{
    put_room_on(alloc, Side::Debit, account, balance, out)?;
    put_room_on(alloc, Side::Credit, account, balance, out)?;
    put_bar(account.floor, account.ceil, balance, out)
}

/// Adds the row of an account with a balance.
#[tactic(auto, unfolding(crate::specs::AccountTable::account_line))]
fn put_account(alloc: Global, account: &Account, balance: i64, out: &mut Text) -> Result<(), Memory>
    requires decimals { account.now.decimals ≤ most_decimals }
    requires balance { IsSmall balance }
    requires ends { IsSmall account.now.floor × IsSmall account.now.ceil }
    ensures { OnOk result (out.new ≡ out.old ++ account_line account.now balance) }
{
    out.push(mark(Piece::RowBegin))?;
    put_owner(account, out)?;
    put_limits(alloc, account, balance, out)?;
    put_room(alloc, account, balance, out)?;
    out.push(mark(Piece::RowEnd))
}

/// Adds the row of an account with a balance where it is of a currency.
fn put_if(
    alloc: Global,
    ccy: Ccy,
    account: &Account,
    balance: i64,
    out: &mut Text,
) -> Result<(), Memory>
    requires decimals { account.now.decimals ≤ most_decimals }
    requires balance { IsSmall balance }
    requires ends { IsSmall account.now.floor × IsSmall account.now.ceil }
    ensures { OnOk result (out.new ≡ out.old ++ account_if ccy account.now balance) }
{
    if account.ccy == ccy {
        return put_account(alloc, account, balance, out);
    }
    Ok(())
}

/// Adds the rows of the accounts of a currency, in the order of their numbers.
fn put_accounts(alloc: Global, books: Books<'_>, ccy: Ccy, out: &mut Text) -> Result<(), Memory>
    requires { AreSound books }
    ensures { OnOk result (out.new ≡ out.old ++ account_lines (chart_in books.entry) (entries_in books.entry) ccy) }
{
    for n in 1..books.accounts.count() + 1 {
        let balance = balance_in(books, AcctNo(n));
        put_if(alloc, ccy, books.accounts.get(AcctNo(n)), balance, out)?;
    }
    Ok(())
}

/// Adds what stands ahead of the accounts of a currency.
fn put_begin(ccy: Ccy, out: &mut Text) -> Result<(), Memory>
    ensures { OnOk result (out.new ≡ out.old ++ ccy_begin ccy) }
{
    out.push(mark(Piece::CurrencyBegin))?;
    put_escaped(&ccy.0, out)?;
    out.push_all(&[mark(Piece::CurrencyEnd), mark(Piece::TableBegin)])?;
    out.push_all(&[mark(Piece::AccountColumns), mark(Piece::RoomColumns)])
}

/// Adds the table of a currency.
fn put_table(alloc: Global, books: Books<'_>, ccy: Ccy, out: &mut Text) -> Result<(), Memory>
    requires { AreSound books }
    ensures { OnOk result (out.new ≡ out.old ++ ccy_table (chart_in books.entry) (entries_in books.entry) ccy) }
{
    put_begin(ccy, out)?;
    put_accounts(alloc, books, ccy, out)?;
    out.push(mark(Piece::TableEnd))
}

/// Adds the tables of currencies.
fn put_tables(alloc: Global, books: Books<'_>, ccys: &[Ccy], out: &mut Text) -> Result<(), Memory>
    requires { AreSound books }
    ensures { OnOk result (out.new ≡ out.old ++ flat_map (ccy_table (chart_in books.entry) (entries_in books.entry)) ccys.now) }
{
    for ccy in ccys {
        put_table(alloc, books, *ccy, out)?;
    }
    Ok(())
}

/// Whether a currency is among others.
fn is_among(ccy: Ccy, seen: &[Ccy]) -> bool
    ensures { result ≡ list_any (is_same_ccy ccy) seen.now }
{
    seen.iter().any(|other| ccy == *other)
}

/// Adds a currency that isn't among others to them.
fn note(ccy: Ccy, seen: &mut Vec<Ccy>) -> Result<(), Memory>
    ensures { OnOk result (seen.new.items ≡ insert_key is_same_ccy seen.old.items ccy) }
{
    if is_among(ccy, seen.as_slice()) {
        return Ok(());
    }
    seen.push(ccy)?;
    Ok(())
}

/// The currencies of the accounts, each once, in the order of its first account.
fn currencies(alloc: Global, a: &Accounts) -> Result<Vec<Ccy>, Memory>
    ensures { IfOk result (λ ccys. ccys.items ≡ ccys_of (accounts_of a.now)) }
{
    let mut seen = Vec::new(alloc);
    for n in 1..a.count() + 1 {
        let account = a.get(AcctNo(n));
        note(account.ccy, &mut seen)?;
    }
    Ok(seen)
}

/// Adds the accounts with their balances, their limits and their room, a table a currency.
pub(crate) fn put_section(alloc: Global, books: Books<'_>, out: &mut Text) -> Result<(), Memory>
    requires { AreSound books }
    ensures { OnOk result (out.new ≡ out.old ++ accounts_section (chart_in books.entry) (entries_in books.entry)) }
{
    let ccys = currencies(alloc, books.accounts)?;
    out.push(mark(Piece::Accounts))?;
    put_tables(alloc, books, ccys.as_slice(), out)
}
