//! The table of accounts, and an account that is given alone.

ghost use Rattle.std.specs.Prelude.{◌≡◌, ◌≤◌, ◌<◌, [], IfErr, IfOk, OnOk, All, None, Some, length, map, position};
ghost use Rattle.corr_money.specs.Amounts.{most_decimals};
ghost use Rattle.csv.specs.Records.{fields_of};
ghost use Rattle.ref_tables.specs.AccountList.{AreAccounts, IsAccount};
ghost use Rattle.ref_tables.specs.Accounts.{account_fault, account_of, accounts_fault, clashes, form_fault, is_balance, is_home_kind, lone_account_fault, owner_fits, same_relation, standing_fault, within_limits};
ghost use Rattle.ref_tables.specs.Refusals.{Tells, against, first_bad_row, named};
ghost use Rattle.ref_tables.specs.Rows.{cell, cells_of, rows_of, most_rows};

use crate::account::AccountRow;
use crate::columns;
use crate::fault::{TableFault, TableName, Why, bad};
use crate::rows::{cell, read_rows};
use crate::tables::RefTables;
use corr_ids::{Bic, read_bic};
use corr_text::Text;
use csv::ByteRecord;
use std::alloc::Global;

const MAX_ACCOUNTS: usize = 1000;

/// The kind of a customer's account.
const CUSTOMER: u8 = b'C';

/// The kind of an account of fees.
const FEE: u8 = b'F';

/// Balances are below this in size.
const BALANCE_LIMIT: u64 = 100000000000000;

// The cell at a place.
#[tactic(auto, using(crate::proofs::Cells::cell_is))]
fn cell_at<'a>(cells: &[&'a [u8]; 7], at: usize) -> &'a [u8]
    requires { at < 7 }
    ensures { result.now ≡ cell at (cells_of cells.now) }
{
    cells[at]
}

// The cells of a row that has seven.
#[tactic(auto, using(crate::proofs::Cells::seven_are))]
fn seven_cells(row: &ByteRecord) -> [&[u8]; 7]
    requires { length (fields_of row.now) ≡ 7 }
    ensures { cells_of result ≡ fields_of row.now }
{
    [
        cell(row, 0),
        cell(row, 1),
        cell(row, 2),
        cell(row, 3),
        cell(row, 4),
        cell(row, 5),
        cell(row, 6),
    ]
}

// The account that cells say, whose id is this text; a currency that is not in the table is refused later.
fn read_columns(t: &RefTables, cells: &[&[u8]; 7], id: Text) -> Result<AccountRow, Why>
    requires { id ≡ cell 0 (cells_of cells.now) }
    ensures sound { OnOk result (form_fault (cells_of cells.now) ≡ None) }
    ensures value { IfOk result (λ a. a ≡ account_of t.now (cells_of cells.now)) }
    ensures few { IfOk result (λ a. a.decimals ≤ most_decimals) }
    ensures bad { IfErr result (λ why. form_fault (cells_of cells.now) ≡ Some why) }
{
    if !columns::is_account_id(cell_at(cells, 0)) {
        return Err(Why::Value { col: 1 });
    }
    let kind = columns::kind(cell_at(cells, 1)).ok_or(Why::Value { col: 2 })?;
    let owner = read_bic(cell_at(cells, 2)).ok_or(Why::Value { col: 3 })?;
    let ccy = columns::ccy(cell_at(cells, 3)).ok_or(Why::Value { col: 4 })?;
    let floor = columns::signed(cell_at(cells, 4)).ok_or(Why::Value { col: 5 })?;
    let ceil = columns::signed(cell_at(cells, 5)).ok_or(Why::Value { col: 6 })?;
    let opening = columns::signed(cell_at(cells, 6)).ok_or(Why::Value { col: 7 })?;
    Ok(AccountRow {
        id,
        kind,
        owner,
        ccy,
        decimals: t.decimals(ccy).unwrap_or(0),
        floor,
        ceil,
        opening,
    })
}

fn has_same_relation(a: &AccountRow, b: &AccountRow) -> bool
    ensures { result ≡ same_relation a.now b.now }
{
    a.kind != CUSTOMER && a.kind == b.kind && a.owner.head == b.owner.head && a.ccy.0 == b.ccy.0
}

fn clashes(a: &AccountRow, b: &AccountRow) -> bool
    ensures { result ≡ clashes a.now b.now }
{
    a.id.bytes() == b.id.bytes() || has_same_relation(a, b)
}

fn is_home_kind(kind: u8) -> bool
    ensures { result ≡ is_home_kind kind }
{
    kind == CUSTOMER || kind == FEE
}

fn owner_fits(home: &Bic, a: &AccountRow) -> bool
    ensures { result ≡ owner_fits home.now.head a.now }
{
    is_home_kind(a.kind) == (a.owner.head == home.head)
}

fn is_balance(z: i64) -> bool
    ensures { result ≡ is_balance z }
{
    z.unsigned_abs() < BALANCE_LIMIT
}

fn within_limits(a: &AccountRow) -> bool
    ensures { result ≡ within_limits a.now }
{
    is_balance(a.floor)
        && is_balance(a.ceil)
        && is_balance(a.opening)
        && a.floor <= a.opening
        && a.opening <= a.ceil
}

// The first of these accounts that a table can't have beside this one.
fn first_clash(account: &AccountRow, earlier: &[AccountRow]) -> Option<usize>
    ensures { result ≡ position (clashes account.now) earlier.now }
{
    earlier.iter().position(|e| clashes(account, e))
}

// What is wrong with an account, given those of the rows before it.
fn standing(home: &Bic, t: &RefTables, earlier: &[AccountRow], account: &AccountRow) -> Option<Why>
    requires { length earlier.now < most_rows }
    ensures { result ≡ standing_fault home.now.head t.now earlier.now account.now }
{
    if let Some(at) = first_clash(account, earlier) {
        return Some(Why::Double { row: at as u32 + 1 });
    }
    if !t.has_bic(&account.owner.head) || !owner_fits(home, account) {
        return Some(Why::Bic);
    }
    if t.decimals(account.ccy).is_none() {
        return Some(Why::Currency);
    }
    if !within_limits(account) {
        return Some(Why::Limits);
    }
    None
}

// Reads an account of cells, given the accounts of the rows before it.
fn read_cells(
    home: &Bic,
    t: &RefTables,
    earlier: &[AccountRow],
    cells: &[&[u8]; 7],
    id: Text,
) -> Result<AccountRow, Why>
    requires id_read { id ≡ cell 0 (cells_of cells.now) }
    requires few { length earlier.now < most_rows }
    ensures sound { OnOk result (account_fault home.now.head t.now earlier.now (cells_of cells.now) ≡ None) }
    ensures value { IfOk result (λ a. a ≡ account_of t.now (cells_of cells.now)) }
    ensures few { IfOk result (λ a. a.decimals ≤ most_decimals) }
    ensures bad { IfErr result (λ why. account_fault home.now.head t.now earlier.now (cells_of cells.now) ≡ Some why) }
{
    let account = read_columns(t, cells, id)?;
    match standing(home, t, earlier, &account) {
        None => Ok(account),
        Some(why) => Err(why),
    }
}

// The same of a row of a file.
fn read_row(
    home: &Bic,
    t: &RefTables,
    earlier: &[AccountRow],
    row: &ByteRecord,
    id: Text,
) -> Result<AccountRow, Why>
    requires id_read { id ≡ cell 0 (fields_of row.now) }
    requires few { length earlier.now < most_rows }
    ensures sound { OnOk result (account_fault home.now.head t.now earlier.now (fields_of row.now) ≡ None) }
    ensures value { IfOk result (λ a. a ≡ account_of t.now (fields_of row.now)) }
    ensures few { IfOk result (λ a. a.decimals ≤ most_decimals) }
    ensures bad { IfErr result (λ why. account_fault home.now.head t.now earlier.now (fields_of row.now) ≡ Some why) }
{
    if row.len() != 7 {
        return Err(Why::Columns);
    }
    let cells = seven_cells(row);
    read_cells(home, t, earlier, &cells, id)
}

// The accounts that rows say.
fn enter_rows(
    alloc: Global,
    home: &Bic,
    t: &RefTables,
    rows: &[ByteRecord],
) -> Result<Vec<AccountRow>, TableFault>
    requires { length rows.now ≤ most_rows }
    ensures ok { IfOk result (λ v.
        (first_bad_row (against (account_of t.now) (account_fault home.now.head t.now)) [] (map fields_of rows.now) ≡ None)
        × (v.items ≡ map (account_of t.now) (map fields_of rows.now))
        × All (λ a. a.decimals ≤ most_decimals) v.items) }
    ensures bad { IfErr result (Tells (named TableName.Accounts
        (first_bad_row (against (account_of t.now) (account_fault home.now.head t.now)) [] (map fields_of rows.now)))) }
{
    let mut accounts = Vec::new(alloc);
    for row in rows {
        let id = Text::from_bytes(alloc, cell(row, 0))?;
        match read_row(home, t, accounts.as_slice(), row, id) {
            Ok(account) => accounts.push(account)?,
            Err(why) => return Err(bad(TableName::Accounts, accounts.len() + 1, why)),
        }
    }
    Ok(accounts)
}

/// The accounts of this file, for the home bank `home` and under the tables `t` (docs/tables.md, "accounts").
///
/// `Bad` tells the first row that fails, from 1, and why; row 0 where the file has more than 8 MiB or 1,000 rows.
#[tactic(auto, using(crate::proofs::laws::Records::rows_within_some))]
pub fn read_accounts(
    alloc: Global,
    file: &[u8],
    home: &Bic,
    t: &RefTables,
) -> Result<Vec<AccountRow>, TableFault>
    ensures accounts { IfOk result (λ v. AreAccounts home.now.head t.now v.items) }
    ensures sound { IfOk result (λ v. accounts_fault home.now.head t.now file.now ≡ None) }
    ensures value { IfOk result (λ v. v.items ≡ map (account_of t.now) (rows_of file.now)) }
    ensures bad { IfErr result (Tells (named TableName.Accounts (accounts_fault home.now.head t.now file.now))) }
{
    match read_rows(alloc, file, MAX_ACCOUNTS)? {
        Some(rows) => enter_rows(alloc, home, t, rows.as_slice()),
        None => Err(bad(TableName::Accounts, 0, Why::Rows)),
    }
}

/// The account that these words say, as the cells of a row of the table of accounts do: id, kind, owner, currency, floor, ceiling
/// and opening, for example `CUST3`, `C`, `HOMEUS33`, `EUR`, `0`, `90000000000`, `0`. It is read for the home bank `home` and under
/// the tables `t`, and no other account is looked at.
///
/// `Bad` tells why a table of this row alone would be refused, at row 1.
pub fn read_account_words(
    alloc: Global,
    words: &[&[u8]; 7],
    home: &Bic,
    t: &RefTables,
) -> Result<AccountRow, TableFault>
    ensures account { IfOk result (λ a. IsAccount home.now.head t.now a) }
    ensures sound { OnOk result (account_fault home.now.head t.now [] (cells_of words.now) ≡ None) }
    ensures value { IfOk result (λ a. a ≡ account_of t.now (cells_of words.now)) }
    ensures bad { IfErr result (Tells (named TableName.Accounts (lone_account_fault home.now.head t.now (cells_of words.now)))) }
{
    let id = Text::from_bytes(alloc, cell_at(words, 0))?;
    match read_cells(home, t, &[], words, id) {
        Ok(account) => Ok(account),
        Err(why) => Err(bad(TableName::Accounts, 1, why)),
    }
}
