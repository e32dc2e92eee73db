//! The accounts of a new journal.

ghost use Rattle.std.specs.Prelude.{◌≡◌, [], IfOk, IfErr, OnOk, map, pos};
ghost use Rattle.corr_money.specs.declared.amount.Ccy.{Ccy};
ghost use Rattle.day_model.specs.Chart.{opening_sum};
ghost use Rattle.day_model.specs.Gap.{TellsUnbalanced};
ghost use Rattle.ref_tables.specs.AccountList.{AreAccounts};
ghost use Rattle.corr_top.specs.Inputs.{opened};
ghost use Rattle.corr_top.specs.inner.Tables.{HasAccounts, StopsAccounts};
ghost use Rattle.corr_top.specs.inner.Passing.{TellsDecimals};

use crate::room::Tables;
use crate::status::Status;
use crate::tables::{read_known, read_rows};
use corr_ids::Bic;
use corr_io::Source;
use corr_text::{List, Memory};
use day_model::{Account, Accounts, AccountsFault};
use ref_tables::{AccountRow, RefTables};
use std::alloc::Global;

impl From<AccountsFault> for Status {
    ghost use Rattle.corr_top.specs.Stops.{status_of_sums};

    ghost from_gives = { λ fault status. status ≡ status_of_sums fault };

    fn from(fault: AccountsFault) -> Status {
        match fault {
            AccountsFault::Unbalanced { ccy, decimals, sum } => Status::Unbalanced {
                ccy,
                decimals,
                sum,
            },
            AccountsFault::Memory => Status::Memory,
        }
    }
}

/// An account of the book that a row of the table of accounts says.
pub fn open_account(row: AccountRow) -> Account
    ensures { result ≡ opened row }
{
    Account {
        id: row.id,
        kind: row.kind,
        owner: row.owner,
        ccy: row.ccy,
        decimals: row.decimals,
        floor: row.floor,
        ceil: row.ceil,
        opening: row.opening,
    }
}

fn open_rows(alloc: Global, rows: Vec<AccountRow>) -> Result<List<Account>, Memory>
    ensures { IfOk result (λ l. l ≡ map opened rows.items) }
{
    let mut accounts = List::new(alloc);
    for row in rows {
        accounts.push(open_account(row))?;
    }
    Ok(accounts)
}

/// The accounts of a table as those of a book.
fn make_accounts(
    alloc: Global,
    home: Bic,
    known: &RefTables,
    rows: Vec<AccountRow>,
) -> Result<Accounts, AccountsFault>
    requires { AreAccounts home.head known.now rows.items }
    ensures ok { IfOk result (λ a. a ≡ record { home = home; first = map opened rows.items; changes = [] }) }
    ensures balanced { OnOk result ((ccy : Ccy) → opening_sum ccy (map opened rows.items) ≡ pos 0) }
    ensures unbalanced { IfErr result (TellsUnbalanced (map opened rows.items)) }
    ensures decimals { IfErr result TellsDecimals }
{
    match open_rows(alloc, rows) {
        Ok(accounts) => Accounts::new(home, accounts),
        Err(Memory) => Err(AccountsFault::Memory),
    }
}

/// The accounts of a home bank over the table files, each read and tested before the next: banks, currencies, countries,
/// accounts. Then the openings are summed. The status is that of the first test that fails.
pub fn open_accounts<S: Source>(
    alloc: Global,
    home: Bic,
    files: &mut Tables<S>,
) -> Result<Accounts, Status>
    ensures fine { IfOk result (HasAccounts S.Source files.old files.new home) }
    ensures stopped { IfErr result (StopsAccounts S.Source files.old files.new home) }
{
    let known = read_known(alloc, files)?;
    let rows = read_rows(alloc, &home, &known, &mut files.accounts)?;
    Ok(make_accounts(alloc, home, &known, rows)?)
}
