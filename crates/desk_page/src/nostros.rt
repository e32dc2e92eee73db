//! The home bank's accounts with other banks, with and without a statement.

ghost use Rattle.std.specs.Prelude.{◌≡◌, ◌++◌, OnOk};
ghost use Rattle.std.specs.List.{list_any};
ghost use Rattle.desk_page.specs.Nostros.{is_page_of, nostro_if, nostro_line, nostros_section, stated};

use crate::cells::{put_bank, put_cell};
use crate::mark::{Piece, mark};
use crate::row::Row;
use corr_text::{Memory, Text};
use day_model::{Account, Accounts, AcctNo};

/// Whether a message is a valid page of a statement of the account with this id.
fn is_page_of(id: &[u8], row: &Row) -> bool
    ensures { result ≡ is_page_of id.now row.now }
{
    match row {
        Row::Told {
            account: Some(account),
            ..
        } => account.bytes() == id,
        Row::Told { account: None, .. } => false,
        Row::Asks { .. } => false,
        Row::Refused { .. } => false,
    }
}

/// Whether a page of an account's statement is among the messages.
fn has_page(rows: &[Row], id: &[u8]) -> bool
    ensures { result ≡ list_any (is_page_of id.now) rows.now }
{
    rows.iter().any(|row| is_page_of(id, row))
}

/// What is said of that.
fn stated(rows: &[Row], account: &Account) -> Piece
    ensures { result ≡ stated rows.now account.now }
{
    if has_page(rows, account.id.bytes()) {
        Piece::Stated
    } else {
        Piece::Unstated
    }
}

/// Adds the row of an account.
#[tactic(auto, unfolding(crate::specs::Nostros::nostro_line))]
fn put_line(rows: &[Row], account: &Account, out: &mut Text) -> Result<(), Memory>
    ensures { OnOk result (out.new ≡ out.old ++ nostro_line rows.now account.now) }
{
    out.push(mark(Piece::RowBegin))?;
    put_cell(account.id.bytes(), out)?;
    put_cell(&account.ccy.0, out)?;
    put_bank(&account.owner, out)?;
    out.push_all(&[mark(stated(rows, account)), mark(Piece::RowEnd)])
}

/// Adds the row of account `n` where it is one with another bank.
fn put_nostro(rows: &[Row], n: u32, account: &Account, out: &mut Text) -> Result<(), Memory>
    ensures { OnOk result (out.new ≡ out.old ++ nostro_if rows.now n account.now) }
{
    if account.kind == b'N' {
        return put_line(rows, account, out);
    }
    Ok(())
}

/// Adds the accounts with other banks, in the order of their numbers.
pub(crate) fn put_nostros(a: &Accounts, rows: &[Row], out: &mut Text) -> Result<(), Memory>
    ensures { OnOk result (out.new ≡ out.old ++ nostros_section a.now rows.now) }
{
    out.push(mark(Piece::NostrosBegin))?;
    for n in 1..a.count() + 1 {
        put_nostro(rows, n, a.get(AcctNo(n)), out)?;
    }
    out.push(mark(Piece::TableEnd))
}
