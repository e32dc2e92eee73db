//! What an account lacks.

ghost use Rattle.std.specs.Prelude.{◌≡◌, ◌<◌, ◌≤◌, ◌++◌, pos, ◌-ℤ◌, OnOk};
ghost use Rattle.corr_money.specs.Amounts.{amount_end, most_decimals};
ghost use Rattle.day_model.specs.Chart.{IsListed, IsSmall, account_at};
ghost use Rattle.desk_page.specs.Books.{room_of};
ghost use Rattle.desk_page.specs.inner.Books.{AreSound, IsWide, chart_in, entries_in};
ghost use Rattle.desk_page.specs.Messages.{lacking, lacking_cell, lacking_of};

use crate::books::{Books, balance_in};
use crate::escape::put_escaped;
use crate::mark::{Piece, mark};
use corr_money::{Minor, put_signed};
use corr_text::{Decimal, Memory, Text};
use day_model::{Account, AcctNo, Side};
use std::alloc::Global;

/// How much an account with a balance can take on a side, in minor units: down to its floor, or up to its ceiling.
pub(crate) fn room_of(side: Side, account: &Account, balance: i64) -> i64
    requires balance { IsSmall balance }
    requires ends { IsSmall account.now.floor × IsSmall account.now.ceil }
    ensures value { result ≡ room_of side account.now balance }
    ensures bound { IsWide result }
{
    match side {
        Side::Debit => balance - account.floor,
        Side::Credit => account.ceil - balance,
    }
}

/// How much an amount is above the room that an account has for it on a side, in minor units; below 0 where it fits.
fn short_of(side: Side, amount: Minor, account: &Account, balance: i64) -> i64
    requires balance { IsSmall balance }
    requires ends { IsSmall account.now.floor × IsSmall account.now.ceil }
    requires amount { amount.0 < amount_end }
    ensures { result ≡ pos amount.0 -ℤ room_of side account.now balance }
{
    amount.0 as i64 - room_of(side, account, balance)
}

/// Adds what is lacking, in minor units of an account's currency.
fn put_lacking(alloc: Global, account: &Account, short: i64, out: &mut Text) -> Result<(), Memory>
    requires { account.now.decimals ≤ most_decimals }
    ensures { OnOk result (out.new ≡ out.old ++ lacking account.now short) }
{
    if short <= 0 {
        return out.push(mark(Piece::HasRoom));
    }
    out.push(mark(Piece::Lacks))?;
    put_signed(alloc, short, account.decimals, out)
}

/// Adds a cell of an account that lacks an amount, with the place of the entry.
fn put_lacking_cell(
    alloc: Global,
    place: u32,
    account: &Account,
    short: i64,
    out: &mut Text,
) -> Result<(), Memory>
    requires { account.now.decimals ≤ most_decimals }
    ensures { OnOk result (out.new ≡ out.old ++ lacking_cell place account.now short) }
{
    let mut room = Decimal::new();
    out.push(mark(Piece::CellBegin))?;
    put_escaped(account.id.bytes(), out)?;
    put_lacking(alloc, account, short, out)?;
    out.push_all(&[
        mark(Piece::PlaceOf),
        room.padded(place as u64, 8),
        mark(Piece::CellEnd),
    ])
}

/// Adds a cell of what the account of a leg lacks for an amount on a side.
pub(crate) fn put_lacking_of(
    alloc: Global,
    books: Books<'_>,
    place: u32,
    n: AcctNo,
    side: Side,
    amount: Minor,
    out: &mut Text,
) -> Result<(), Memory>
    requires sound { AreSound books }
    requires listed { IsListed (chart_in books) n.0 }
    requires amount { amount.0 < amount_end }
    ensures { OnOk result (out.new ≡ out.old ++ lacking_of (chart_in books.entry) (entries_in books.entry) place n.0 side amount.0 (account_at (chart_in books.entry) n.0)) }
{
    let account = books.accounts.get(n);
    let short = short_of(side, amount, account, balance_in(books, n));
    put_lacking_cell(alloc, place, account, short, out)
}
