//! The books that a page shows.

ghost use Rattle.std.specs.Prelude.{◌≡◌};
ghost use Rattle.day_model.specs.Balance.{balance_of};
ghost use Rattle.day_model.specs.Chart.{IsListed, IsSmall};
ghost use Rattle.desk_page.specs.inner.Books.{AreSound, chart_in, entries_in};

use day_model::{Accounts, AcctNo, History, balance_with};

/// The accounts, their history, and each account's credits and debits after it, in minor units; account 1's come first.
#[derive(Clone, Copy)]
pub(crate) struct Books<'a> {
    pub(crate) accounts: &'a Accounts,
    pub(crate) history: &'a History,
    pub(crate) totals: &'a [(u64, u64)],
}

/// The balance of an account, in minor units.
pub(crate) fn balance_in(books: Books<'_>, n: AcctNo) -> i64
    requires sound { AreSound books }
    requires listed { IsListed (chart_in books) n.0 }
    ensures value { result ≡ balance_of (chart_in books.entry) (entries_in books.entry) n.0 }
    ensures small { IsSmall result }
{
    balance_with(books.accounts.get(n), books.totals[n.0 as usize - 1])
}
