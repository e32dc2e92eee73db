//! The accounts of a book.

ghost use Rattle.std.specs.Prelude.{◌≡◌, ◌≤◌, [], IfOk, IfErr, OnErr, OnOk, length};
ghost use Rattle.day_model.specs.Chart.{AreBalanced, AreRows, IsChart, IsListed, account_at, accounts_of, has_id, is_owned};
ghost use Rattle.day_model.specs.Chart.{most_accounts, number_of_first, with_change};
ghost use Rattle.day_model.specs.Gap.{TellsUnbalanced};
ghost use Rattle.day_model.specs.Legal.{IsLegal};
ghost use Rattle.corr_ids.specs.Bic.{IsBic};

use crate::account::{Account, AcctNo};
use crate::change::{Change, What};
use crate::changing::copy_changes;
use crate::copy::copy_list;
use crate::fault::AccountsFault;
use crate::gap::first_gap;
use crate::history::History;
use crate::listed::Listed;
use corr_ids::Bic;
use corr_money::Ccy;
use corr_text::{List, Memory};
use std::alloc::Global;
use std::marker::Model;

/// How many accounts a book has at most.
pub(crate) const MOST_ACCOUNTS: usize = 1000;

/// The home bank and its accounts, whose openings sum to 0 in each currency. Accounts are numbered from 1.
///
/// A book begins with a first list of accounts. Between its entries accounts are opened, and stand last, and limits change: so
/// an account keeps its number. All calls but `first` and `changes` speak of the accounts after all changes.
#[derive(Debug, Drop)]
pub struct Accounts {
    home: Bic,
    first: List<Account>,
    changes: Vec<Change>,
    rows: Listed,
}

impl Model for Accounts {
    ghost use Rattle.day_model.specs.Chart.{Chart, KeepsRows};

    ghost Value = { Chart };

    ghost view = { λ a. record { home = a.home; first = a.first; changes = a.changes.items } };

    ghost invariant = { λ a. KeepsRows (record { home = a.home; first = a.first; changes = a.changes.items }) a.rows };
}

impl Accounts {
    /// Accounts of a home bank without changes, numbered from 1 in the order of the rows, of which `rows_hold` is true.
    ///
    /// `Unbalanced` comes exactly where the openings of a currency don't sum to 0, for the first such currency in byte order.
    /// `Memory`: there was no room for the sums, or for the list after changes and its index.
    pub fn new(home: Bic, rows: List<Account>) -> Result<Accounts, AccountsFault>
        requires { AreRows rows }
        ensures ok { IfOk result (λ a. a ≡ record { home = home; first = rows; changes = [] }) }
        ensures balanced { OnOk result (AreBalanced rows) }
        ensures unbalanced { IfErr result (TellsUnbalanced rows) }
    {
        let alloc = rows.allocator();
        match first_gap(alloc, rows.as_slice())? {
            None => Ok(Accounts {
                home,
                changes: Vec::new(alloc),
                rows: Listed::of(alloc, rows.as_slice())?,
                first: rows,
            }),
            Some(gap) => Err(AccountsFault::Unbalanced {
                ccy: gap.ccy,
                decimals: gap.decimals,
                sum: gap.sum,
            }),
        }
    }

    /// The accounts that the book began with.
    pub fn first(&self) -> &[Account]
        ensures value { result.now ≡ self.now.first }
        ensures sound { IsChart self.now }
    {
        self.first.as_slice()
    }

    /// The changes since then, in their order.
    pub fn changes(&self) -> &[Change]
        ensures { result.now ≡ self.now.changes }
    {
        self.changes.as_slice()
    }

    /// Adds a change after the entries of a history, which is legal for the accounts with this change. Where memory runs out,
    /// the accounts are as they were.
    pub fn change(&mut self, h: &History, what: What) -> Result<(), Memory>
        requires { IsLegal (with_change self.old (length h.now.entries) what) h.now.entries }
        ensures ok { OnOk result (self.new ≡ with_change self.old (length h.now.entries) what) }
        ensures err { OnErr result (self.new ≡ self.old) }
    {
        let after = h.len();
        self.changes.reserve(1)?;
        self.rows.change(&what)?;
        self.changes.push_reserved(Change { after, what });
        Ok(())
    }

    /// The accounts after all changes.
    pub(crate) fn after_changes(&self) -> &[Account]
        ensures value { result.now ≡ accounts_of self.now }
        ensures few { length result.now ≤ most_accounts }
        ensures sound { IsChart self.now }
    {
        self.rows.as_slice()
    }

    /// The same accounts once more.
    pub fn copy(&self, alloc: Global) -> Result<Accounts, Memory>
        ensures { IfOk result (λ copy. copy ≡ self.now) }
    {
        Ok(Accounts {
            home: self.home,
            first: copy_list(alloc, self.first.as_slice())?,
            changes: copy_changes(alloc, self.changes.as_slice())?,
            rows: Listed::of(alloc, self.rows.as_slice())?,
        })
    }

    /// The home BIC.
    pub fn home(&self) -> &Bic
        ensures { result.now ≡ self.now.home }
    {
        &self.home
    }

    /// How many accounts there are: at most 1,000.
    pub fn count(&self) -> u32
        ensures count { result ≡ length (accounts_of self.now) }
        ensures few { result ≤ most_accounts }
        ensures sound { IsChart self.now }
    {
        self.after_changes().len() as u32
    }

    /// The account of this number, from 1 to `count`.
    pub fn get(&self, a: AcctNo) -> &Account
        requires { IsListed self.now a.0 }
        ensures value { account_at self.now a.0 ≡ Some result.now }
        ensures sound { IsChart self.now }
        ensures owner { IsBic result.now.owner }
    {
        &self.after_changes()[a.0 as usize - 1]
    }

    /// The number of the account with this id, none where no account has it.
    pub fn find(&self, id: &[u8]) -> Option<AcctNo>
        ensures { result ≡ number_of_first (has_id id.now) (accounts_of self.now) }
    {
        let at = self.rows.find(id)?;
        Some(AcctNo(at as u32 + 1))
    }

    /// The least number of an account of this kind, with this head of its owner, this currency and these decimals; none where
    /// there is no such account.
    pub fn owned(&self, kind: u8, head: &[u8; 8], ccy: Ccy, decimals: u8) -> Option<AcctNo>
        ensures { result ≡ number_of_first (is_owned kind head.now ccy decimals) (accounts_of self.now) }
    {
        let at = self.rows.owned(kind, head, ccy, decimals)?;
        Some(AcctNo(at as u32 + 1))
    }
}
