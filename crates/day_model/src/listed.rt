//! The accounts of now, and where they are found.

ghost use Rattle.std.specs.Prelude.{◌≡◌, ◌<◌, ◌++◌, ◌∷◌, [], IfOk, OnErr, OnOk};
ghost use Rattle.std.specs.List.{position_from};
ghost use Rattle.indexmap.specs.IndexMap.{spare};
ghost use Rattle.day_model.specs.Changes.{changed_by};
ghost use Rattle.day_model.specs.Chart.{has_id, is_owned};
ghost use Rattle.day_model.specs.inner.Legal.{CanMake};
ghost use Rattle.day_model.specs.inner.Listed.{noted, owner_of};

use crate::account::Account;
use crate::change::What;
use crate::changing::set_ends;
use corr_money::Ccy;
use corr_text::Memory;
use indexmap::IndexMap;
use std::alloc::Global;
use std::hash::Hash;
use std::marker::Model;

/// What an account is looked for by where its id isn't given: its kind, its owner's head, its currency and its decimals.
#[derive(Clone, Copy, Debug, PartialEq, Eq, Hash)]
pub(crate) struct Owner {
    kind: u8,
    head: [u8; 8],
    ccy: [u8; 3],
    decimals: u8,
}

/// The accounts in the order of their numbers, and the place of the first of each id, and of each kind, owner's head, currency
/// and decimals. Contracts see the accounts.
#[derive(Debug, Drop)]
pub(crate) struct Listed {
    accounts: Vec<Account>,
    index: Box<Index>,
}

/// The places of the first accounts of each id, and of each kind, owner's head, currency and decimals. It stands apart, so that what
/// holds accounts ends in fewer steps.
#[derive(Debug, Drop)]
pub(crate) struct Index {
    ids: IndexMap<Vec<u8>, usize>,
    owners: IndexMap<Owner, usize>,
}

fn owner_of(account: &Account) -> Owner
    ensures { result ≡ owner_of account.now }
{
    Owner {
        kind: account.kind,
        head: account.owner.head,
        ccy: account.ccy.0,
        decimals: account.decimals,
    }
}

/// Notes a place under a key where none is noted. There is room for it.
fn note<K: Eq + Hash + Drop>(places: &mut IndexMap<K, usize>, key: K, place: usize)
    requires { 0 < spare places.old }
    ensures { places.new.entries ≡ noted K.eq key place places.old.entries }
{
    if !places.contains_key(&key) {
        let _ = places.insert(key, place);
    }
}

impl Model for Listed {
    ghost use Rattle.std.specs.Prelude.{List};
    ghost use Rattle.day_model.specs.declared.account.Account.{Account as AccountOf};
    ghost use Rattle.day_model.specs.inner.Listed.{AreFound};

    ghost Value = { List AccountOf };

    ghost view = { λ l. l.accounts.items };

    ghost invariant = { λ l. AreFound l.accounts.items l.index.value.ids.entries l.index.value.owners.entries };
}

impl Listed {
    /// No account yet.
    fn new(alloc: Global) -> Result<Listed, Memory>
        ensures { IfOk result (λ listed. listed ≡ []) }
    {
        let index = Index {
            ids: IndexMap::new(alloc),
            owners: IndexMap::new(alloc),
        };
        Ok(Listed {
            accounts: Vec::new(alloc),
            index: Box::new(alloc, index)?,
        })
    }

    /// These accounts once more.
    pub(crate) fn of(alloc: Global, accounts: &[Account]) -> Result<Listed, Memory>
        ensures { IfOk result (λ listed. listed ≡ accounts.now) }
    {
        let mut listed = Listed::new(alloc)?;
        for account in accounts {
            listed.push(account.copy(alloc)?)?;
        }
        Ok(listed)
    }

    /// The accounts.
    pub(crate) fn as_slice(&self) -> &[Account]
        ensures { result.now ≡ self.now }
    {
        self.accounts.as_slice()
    }

    /// Adds an account at the end. Where memory runs out, the accounts are as they were.
    fn push(&mut self, account: Account) -> Result<(), Memory>
        ensures ok { OnOk result (self.new ≡ self.old ++ account ∷ []) }
        ensures err { OnErr result (self.new ≡ self.old) }
    {
        let id = Vec::from_slice(*self.accounts.allocator(), account.id.bytes())?;
        let index = self.index.as_mut();
        index.ids.reserve(1)?;
        index.owners.reserve(1)?;
        self.accounts.reserve(1)?;
        let place = self.accounts.len();
        note(&mut index.ids, id, place);
        note(&mut index.owners, owner_of(&account), place);
        self.accounts.push_reserved(account);
        Ok(())
    }

    /// Makes a change. Where memory runs out, the accounts are as they were.
    pub(crate) fn change(&mut self, what: &What) -> Result<(), Memory>
        requires { CanMake self.old what.now }
        ensures ok { OnOk result (self.new ≡ changed_by what.now self.old) }
        ensures err { OnErr result (self.new ≡ self.old) }
    {
        match what {
            What::Opened(account) => {
                let alloc = *self.accounts.allocator();
                self.push(account.copy(alloc)?)?;
            }
            What::Limits {
                account,
                floor,
                ceil,
            } => set_ends(&mut self.accounts, *account, *floor, *ceil),
        }
        Ok(())
    }

    /// The place of the first account with an id, from 0.
    pub(crate) fn find(&self, id: &[u8]) -> Option<usize>
        ensures { result ≡ position_from (has_id id.now) 0 self.now }
    {
        self.index.as_ref().ids.get(id).copied()
    }

    /// The place of the first account of a kind, an owner's head, a currency and decimals, from 0.
    pub(crate) fn owned(&self, kind: u8, head: &[u8; 8], ccy: Ccy, decimals: u8) -> Option<usize>
        ensures { result ≡ position_from (is_owned kind head.now ccy decimals) 0 self.now }
    {
        let ccy = ccy.0;
        let owner = Owner {
            kind,
            head: *head,
            ccy,
            decimals,
        };
        self.index.as_ref().owners.get(&owner).copied()
    }
}
