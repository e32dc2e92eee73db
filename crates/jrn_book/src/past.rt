//! The past of a journal: what its records so far say.

ghost use Rattle.std.specs.Prelude.{◌≡◌, ◌<◌, ◌≤◌, ◌++◌, ◌∷◌, [], Some, IfErr, IfOk, OnOk, length, replicate, vec_capacity};
ghost use Rattle.day_model.specs.declared.change.Item.{Item as TheItem};
ghost use Rattle.day_model.specs.declared.change.What.{What as TheWhat};
ghost use Rattle.day_model.specs.declared.change.Item.TheVariants.{Entered, Changed};
ghost use Rattle.day_model.specs.Balance.{balance_of};
ghost use Rattle.day_model.specs.Chart.{Chart, IsChart, IsListed, IsSmall, accounts_of, with_change};
ghost use Rattle.day_model.specs.Totals.{balance_with, pair_at};
ghost use Rattle.day_model.specs.Legal.{IsLegal};
ghost use Rattle.jrn_codec.specs.Answers.{IsGiven};
ghost use Rattle.jrn_codec.specs.Header.{IsHead, head_bytes};
ghost use Rattle.jrn_codec.specs.Record.{IsEntry};
ghost use Rattle.jrn_book.specs.declared.version.Version.TheVariants.{Two};
ghost use Rattle.jrn_book.specs.Journal.{IsJournal};
ghost use Rattle.jrn_book.specs.Opening.{IsNextOf};
ghost use Rattle.jrn_book.specs.Reading.{FitsNext, GrowsBy, IsReady, IsReadyFor, IsSameRead, ReadsRecord};
ghost use Rattle.jrn_book.specs.inner.Reading.{widened};
ghost use Rattle.jrn_book.specs.Versions.{HasBytes, bytes_in};

use crate::committing::note;
use crate::index::Index;
use crate::version::Version;
use corr_text::Memory;
use day_model::{
    Accounts, AcctNo, Entry, History, Item, What, add_legs, balance_with, legs_booked,
};
use jrn_codec::{EntryFault, read_entry_1, read_head, read_item};
use std::alloc::Global;
use std::marker::Model;

/// What the records of a journal say so far: accounts with their changes, and entries with their references and each account's
/// totals.
///
/// Contracts see the accounts and the entries, which are legal, and `spare`: for how many records more there is room.
#[derive(Drop)]
pub struct Past {
    pub(crate) accounts: Accounts,
    pub(crate) history: History,
    pub(crate) index: Index,
    pub(crate) pairs: Vec<(u64, u64)>,
}

/// An item that may stand next, with the memory that it takes: the entry, or the accounts with the change.
#[derive(Drop)]
pub enum Ready {
    Entry(Entry),
    Accounts(Accounts),
}

impl Model for Past {
    ghost use Rattle.std.specs.Prelude.{◌≡◌, ◌-◌, length, min, vec_capacity};
    ghost use Rattle.day_model.specs.Chart.{accounts_of};
    ghost use Rattle.day_model.specs.Totals.{HasTotals};
    ghost use Rattle.jrn_book.specs.Index.{references_of};
    ghost use Rattle.jrn_book.specs.Journal.{IsJournal};
    ghost use Rattle.jrn_book.specs.Reading.{Read};

    ghost Value = { Read };

    ghost view = { λ p. record { accounts = p.accounts; history = p.history.entries; spare = min (min p.history.spare p.index.spare) (vec_capacity p.pairs - length p.pairs.items) } };

    ghost invariant = { λ p. IsJournal p.accounts p.history.entries × HasTotals p.pairs.items (length (accounts_of p.accounts)) p.history.entries × (p.index.references ≡ references_of p.history.entries) };
}

/// A pair of zeros for each account.
fn no_totals(alloc: Global, accounts: &Accounts) -> Result<Vec<(u64, u64)>, Memory>
    ensures { IfOk result (λ pairs. pairs.items ≡ replicate (length (accounts_of accounts.now)) (0, 0)) }
{
    let pairs = vec![in alloc; (0, 0); accounts.count() as usize]?;
    Ok(pairs)
}

/// The totals of an account that is there.
fn pair_of(pairs: &[(u64, u64)], n: AcctNo) -> (u64, u64)
    requires { (1 ≤ n.0) × (n.0 ≤ length pairs.now) }
    ensures { pair_at pairs.now n.0 ≡ Some result }
{
    pairs[n.0 as usize - 1]
}

/// The balance of an account that is there, by its totals.
fn balance_by(a: &Accounts, n: AcctNo, totals: (u64, u64)) -> i64
    requires listed { IsListed a.now n.0 }
    requires small { IsSmall (balance_with a.now n.0 totals) }
    ensures { result ≡ balance_with a.now n.0 totals }
{
    balance_with(a.get(n), totals)
}

/// One pair of zeros more where there are more accounts than pairs, for which there is room.
fn widen(pairs: &mut Vec<(u64, u64)>, count: u32)
    requires { length pairs.old.items < vec_capacity pairs.old }
    ensures { pairs.new.items ≡ widened count pairs.old.items }
{
    if pairs.len() < count as usize {
        pairs.push_reserved((0, 0));
    }
}

/// Reads a record of a version, whether or not it may stand next.
fn read_in(alloc: Global, version: Version, bytes: &[u8]) -> Result<Item, EntryFault>
    ensures found { IfOk result (λ item. HasBytes version item × (bytes.now ≡ bytes_in version item)) }
    ensures only { (item : TheItem) → HasBytes version item → bytes.now ≡ bytes_in version item → IsGiven item result }
{
    match version {
        Version::One => Ok(Item::Entered(read_entry_1(alloc, bytes)?)),
        Version::Two => read_item(alloc, bytes),
    }
}

impl Past {
    /// Of accounts without changes, before any entry.
    pub(crate) fn new(alloc: Global, accounts: Accounts) -> Result<Past, Memory>
        requires { IsHead accounts }
        ensures accounts { IfOk result (λ past. past.accounts ≡ accounts) }
        ensures history { IfOk result (λ past. past.history ≡ []) }
        ensures good { IsJournal accounts [] }
    {
        let pairs = no_totals(alloc, &accounts)?;
        Ok(Past {
            accounts,
            history: History::new(alloc),
            index: Index::new(alloc),
            pairs,
        })
    }

    /// The past of a journal of which there is a header record.
    ///
    /// `NoEntry` comes exactly where the bytes are no header; `Memory` where there is no room.
    pub fn of_head(alloc: Global, bytes: &[u8]) -> Result<Past, EntryFault>
        ensures found { IfOk result (λ past. IsHead past.accounts × (bytes.now ≡ head_bytes past.accounts) × (past.history ≡ [])) }
        ensures only { (chart : Chart) → IsHead chart → bytes.now ≡ head_bytes chart → IfErr result (λ fault. fault ≡ EntryFault.Memory) }
    {
        let accounts = read_head(alloc, bytes)?;
        let past = Past::new(alloc, accounts)?;
        Ok(past)
    }

    /// The accounts, with all changes.
    pub fn accounts(&self) -> &Accounts
        ensures value { result.now ≡ self.now.accounts }
        ensures sound { IsChart self.now.accounts }
        ensures journal { IsJournal self.now.accounts self.now.history }
    {
        &self.accounts
    }

    /// The entries.
    pub fn history(&self) -> &History
        ensures value { result.now.entries ≡ self.now.history }
        ensures legal { IsLegal self.now.accounts self.now.history }
        ensures journal { IsJournal self.now.accounts self.now.history }
    {
        &self.history
    }

    /// The balance of an account that is there, in minor units.
    pub fn balance(&self, n: AcctNo) -> i64
        requires { IsListed self.now.accounts n.0 }
        ensures { result ≡ balance_of self.now.accounts self.now.history n.0 }
    {
        balance_by(&self.accounts, n, pair_of(self.pairs.as_slice(), n))
    }

    /// Whether a record of a version may stand next, and the item that it is of.
    pub(crate) fn fits_in(
        &self,
        alloc: Global,
        version: Version,
        bytes: &[u8],
    ) -> Result<Item, EntryFault>
        ensures { FitsNext version self.now bytes.now result }
    {
        let item = read_in(alloc, version, bytes)?;
        if !self.may_stand(&item) {
            return Err(EntryFault::NoEntry);
        }
        Ok(item)
    }

    /// The entry or the change of which these bytes are the record, all of them, and which may stand next. Nothing is added.
    ///
    /// `NoEntry` comes exactly where they are the record of none that may: of an entry that is the legal next one, or of a change
    /// that is legal; `Memory` where there is no room for it.
    pub fn fits(&self, alloc: Global, bytes: &[u8]) -> Result<Item, EntryFault>
        ensures { FitsNext Two self.now bytes.now result }
    {
        self.fits_in(alloc, Version::Two, bytes)
    }

    /// Makes room for one item more.
    fn room(&mut self) -> Result<(), Memory>
        ensures same { IsSameRead self.old self.new }
        ensures room { OnOk result (1 ≤ self.new.spare) }
    {
        self.history.reserve()?;
        self.index.reserve()?;
        self.pairs.reserve(1)?;
        Ok(())
    }

    /// Takes the memory that an item takes when it is noted. What was read so far stays, whatever it answers.
    pub fn reserve(&mut self, alloc: Global, item: Item) -> Result<Ready, Memory>
        requires next { IsNextOf Two self.old.accounts self.old.history item }
        ensures same { IsSameRead self.old self.new }
        ensures room { IfOk result (λ ready. 1 ≤ self.new.spare) }
        ensures ready { IfOk result (IsReady self.new) }
        ensures item { IfOk result (IsReadyFor self.new item) }
    {
        self.room()?;
        match item {
            Item::Entered(entry) => Ok(Ready::Entry(entry)),
            Item::Changed(what) => {
                let mut accounts = self.accounts.copy(alloc)?;
                accounts.change(&self.history, what)?;
                Ok(Ready::Accounts(accounts))
            }
        }
    }

    /// Adds an entry that may stand next and for which there is room.
    fn note_entry(&mut self, e: Entry)
        requires room { 1 ≤ self.old.spare }
        requires written { IsEntry e }
        requires legal { IsLegal self.old.accounts (self.old.history ++ e ∷ []) }
        ensures { GrowsBy self.old (Entered e) self.new }
    {
        add_legs(&mut self.pairs, legs_booked(&e));
        note(&mut self.history, &mut self.index, e);
    }

    /// Puts the accounts with a change in place of those without it. There is room for the totals of one account more.
    fn note_accounts(&mut self, accounts: Accounts)
        requires room { 1 ≤ self.old.spare }
        requires next { (what : TheWhat) × IsNextOf Two self.old.accounts self.old.history (Changed what) × (accounts ≡ with_change self.old.accounts (length self.old.history) what) }
        ensures accounts { self.new.accounts ≡ accounts }
        ensures history { self.new.history ≡ self.old.history }
    {
        widen(&mut self.pairs, accounts.count());
        self.accounts = accounts;
    }

    /// Adds an item that may stand next and for which there is room. It takes no memory.
    pub fn note(&mut self, ready: Ready)
        requires room { 1 ≤ self.old.spare }
        requires ready { IsReady self.old ready }
        ensures { (item : TheItem) → IsReadyFor self.old item ready → GrowsBy self.old item self.new }
    {
        match ready {
            Ready::Entry(entry) => self.note_entry(entry),
            Ready::Accounts(accounts) => self.note_accounts(accounts),
        }
    }

    fn enter(&mut self, e: Entry) -> Result<(), Memory>
        requires written { IsEntry e }
        requires legal { IsLegal self.old.accounts (self.old.history ++ e ∷ []) }
        ensures { OnOk result (GrowsBy self.old (Entered e) self.new) }
    {
        self.room()?;
        self.note_entry(e);
        Ok(())
    }

    fn change(&mut self, what: What) -> Result<(), Memory>
        requires next { IsNextOf Two self.old.accounts self.old.history (Changed what) }
        ensures { OnOk result (GrowsBy self.old (Changed what) self.new) }
    {
        self.pairs.reserve(1)?;
        self.accounts.change(&self.history, what)?;
        widen(&mut self.pairs, self.accounts.count());
        Ok(())
    }

    /// Adds an item that may stand next.
    fn add(&mut self, item: Item) -> Result<(), Memory>
        requires { IsNextOf Two self.old.accounts self.old.history item }
        ensures { OnOk result (GrowsBy self.old item self.new) }
    {
        match item {
            Item::Entered(entry) => self.enter(entry),
            Item::Changed(what) => self.change(what),
        }
    }

    /// Reads the next record of a version.
    ///
    /// `NoEntry` comes exactly where it is the record of no item that may stand next; then all is as before.
    pub(crate) fn read_next(
        &mut self,
        alloc: Global,
        version: Version,
        bytes: &[u8],
    ) -> Result<(), EntryFault>
        ensures { ReadsRecord version self.old bytes.now result self.new }
    {
        let item = self.fits_in(alloc, version, bytes)?;
        self.add(item)?;
        Ok(())
    }

    /// Reads the next record, and adds what it is of.
    ///
    /// `NoEntry` comes exactly where it is the record of no item that may stand next; then all is as before. `Memory`: there was
    /// no room for it, and what was read so far may have grown by it or not.
    pub fn read(&mut self, alloc: Global, bytes: &[u8]) -> Result<(), EntryFault>
        ensures { ReadsRecord Two self.old bytes.now result self.new }
    {
        self.read_next(alloc, Version::Two, bytes)
    }
}
