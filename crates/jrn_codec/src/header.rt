//! Reading headers.

ghost use Rattle.std.specs.Prelude.{◌≡◌, IfOk, length};
ghost use Rattle.day_model.specs.Chart.{Chart, IsChart};
ghost use Rattle.jrn_codec.specs.Answers.{IsGiven};
ghost use Rattle.jrn_codec.specs.inner.Answers.{AnswersRead};
ghost use Rattle.jrn_codec.specs.Header.{IsHead, head_bytes, head_bytes_1, headed_bytes};
ghost use Rattle.jrn_codec.specs.inner.HeaderReading.{account_read, balances_at, chart_read, header_read, unchanged};
ghost use Rattle.jrn_codec.specs.inner.Reading.{items_at};

use crate::fault::EntryFault;
use crate::field::{bic_at, byte_at, cut, i64_at, short_at, u16_at};
use corr_ids::Bic;
use corr_money::Ccy;
use corr_text::{List, Text};
use day_model::{Account, Accounts, AccountsFault, rows_hold};
use std::alloc::Global;

/// What a balance may be, and what it is before the first entry.
#[derive(Clone, Copy, Drop)]
pub struct Balances {
    pub floor: i64,
    pub ceil: i64,
    pub opening: i64,
}

/// A home bank and rows, which may or may not be the accounts that a book begins with.
#[derive(Drop)]
pub struct Rows {
    pub home: Bic,
    pub accounts: List<Account>,
}

/// The first bytes of a header: the version of the journal.
pub const VERSION: [u8; 6] = *b"CORRJ2";

/// Those of version 1.
const VERSION_1: [u8; 6] = *b"CORRJ1";

#[tactic(auto, unfolding(crate::specs::inner::HeaderReading::balances_at))]
fn balances_at(bytes: &[u8]) -> Result<(Balances, &[u8]), EntryFault>
    ensures { AnswersRead (λ x. (x.0, x.1.now)) result (balances_at bytes.now) }
{
    let (floor, rest) = i64_at(bytes)?;
    let (ceil, rest) = i64_at(rest)?;
    let (opening, rest) = i64_at(rest)?;
    Ok((
        Balances {
            floor,
            ceil,
            opening,
        },
        rest,
    ))
}

/// An account, in the form of its columns or not.
#[tactic(auto, unfolding(crate::specs::inner::HeaderReading::account_read))]
pub fn account_at(alloc: Global, bytes: &[u8]) -> Result<(Account, &[u8]), EntryFault>
    ensures { AnswersRead (λ x. (x.0, x.1.now)) result (account_read bytes.now) }
{
    let (id, rest) = short_at(bytes)?;
    let (kind, rest) = byte_at(rest)?;
    let (owner, rest) = bic_at(rest)?;
    let (ccy, rest) = cut(rest, 3)?;
    let (decimals, rest) = byte_at(rest)?;
    let (balances, rest) = balances_at(rest)?;
    let account = Account {
        id: Text::from_bytes(alloc, id)?,
        kind,
        owner,
        ccy: Ccy([ccy[0], ccy[1], ccy[2]]),
        decimals,
        floor: balances.floor,
        ceil: balances.ceil,
        opening: balances.opening,
    };
    Ok((account, rest))
}

fn accounts_of(
    alloc: Global,
    count: u16,
    bytes: &[u8],
) -> Result<(List<Account>, &[u8]), EntryFault>
    ensures { AnswersRead (λ x. (x.0, x.1.now)) result (items_at account_read count bytes.now) }
{
    let mut accounts = List::new(alloc);
    let mut rest = bytes;
    for _ in 0..count {
        let (account, after) = account_at(alloc, rest)?;
        accounts.push(account)?;
        rest = after;
    }
    Ok((accounts, rest))
}

#[tactic(auto, unfolding(crate::specs::inner::HeaderReading::chart_read))]
fn rows_of(alloc: Global, bytes: &[u8]) -> Result<Rows, EntryFault>
    ensures { AnswersRead (λ rows. unchanged rows.home rows.accounts) result (chart_read bytes.now) }
{
    let (home, rest) = bic_at(bytes)?;
    let (count, rest) = u16_at(rest)?;
    let (accounts, rest) = accounts_of(alloc, count, rest)?;
    if !rest.is_empty() {
        return Err(EntryFault::NoEntry);
    }
    Ok(Rows { home, accounts })
}

#[tactic(auto, unfolding(crate::specs::inner::HeaderReading::header_read))]
fn head_of(alloc: Global, version: &[u8; 6], bytes: &[u8]) -> Result<Rows, EntryFault>
    ensures { AnswersRead (λ rows. unchanged rows.home rows.accounts) result (header_read version.now bytes.now) }
{
    let (mark, rest) = cut(bytes, 6)?;
    if mark != version.as_slice() {
        return Err(EntryFault::NoEntry);
    }
    rows_of(alloc, rest)
}

fn accounts_with(rows: Rows) -> Result<Accounts, EntryFault>
    ensures found { IfOk result (λ a. (a ≡ unchanged rows.home rows.accounts) × IsChart a) }
    ensures only { IsChart (unchanged rows.home rows.accounts) → IsGiven (unchanged rows.home rows.accounts) result }
{
    if !rows_hold(rows.accounts.as_slice()) {
        return Err(EntryFault::NoEntry);
    }
    match Accounts::new(rows.home, rows.accounts) {
        Ok(accounts) => Ok(accounts),
        Err(AccountsFault::Unbalanced { .. }) => Err(EntryFault::NoEntry),
        Err(AccountsFault::Memory) => Err(EntryFault::Memory),
    }
}

fn read_version(alloc: Global, version: &[u8; 6], b: &[u8]) -> Result<Accounts, EntryFault>
    requires { length version.now ≡ 6 }
    ensures found { IfOk result (λ a. IsHead a × (b.now ≡ headed_bytes version.now a)) }
    ensures only { (chart : Chart) → IsHead chart → b.now ≡ headed_bytes version.now chart → IsGiven chart result }
{
    let rows = head_of(alloc, version, b)?;
    accounts_with(rows)
}

/// The home bank and the accounts, without changes, whose header record these bytes are, all of them.
///
/// `NoEntry` comes exactly where they are no header of accounts of a book; `Memory` where there is no room for them.
pub fn read_head(alloc: Global, b: &[u8]) -> Result<Accounts, EntryFault>
    ensures found { IfOk result (λ a. IsHead a × (b.now ≡ head_bytes a)) }
    ensures only { (chart : Chart) → IsHead chart → b.now ≡ head_bytes chart → IsGiven chart result }
{
    read_version(alloc, &VERSION, b)
}

/// The same of the header record of a journal of version 1.
pub fn read_head_1(alloc: Global, b: &[u8]) -> Result<Accounts, EntryFault>
    ensures found { IfOk result (λ a. IsHead a × (b.now ≡ head_bytes_1 a)) }
    ensures only { (chart : Chart) → IsHead chart → b.now ≡ head_bytes_1 chart → IsGiven chart result }
{
    read_version(alloc, &VERSION_1, b)
}
