//! The records of a journal, read as its past.

ghost use Rattle.std.specs.Prelude.{◌≡◌, ◌+◌, ◌++◌, ◌∷◌, length, map, IfErr, IfOk, OnOk};
ghost use Rattle.day_model.specs.Chart.{Chart};
ghost use Rattle.day_model.specs.Items.{items_of};
ghost use Rattle.jrn_codec.specs.Answers.{IsGiven};
ghost use Rattle.jrn_codec.specs.Header.{IsHead};
ghost use Rattle.jrn_file.specs.Reading.{size_of};
ghost use Rattle.jrn_book.specs.Journal.{IsJournalIn, all_records_in};
ghost use Rattle.jrn_book.specs.inner.Reading.{RefusesHead, RefusesRecords};
ghost use Rattle.jrn_book.specs.Versions.{head_in};

use crate::past::Past;
use crate::version::Version;
use corr_text::Text;
use day_model::Accounts;
use jrn_codec::{EntryFault, read_head, read_head_1};
use jrn_file::OpenFault;
use std::alloc::Global;

/// How many bytes a record takes after its gate, and the gate's.
fn size(bytes: &[u8]) -> u64
    ensures { result ≡ 5 + length bytes.now }
{
    5 + bytes.len() as u64
}

/// The accounts of a header record of a version.
fn head_of(alloc: Global, version: Version, head: &[u8]) -> Result<Accounts, EntryFault>
    ensures found { IfOk result (λ a. IsHead a × (head.now ≡ head_in version a)) }
    ensures only { (chart : Chart) → IsHead chart → head.now ≡ head_in version chart → IsGiven chart result }
{
    match version {
        Version::One => read_head_1(alloc, head),
        Version::Two => read_head(alloc, head),
    }
}

/// Why a record is no header of a version.
fn no_head(alloc: Global, version: Version, head: &[u8]) -> OpenFault
    requires { (chart : Chart) → IsHead chart → head.now ≡ head_in version chart → ⊥ }
    ensures { RefusesHead version head.now result }
{
    let other = version.other();
    match head_of(alloc, other, head) {
        Ok(_) => OpenFault::Version {
            found: other.number(),
        },
        Err(EntryFault::NoEntry) => OpenFault::NotAJournal,
        Err(EntryFault::Memory) => OpenFault::Memory,
    }
}

/// The accounts of a header record of this version.
fn read_accounts(alloc: Global, version: Version, head: &[u8]) -> Result<Accounts, OpenFault>
    ensures found { IfOk result (λ a. IsHead a × (head.now ≡ head_in version a)) }
    ensures fault { IfErr result (RefusesHead version head.now) }
{
    match head_of(alloc, version, head) {
        Ok(accounts) => Ok(accounts),
        Err(EntryFault::NoEntry) => Err(no_head(alloc, version, head)),
        Err(EntryFault::Memory) => Err(OpenFault::Memory),
    }
}

/// Reads the records of items after others, which end at this place, up to the first that is refused.
fn read_items(
    alloc: Global,
    version: Version,
    past: &mut Past,
    records: &[Text],
    start: u64,
) -> Result<(), OpenFault>
    requires good { IsJournalIn version past.old.accounts past.old.history }
    requires place { start ≡ size_of (all_records_in version past.old.accounts past.old.history) }
    ensures read { OnOk result (all_records_in version past.new.accounts past.new.history ≡ all_records_in version past.old.accounts past.old.history ++ records.now) }
    ensures good { OnOk result (IsJournalIn version past.new.accounts past.new.history) }
    ensures fault { IfErr result (RefusesRecords version (all_records_in version past.old.accounts past.old.history ++ records.now)) }
{
    let mut at = start;
    for next in records {
        match past.read_next(alloc, version, next.bytes()) {
            Ok(()) => at = at.saturating_add(size(next.bytes())),
            Err(EntryFault::NoEntry) => return Err(OpenFault::Damaged { at }),
            Err(EntryFault::Memory) => return Err(OpenFault::Memory),
        }
    }
    Ok(())
}

/// The past that a header record and the records after it say, or the first of them that is refused.
pub(crate) fn read_records(
    alloc: Global,
    version: Version,
    records: &[Text],
) -> Result<Past, OpenFault>
    ensures past { IfOk result (λ past. records.now ≡ all_records_in version past.accounts past.history) }
    ensures good { IfOk result (λ past. IsJournalIn version past.accounts past.history) }
    ensures fault { IfErr result (RefusesRecords version records.now) }
{
    match records {
        [] => Err(OpenFault::NotAJournal),
        [head, items @ ..] => {
            let accounts = read_accounts(alloc, version, head.bytes())?;
            let mut past = Past::new(alloc, accounts)?;
            read_items(alloc, version, &mut past, items, size(head.bytes()))?;
            Ok(past)
        }
    }
}
