//! Opening a book.

ghost use Rattle.std.specs.Prelude.{◌≡◌, ◌++◌, List, None, length, map, IfErr, IfOk, IfSome, IsTrue, MatchResult};
ghost use Rattle.corr_disk.specs.Calls.{AtMostCalls, CallsMade};
ghost use Rattle.corr_ids.specs.declared.day.Day.{Day as TheDay};
ghost use Rattle.day_model.specs.declared.pay.Pay.{Pay};
ghost use Rattle.day_model.specs.declared.entry.Entry.{Entry};
ghost use Rattle.day_model.specs.Items.{items_of};
ghost use Rattle.day_model.specs.Next.{fold_of};
ghost use Rattle.jrn_file.specs.File.{IsSettled, disk_of, end_of};
ghost use Rattle.jrn_file.specs.Opening.{IsOpened};
ghost use Rattle.jrn_file.specs.Pieces.{calls_to_open, piece_size};
ghost use Rattle.jrn_file.specs.Reading.{cut, opened_of, size_of, whole};
ghost use Rattle.jrn_file.specs.Untouched.{IsUntouched};
ghost use Rattle.jrn_codec.specs.Header.{head_bytes};
ghost use Rattle.jrn_book.specs.declared.version.Version.TheVariants.{One, Two};
ghost use Rattle.jrn_book.specs.Journal.{IsJournal, IsJournalIn, all_records_in, item_records};
ghost use Rattle.jrn_book.specs.Opening.{BookOpenCause, Finding, HasPurses, IsFound, IsFoundIn, IsNewBook, finding_in, found_by};
ghost use Rattle.jrn_book.specs.Reading.{old_in, past_in};
ghost use Rattle.jrn_book.specs.inner.Reading.{IsOfBytes};
ghost use Rattle.jrn_book.specs.Resuming.{ResumesRun};
ghost use Rattle.jrn_book.specs.Versions.{bytes_in, head_in};

use crate::book::JrnBook;
use crate::past::Past;
use crate::reading::read_records;
use crate::version::Version;
use acct_locks::Loose;
use corr_disk::Disk;
use corr_text::{Memory, Text, let_go};
use day_model::{Accounts, History};
use jrn_file::{Ending, JFile, OpenFault, read_file};
use std::alloc::Global;

/// Opens the book of a journal that a stop at any moment may have left: its accounts with their changes, its history up to the
/// first closed gate, and a purse for each account with its totals after the history, in minor units. Each entry is decided by
/// running totals, under the limits that its accounts had then.
///
/// It takes the disk, syncs it first, reads it once in rising order, 2^16 bytes a call, and writes nothing. It takes memory for
/// the records as they are read, the accounts, the entries, an index of their references, and the purses.
///
/// `NotAJournal` comes exactly where the disk is empty, its first byte is 0, its first record isn't whole, or that isn't a
/// header of version 1 or 2; `Version` exactly where it is a header of version 1. `Damaged` comes exactly where a later open
/// gate has no whole record after it, or one that isn't an entry or a change or isn't the legal next one (an entry: a new
/// reference, a day not before the last, accounts that are there, the outcome that what stands before it gives; a change: what
/// `Accounts::refuses` asks of it), and tells the first such gate's place, in bytes from the start. `DiskFault` comes only where
/// a call of the disk failed, with its count of faults before and after. `Memory`: there is none.
///
/// With each refusal the disk comes back, with nothing written; its count of faults has risen by one at `DiskFault`, and is as
/// it was at every other answer.
pub fn open_book<D: Disk>(alloc: Global, disk: D) -> Result<(JrnBook<D>, Loose), (D, OpenFault)>
    ensures opened { IfOk result (λ r. IsNewBook D.honest D.reads D.may_leave D.faults r.0) }
    ensures purses { IfOk result (λ r. HasPurses r.0 r.1) }

    // What it answers is what the bytes are, and what they are is what it answers, unless the disk or memory failed.
    ensures told { IsTrue (D.honest disk) → IfSome (finding_in result) (IsFound (opened_of (D.reads disk))) }
    ensures only { IsTrue (D.honest disk) → (finding : Finding) → IsFound (opened_of (D.reads disk)) finding → IfSome (finding_in result) (λ found. found ≡ finding) }
    ensures cause { IfErr result (λ e. BookOpenCause (D.faults disk) (D.faults e.0) e.1) }

    // A run that stopped with this history and is given again from its first pay makes what it would have made.
    ensures again { IfOk result (λ r. (start : List Entry) (done more : List Pay) (day : TheDay) → r.0.history ≡ fold_of r.0.accounts start done day
        → ResumesRun r.0.accounts start (done ++ more) day r.0.history) }

    // Nothing is written, whatever the answer.
    ensures untouched { MatchResult result
        (λ r. IsUntouched D.reads D.may_leave D.moment D.left_since disk (disk_of r.0.file))
        (λ e. IsUntouched D.reads D.may_leave D.moment D.left_since disk e.0) }

    // It makes as many calls as a sync and a read of each 2^16 bytes up to the closed gate are.
    ensures calls { IfOk result (λ r. CallsMade (calls_to_open piece_size (end_of r.0.file)) (D.plan disk) (D.plan (disk_of r.0.file))) }
    ensures no_more_calls { IsTrue (D.honest disk) → IfErr result (λ e. AtMostCalls (calls_to_open piece_size (length (D.reads disk))) (D.plan disk) (D.plan e.0)) }

    ensures honest { MatchResult result (λ r. D.honest (disk_of r.0.file) ≡ D.honest disk) (λ e. D.honest e.0 ≡ D.honest disk) }
    ensures kept { IfOk result (λ r. D.faults (disk_of r.0.file) ≡ D.faults disk) }
{
    match open_past(alloc, disk) {
        Ok((past, file)) => give(alloc, past, file),
        Err(refused) => Err(refused),
    }
}

/// Opens the journal of a book without its purses: what its records say, and the file, to which more may be appended. In all
/// else it is `open_book`.
pub fn open_past<D: Disk>(alloc: Global, disk: D) -> Result<(Past, JFile<D>), (D, OpenFault)>
    ensures journal { IfOk result (λ r. IsJournal r.0.accounts r.0.history) }
    ensures settled { IfOk result (λ r. IsSettled D.honest D.reads D.may_leave r.1 (head_bytes r.0.accounts) (item_records r.0.accounts r.0.history)) }

    // What it answers is what the bytes are, and what they are is what it answers, unless the disk or memory failed.
    ensures told { IsTrue (D.honest disk) → IfSome (past_in result) (IsFound (opened_of (D.reads disk))) }
    ensures only { IsTrue (D.honest disk) → (finding : Finding) → IsFound (opened_of (D.reads disk)) finding → IfSome (past_in result) (λ found. found ≡ finding) }
    ensures cause { IfErr result (λ e. BookOpenCause (D.faults disk) (D.faults e.0) e.1) }

    // Nothing is written, whatever the answer.
    ensures untouched { MatchResult result
        (λ r. IsUntouched D.reads D.may_leave D.moment D.left_since disk (disk_of r.1))
        (λ e. IsUntouched D.reads D.may_leave D.moment D.left_since disk e.0) }

    // It makes as many calls as a sync and a read of each 2^16 bytes up to the closed gate are.
    ensures calls { IfOk result (λ r. CallsMade (calls_to_open piece_size (end_of r.1)) (D.plan disk) (D.plan (disk_of r.1))) }
    ensures no_more_calls { IsTrue (D.honest disk) → MatchResult result
        (λ r. AtMostCalls (calls_to_open piece_size (length (D.reads disk))) (D.plan disk) (D.plan (disk_of r.1)))
        (λ e. AtMostCalls (calls_to_open piece_size (length (D.reads disk))) (D.plan disk) (D.plan e.0)) }

    ensures honest { MatchResult result (λ r. D.honest (disk_of r.1) ≡ D.honest disk) (λ e. D.honest e.0 ≡ D.honest disk) }
    ensures kept { IfOk result (λ r. D.faults (disk_of r.1) ≡ D.faults disk) }
{
    open_version(alloc, Version::Two, disk)
}

/// Reads a journal of version 1, whose accounts don't change: its accounts, its history up to the first closed gate, and the
/// disk, on which nothing is written.
///
/// `NotAJournal` comes exactly where the first record isn't whole or no header of version 1 or 2; `Version` exactly where it is
/// one of version 2; `Damaged`, `DiskFault` and `Memory` as in `open_book`, over the entries of version 1.
pub fn open_old<D: Disk>(alloc: Global, disk: D) -> Result<(Accounts, History, D), (D, OpenFault)>
    ensures journal { IfOk result (λ r. IsJournalIn One r.0 r.1.entries) }

    // What it answers is what the bytes are, and what they are is what it answers, unless the disk or memory failed.
    ensures told { IsTrue (D.honest disk) → IfSome (old_in result) (IsFoundIn One (opened_of (D.reads disk))) }
    ensures only { IsTrue (D.honest disk) → (finding : Finding) → IsFoundIn One (opened_of (D.reads disk)) finding → IfSome (old_in result) (λ found. found ≡ finding) }
    ensures cause { IfErr result (λ e. BookOpenCause (D.faults disk) (D.faults e.0) e.1) }

    // Nothing is written, whatever the answer.
    ensures untouched { MatchResult result
        (λ r. IsUntouched D.reads D.may_leave D.moment D.left_since disk r.2)
        (λ e. IsUntouched D.reads D.may_leave D.moment D.left_since disk e.0) }

    // It makes as many calls as a sync and a read of each 2^16 bytes up to the closed gate, which stands after all records, are.
    ensures calls { IfOk result (λ r. CallsMade (calls_to_open piece_size (size_of (all_records_in One r.0 r.1.entries))) (D.plan disk) (D.plan r.2)) }
    ensures no_more_calls { IsTrue (D.honest disk) → MatchResult result
        (λ r. AtMostCalls (calls_to_open piece_size (length (D.reads disk))) (D.plan disk) (D.plan r.2))
        (λ e. AtMostCalls (calls_to_open piece_size (length (D.reads disk))) (D.plan disk) (D.plan e.0)) }

    ensures honest { MatchResult result (λ r. D.honest r.2 ≡ D.honest disk) (λ e. D.honest e.0 ≡ D.honest disk) }
    ensures kept { IfOk result (λ r. D.faults r.2 ≡ D.faults disk) }
{
    match open_version(alloc, Version::One, disk) {
        Ok((past, file)) => {
            let Past {
                accounts,
                history,
                index: _,
                pairs: _,
            } = past;
            Ok((accounts, history, file.into_disk()))
        }
        Err(refused) => Err(refused),
    }
}

/// Opens the journal of a version.
fn open_version<D: Disk>(
    alloc: Global,
    version: Version,
    disk: D,
) -> Result<(Past, JFile<D>), (D, OpenFault)>
    ensures journal { IfOk result (λ r. IsJournalIn version r.0.accounts r.0.history) }
    ensures settled { IfOk result (λ r. IsSettled D.honest D.reads D.may_leave r.1 (head_in version r.0.accounts) (map (bytes_in version) (items_of r.0.accounts r.0.history))) }
    ensures told { IsTrue (D.honest disk) → IfSome (past_in result) (IsFoundIn version (opened_of (D.reads disk))) }
    ensures only { IsTrue (D.honest disk) → (finding : Finding) → IsFoundIn version (opened_of (D.reads disk)) finding → IfSome (past_in result) (λ found. found ≡ finding) }
    ensures cause { IfErr result (λ e. BookOpenCause (D.faults disk) (D.faults e.0) e.1) }
    ensures untouched { MatchResult result
        (λ r. IsUntouched D.reads D.may_leave D.moment D.left_since disk (disk_of r.1))
        (λ e. IsUntouched D.reads D.may_leave D.moment D.left_since disk e.0) }
    ensures calls { IfOk result (λ r. CallsMade (calls_to_open piece_size (end_of r.1)) (D.plan disk) (D.plan (disk_of r.1))) }
    ensures no_more_calls { IsTrue (D.honest disk) → MatchResult result
        (λ r. AtMostCalls (calls_to_open piece_size (length (D.reads disk))) (D.plan disk) (D.plan (disk_of r.1)))
        (λ e. AtMostCalls (calls_to_open piece_size (length (D.reads disk))) (D.plan disk) (D.plan e.0)) }
    ensures honest { MatchResult result (λ r. D.honest (disk_of r.1) ≡ D.honest disk) (λ e. D.honest e.0 ≡ D.honest disk) }
    ensures kept { IfOk result (λ r. D.faults (disk_of r.1) ≡ D.faults disk) }
{
    match read_file(alloc, disk) {
        Ok((records, ending)) => match ending {
            Ending::Open(file) => open_whole(alloc, version, records.as_slice(), file),
            Ending::Damaged { disk, at } => {
                Err((disk, refusal(alloc, version, records.as_slice(), at)))
            }
        },
        Err(refused) => Err(refused),
    }
}

/// The past of a file that holds these records.
fn open_whole<D: Disk>(
    alloc: Global,
    version: Version,
    records: &[Text],
    file: JFile<D>,
) -> Result<(Past, JFile<D>), (D, OpenFault)>
    requires open { IsOpened D.honest D.reads D.may_leave file records.now }
    ensures journal { IfOk result (λ r. IsJournalIn version r.0.accounts r.0.history) }
    ensures settled { IfOk result (λ r. IsSettled D.honest D.reads D.may_leave r.1 (head_in version r.0.accounts) (map (bytes_in version) (items_of r.0.accounts r.0.history))) }
    ensures file { IfOk result (λ r. r.1 ≡ file) }
    ensures told { IfSome (past_in result) (IsFoundIn version (whole records.now)) }
    ensures disk { IfErr result (λ e. (e.0 ≡ disk_of file) × IsOfBytes e.1) }
{
    // The closed gate stands after the records, so their sizes fit 64 bits together.
    let _ = file.end();
    match read_records(alloc, version, records) {
        Ok(past) => Ok((past, file)),
        Err(fault) => Err((file.into_disk(), fault)),
    }
}

/// Why records after which no whole one stands at this place are no book's journal.
fn refusal(alloc: Global, version: Version, records: &[Text], at: u64) -> OpenFault
    ensures told { at ≡ size_of records.now → IfSome (found_by result) (IsFoundIn version (cut records.now at)) }
    ensures bytes { IsOfBytes result }
{
    match read_records(alloc, version, records) {
        Ok(past) => {
            let_go(past);
            OpenFault::Damaged { at }
        }
        Err(fault) => fault,
    }
}

/// The book of a past that a file holds, and its purses.
fn give<D: Disk>(
    alloc: Global,
    past: Past,
    file: JFile<D>,
) -> Result<(JrnBook<D>, Loose), (D, OpenFault)>
    requires settled { IsSettled D.honest D.reads D.may_leave file (head_bytes past.accounts) (item_records past.accounts past.history) }
    ensures opened { IfOk result (λ r. IsNewBook D.honest D.reads D.may_leave D.faults r.0) }
    ensures purses { IfOk result (λ r. HasPurses r.0 r.1) }
    ensures past { IfOk result (λ r. (r.0.accounts ≡ past.accounts) × (r.0.history ≡ past.history) × (r.0.file ≡ file)) }
    ensures disk { IfErr result (λ e. (e.0 ≡ disk_of file) × (e.1 ≡ OpenFault.Memory)) }
{
    let Past {
        accounts,
        history,
        index,
        pairs,
    } = past;
    let (loose, sides) = match Loose::new(alloc, &accounts, &history) {
        Ok(purses) => purses,
        Err(Memory) => return Err((file.into_disk(), OpenFault::Memory)),
    };
    let at_open = file.faults();
    let book = JrnBook {
        accounts,
        history,
        index,
        sides,
        pairs,
        file,
        at_open,
        failed: None,
        room: None,
        alloc,
    };
    Ok((book, loose))
}
