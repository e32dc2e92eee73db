//! Changing the accounts of a journal.

ghost use Rattle.std.specs.Prelude.{◌≡◌, ◌+◌, ◌≤◌, ℕ, List, None, length, IfErr, IfOk, IsTrue};
ghost use Rattle.corr_disk.specs.Calls.{AtMostCalls, CallsMade};
ghost use Rattle.corr_disk.specs.Disk.{LeavesOnly, Only};
ghost use Rattle.day_model.specs.declared.entry.Entry.{Entry};
ghost use Rattle.day_model.specs.Chart.{Chart, with_change};
ghost use Rattle.day_model.specs.Legal.{IsInForm};
ghost use Rattle.jrn_file.specs.File.{IsSettled, disk_of, end_of};
ghost use Rattle.jrn_file.specs.Journal.{frame_of};
ghost use Rattle.jrn_file.specs.Pieces.{calls_to_open, piece_size};
ghost use Rattle.jrn_file.specs.Reading.{opened_of};
ghost use Rattle.jrn_file.specs.Untouched.{IsUntouched};
ghost use Rattle.jrn_codec.specs.Change.{IsWhat, NumberFits, change_bytes, most_change_bytes};
ghost use Rattle.jrn_codec.specs.Header.{head_bytes};
ghost use Rattle.jrn_book.specs.Batches.{gate_of};
ghost use Rattle.jrn_book.specs.Changing.{ChangeAnswers, ChangeShows, ChangeTells, LeavesDisk, calls_to_change, disk_left, fault_in, fault_of, refused_now};
ghost use Rattle.jrn_book.specs.inner.Changing.{IsRefusedBy};
ghost use Rattle.jrn_book.specs.Journal.{IsBeforeOrChanged, IsJournal, StandsForBook, item_records};
ghost use Rattle.jrn_book.specs.Opening.{Finding, IsFound, book};

use crate::opening::open_past;
use crate::past::Past;
use crate::room::put_frame;
use corr_disk::Disk;
use corr_text::{Buf, Memory, Text};
use day_model::{Refusal, What};
use jrn_codec::put_change;
use jrn_file::{AppendFault, JFile, OpenFault};
use std::alloc::Global;

/// Why the accounts of a journal were not changed: the first of these.
///
/// - `Open`: the journal could not be opened.
/// - `Unknown`, `Rows`, `Double`, `Currency`, `Limits`: as `Accounts::refuses` says of the accounts and the balances of now.
/// - `Full`: the file would pass 2^30 bytes. `end` is the place of the closed gate, and `need` the length of the change's record and 6.
/// - `DiskFault`: a call of the disk failed over the change: its count of faults before and after.
/// - `Memory`: there was none.
#[derive(Drop)]
pub enum ChangeFault {
    Open(OpenFault),
    Unknown,
    Rows,
    Double { row: u32 },
    Currency,
    Limits { account: u32 },
    Full { end: u64, need: u64 },
    DiskFault { before: u64, after: u64 },
    Memory,
}

impl From<corr_text::Memory> for ChangeFault {
    ghost use Rattle.std.specs.Prelude.{◌≡◌};
    ghost use Rattle.jrn_book.specs.declared.changing.ChangeFault.TheVariants as change_fault;

    ghost from_gives = { λ _ e. e ≡ change_fault.Memory };

    fn from(_: corr_text::Memory) -> ChangeFault {
        ChangeFault::Memory
    }
}

fn fault_of(refusal: Refusal) -> ChangeFault
    ensures { result ≡ fault_of refusal }
{
    match refusal {
        Refusal::Unknown => ChangeFault::Unknown,
        Refusal::Rows => ChangeFault::Rows,
        Refusal::Double { row } => ChangeFault::Double { row },
        Refusal::Currency => ChangeFault::Currency,
        Refusal::Limits { account } => ChangeFault::Limits { account },
    }
}

/// The record of a change as it is appended.
fn frame_with(alloc: Global, what: &What) -> Result<Buf, Memory>
    requires form { IsInForm what.now }
    requires number { NumberFits what.now }
    ensures frame { IfOk result (λ frame. frame.bytes ≡ frame_of (change_bytes what.now)) }
    ensures written { IfOk result (λ frame. IsWhat what.now) }
    ensures few { IfOk result (λ frame. length (change_bytes what.now) ≤ most_change_bytes) }
{
    let mut body = Text::from_bytes(alloc, &[])?;
    put_change(what, &mut body)?;
    let mut frame = Buf::new(alloc);
    frame.reserve(body.bytes().len() as u64 + 5)?;
    put_frame(&mut frame, body.bytes())?;
    Ok(frame)
}

/// The record of a change as it is appended, or why it is not made.
fn prepare(alloc: Global, past: &Past, what: &What) -> Result<Buf, ChangeFault>
    requires form { IsInForm what.now }
    ensures frame { IfOk result (λ frame. frame.bytes ≡ frame_of (change_bytes what.now)) }
    ensures written { IfOk result (λ frame. IsWhat what.now × (length (change_bytes what.now) ≤ most_change_bytes)) }
    ensures legal { IfOk result (λ frame. refused_now past.now.accounts past.now.history what.now ≡ None) }
    ensures fault { IfErr result (IsRefusedBy (refused_now past.now.accounts past.now.history what.now)) }
{
    if let Some(refusal) = past.refusal(what) {
        return Err(fault_of(refusal));
    }
    // Limits that are not refused are of an account that is there, so its number has two bytes.
    let _ = past.accounts();
    let frame = frame_with(alloc, what)?;
    Ok(frame)
}

/// Appends the frame of the record of a legal change.
fn enter<D: Disk>(
    past: &Past,
    what: &What,
    file: JFile<D>,
    frame: &[u8],
) -> Result<D, (D, ChangeFault)>
    requires written { IsWhat what.now × (length (change_bytes what.now) ≤ most_change_bytes) }
    requires legal { refused_now past.now.accounts past.now.history what.now ≡ None }
    requires frame { frame.now ≡ frame_of (change_bytes what.now) }
    requires settled { IsSettled D.honest D.reads D.may_leave file (head_bytes past.now.accounts) (item_records past.now.accounts past.now.history) }
    ensures shows { ChangeShows past.now.accounts past.now.history what.now (end_of file) (D.faults (disk_of file)) (D.faults (disk_left result)) (fault_in result) }
    ensures changed { IfOk result (λ disk. IsJournal (with_change past.now.accounts (length past.now.history) what.now) past.now.history) }
    ensures stands { IfOk result (λ disk. IsTrue (D.honest disk) → StandsForBook (D.reads disk) (with_change past.now.accounts (length past.now.history) what.now) past.now.history × Only (D.reads disk) (D.may_leave disk)) }
    ensures any_moment { IsTrue (D.honest (disk_of file)) → LeavesOnly D.moment D.left_since (disk_of file) (disk_left result) (IsBeforeOrChanged past.now.accounts past.now.history what.now) }
    ensures untouched { IfErr result (λ e. LeavesDisk e.1 (e.0 ≡ disk_of file)) }
    ensures calls { IfOk result (λ disk. CallsMade 4 (D.plan (disk_of file)) (D.plan disk)) }
    ensures no_more_calls { AtMostCalls 4 (D.plan (disk_of file)) (D.plan (disk_left result)) }
    ensures honest { D.honest (disk_left result) ≡ D.honest (disk_of file) }
{
    let mut file = file;
    // What always holds of a past: its history is legal, and so it is with the change.
    let _ = past.history();
    match file.append(frame) {
        Ok(()) => Ok(file.into_disk()),
        Err(AppendFault::Full { end, need }) => {
            Err((file.into_disk(), ChangeFault::Full { end, need }))
        }
        Err(AppendFault::DiskFault { before, after }) => {
            Err((file.into_disk(), ChangeFault::DiskFault { before, after }))
        }
    }
}

/// Changes the accounts of an open journal, whose past this is: an account is opened, or an account gets another floor and
/// ceiling, in minor units. The change comes after all entries, and is on the disk at Ok.
///
/// A new account has the form of its columns, as `has_form` of day_model says it; its opening and its limits may be any.
///
/// The faults come in the order of `ChangeFault`, but `Open`, which never comes, and `Memory`, which may come before `Full` and never
/// before a refusal; `DiskFault` comes only where the disk's count of faults rose. After all but `DiskFault` the disk is as before.
pub fn change_opened<D: Disk>(
    alloc: Global,
    past: &Past,
    file: JFile<D>,
    what: &What,
) -> Result<D, (D, ChangeFault)>
    requires form { IsInForm what.now }
    requires settled { IsSettled D.honest D.reads D.may_leave file (head_bytes past.now.accounts) (item_records past.now.accounts past.now.history) }

    // The answer, and what it tells.
    ensures shows { ChangeShows past.now.accounts past.now.history what.now (end_of file) (D.faults (disk_of file)) (D.faults (disk_left result)) (fault_in result) }

    // At Ok the accounts with the change, and the history, are those of a journal, and stand on the disk, which a crash leaves so.
    ensures changed { IfOk result (λ disk. IsJournal (with_change past.now.accounts (length past.now.history) what.now) past.now.history) }
    ensures stands { IfOk result (λ disk. IsTrue (D.honest disk) → StandsForBook (D.reads disk) (with_change past.now.accounts (length past.now.history) what.now) past.now.history × Only (D.reads disk) (D.may_leave disk)) }

    // A crash at any moment leaves the accounts with the change or without it.
    ensures any_moment { IsTrue (D.honest (disk_of file)) → LeavesOnly D.moment D.left_since (disk_of file) (disk_left result) (IsBeforeOrChanged past.now.accounts past.now.history what.now) }
    ensures untouched { IfErr result (λ e. LeavesDisk e.1 (e.0 ≡ disk_of file)) }

    // It makes four calls of the disk, and no more where it fails.
    ensures calls { IfOk result (λ disk. CallsMade 4 (D.plan (disk_of file)) (D.plan disk)) }
    ensures no_more_calls { AtMostCalls 4 (D.plan (disk_of file)) (D.plan (disk_left result)) }
    ensures honest { D.honest (disk_left result) ≡ D.honest (disk_of file) }
{
    match prepare(alloc, past, what) {
        Ok(frame) => enter(past, what, file, frame.bytes()),
        Err(fault) => Err((file.into_disk(), fault)),
    }
}

/// Opens a journal as `open_past` does, and changes its accounts as `change_opened` does.
///
/// A new account has the form of its columns, as `has_form` of day_model says it; its opening and its limits may be any.
///
/// `Open` comes exactly where `open_book` refuses, with its fault; what comes after it is that of `change_opened`. The disk comes
/// back with each fault: after all but `DiskFault` nothing was written.
pub fn change_book<D: Disk>(alloc: Global, disk: D, what: &What) -> Result<D, (D, ChangeFault)>
    requires form { IsInForm what.now }

    // What it answers is what the bytes are: of a book's accounts and history what their change tells, or the refusal of what else
    // they are.
    ensures told { IsTrue (D.honest disk) → ChangeTells (opened_of (D.reads disk)) (fault_in result) }
    ensures answers { IsTrue (D.honest disk) → (finding : Finding) → IsFound (opened_of (D.reads disk)) finding
        → ChangeAnswers finding what.now (D.faults disk) (D.faults (disk_left result)) (fault_in result) }

    // At Ok the accounts with the change, and the history, stand on the disk, which a crash leaves so.
    ensures changed { IsTrue (D.honest disk) → (chart : Chart) (history : List Entry) → IsFound (opened_of (D.reads disk)) (book chart history)
        → IfOk result (λ new. IsJournal (with_change chart (length history) what.now) history
        × StandsForBook (D.reads new) (with_change chart (length history) what.now) history × Only (D.reads new) (D.may_leave new)) }

    // Where whatever a crash left stood for the journal, at each moment it leaves the accounts with the change or without it.
    ensures any_moment { IsTrue (D.honest disk) → (chart : Chart) (history : List Entry) → IsFound (opened_of (D.reads disk)) (book chart history)
        → ((image : List ℕ) → D.may_leave disk image → StandsForBook image chart history)
        → LeavesOnly D.moment D.left_since disk (disk_left result) (IsBeforeOrChanged chart history what.now) }
    ensures untouched { IfErr result (λ e. LeavesDisk e.1 (IsUntouched D.reads D.may_leave D.moment D.left_since disk e.0)) }

    // It makes as many calls as a sync and a read of each 2^16 bytes up to the closed gate are, and then four; where it refuses at
    // most up to the end, and then none.
    ensures calls { IsTrue (D.honest disk) → (chart : Chart) (history : List Entry) → IsFound (opened_of (D.reads disk)) (book chart history)
        → IfOk result (λ new. CallsMade (calls_to_open piece_size (gate_of chart history) + 4) (D.plan disk) (D.plan new)) }
    ensures no_more_calls { IsTrue (D.honest disk)
        → AtMostCalls (calls_to_open piece_size (length (D.reads disk)) + calls_to_change (fault_in result)) (D.plan disk) (D.plan (disk_left result)) }
    ensures honest { D.honest (disk_left result) ≡ D.honest disk }
{
    match open_past(alloc, disk) {
        Ok((past, file)) => change_opened(alloc, &past, file, what),
        Err((disk, fault)) => Err((disk, ChangeFault::Open(fault))),
    }
}
