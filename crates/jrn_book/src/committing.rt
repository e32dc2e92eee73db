//! Entering a pay.

ghost use Rattle.std.specs.Prelude.{◌≡◌, ◌+◌, ◌<◌, ◌≤◌, ◌++◌, ◌∷◌, [], ℕ, All, List, Err, true, false, None, Some, length, IsTrue, OnOk, IfErr};
ghost use Rattle.corr_disk.specs.Calls.{AtMostCalls, CallsMade};
ghost use Rattle.corr_disk.specs.Disk.{LeavesOnly};
ghost use Rattle.corr_ids.specs.Day.{InCentury};
ghost use Rattle.day_model.specs.Fit.{FitsAccounts};
ghost use Rattle.day_model.specs.Laws.{IsLatest};
ghost use Rattle.day_model.specs.Legal.{IsLegal};
ghost use Rattle.day_model.specs.Log.{most_entries};
ghost use Rattle.day_model.specs.declared.entry.Outcome.TheVariants.{Booked};
ghost use Rattle.day_model.specs.Chart.{IsChart, accounts_of};
ghost use Rattle.day_model.specs.declared.pay.Pay.{Pay as ThePay};
ghost use Rattle.day_model.specs.declared.entry.Entry.{Entry as TheEntry};
ghost use Rattle.day_model.specs.Next.{entered_at, entry_of, fold_of};
ghost use Rattle.day_model.specs.Totals.{HasTotals, totals_of};
ghost use Rattle.day_model.specs.Shape.{HasShape};
ghost use Rattle.acct_locks.specs.Holdings.{held_totals, held_with};
ghost use Rattle.jrn_file.specs.File.{IsOpen, IsSettled, disk_of, end_of};
ghost use Rattle.jrn_file.specs.Journal.{IsBeforeOrAfter, IsFrame, frame_of, record_in};
ghost use Rattle.jrn_codec.specs.Header.{head_bytes};
ghost use Rattle.jrn_codec.specs.Record.{IsEntry, entry_bytes, most_record_bytes};
ghost use Rattle.jrn_book.specs.Answers.{IsAnswered, AnswerShows, calls_disk, failed_after, history_after, legs_entered};
ghost use Rattle.jrn_book.specs.Book.{Counts};
ghost use Rattle.jrn_book.specs.inner.Commits.{Commits};
ghost use Rattle.jrn_book.specs.inner.Appending.{Repeats, ShowsAppend};
ghost use Rattle.jrn_book.specs.Deciding.{HoldsAll};
ghost use Rattle.jrn_book.specs.inner.Index.{place_in};
ghost use Rattle.jrn_book.specs.Journal.{IsBeforeOrNext, IsJournal, file_of, item_records};
ghost use Rattle.jrn_book.specs.Resuming.{IsResumable};

use crate::answer::{CommitFault, Committed, Failed};
use crate::book::JrnBook;
use crate::deciding::{decide_held, settle_entry};
use crate::index::Index;
use crate::room::Room;
use acct_locks::{BookSides, Held};
use corr_disk::Disk;
use corr_ids::Day;
use corr_text::Buf;
use day_model::{Accounts, Entry, History, MOST_ENTRIES, Pay, add_legs, legs_booked};
use jrn_file::{AppendFault, JFile};

/// Appends a frame, unless there are as many entries as a history has at most, or the file is full.
fn append<D: Disk>(file: &mut JFile<D>, entries: u32, frame: &[u8]) -> Result<(), CommitFault>
    requires settled { IsOpen D.honest D.reads D.may_leave file.old }
    requires frame { IsFrame frame.now }
    ensures shows { ShowsAppend entries (end_of file.old) (length frame.now + 1) (D.faults (disk_of file.old)) (D.faults (disk_of file.new)) result }
    ensures same { IfErr result (λ fault. calls_disk (Err fault) ≡ false → file.new ≡ file.old) }
    ensures ok { OnOk result ((head : List ℕ) (records : List (List ℕ)) → IsSettled D.honest D.reads D.may_leave file.old head records
        → IsSettled D.honest D.reads D.may_leave file.new head (records ++ record_in frame.now ∷ [])) }
    ensures any_moment { (head : List ℕ) (records : List (List ℕ)) → IsSettled D.honest D.reads D.may_leave file.old head records
        → IsTrue (D.honest (disk_of file.old))
        → LeavesOnly D.moment D.left_since (disk_of file.old) (disk_of file.new) (IsBeforeOrAfter head records (record_in frame.now)) }
    ensures calls { OnOk result (CallsMade 4 (D.plan (disk_of file.old)) (D.plan (disk_of file.new))) }
    ensures no_more_calls { AtMostCalls 4 (D.plan (disk_of file.old)) (D.plan (disk_of file.new)) }
    ensures honest { D.honest (disk_of file.new) ≡ D.honest (disk_of file.old) }
    ensures later { D.faults (disk_of file.old) ≤ D.faults (disk_of file.new) }
{
    if entries == MOST_ENTRIES {
        return Err(CommitFault::Full {
            entries,
            end: file.end(),
            need: frame.len() as u64 + 1,
        });
    }
    match file.append(frame) {
        Ok(()) => Ok(()),
        Err(AppendFault::Full { end, need }) => Err(CommitFault::Full { entries, end, need }),
        Err(AppendFault::DiskFault { before, after }) => {
            Err(CommitFault::DiskFault { before, after })
        }
    }
}

/// The entry that a pay becomes by the totals of held accounts, each of which agrees with the sides, and its frame.
fn prepare<H: Held>(
    a: &Accounts,
    h: &History,
    sides: &mut BookSides,
    held: &mut H,
    room: Room,
    day: Day,
) -> (Entry, Buf)
    requires chart { IsChart a.now }
    requires legal { IsLegal a.now h.now.entries }
    requires totals { HasTotals sides.old.pairs (length (accounts_of a.now)) h.now.entries }
    requires fits { FitsAccounts a.now room }
    requires held { HoldsAll (H.held held.old) room.legs }
    requires table { sides.old.table ≡ H.table held.old }
    requires century { InCentury day }
    ensures entry { result.0 ≡ entry_of a.now h.now.entries room day }
    ensures written { IsEntry result.0 }
    ensures frame { result.1.bytes ≡ frame_of (entry_bytes result.0) }
    ensures few { length (entry_bytes result.0) ≤ most_record_bytes }
    ensures agreed { result.0.outcome ≡ Booked → All (λ leg. held_totals (H.held held.old) leg.account.0 ≡ totals_of leg.account.0 h.now.entries) room.legs }
    ensures held_same { (H.held held.new ≡ H.held held.old) × (H.table held.new ≡ H.table held.old) × (H.count held.new ≡ H.count held.old) }
    ensures sides_same { sides.new ≡ sides.old }
{
    let outcome = decide_held(a, h, sides, held, room.legs());
    room.write(day, outcome)
}

/// Puts a new entry into the history and its reference into the index, for both of which there is room.
pub(crate) fn note(history: &mut History, index: &mut Index, entry: Entry)
    requires few { length history.old.entries < most_entries }
    requires many { length index.old.references < most_entries }
    requires new { place_in entry.pay.mir.0 index.old.references ≡ None }
    requires room { (1 ≤ history.old.spare) × (1 ≤ index.old.spare) }
    ensures history { history.new.entries ≡ history.old.entries ++ entry ∷ [] }
    ensures index { index.new.references ≡ index.old.references ++ entry.pay.mir.0 ∷ [] }
{
    index.push(&entry.pay.mir).unwrap();
    history.push(entry).unwrap();
}

/// The failure of a commit of one pay, where this fault comes on a day.
fn failed_by(fault: CommitFault, day: Day) -> Option<Failed>
    ensures { result ≡ failed_after 1 None day (Err fault) }
{
    match fault {
        CommitFault::DiskFault { .. } => Some(Failed { day, most: 1 }),
        CommitFault::Conflict { .. } | CommitFault::Full { .. } | CommitFault::Broken { .. } =>
            None,
        CommitFault::Memory => None,
    }
}

impl<D: Disk> JrnBook<D> {
    /// Enters a pay on a day, booked where the totals of the held accounts allow it, and adds its legs to the held purses.
    /// Where its reference is entered nothing changes. After `reserve` of the same pay it takes no memory.
    ///
    /// The pay fits the accounts and has the shape of one that can be written down; its accounts are held, of the purses that
    /// `open_book` gave with this book; the day is of 1980 to 2079, and no entry has a later one.
    ///
    /// In this order: `Broken` comes exactly where an earlier commit answered DiskFault; `Memory` where there is none;
    /// `Kept` exactly where the same pay is entered, and `Conflict` where another with its reference is; `Full` exactly where the
    /// history has 100,000 entries or the file would pass 2^30 bytes; `DiskFault` only where the disk's count of faults
    /// rose. At New the entry is on the disk. After a fault history and purses are as before.
    pub fn commit<H: Held>(
        &mut self,
        held: &mut H,
        p: &Pay,
        day: Day,
    ) -> Result<Committed, CommitFault>
        requires fits { FitsAccounts self.old.accounts p.now }
        requires shape { HasShape p.now }
        requires held { HoldsAll (H.held held.old) p.now.legs }
        requires table { self.old.table ≡ H.table held.old }
        requires century { InCentury day }
        requires latest { IsLatest self.old.history day }

        // The answer, and what it tells.
        ensures shows { AnswerShows self.old.accounts self.old.history p.now day (end_of self.old.file) self.old.failed self.old.at_open (D.faults (disk_of self.old.file)) (D.faults (disk_of self.new.file)) result }

        // The history grows by a new entry, its legs are added to the held purses, and nothing else changes.
        ensures history { self.new.history ≡ history_after self.old.accounts self.old.history p.now day result }
        ensures held { H.held held.new ≡ held_with (legs_entered self.old.accounts self.old.history p.now day result) (H.held held.old) }
        ensures purses { (H.table held.new ≡ H.table held.old) × (H.count held.new ≡ H.count held.old) }
        ensures same { self.new ≡ record self.old { history = self.new.history; file = self.new.file; failed = self.new.failed; room = self.new.room } }
        ensures failed { self.new.failed ≡ failed_after 1 self.old.failed day result }
        ensures legal { IsLegal self.new.accounts self.new.history }
        ensures journal { IsJournal self.new.accounts self.new.history }

        // The disk's count of faults never falls: it is that at the opening, and one more where a commit failed.
        ensures later { D.faults (disk_of self.old.file) ≤ D.faults (disk_of self.new.file) }
        ensures counts { Counts self.new.failed self.new.at_open (D.faults (disk_of self.new.file)) }

        // A crash at any moment of the call leaves the history from before it or the next one; after Ok the next one alone.
        ensures any_moment { self.old.failed ≡ None → IsTrue (D.honest (disk_of self.old.file))
            → LeavesOnly D.moment D.left_since (disk_of self.old.file) (disk_of self.new.file) (IsBeforeOrNext self.old.accounts self.old.history p.now day) }
        ensures durable { OnOk result (IsSettled D.honest D.reads D.may_leave self.new.file (head_bytes self.old.accounts) (item_records self.old.accounts self.new.history)) }
        ensures place { self.old.failed ≡ None → end_of self.old.file + 1 ≡ length (file_of self.old.accounts self.old.history) }

        // Where the history is that of a run so far, whatever a crash leaves stands for one from which the same run, given
        // again from its first pay, makes what it would have made.
        ensures resumes { (start : List TheEntry) (done more : List ThePay) → self.old.failed ≡ None → IsTrue (D.honest (disk_of self.old.file)) → self.old.history ≡ fold_of self.old.accounts start done day
            → LeavesOnly D.moment D.left_since (disk_of self.old.file) (disk_of self.new.file) (IsResumable self.old.accounts start (done ++ p.now ∷ more) day) }

        // It calls the disk where it enters or the disk fails, four times where it enters and no more where it fails.
        ensures file { calls_disk result ≡ false → self.new.file ≡ self.old.file }
        ensures calls { calls_disk result ≡ true → OnOk result (CallsMade 4 (D.plan (disk_of self.old.file)) (D.plan (disk_of self.new.file))) }
        ensures no_more_calls { AtMostCalls 4 (D.plan (disk_of self.old.file)) (D.plan (disk_of self.new.file)) }
        ensures honest { D.honest (disk_of self.new.file) ≡ D.honest (disk_of self.old.file) }

        ensures no_memory { self.old.room ≡ Some p.now → IsAnswered result }
    {
        let answer = self.answer(held, p, day);
        // What always holds of a book holds of the new one.
        let _file = &self.file;
        answer
    }

    /// Answers a pay: what `commit` tells, as one fact.
    fn answer<H: Held>(&mut self, held: &mut H, p: &Pay, day: Day) -> Result<Committed, CommitFault>
        requires fits { FitsAccounts self.old.accounts p.now }
        requires shape { HasShape p.now }
        requires held { HoldsAll (H.held held.old) p.now.legs }
        requires table { self.old.table ≡ H.table held.old }
        requires century { InCentury day }
        requires latest { IsLatest self.old.history day }
        ensures commits { Commits D.honest D.reads D.may_leave D.moment D.left_since D.faults D.plan self.old self.new (H.held held.old) (H.held held.new) p.now day result }
        ensures purses { (H.table held.new ≡ H.table held.old) × (H.count held.new ≡ H.count held.old) }
    {
        if self.failed.is_some() {
            return Err(CommitFault::Broken {
                at_open: self.at_open,
                now: self.file.faults(),
            });
        }
        self.reserve(p)?;
        match self.place_of(&p.mir) {
            Some(place) => self.repeated(p, place),
            None => self.enter(held, p, day),
        }
    }

    /// The answer to a pay whose reference stands at this place.
    fn repeated(&self, p: &Pay, place: u32) -> Result<Committed, CommitFault>
        requires whole { self.now.failed ≡ None }
        requires place { entered_at p.now.mir self.now.history ≡ Some place }
        ensures shows { Repeats self.now.history p.now result }
    {
        let entry = self.history.get(place);
        if p.is_same(&entry.pay) {
            return Ok(Committed::Kept {
                place,
                outcome: entry.outcome,
            });
        }
        Err(CommitFault::Conflict { place })
    }

    /// Enters a pay for which there is room, and whose reference is new.
    fn enter<H: Held>(&mut self, held: &mut H, p: &Pay, day: Day) -> Result<Committed, CommitFault>
        requires whole { self.old.failed ≡ None }
        requires room { self.old.room ≡ Some p.now }
        requires new { entered_at p.now.mir self.old.history ≡ None }
        requires fits { FitsAccounts self.old.accounts p.now }
        requires held { HoldsAll (H.held held.old) p.now.legs }
        requires table { self.old.table ≡ H.table held.old }
        requires century { InCentury day }
        requires latest { IsLatest self.old.history day }
        ensures shows { AnswerShows self.old.accounts self.old.history p.now day (end_of self.old.file) self.old.failed self.old.at_open (D.faults (disk_of self.old.file)) (D.faults (disk_of self.new.file)) result }
        ensures history { self.new.history ≡ history_after self.old.accounts self.old.history p.now day result }
        ensures held { H.held held.new ≡ held_with (legs_entered self.old.accounts self.old.history p.now day result) (H.held held.old) }
        ensures purses { (H.table held.new ≡ H.table held.old) × (H.count held.new ≡ H.count held.old) }
        ensures same { self.new ≡ record self.old { history = self.new.history; file = self.new.file; failed = self.new.failed; room = self.new.room } }
        ensures failed { self.new.failed ≡ failed_after 1 self.old.failed day result }
        ensures any_moment { IsTrue (D.honest (disk_of self.old.file))
            → LeavesOnly D.moment D.left_since (disk_of self.old.file) (disk_of self.new.file) (IsBeforeOrNext self.old.accounts self.old.history p.now day) }
        ensures file { calls_disk result ≡ false → self.new.file ≡ self.old.file }
        ensures calls { OnOk result (CallsMade 4 (D.plan (disk_of self.old.file)) (D.plan (disk_of self.new.file))) }
        ensures no_more_calls { AtMostCalls 4 (D.plan (disk_of self.old.file)) (D.plan (disk_of self.new.file)) }
        ensures honest { D.honest (disk_of self.new.file) ≡ D.honest (disk_of self.old.file) }
        ensures later { D.faults (disk_of self.old.file) ≤ D.faults (disk_of self.new.file) }
        ensures no_memory { IsAnswered result }
        ensures legal { IsLegal self.new.accounts self.new.history }
        ensures durable { OnOk result (IsSettled D.honest D.reads D.may_leave self.new.file (head_bytes self.old.accounts) (item_records self.old.accounts self.new.history)) }
    {
        let Some(room) = self.room.take() else {
            unreachable!()
        };
        let (entry, frame) = prepare(
            &self.accounts,
            &self.history,
            &mut self.sides,
            held,
            room,
            day,
        );
        let entries = self.history.len();
        if let Err(fault) = append(&mut self.file, entries, frame.bytes()) {
            self.failed = failed_by(fault, day);
            return Err(fault);
        }
        settle_entry(&entry, &mut self.sides, held);
        add_legs(&mut self.pairs, legs_booked(&entry));
        let outcome = entry.outcome;
        note(&mut self.history, &mut self.index, entry);
        Ok(Committed::New {
            place: entries + 1,
            outcome,
        })
    }
}
