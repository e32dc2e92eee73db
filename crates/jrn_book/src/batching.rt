//! Entering the pays of a batch under one sync.

ghost use Rattle.std.specs.Prelude.{◌≡◌, ◌<◌, ◌≤◌, ◌+◌, ◌++◌, ◌∷◌, [], ℕ, All, List, IfErr, IfOk, OnOk, None, true, false, length, IsTrue, vec_capacity};
ghost use Rattle.std.specs.List.{list_all, list_any};
ghost use Rattle.corr_disk.specs.Calls.{AtMostCalls, CallsMade};
ghost use Rattle.corr_disk.specs.Disk.{LeavesOnly, most_disk_bytes};
ghost use Rattle.corr_ids.specs.Day.{InCentury};
ghost use Rattle.day_model.specs.Fit.{FitsAccounts};
ghost use Rattle.day_model.specs.Laws.{IsLatest};
ghost use Rattle.day_model.specs.Legal.{IsLegal};
ghost use Rattle.day_model.specs.Next.{fold_of};
ghost use Rattle.day_model.specs.Shape.{HasShape};
ghost use Rattle.day_model.specs.declared.pay.Pay.{Pay as ThePay};
ghost use Rattle.day_model.specs.declared.entry.Entry.{Entry as TheEntry};
ghost use Rattle.jrn_file.specs.Faults.{TellsCounts};
ghost use Rattle.jrn_file.specs.File.{IsOpen, IsSettled, disk_of, end_of};
ghost use Rattle.jrn_file.specs.Journal.{IsBeforeOrAll, after_gates};
ghost use Rattle.jrn_codec.specs.Header.{head_bytes};
ghost use Rattle.jrn_codec.specs.Record.{IsEntry};
ghost use Rattle.jrn_book.specs.Batches.{AnswersInTurn, IsBeforeOrEntered, entered_of, is_disk_fault, is_memory, is_new, most_batch};
ghost use Rattle.jrn_book.specs.Book.{Counts};
ghost use Rattle.jrn_book.specs.CommitsAll.{Adds, IsUntried, stage_of};
ghost use Rattle.jrn_book.specs.inner.CommitsAll.{CommitsAll};
ghost use Rattle.jrn_book.specs.Deciding.{HoldsAll};
ghost use Rattle.jrn_book.specs.inner.Drafting.{gated_records, records_of, rooms_for};
ghost use Rattle.jrn_book.specs.Journal.{IsJournal, file_of, item_records};
ghost use Rattle.jrn_book.specs.Resuming.{IsResumable};

use crate::answer::{CommitFault, Committed, Failed};
use crate::book::JrnBook;
use crate::drafting::{Draft, draft_all};
use crate::failing::{answer_each, take_back};
use crate::index::Index;
use crate::settling::settle_all;
use acct_locks::Held;
use corr_disk::Disk;
use corr_ids::Day;
use corr_text::{Buf, Memory};
use day_model::{History, Pay};
use jrn_file::{AppendFault, JFile};
use std::alloc::Global;

/// Appends the records of entries, at least one, for which the file has room. A fault of the disk is told by its counts.
fn append_all<D: Disk>(file: &mut JFile<D>, frames: &mut Buf) -> Result<(), (u64, u64)>
    requires settled { IsOpen D.honest D.reads D.may_leave file.old }
    requires frames { (first : TheEntry) × (more : List TheEntry) × (frames.old.bytes ≡ gated_records (first ∷ more)) × All IsEntry (first ∷ more) }
    requires fits { end_of file.old + 1 + length frames.old.bytes ≤ most_disk_bytes }
    requires room { 1 ≤ frames.old.spare }
    ensures ok { OnOk result ((head : List ℕ) (records : List (List ℕ)) (entries : List TheEntry) → IsSettled D.honest D.reads D.may_leave file.old head records
        → frames.old.bytes ≡ gated_records entries → All IsEntry entries
        → IsSettled D.honest D.reads D.may_leave file.new head (records ++ records_of entries)) }
    ensures any_moment { (head : List ℕ) (records : List (List ℕ)) (entries : List TheEntry) → IsSettled D.honest D.reads D.may_leave file.old head records
        → frames.old.bytes ≡ gated_records entries → All IsEntry entries
        → IsTrue (D.honest (disk_of file.old))
        → LeavesOnly D.moment D.left_since (disk_of file.old) (disk_of file.new) (IsBeforeOrAll head records (records_of entries)) }
    ensures cause { IfErr result (λ counts. TellsCounts (D.faults (disk_of file.old)) counts.0 counts.1 (D.faults (disk_of file.new))) }
    ensures kept { OnOk result (D.faults (disk_of file.new) ≡ D.faults (disk_of file.old)) }
    ensures later { D.faults (disk_of file.old) ≤ D.faults (disk_of file.new) }
    ensures calls { OnOk result (CallsMade 4 (D.plan (disk_of file.old)) (D.plan (disk_of file.new))) }
    ensures no_more_calls { AtMostCalls 4 (D.plan (disk_of file.old)) (D.plan (disk_of file.new)) }
    ensures honest { D.honest (disk_of file.new) ≡ D.honest (disk_of file.old) }
{
    frames.push(&[0]).unwrap();
    match file.append_all(&frames.bytes()[1..]) {
        Ok(()) => Ok(()),
        Err(AppendFault::DiskFault { before, after }) => Err((before, after)),
        Err(AppendFault::Full { .. }) => unreachable!(),
    }
}

/// Makes room for the entries and the references of pays, and a draft with room for what they may become.
fn make_room(
    alloc: Global,
    history: &mut History,
    index: &mut Index,
    pays: &[Pay],
) -> Result<Draft, Memory>
    requires shape { All HasShape pays.now }
    requires few { length pays.now ≤ most_batch }
    ensures history { history.new.entries ≡ history.old.entries }
    ensures index { index.new.references ≡ index.old.references }
    ensures seats { OnOk result ((length pays.now ≤ history.new.spare) × (length pays.now ≤ index.new.spare)) }
    ensures empty { IfOk result (λ d. (d.entries.items ≡ []) × (d.frames.bytes ≡ [])) }
    ensures room { IfOk result (λ d. (length pays.now ≤ vec_capacity d.entries) × (rooms_for pays.now + 1 ≤ d.frames.spare)) }
{
    history.reserve_for(pays.len())?;
    index.reserve_for(pays.len())?;
    Draft::new(alloc, pays)
}

impl<D: Disk> JrnBook<D> {
    /// Enters pays on a day, one after another: the answer to each is what `commit` of it would answer by the book as the answers
    /// before it leave it, and new entries come to the disk together, under one sync. The answers are put into an empty list that has
    /// room for them.
    ///
    /// There are at most 1,024 pays. Each fits the accounts and has the shape of one that can be written down; its accounts are held, of
    /// the purses that `open_book` gave with this book; the day is of 1980 to 2079, and no entry has a later one.
    ///
    /// A pay without room is passed over: it answers `Full`, and those behind it are tried. Where the disk fails, no pay of the batch is
    /// entered: the first that would have been answers `DiskFault`, and those behind it `Broken`. All memory is taken first: where there
    /// is none, each pay answers `Memory`, and nothing has changed. After New every new entry of the batch is on the disk.
    pub fn commit_all<H: Held>(
        &mut self,
        held: &mut H,
        pays: Vec<Pay>,
        day: Day,
        answers: &mut Vec<Result<Committed, CommitFault>>,
    )
        requires few { length pays.items ≤ most_batch }
        requires fits { All (FitsAccounts self.old.accounts) pays.items }
        requires shape { All HasShape pays.items }
        requires held { All (λ p. HoldsAll (H.held held.old) p.legs) pays.items }
        requires table { self.old.table ≡ H.table held.old }
        requires century { InCentury day }
        requires latest { IsLatest self.old.history day }
        requires answers { answers.old.items ≡ [] }
        requires room { length pays.items ≤ vec_capacity answers.old }

        // Each answer tells what `commit` of its pay would tell, one after another. New entries come together or not at all.
        ensures each { AnswersInTurn self.old.accounts day (length pays.items) self.old.at_open (stage_of self.old (D.faults (disk_of self.old.file))) pays.items answers.new.items (stage_of self.new (D.faults (disk_of self.new.file))) }
        ensures together { list_any is_disk_fault answers.new.items ≡ true → self.new.history ≡ self.old.history }
        ensures memory { list_any is_memory answers.new.items ≡ true → IsUntried self.old self.new (H.held held.old) (H.held held.new) answers.new.items }

        // The history grows by the new entries, their legs are added to the held purses, and nothing else changes.
        ensures adds { Adds self.old.history self.new.history (H.held held.old) (H.held held.new) }
        ensures purses { (H.table held.new ≡ H.table held.old) × (H.count held.new ≡ H.count held.old) }
        ensures same { self.new ≡ record self.old { history = self.new.history; file = self.new.file; failed = self.new.failed; room = self.new.room } }
        ensures legal { IsLegal self.new.accounts self.new.history }
        ensures journal { IsJournal self.new.accounts self.new.history }
        ensures capacity { vec_capacity answers.new ≡ vec_capacity answers.old }

        // The disk's count of faults never falls: it is that at the opening, and one more where a commit failed.
        ensures later { D.faults (disk_of self.old.file) ≤ D.faults (disk_of self.new.file) }
        ensures counts { Counts self.new.failed self.new.at_open (D.faults (disk_of self.new.file)) }

        // A crash at any moment of the call leaves the history from before it, or the one with all that the pays become; after the
        // call, unless it failed, the latter alone.
        ensures any_moment { self.old.failed ≡ None → IsTrue (D.honest (disk_of self.old.file))
            → LeavesOnly D.moment D.left_since (disk_of self.old.file) (disk_of self.new.file) (IsBeforeOrEntered self.old.accounts self.old.history pays.items day) }
        ensures durable { self.new.failed ≡ None → IsSettled D.honest D.reads D.may_leave self.new.file (head_bytes self.new.accounts) (item_records self.new.accounts self.new.history) }
        ensures place { self.old.failed ≡ None → end_of self.old.file + 1 ≡ length (file_of self.old.accounts self.old.history) }

        // Where the history is that of a run so far, and each pay has room, whatever a crash leaves stands for one from which the same
        // run, given again from its first pay, makes what it would have made.
        ensures resumes { (start : List TheEntry) (done more : List ThePay) → self.old.failed ≡ None → IsTrue (D.honest (disk_of self.old.file)) → self.old.history ≡ fold_of self.old.accounts start done day
            → entered_of self.old.accounts self.old.history pays.items day ≡ fold_of self.old.accounts self.old.history pays.items day
            → LeavesOnly D.moment D.left_since (disk_of self.old.file) (disk_of self.new.file) (IsResumable self.old.accounts start (done ++ (pays.items ++ more)) day) }

        // It calls the disk where it enters a pay or the disk fails, four times however many it enters, and no more where it fails.
        ensures file { list_any is_new answers.new.items ≡ false → list_any is_disk_fault answers.new.items ≡ false → self.new.file ≡ self.old.file }
        ensures calls { list_any is_new answers.new.items ≡ true → CallsMade 4 (D.plan (disk_of self.old.file)) (D.plan (disk_of self.new.file)) }
        ensures no_more_calls { AtMostCalls 4 (D.plan (disk_of self.old.file)) (D.plan (disk_of self.new.file)) }
        ensures honest { D.honest (disk_of self.new.file) ≡ D.honest (disk_of self.old.file) }
    {
        self.answer_all(held, pays, day, answers);
        // What always holds of a book holds of the new one.
        let _file = &self.file;
    }

    /// Answers the pays of a batch: what `commit_all` tells, as one fact.
    fn answer_all<H: Held>(
        &mut self,
        held: &mut H,
        pays: Vec<Pay>,
        day: Day,
        answers: &mut Vec<Result<Committed, CommitFault>>,
    )
        requires few { length pays.items ≤ most_batch }
        requires fits { All (FitsAccounts self.old.accounts) pays.items }
        requires shape { All HasShape pays.items }
        requires held { All (λ p. HoldsAll (H.held held.old) p.legs) pays.items }
        requires table { self.old.table ≡ H.table held.old }
        requires century { InCentury day }
        requires latest { IsLatest self.old.history day }
        requires answers { answers.old.items ≡ [] }
        requires room { length pays.items ≤ vec_capacity answers.old }
        ensures commits { CommitsAll D.moment D.left_since D.honest D.faults D.plan self.old self.new (H.held held.old) (H.held held.new) pays.items day answers.new.items }
        ensures purses { (H.table held.new ≡ H.table held.old) × (H.count held.new ≡ H.count held.old) }
        ensures capacity { vec_capacity answers.new ≡ vec_capacity answers.old }
    {
        if self.failed.is_some() {
            let broken = CommitFault::Broken {
                at_open: self.at_open,
                now: self.file.faults(),
            };
            answer_each(answers, pays.len(), broken);
            return;
        }
        self.enter_all(held, pays, day, answers);
    }

    /// Enters the pays of a batch into a whole book.
    fn enter_all<H: Held>(
        &mut self,
        held: &mut H,
        pays: Vec<Pay>,
        day: Day,
        answers: &mut Vec<Result<Committed, CommitFault>>,
    )
        requires whole { self.old.failed ≡ None }
        requires few { length pays.items ≤ most_batch }
        requires fits { All (FitsAccounts self.old.accounts) pays.items }
        requires shape { All HasShape pays.items }
        requires held { All (λ p. HoldsAll (H.held held.old) p.legs) pays.items }
        requires table { self.old.table ≡ H.table held.old }
        requires century { InCentury day }
        requires latest { IsLatest self.old.history day }
        requires answers { answers.old.items ≡ [] }
        requires room { length pays.items ≤ vec_capacity answers.old }
        ensures commits { CommitsAll D.moment D.left_since D.honest D.faults D.plan self.old self.new (H.held held.old) (H.held held.new) pays.items day answers.new.items }
        ensures purses { (H.table held.new ≡ H.table held.old) × (H.count held.new ≡ H.count held.old) }
        ensures capacity { vec_capacity answers.new ≡ vec_capacity answers.old }
    {
        self.room = None;
        let count = pays.len();
        let slice = pays.as_slice();
        let Ok(draft) = make_room(self.alloc, &mut self.history, &mut self.index, slice) else {
            answer_each(answers, count, CommitFault::Memory);
            return;
        };
        let mut draft = draft;
        let entries = self.history.len();
        draft_all(
            &self.accounts,
            &self.history,
            &mut self.index,
            &mut self.pairs,
            &mut draft,
            self.file.end(),
            pays,
            day,
            answers,
        );
        if draft.entries.is_empty() {
            return;
        }
        match append_all(&mut self.file, &mut draft.frames) {
            Ok(()) => settle_all(
                &self.accounts,
                &mut self.history,
                &mut self.sides,
                held,
                draft.entries,
            ),
            Err((before, after)) => {
                self.index.truncate(entries as usize);
                self.failed = Some(Failed {
                    day,
                    most: count as u32,
                });
                take_back(answers, before, after, self.at_open);
            }
        }
    }
}
