//! Entries of a batch, drafted before they are on the disk.

ghost use Rattle.std.specs.Prelude.{◌≡◌, ◌⊎◌, ◌+◌, ◌-◌, ◌<◌, ◌≤◌, ◌^◌, ◌++◌, ◌∷◌, [], ℕ, All, List, IfErr, IfOk, None, OnOk, Some, Err, length, slice_get, true, vec_capacity};
ghost use Rattle.std.specs.List.{list_all};
ghost use Rattle.corr_disk.specs.Disk.{most_disk_bytes};
ghost use Rattle.corr_ids.specs.Day.{InCentury};
ghost use Rattle.day_model.specs.Chart.{IsChart, accounts_of};
ghost use Rattle.day_model.specs.Fit.{FitsAccounts};
ghost use Rattle.day_model.specs.Laws.{IsLatest};
ghost use Rattle.day_model.specs.Legal.{IsLegal};
ghost use Rattle.day_model.specs.Log.{most_entries};
ghost use Rattle.day_model.specs.Next.{entered_at};
ghost use Rattle.day_model.specs.Pairs.{PairsFit, pairs_with};
ghost use Rattle.day_model.specs.Shape.{HasShape};
ghost use Rattle.day_model.specs.Totals.{booked_legs};
ghost use Rattle.day_model.specs.declared.entry.Entry.{Entry as TheEntry};
ghost use Rattle.jrn_file.specs.Reading.{with_length};
ghost use Rattle.jrn_codec.specs.Record.{IsEntry, entry_bytes, most_record_bytes};
ghost use Rattle.jrn_book.specs.Answers.{AnswerShows, IsFull, history_after};
ghost use Rattle.jrn_book.specs.inner.Appending.{Repeats};
ghost use Rattle.jrn_book.specs.Batches.{AnswersInTurn, gate_of, most_batch};
ghost use Rattle.jrn_book.specs.inner.Batches.{is_tried, untouched};
ghost use Rattle.jrn_book.specs.inner.Drafting.{AddsOnly, AreFrom, IsDrafted, room_for, rooms_for};
ghost use Rattle.jrn_book.specs.inner.Index.{place_in};
ghost use Rattle.jrn_book.specs.Journal.{file_of};

use crate::answer::{CommitFault, Committed};
use crate::deciding::decide_by_pairs;
use crate::index::Index;
use crate::room::{most_bytes, put_record};
use crate::turning::turned;
use corr_disk::MOST_DISK_BYTES;
use corr_ids::Day;
use corr_text::{Buf, Memory};
use day_model::{Accounts, Entry, History, MOST_ENTRIES, Pay, add_legs, legs_booked};
use jrn_codec::record_len;
use std::alloc::Global;

/// New entries, and their records, each after an open gate and its length.
#[derive(Drop)]
pub(crate) struct Draft {
    pub(crate) entries: Vec<Entry>,
    pub(crate) frames: Buf,
}

/// As many bytes as the records of pays take at most, with their gates and their lengths.
fn most_framed(pays: &[Pay]) -> u64
    requires shape { All (λ p. HasShape p) pays.now }
    requires few { length pays.now ≤ most_batch }
    ensures room { rooms_for pays.now ≤ result }
    ensures few { result < 2 ^ 32 }
{
    let mut most = 0;
    for p in pays {
        most += most_bytes(p) + 5;
    }
    most
}

impl Draft {
    /// Nothing yet, with room for what these pays may become, and for the closed gate after it.
    pub(crate) fn new(alloc: Global, pays: &[Pay]) -> Result<Draft, Memory>
        requires shape { All (λ p. HasShape p) pays.now }
        requires few { length pays.now ≤ most_batch }
        ensures empty { IfOk result (λ d. (d.entries.items ≡ []) × (d.frames.bytes ≡ [])) }
        ensures room { IfOk result (λ d. (length pays.now ≤ vec_capacity d.entries) × (rooms_for pays.now + 1 ≤ d.frames.spare)) }
    {
        let mut frames = Buf::new(alloc);
        frames.reserve(most_framed(pays) + 1)?;
        let entries = Vec::with_capacity(alloc, pays.len())?;
        Ok(Draft { entries, frames })
    }
}

/// Puts the record of an entry, which has so many bytes, behind those that are there: after an open gate and its length.
fn put_gated(frames: &mut Buf, e: &Entry, len: u64)
    requires shape { HasShape e.now.pay }
    requires day { InCentury e.now.day }
    requires len { len ≡ length (entry_bytes e.now) }
    requires few { len ≤ most_record_bytes }
    requires room { length (entry_bytes e.now) + 5 ≤ frames.old.spare }
    ensures frames { frames.new.bytes ≡ frames.old.bytes ++ 1 ∷ with_length (entry_bytes e.now) }
    ensures written { IsEntry e.now }
    ensures left { frames.old.spare ≤ frames.new.spare + (length (entry_bytes e.now) + 5) }
{
    frames.push(&[1]).unwrap();
    put_record(frames, e, len);
}

/// Adds an entry, whose record has so many bytes, to a draft, its reference to the index and its legs to the pairs, for all of which
/// there is room.
fn add(index: &mut Index, pairs: &mut Vec<(u64, u64)>, draft: &mut Draft, e: Entry, len: u64)
    requires shape { HasShape e.pay }
    requires day { InCentury e.day }
    requires len { len ≡ length (entry_bytes e) }
    requires few { len ≤ most_record_bytes }
    requires listed { All (λ leg. (1 ≤ leg.account.0) × (leg.account.0 ≤ length pairs.old.items)) (booked_legs e) }
    requires fits { PairsFit (booked_legs e) pairs.old.items }
    requires new { place_in e.pay.mir.0 index.old.references ≡ None }
    requires many { length index.old.references < most_entries }
    requires seat { 1 ≤ index.old.spare }
    requires entry { length draft.old.entries.items < vec_capacity draft.old.entries }
    requires bytes { length (entry_bytes e) + 5 ≤ draft.old.frames.spare }
    ensures index { index.new.references ≡ index.old.references ++ e.pay.mir.0 ∷ [] }
    ensures pairs { pairs.new.items ≡ pairs_with (booked_legs e) pairs.old.items }
    ensures entries { draft.new.entries.items ≡ draft.old.entries.items ++ e ∷ [] }
    ensures frames { draft.new.frames.bytes ≡ draft.old.frames.bytes ++ 1 ∷ with_length (entry_bytes e) }
    ensures written { IsEntry e }
    ensures capacity { vec_capacity draft.new.entries ≡ vec_capacity draft.old.entries }
    ensures left { (index.old.spare ≤ index.new.spare + 1) × (draft.old.frames.spare ≤ draft.new.frames.spare + (length (entry_bytes e) + 5)) }
{
    add_legs(pairs, legs_booked(&e));
    index.push(&e.pay.mir).unwrap();
    put_gated(&mut draft.frames, &e, len);
    draft.entries.push_reserved(e);
}

/// Whether there is room for an entry: with so many entries, whose file has its closed gate at `end`, for `need` bytes more.
fn find_room(entries: u32, end: u64, need: u64) -> Result<(), CommitFault>
    requires few { entries ≤ most_entries }
    requires some { 0 < need }
    ensures room { OnOk result ((entries < most_entries) × (end + need ≤ most_disk_bytes)) }
    ensures fault { IfErr result (λ fault. (fault ≡ CommitFault.Full entries end need) × ((entries ≡ most_entries) ⊎ (most_disk_bytes < end + need))) }
{
    if entries == MOST_ENTRIES || need > MOST_DISK_BYTES.saturating_sub(end) {
        return Err(CommitFault::Full { entries, end, need });
    }
    Ok(())
}

/// Drafts the entry that a pay of a new reference becomes, where there is room. `start` is the place of the closed gate of the file.
fn draft_new(
    a: &Accounts,
    h: &History,
    index: &mut Index,
    pairs: &mut Vec<(u64, u64)>,
    draft: &mut Draft,
    start: u64,
    p: Pay,
    day: Day,
) -> Result<Committed, CommitFault>
    requires chart { IsChart a.now }
    requires legal { IsLegal a.now h.now.entries }
    requires drafted { IsDrafted a.now h.now.entries day draft.old.entries.items draft.old.frames.bytes index.old.references pairs.old.items }
    requires start { start + 1 ≡ length (file_of a.now h.now.entries) }
    requires new { entered_at p.mir (h.now.entries ++ draft.old.entries.items) ≡ None }
    requires fits { FitsAccounts a.now p }
    requires shape { HasShape p }
    requires century { InCentury day }
    requires latest { IsLatest h.now.entries day }
    requires seat { 1 ≤ index.old.spare }
    requires entry { length draft.old.entries.items < vec_capacity draft.old.entries }
    requires bytes { room_for p ≤ draft.old.frames.spare }
    ensures drafted { IsDrafted a.now h.now.entries day draft.new.entries.items draft.new.frames.bytes index.new.references pairs.new.items }
    ensures history { h.now.entries ++ draft.new.entries.items ≡ history_after a.now (h.now.entries ++ draft.old.entries.items) p day result }
    ensures shows { (at_open now : ℕ) → AnswerShows a.now (h.now.entries ++ draft.old.entries.items) p day (gate_of a.now (h.now.entries ++ draft.old.entries.items)) None at_open now now result }
    ensures tried { is_tried result ≡ true }
    ensures from { AddsOnly draft.old.entries.items p draft.new.entries.items }
    ensures capacity { vec_capacity draft.new.entries ≡ vec_capacity draft.old.entries }
    ensures left { (index.old.spare ≤ index.new.spare + 1) × (draft.old.frames.spare ≤ draft.new.frames.spare + room_for p) }
{
    let outcome = decide_by_pairs(a, pairs.as_slice(), p.legs.as_slice());
    let e = Entry {
        pay: p,
        day,
        outcome,
    };
    let entries = h.len() + draft.entries.len() as u32;
    let end = start + draft.frames.bytes().len() as u64;
    let size = record_len(&e);
    find_room(entries, end, size + 6)?;
    add(index, pairs, draft, e, size);
    Ok(Committed::New {
        place: entries + 1,
        outcome,
    })
}

/// The entry at a place of a history with drafted entries.
fn entry_at<'a>(h: &'a History, drafted: &'a [Entry], place: u32) -> &'a Entry
    requires from_one { 1 ≤ place }
    requires there { place ≤ length (h.now.entries ++ drafted.now) }
    ensures { slice_get (h.now.entries ++ drafted.now) (place - 1) ≡ Some result.now }
{
    if place <= h.len() {
        h.get(place)
    } else {
        &drafted[(place - h.len()) as usize - 1]
    }
}

/// The answer to a pay whose reference the entry at this place has.
pub(crate) fn repeat(p: &Pay, e: &Entry, place: u32) -> Result<Committed, CommitFault>
    ensures { (history : List TheEntry) → entered_at p.now.mir history ≡ Some place → slice_get history (place - 1) ≡ Some e.now → Repeats history p.now result }
{
    if p.is_same(&e.pay) {
        return Ok(Committed::Kept {
            place,
            outcome: e.outcome,
        });
    }
    Err(CommitFault::Conflict { place })
}

/// Answers a pay by a history with drafted entries, and drafts the entry that it becomes where its reference is new and there is room.
fn draft_one(
    a: &Accounts,
    h: &History,
    index: &mut Index,
    pairs: &mut Vec<(u64, u64)>,
    draft: &mut Draft,
    start: u64,
    p: Pay,
    day: Day,
) -> Result<Committed, CommitFault>
    requires chart { IsChart a.now }
    requires legal { IsLegal a.now h.now.entries }
    requires drafted { IsDrafted a.now h.now.entries day draft.old.entries.items draft.old.frames.bytes index.old.references pairs.old.items }
    requires start { start + 1 ≡ length (file_of a.now h.now.entries) }
    requires fits { FitsAccounts a.now p }
    requires shape { HasShape p }
    requires century { InCentury day }
    requires latest { IsLatest h.now.entries day }
    requires seat { 1 ≤ index.old.spare }
    requires entry { length draft.old.entries.items < vec_capacity draft.old.entries }
    requires bytes { room_for p ≤ draft.old.frames.spare }
    ensures drafted { IsDrafted a.now h.now.entries day draft.new.entries.items draft.new.frames.bytes index.new.references pairs.new.items }
    ensures history { h.now.entries ++ draft.new.entries.items ≡ history_after a.now (h.now.entries ++ draft.old.entries.items) p day result }
    ensures shows { (at_open now : ℕ) → AnswerShows a.now (h.now.entries ++ draft.old.entries.items) p day (gate_of a.now (h.now.entries ++ draft.old.entries.items)) None at_open now now result }
    ensures tried { is_tried result ≡ true }
    ensures from { AddsOnly draft.old.entries.items p draft.new.entries.items }
    ensures capacity { vec_capacity draft.new.entries ≡ vec_capacity draft.old.entries }
    ensures left { (index.old.spare ≤ index.new.spare + 1) × (draft.old.frames.spare ≤ draft.new.frames.spare + room_for p) }
{
    match index.place(&p.mir) {
        Some(place) => repeat(&p, entry_at(h, draft.entries.as_slice(), place), place),
        None => draft_new(a, h, index, pairs, draft, start, p, day),
    }
}

/// Answers the pays of a batch, one after another, and drafts the entries that they become.
pub(crate) fn draft_all(
    a: &Accounts,
    h: &History,
    index: &mut Index,
    pairs: &mut Vec<(u64, u64)>,
    draft: &mut Draft,
    start: u64,
    pays: Vec<Pay>,
    day: Day,
    answers: &mut Vec<Result<Committed, CommitFault>>,
)
    requires chart { IsChart a.now }
    requires legal { IsLegal a.now h.now.entries }
    requires drafted { IsDrafted a.now h.now.entries day [] draft.old.frames.bytes index.old.references pairs.old.items }
    requires none { draft.old.entries.items ≡ [] }
    requires start { start + 1 ≡ length (file_of a.now h.now.entries) }
    requires fits { All (FitsAccounts a.now) pays.items }
    requires shape { All HasShape pays.items }
    requires century { InCentury day }
    requires latest { IsLatest h.now.entries day }
    requires seats { length pays.items ≤ index.old.spare }
    requires entries { length pays.items ≤ vec_capacity draft.old.entries }
    requires bytes { rooms_for pays.items ≤ draft.old.frames.spare }
    requires answers { answers.old.items ≡ [] }
    requires room { length pays.items ≤ vec_capacity answers.old }
    ensures drafted { IsDrafted a.now h.now.entries day draft.new.entries.items draft.new.frames.bytes index.new.references pairs.new.items }
    ensures each { (most at_open now : ℕ) → AnswersInTurn a.now day most at_open (untouched h.now.entries now) pays.items answers.new.items (untouched (h.now.entries ++ draft.new.entries.items) now) }
    ensures tried { list_all is_tried answers.new.items ≡ true }
    ensures from { AreFrom draft.new.entries.items pays.items }
    ensures few { length draft.new.entries.items ≤ length pays.items }
    ensures left { draft.old.frames.spare ≤ draft.new.frames.spare + rooms_for pays.items }
    ensures capacity { vec_capacity answers.new ≡ vec_capacity answers.old }
{
    let mut rest = turned(pays);
    while let Some(p) = rest.pop() {
        let answer = draft_one(a, h, index, pairs, draft, start, p, day);
        answers.push_reserved(answer);
    }
}
