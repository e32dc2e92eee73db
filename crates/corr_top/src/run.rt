//! The commands `run` and `batch`: every message of a file is answered, the report is made, and the next messages are made.

ghost use Rattle.std.specs.Prelude.{◌≡◌, ◌≤◌, ◌+◌, All, List, IfOk, OnOk, length};
ghost use Rattle.corr_ids.specs.Bic.{IsBic};
ghost use Rattle.corr_ids.specs.Day.{InCentury};
ghost use Rattle.corr_report.specs.Report.{NamesPlace, report_of};
ghost use Rattle.day_model.specs.Legal.{IsLegal};
ghost use Rattle.jrn_book.specs.Batches.{most_batch};
ghost use Rattle.jrn_book.specs.Journal.{IsJournal};
ghost use Rattle.ssi_versions.specs.InstructionList.{AreInstructions};
ghost use Rattle.work_pool.specs.Served.{most_workers};
ghost use Rattle.corr_top.specs.Commands.{meaning_of};
ghost use Rattle.corr_top.specs.inner.Days.{GivesDay, GivesServed, GivesTexts};
ghost use Rattle.corr_top.specs.inner.Streamed.{GivesStream};
ghost use Rattle.corr_top.specs.inner.Ends.{HasTexts};
ghost use Rattle.corr_top.specs.inner.Origin.{SendsAccepted};
ghost use Rattle.corr_top.specs.MessageFile.{most_messages};
ghost use Rattle.corr_top.specs.Out.{sent_from};
ghost use Rattle.corr_top.specs.inner.Serving.{HasPayShape, are_replies};
ghost use Rattle.corr_top.specs.declared.words.Command.TheVariants.{Run};
ghost use Rattle.day_model.specs.declared.reply.Reply.{Reply as TheReply};

use crate::answers::check_replies;
use crate::desk::Served;
use crate::directory::{Directory, read_directory};
use crate::outgoing::outgoing_by;
use crate::replies::report_served;
use crate::room::Room;
use crate::serving::{ServedDay, StreamedDay, serve_stream};
use crate::status::Status;
use crate::stream::{MessageFile, Stage};
use crate::writing::Texts;
use corr_books::{Closed, Opened, open_books};
use corr_disk::Disk;
use corr_ids::Day;
use corr_io::{Sink, Source};
use corr_text::{Memory, Text, let_go};
use day_model::{Accounts, History};
use std::alloc::Global;
use std::sync::Wait;
use std::thread::Threads;
use work_pool::Gate;

/// The report of replies, in the memory of `room`, and the outgoing messages of the entries after the first `count`, by up to so many
/// threads at once.
fn make_texts<R: Threads + Sync>(
    rt: &R,
    alloc: Global,
    a: &Accounts,
    h: &History,
    count: u32,
    served: &[Served],
    threads: u32,
    room: Text,
) -> Result<Texts, Memory>
    requires home { IsBic a.now.home }
    requires legal { IsLegal a.now h.now.entries }
    requires shapes { All HasPayShape h.now.entries }
    requires served { (replies : List TheReply) × (served.now ≡ are_replies replies) × All (NamesPlace h.now.entries) replies }
    requires few { (count ≤ length h.now.entries) × (length served.now ≤ most_messages) }
    ensures report { IfOk result (λ texts. (replies : List TheReply) → served.now ≡ are_replies replies → texts.report ≡ report_of a.now h.now.entries replies) }
    ensures out { IfOk result (λ texts. texts.out ≡ sent_from a.now (count + 1) h.now.entries) }
    ensures accepted { OnOk result (SendsAccepted a.now (count + 1) h.now.entries) }
{
    Ok(Texts {
        report: report_served(rt, alloc, a, h, served, threads, room)?,
        out: outgoing_by(rt, alloc, a, h, count + 1, h.len(), threads)?,
    })
}

/// The texts of a day that was served, or why there are none. The disk's count of faults was `before` at the opening, and the
/// history then had `count` entries. Up to so many threads make them at once, the report in the memory of `room`.
fn texts_of<R: Threads + Sync, D: Disk + Drop>(
    rt: &R,
    alloc: Global,
    day: &Closed<D>,
    served: Vec<Served>,
    before: u64,
    count: u32,
    threads: u32,
    room: Text,
) -> Result<Texts, Status>
    requires journal { IsJournal day.now.accounts day.now.history.entries }
    requires places { (replies : List TheReply) → served.items ≡ are_replies replies → All (NamesPlace day.now.history.entries) replies }
    requires few { (count ≤ length day.now.history.entries) × (length served.items ≤ most_messages) }
    ensures { GivesTexts day.now.accounts day.now.history.entries served.items before (D.faults day.now.disk) count result }
{
    let served = served.as_slice();
    check_replies(before, day.disk.faults(), served)?;
    let (a, h) = (&day.accounts, &day.history);
    Ok(make_texts(rt, alloc, a, h, count, served, threads, room)?)
}

/// The disk of books that were closed.
pub fn into_disk<D: Disk>(closed: Closed<D>) -> D
    ensures { result ≡ closed.disk }
{
    closed.disk
}

/// The disk and the texts of a day whose messages were served, or why there are none. Up to so many threads make them at once, the
/// report in the memory of `room`.
fn end_served<R: Threads + Sync, D: Disk + Drop>(
    rt: &R,
    alloc: Global,
    day: ServedDay<D>,
    before: u64,
    count: u32,
    threads: u32,
    room: Text,
) -> (D, Result<Texts, Status>)
    requires journal { IsJournal day.closed.accounts day.closed.history.entries }
    requires places { IfOk day.served (λ made. (replies : List TheReply) → made.items ≡ are_replies replies → All (NamesPlace day.closed.history.entries) replies) }
    requires few { (count ≤ length day.closed.history.entries) × IfOk day.served (λ made. length made.items ≤ most_messages) }
    ensures disk { result.0 ≡ day.closed.disk }
    ensures texts { GivesServed D.Disk day before count result.1 }
{
    let ServedDay { closed, served } = day;
    match served {
        Ok(served) => {
            let texts = texts_of(rt, alloc, &closed, served, before, count, threads, room);
            (into_disk(closed), texts)
        }
        Err(memory) => (into_disk(closed), Err(Status::from(memory))),
    }
}

/// The source, the disk and the texts of a day whose messages were served while the file was read, or why there are none: what the file
/// stopped by is told first. The disk's count of faults was `before` at the opening, and the history then had `count` entries. Up to
/// so many threads make the texts at once, the report in the memory of the file's text.
fn end_day<R: Threads + Sync, S: Source + Drop, D: Disk + Drop>(
    rt: &R,
    alloc: Global,
    day: StreamedDay<S, D>,
    before: u64,
    count: u32,
    threads: u32,
) -> (S, D, Result<Texts, Status>)
    requires journal { IsJournal day.day.closed.accounts day.day.closed.history.entries }
    requires places { IfOk day.day.served (λ made. (replies : List TheReply) → made.items ≡ are_replies replies → All (NamesPlace day.day.closed.history.entries) replies) }
    requires few { (count ≤ length day.day.closed.history.entries) × IfOk day.day.served (λ made. length made.items ≤ most_messages) }
    ensures source { result.0 ≡ day.file.source }
    ensures disk { result.1 ≡ day.day.closed.disk }
    ensures texts { GivesStream D.Disk day.day day.file.stage before count result.2 }
{
    let StreamedDay { day, file } = day;
    let MessageFile {
        source,
        stage,
        text,
        ..
    } = file;
    if let Stage::Stopped(stop) = stage {
        return (source, into_disk(day.closed), Err(Status::from(stop)));
    }
    let (disk, texts) = end_served(rt, alloc, day, before, count, threads, text);
    (source, disk, texts)
}

/// Lets the workers answer the messages of the message file over books that were opened, while it is read, and makes the texts. The
/// source and the disk come back; the disk's count of faults was `before`.
fn run_day<R: Wait + Threads + Sync, S: Source + Drop, D: Disk + Drop + Send, G: Gate + Sync>(
    rt: &R,
    alloc: Global,
    directory: &Directory,
    source: S,
    opened: Opened<D>,
    before: u64,
    workers: u32,
    entries: u32,
    gate: &G,
) -> (S, D, Result<Texts, Status>)
    requires instructions { AreInstructions directory.now.tables directory.now.ssi }
    requires workers { (1 ≤ workers) × (workers ≤ most_workers) }
    requires entries { (1 ≤ entries) × (entries ≤ most_batch) }
    requires journal { IsJournal opened.accounts opened.base }
    requires count { before ≡ opened.at_open }
    ensures { GivesDay S.Source D.Disk directory.now workers entries source result.0 opened result.1 result.2 }
{
    let count = opened.history().len();
    match serve_stream(rt, alloc, directory, source, opened, workers, entries, gate) {
        Ok(day) => end_day(rt, alloc, day, before, count, workers),
        Err((source, disk, memory)) => (source, disk, Err(Status::from(memory))),
    }
}

/// Reads the tables of banks, currencies, countries, instructions and charges, opens the journal, and lets the workers enter the pays of
/// the message file's messages on a day, with up to so many entries under one sync. The texts are the report, and the outgoing
/// messages of the entries that were added.
pub fn run<
    R: Wait + Threads + Sync,
    S: Source + Drop,
    K: Sink,
    D: Disk + Drop + Send,
    G: Gate + Sync,
>(
    rt: &R,
    alloc: Global,
    day: Day,
    workers: u32,
    entries: u32,
    room: Room<S, K, D>,
    gate: &G,
) -> (Room<S, K, D>, Result<Texts, Status>)
    requires day { InCentury day }
    requires workers { (1 ≤ workers) × (workers ≤ most_workers) }
    requires entries { (1 ≤ entries) × (entries ≤ most_batch) }
    ensures texts { HasTexts S.Source D.Disk (meaning_of (Run day workers entries)) room result.0 result.1 }
    ensures honest { D.honest result.0.disk ≡ D.honest room.disk }
{
    let mut room = room;
    let directory = match read_directory(alloc, &mut room.tables) {
        Ok(directory) => directory,
        Err(stop) => return (room, Err(Status::from(stop))),
    };
    let before = room.disk.faults();
    let opened = match open_books(alloc, room.disk, day) {
        Ok(opened) => opened,
        Err((disk, fault)) => {
            let_go(directory);
            room.disk = disk;
            return (room, Err(Status::from(fault)));
        }
    };
    let (source, disk, texts) = run_day(
        rt,
        alloc,
        &directory,
        room.messages,
        opened,
        before,
        workers,
        entries,
        gate,
    );
    let_go(directory);
    room.messages = source;
    room.disk = disk;
    (room, texts)
}
