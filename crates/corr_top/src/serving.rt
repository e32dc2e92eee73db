//! Workers serve the messages of a day over the books of a journal.

ghost use Rattle.std.specs.Prelude.{◌≡◌, ◌≤◌, [], IfErr, IfOk, length, map, vec_capacity, vec_len};
ghost use Rattle.jrn_book.specs.Batches.{most_batch};
ghost use Rattle.jrn_book.specs.Journal.{IsJournal};
ghost use Rattle.jrn_file.specs.File.{disk_of};
ghost use Rattle.corr_books.specs.Closing.{Closes, LeavesClosed, LeavesInTurn};
ghost use Rattle.corr_books.specs.Opening.{IsNamed, opening_with, past_of};
ghost use Rattle.corr_books.specs.Passes.{Belongs};
ghost use Rattle.work_pool.specs.Served.{AllTaken, most_workers};
ghost use Rattle.corr_top.specs.inner.Batching.{all_made};
ghost use Rattle.corr_top.specs.Message.{readings_of};
ghost use Rattle.corr_top.specs.inner.Serving.{AllServed};
ghost use Rattle.corr_top.specs.inner.Streamed.{StreamServed};

use crate::batching::{Made, join_made, put_all, share_of, share_out};
use crate::desk::{RunDesk, Served, seat, vacate};
use crate::directory::Directory;
use crate::feeding::{FileName, MessageFeed};
use crate::stream::MessageFile;
use crate::worker::Worker;
use corr_books::{BooksName, Closed, Opened};
use corr_disk::Disk;
use corr_io::Source;
use corr_text::Memory;
use fin_frame::Framed;
use front_word::Pass;
use std::alloc::Global;
use std::marker::Brand;
use std::sync::Wait;
use std::thread::Threads;
use work_pool::{Gate, Streamed, run_feed, run_jobs};

/// What is left when messages were served: the closed books, and what became of each message, in the order of the messages. Where
/// `served` is `Memory`, there was no room for that: none was served where the messages were all there, some may have been where they were
/// served while their file was read.
#[derive(Drop)]
pub struct ServedDay<D: Disk> {
    pub closed: Closed<D>,
    pub served: Result<Vec<Served>, Memory>,
}

/// The memory that serving takes: room for the workers, for their passes at the end, and for what becomes of the messages.
#[derive(Drop)]
struct Places {
    workers: Vec<Worker>,
    passes: Vec<Pass>,
    served: Vec<Served>,
}

/// Room for so many workers and so many messages.
fn make_places(alloc: Global, workers: u32, messages: usize) -> Result<Places, Memory>
    ensures workers { IfOk result (λ places. (places.workers.items ≡ []) × (workers ≤ vec_capacity places.workers)) }
    ensures passes { IfOk result (λ places. (places.passes.items ≡ []) × (workers ≤ vec_capacity places.passes)) }
    ensures served { IfOk result (λ places. (places.served.items ≡ []) × (messages ≤ vec_capacity places.served)) }
{
    Ok(Places {
        workers: Vec::with_capacity(alloc, workers as usize)?,
        passes: Vec::with_capacity(alloc, workers as usize)?,
        served: Vec::with_capacity(alloc, messages)?,
    })
}

/// What became of each message, in a list that has room for all of them.
fn served_of(replies: Result<Vec<Made>, Memory>, room: Vec<Served>) -> Result<Vec<Served>, Memory>
    requires none { room.items ≡ [] }
    requires room { IfOk replies (λ made. length (all_made made.items) ≤ vec_capacity room) }
    ensures made { IfOk replies (λ made. IfOk result (λ served. served.items ≡ all_made made.items)) }
    ensures ok { IfErr result (λ _. IfOk replies (λ _. ⊥)) }
    ensures err { IfOk result (λ _. IfErr replies (λ _. ⊥)) }
{
    let mut served = room;
    put_all(replies?, &mut served);
    Ok(served)
}

/// Closes the books of a desk with the passes of its workers, in whose room they are put together.
fn close_desk<N: BooksName, D: Disk>(
    desk: RunDesk<'_, N, D>,
    workers: Vec<Worker>,
    room: Vec<Pass>,
) -> Closed<D>
    requires passes { AllTaken (λ worker. Belongs N.opening worker.pass) workers.items }
    requires all { vec_len workers ≡ N.opening.made }
    requires none { room.items ≡ [] }
    requires room { vec_len workers ≤ vec_capacity room }
    ensures closes { Closes N.opening result.history.entries (D.faults result.disk) (map (λ worker. worker.pass) workers.items) }
    ensures accounts { result.accounts ≡ N.opening.accounts }
    ensures journal { IsJournal result.accounts result.history.entries }
    ensures disk { LeavesClosed D.Disk N.opening result.history.entries result.disk }
    ensures honest { D.honest result.disk ≡ N.opening.honest }
    ensures any_moment { LeavesInTurn D.Disk N.opening N.past result.history.entries result.disk }
{
    let RunDesk { books, .. } = desk;
    let mut passes = room;
    vacate(&mut passes, workers);
    books.close_all(passes)
}

/// What `serve_all` does, where `N` names the opening, and so many entries under one sync.
///
/// Where there is no memory for the books, the disk comes back as it was.
fn serve_named<
    'a,
    N: BooksName + Send + Sync,
    R: Wait + Threads + Sync,
    D: Disk + Drop + Send,
    G: Gate + Sync,
>(
    rt: &R,
    alloc: Global,
    directory: &'a Directory,
    opened: Opened<D>,
    workers: u32,
    entries: u32,
    messages: &[Framed<'_>],
    gate: &G,
) -> Result<ServedDay<D>, (D, Memory)>
    requires named { IsNamed D.Disk N.opening N.past N.table opened workers }
    requires most { N.opening.most ≡ entries }
    requires entries { (1 ≤ entries) × (entries ≤ most_batch) }
    requires journal { IsJournal opened.accounts opened.base }
    requires count { (1 ≤ workers) × (workers ≤ most_workers) }
    ensures served { IfOk result (λ day. AllServed D.Disk (opening_with D.Disk opened workers entries) N.past (readings_of directory.now opened.accounts messages.now) day) }
    ensures disk { IfErr result (λ e. e.0 ≡ disk_of opened.file) }
{
    let Ok(places) = make_places(alloc, workers, messages.len()) else {
        return Err((opened.into_disk(), Memory));
    };
    let share = share_of(messages.len(), workers, entries);
    let Ok(batches) = share_out::<N>(alloc, messages, share) else {
        return Err((opened.into_disk(), Memory));
    };
    let (books, passes) = match opened.books::<N>(alloc, workers) {
        Ok(made) => made,
        Err(refused) => return Err(refused),
    };
    let Places {
        workers: mut staff,
        passes: back,
        served,
    } = places;
    seat(alloc, &mut staff, passes);
    let desk = RunDesk {
        alloc,
        directory,
        books,
    };
    let worked = run_jobs(rt, alloc, &desk, staff, batches, gate);
    let closed = close_desk(desk, worked.passes, back);
    Ok(ServedDay {
        closed,
        served: served_of(worked.replies, served),
    })
}

/// Lets 1 to 16 workers serve messages over the books of an opening, with up to so many entries under one sync, and closes the
/// books.
///
/// Where there is no memory for the books, the disk comes back as it was.
pub fn serve_all<R: Wait + Threads + Sync, D: Disk + Drop + Send, G: Gate + Sync>(
    rt: &R,
    alloc: Global,
    directory: &Directory,
    opened: Opened<D>,
    workers: u32,
    entries: u32,
    messages: Vec<Framed<'_>>,
    gate: &G,
) -> Result<ServedDay<D>, (D, Memory)>
    requires count { (1 ≤ workers) × (workers ≤ most_workers) }
    requires entries { (1 ≤ entries) × (entries ≤ most_batch) }
    requires journal { IsJournal opened.accounts opened.base }
    ensures served { IfOk result (λ day. AllServed D.Disk (opening_with D.Disk opened workers entries) (past_of D.Disk opened) (readings_of directory.now opened.accounts messages.entry.items) day) }
    ensures disk { IfErr result (λ e. e.0 ≡ disk_of opened.file) }
{
    serve_named::<Brand, _, _, _>(
        rt,
        alloc,
        directory,
        opened,
        workers,
        entries,
        messages.as_slice(),
        gate,
    )
}

/// What is left when the messages of a file were served while it was read: the closed books, what became of each message that was given,
/// in the order of the file, and the file. Where `served` is `Memory`, some may have been served.
#[derive(Drop)]
pub struct StreamedDay<S, D: Disk> {
    pub day: ServedDay<D>,
    pub file: MessageFile<S>,
}

/// How many batches wait for the workers at most.
const DEPTH: u32 = 64;

/// What `serve_stream` does, where `N` names the opening, and so many entries under one sync, and `F` the file.
fn serve_fed<
    N: BooksName + Send + Sync,
    F: FileName,
    R: Wait + Threads + Sync,
    S: Source + Drop,
    D: Disk + Drop + Send,
    G: Gate + Sync,
>(
    rt: &R,
    alloc: Global,
    directory: &Directory,
    source: S,
    opened: Opened<D>,
    workers: u32,
    entries: u32,
    gate: &G,
) -> Result<StreamedDay<S, D>, (S, D, Memory)>
    requires named { IsNamed D.Disk N.opening N.past N.table opened workers }
    requires most { N.opening.most ≡ entries }
    requires file { (F.left ≡ S.left source) × (F.faults ≡ S.faults source) }
    requires entries { (1 ≤ entries) × (entries ≤ most_batch) }
    requires journal { IsJournal opened.accounts opened.base }
    requires count { (1 ≤ workers) × (workers ≤ most_workers) }
    ensures served { IfOk result (λ s. StreamServed S.Source D.Disk (opening_with D.Disk opened workers entries) N.past (readings_of directory.now opened.accounts) source s) }
    ensures err { IfErr result (λ e. (e.0 ≡ source) × (e.1 ≡ disk_of opened.file)) }
{
    let Ok(places) = make_places(alloc, workers, 0) else {
        return Err((source, opened.into_disk(), Memory));
    };
    let feed = match MessageFeed::<N, F, S>::new(alloc, source, workers, entries) {
        Ok(feed) => feed,
        Err((source, memory)) => return Err((source, opened.into_disk(), memory)),
    };
    let (books, passes) = match opened.books::<N>(alloc, workers) {
        Ok(made) => made,
        Err((disk, memory)) => {
            let MessageFile { source, .. } = feed.into_file();
            return Err((source, disk, memory));
        }
    };
    let Places {
        workers: mut staff,
        passes: back,
        served: _,
    } = places;
    seat(alloc, &mut staff, passes);
    let desk = RunDesk {
        alloc,
        directory,
        books,
    };
    let Streamed {
        passes,
        feed,
        replies,
    } = run_feed(rt, alloc, &desk, staff, feed, DEPTH, gate);
    let closed = close_desk(desk, passes, back);
    let served = join_made(alloc, replies);
    Ok(StreamedDay {
        day: ServedDay { closed, served },
        file: feed.into_file(),
    })
}

/// Lets 1 to 16 workers serve the messages of a file over the books of an opening while it is read, with up to so many entries under one
/// sync, and closes the books.
///
/// Where there is no memory for the books or the first piece, the disk comes back as it was, and the source, of which nothing was read.
pub fn serve_stream<
    R: Wait + Threads + Sync,
    S: Source + Drop,
    D: Disk + Drop + Send,
    G: Gate + Sync,
>(
    rt: &R,
    alloc: Global,
    directory: &Directory,
    source: S,
    opened: Opened<D>,
    workers: u32,
    entries: u32,
    gate: &G,
) -> Result<StreamedDay<S, D>, (S, D, Memory)>
    requires count { (1 ≤ workers) × (workers ≤ most_workers) }
    requires entries { (1 ≤ entries) × (entries ≤ most_batch) }
    requires journal { IsJournal opened.accounts opened.base }
    ensures served { IfOk result (λ s. StreamServed S.Source D.Disk (opening_with D.Disk opened workers entries) (past_of D.Disk opened) (readings_of directory.now opened.accounts) source s) }
    ensures err { IfErr result (λ e. (e.0 ≡ source) × (e.1 ≡ disk_of opened.file)) }
{
    serve_fed::<Brand, Brand, _, _, _, _>(
        rt, alloc, directory, source, opened, workers, entries, gate,
    )
}
