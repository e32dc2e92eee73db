//! The command `trial`: a generated day, run over a journal in memory.

ghost use Rattle.std.specs.Prelude.{◌≡◌, ◌≤◌, ◌⊎◌, [], All, IfOk, IsTrue, Some, length, ◌+◌};
ghost use Rattle.corr_report.specs.Generated.{most_generated};
ghost use Rattle.corr_report.specs.Summary.{summary_of};
ghost use Rattle.corr_text.specs.Faults.{Rose};
ghost use Rattle.day_model.specs.Legal.{IsLegal};
ghost use Rattle.day_model.specs.Totals.{pair_at};
ghost use Rattle.jrn_book.specs.Journal.{IsJournal};
ghost use Rattle.jrn_codec.specs.Header.{IsHead, head_bytes};
ghost use Rattle.ssi_versions.specs.InstructionList.{AreInstructions};
ghost use Rattle.work_pool.specs.Served.{most_workers};
ghost use Rattle.corr_top.specs.MessageFile.{IsMessageFile, most_message_bytes};
ghost use Rattle.corr_top.specs.OnDisk.{IsOnDisk};
ghost use Rattle.corr_top.specs.Samples.{sample_day};
ghost use Rattle.corr_top.specs.Trial.{IsBooked, sample_chart, sample_directory};
ghost use Rattle.corr_top.specs.inner.Trial.{AreSampleFiles, GivesTrial, IsNewDisk, IsBearable, IsTrial, IsWholeDay, ServesTrial, StaysWithin, supply_of};

use crate::cutting::cut_file;
use crate::directory::{Directory, read_directory};
use crate::init::{make, prepare};
use crate::room::Tables;
use crate::samples::{
    sample_accounts, sample_bics, sample_ccys, sample_countries, sample_day, sample_home,
    sample_ssi,
};
use crate::serving::{ServedDay, serve_all};
use crate::status::Status;
use crate::words::MOST_BATCH;
use crate::writing::Texts;
use corr_books::{Closed, Opened, open_books};
use corr_disk::{Disk, MemDisk};
use corr_io::MemSource;
use corr_report::{generated, summary};
use corr_text::{List, Memory, Text, let_go};
use day_model::{Account, Accounts, AcctNo, Entry, History, Outcome, totals};
use fin_frame::Framed;
use std::alloc::Global;
use std::sync::Wait;
use std::thread::Threads;
use work_pool::Gate;

/// How many entries a trial writes together at most.
const ENTRIES: u32 = MOST_BATCH as u32;

/// A source of these bytes, which never fails.
fn source(alloc: Global, bytes: &[u8]) -> Result<MemSource, Memory>
    ensures { IfOk result (λ source. source ≡ supply_of bytes.now) }
{
    Ok(MemSource::new(Text::from_bytes(alloc, bytes)?, List::new(alloc)))
}

/// The table files of the sample bank.
fn sample_tables(alloc: Global) -> Result<Tables<MemSource>, Memory>
    ensures { IfOk result AreSampleFiles }
{
    Ok(Tables {
        bics: source(alloc, sample_bics())?,
        ccys: source(alloc, sample_ccys())?,
        countries: source(alloc, sample_countries())?,
        accounts: source(alloc, sample_accounts())?,
        ssi: source(alloc, sample_ssi())?,
        charges: source(alloc, b"")?,
    })
}

/// What messages of the sample bank are judged, routed and charged by.
fn sample_directory(alloc: Global) -> Result<Directory, Memory>
    ensures value { IfOk result (λ directory. directory ≡ sample_directory) }
    ensures instructions { IfOk result (λ directory. AreInstructions directory.tables directory.ssi) }
{
    let mut tables = sample_tables(alloc)?;
    let directory = read_directory(alloc, &mut tables);
    let_go(tables);
    match directory {
        Ok(directory) => Ok(directory),
        Err(_) => Err(Memory),
    }
}

/// The header of the sample bank's journal.
fn sample_head(alloc: Global) -> Result<Text, Memory>
    ensures { IfOk result (λ head. (head ≡ head_bytes sample_chart) × IsHead sample_chart) }
{
    let mut tables = sample_tables(alloc)?;
    let prepared = prepare(alloc, sample_home(), &mut tables);
    let_go(tables);
    match prepared {
        Ok(prepared) => Ok(prepared.head),
        Err(_) => Err(Memory),
    }
}

/// A disk in memory with a new journal of the sample bank. Where the disk fails, memory is wanting.
fn sample_disk(alloc: Global) -> Result<MemDisk, Memory>
    ensures new { IfOk result (IsNewDisk ⟦<MemDisk as Disk>⟧) }
    ensures journal { IfOk result (λ _. IsJournal sample_chart []) }
{
    let head = sample_head(alloc)?;
    let empty = MemDisk::new(alloc, Text::from_bytes(alloc, b"")?);
    let (disk, made) = make(alloc, empty, &head);
    match made {
        Ok(()) => Ok(disk),
        Err(_) => Err(Memory),
    }
}

/// The books of a new journal of the sample bank, opened for its day.
fn sample_books(alloc: Global) -> Result<Opened<MemDisk>, Memory>
    ensures accounts { IfOk result (λ opened. opened.accounts ≡ sample_chart) }
    ensures base { IfOk result (λ opened. opened.base ≡ []) }
    ensures journal { IfOk result (λ opened. IsJournal opened.accounts opened.base) }
    ensures day { IfOk result (λ opened. opened.day ≡ sample_day) }
    ensures faults { IfOk result (λ opened. opened.at_open ≡ 0) }
{
    let disk = sample_disk(alloc)?;
    match open_books(alloc, disk, sample_day()) {
        Ok(opened) => Ok(opened),
        Err(_) => Err(Memory),
    }
}

/// The messages of a day, each where it stands in its text. Where it can't be cut, memory is wanting.
fn cut_day(alloc: Global, text: &[u8]) -> Result<List<Framed<'_>>, Memory>
    requires { length text.now ≤ most_message_bytes + 1 }
    ensures { IfOk result (IsMessageFile text.now) }
{
    match cut_file(alloc, text) {
        Ok(messages) => Ok(messages),
        Err(_) => Err(Memory),
    }
}

/// Lets the workers enter the pays of a generated day into a new journal. Where the disk in memory didn't fail, it holds the
/// journal of what was entered.
fn run_trial<R: Wait + Threads + Sync, G: Gate + Sync>(
    rt: &R,
    alloc: Global,
    count: u32,
    seed: u64,
    workers: u32,
    gate: &G,
) -> Result<Closed<MemDisk>, Memory>
    requires count { count ≤ most_generated }
    requires workers { (1 ≤ workers) × (workers ≤ most_workers) }
    ensures served { IfOk result (λ closed. ServesTrial count seed closed.accounts closed.history.entries) }
    ensures journal { IfOk result (λ closed. Rose 0 (⟦<MemDisk as Disk>⟧.faults closed.disk) ⊎ IsOnDisk ⟦<MemDisk as Disk>⟧ closed.disk sample_chart closed.history.entries) }
{
    let text = generated(alloc, count, seed)?;
    let messages = cut_day(alloc, text.bytes())?;
    let directory = sample_directory(alloc)?;
    let opened = match sample_books(alloc) {
        Ok(opened) => opened,
        Err(memory) => {
            let_go(directory);
            return Err(memory);
        }
    };
    let messages = messages.into_vec();
    let served = serve_all(
        rt, alloc, &directory, opened, workers, ENTRIES, messages, gate,
    );
    let_go(directory);
    match served {
        Ok(day) => {
            let ServedDay { closed, .. } = day;
            Ok(closed)
        }
        Err(_) => Err(Memory),
    }
}

/// Whether an entry is booked.
fn is_booked(entry: &Entry) -> bool
    ensures { IsTrue result → IsBooked entry.now }
{
    match entry.outcome {
        Outcome::Booked => true,
        Outcome::Unfunded { .. } => false,
    }
}

/// Whether each entry is booked.
fn are_booked(h: &History) -> bool
    ensures { IsTrue result → All IsBooked h.now.entries }
{
    for place in 1..h.len() + 1 {
        if !is_booked(h.get(place)) {
            return false;
        }
    }
    true
}

/// The totals of an account, of those of all.
fn totals_at(pairs: &[(u64, u64)], n: u32) -> (u64, u64)
    requires from_one { 1 ≤ n }
    requires there { n ≤ length pairs.now }
    ensures { pair_at pairs.now n ≡ Some result }
{
    pairs[n as usize - 1]
}

/// Whether an account stays within its limits by all credits alone, and by all debits alone.
fn is_within(account: &Account, credits: u64, debits: u64) -> bool
    ensures { IsTrue result → StaysWithin account.now credits debits }
{
    let opening = account.opening as i128;
    opening - debits as i128 >= account.floor as i128
        && opening + credits as i128 <= account.ceil as i128
}

/// Whether the entries of a history would be booked in every order: each account bears all of them.
fn is_settled(alloc: Global, a: &Accounts, h: &History) -> Result<bool, Memory>
    requires { IsLegal a.now h.now.entries }
    ensures { IfOk result (λ settled. IsTrue settled → IsBearable a.now h.now.entries) }
{
    let pairs = totals(alloc, a, h)?;
    for n in 1..a.count() + 1 {
        let (credits, debits) = totals_at(&pairs, n);
        if !is_within(a.get(AcctNo(n)), credits, debits) {
            return Ok(false);
        }
    }
    Ok(true)
}

/// Whether each of so many messages has its entry, each entry is booked, and would be in every order.
fn is_whole(alloc: Global, count: u32, a: &Accounts, h: &History) -> Result<bool, Memory>
    requires { IsLegal a.now h.now.entries }
    ensures { IfOk result (λ whole. IsTrue whole → IsWholeDay count a.now h.now.entries) }
{
    if h.len() != count || !are_booked(h) {
        return Ok(false);
    }
    is_settled(alloc, a, h)
}

/// The summary of the history of so many messages. Where it isn't whole, memory is wanting.
fn sum_up(alloc: Global, count: u32, a: &Accounts, h: &History) -> Result<Text, Memory>
    requires { IsLegal a.now h.now.entries }
    ensures whole { IfOk result (λ _. IsWholeDay count a.now h.now.entries) }
    ensures value { IfOk result (λ text. text ≡ summary_of a.now h.now.entries) }
{
    if !is_whole(alloc, count, a, h)? {
        return Err(Memory);
    }
    summary(alloc, a, h)
}

/// The texts of a trial.
fn trial_texts<R: Wait + Threads + Sync, G: Gate + Sync>(
    rt: &R,
    alloc: Global,
    count: u32,
    seed: u64,
    workers: u32,
    gate: &G,
) -> Result<Texts, Memory>
    requires count { count ≤ most_generated }
    requires workers { (1 ≤ workers) × (workers ≤ most_workers) }
    ensures { IfOk result (IsTrial count seed) }
{
    let closed = run_trial(rt, alloc, count, seed, workers, gate)?;
    let summed = sum_up(alloc, count, &closed.accounts, &closed.history);
    let_go(closed);
    let report = summed?;
    let out = Text::from_bytes(alloc, b"")?;
    Ok(Texts { report, out })
}

/// Runs a generated day of `count` messages over a new journal of the sample bank in memory, with 1 to 16 workers. The report is
/// the summary of what one thread makes of the day's pays. It is the same for every number of workers: each pay is booked, in
/// whatever order they come.
///
/// `Memory` is the only error. It comes too where a message was not booked or might not be in another order, which no generated
/// day shows.
pub fn trial<R: Wait + Threads + Sync, G: Gate + Sync>(
    rt: &R,
    alloc: Global,
    count: u32,
    seed: u64,
    workers: u32,
    gate: &G,
) -> Result<Texts, Status>
    requires count { count ≤ most_generated }
    requires workers { (1 ≤ workers) × (workers ≤ most_workers) }
    ensures { GivesTrial count seed result }
{
    match trial_texts(rt, alloc, count, seed, workers, gate) {
        Ok(texts) => Ok(texts),
        Err(_) => Err(Status::Memory),
    }
}
