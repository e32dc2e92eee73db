//! The message file, cut into its messages.

ghost use Rattle.std.specs.Prelude.{◌≡◌, ◌+◌, ◌≤◌, ◌<◌, ◌^◌, ℕ, List, ◌++◌, None, IfOk, IfErr, IfSome, OnOk, length};
ghost use Rattle.std.specs.List.{position};
ghost use Rattle.fin_frame.specs.inner.Shown.{HasNoColon, is_colon};
ghost use Rattle.corr_top.specs.inner.Feeding.{HasPassed, StopsFeeding};
ghost use Rattle.corr_top.specs.MessageFile.{IsMessageFile, StopsCutting, most_message_bytes, most_messages};
ghost use Rattle.corr_top.specs.Passing.{StopsAtMessages};
ghost use Rattle.corr_top.specs.Reading.{Took};

use crate::reading::{ReadStop, read_whole};
use crate::status::Status;
use corr_io::Source;
use corr_text::{List, Memory, Text};
use fin_frame::{Cutter, FrameFault, Framed, cut_whole};
use std::alloc::Global;

/// The most bytes of a file of messages or of packets: 64 MiB.
pub(crate) const FILE_LIMIT: usize = 67_108_864;

/// The most messages of a message file.
pub(crate) const MESSAGE_LIMIT: u32 = 50_000;

/// Why a message file was not taken.
#[derive(Clone, Copy)]
pub enum FileStop {
    /// Its source failed: the count of faults before and after.
    Fault { before: u64, after: u64 },
    /// It passes a limit: the bytes up to and with the first that passes one, and the messages that begin in them.
    TooLarge { bytes: u64, messages: u32 },
    /// It can't be cut: the place of the fault.
    Framing { at: u64 },
    /// There was no memory.
    Memory,
}

impl From<FrameFault> for FileStop {
    ghost use Rattle.corr_top.specs.inner.Stops.{file_stop_of_frame};

    ghost from_gives = { λ fault stop. stop ≡ file_stop_of_frame fault };

    fn from(fault: FrameFault) -> FileStop {
        match fault {
            FrameFault::Stray { at } => FileStop::Framing { at },
            FrameFault::TooLong { at } => FileStop::Framing { at },
            FrameFault::Unbalanced { at } => FileStop::Framing { at },
            FrameFault::Memory => FileStop::Memory,
        }
    }
}

impl From<ReadStop> for FileStop {
    ghost use Rattle.corr_top.specs.inner.Stops.{file_stop_of_read};

    ghost from_gives = { λ stop result. result ≡ file_stop_of_read stop };

    fn from(stop: ReadStop) -> FileStop {
        match stop {
            ReadStop::Fault { before, after } => FileStop::Fault { before, after },
            ReadStop::Memory => FileStop::Memory,
        }
    }
}

impl From<Memory> for FileStop {
    ghost use Rattle.corr_top.specs.declared.cutting.FileStop.TheVariants.{Memory as NoMemory};

    ghost from_gives = { λ _ stop. stop ≡ NoMemory };

    fn from(_e: Memory) -> FileStop {
        FileStop::Memory
    }
}

impl From<FileStop> for Status {
    ghost use Rattle.corr_top.specs.Stops.{status_of_file};

    ghost from_gives = { λ stop status. status ≡ status_of_file stop };

    fn from(stop: FileStop) -> Status {
        match stop {
            FileStop::Fault { before, after } => Status::ReadFault { before, after },
            FileStop::TooLarge { bytes, messages } => Status::TooLarge { bytes, messages },
            FileStop::Framing { at } => Status::Framing { at },
            FileStop::Memory => Status::Memory,
        }
    }
}

/// Feeds a piece; with it the file has `bytes` bytes so far.
fn feed_piece(
    cutter: &mut Cutter,
    piece: &[u8],
    bytes: usize,
    messages: &mut List<Text>,
) -> Result<(), FileStop>
    requires { cutter.old.failed ≡ None → cutter.old.fed + length piece.now < 2 ^ 32 }
    ensures ok { OnOk result ((fed : List ℕ) → HasPassed cutter.old fed messages.old → bytes ≡ length (fed ++ piece.now) →
        HasPassed cutter.new (fed ++ piece.now) messages.new) }
    ensures stopped { IfErr result (λ s. (fed : List ℕ) → HasPassed cutter.old fed messages.old → bytes ≡ length (fed ++ piece.now) →
        StopsFeeding (fed ++ piece.now) s) }
{
    let answer = cutter.feed(piece, messages);
    if let Err(FrameFault::Memory) = answer {
        return Err(FileStop::Memory);
    }
    let begun = cutter.begun();
    if bytes > FILE_LIMIT || begun > MESSAGE_LIMIT {
        return Err(FileStop::TooLarge {
            bytes: bytes as u64,
            messages: begun,
        });
    }
    Ok(answer?)
}

fn colon(rest: &[u8]) -> Option<usize>
    ensures { result ≡ position is_colon rest.now }
{
    rest.iter().position(|b| *b == b':')
}

/// How many bytes stand before the first colon, with which the `{1:` of a message ends.
fn quiet_len(rest: &[u8]) -> usize
    ensures { HasNoColon result rest.now }
{
    match colon(rest) {
        Some(at) => at,
        None => rest.len(),
    }
}

/// A number of bytes in which no message past the last that is allowed begins: each byte begins one at most, and but a colon none.
fn few_len(begun: u32, rest: &[u8]) -> usize
    ensures few { begun < most_messages → begun + result ≤ most_messages }
    ensures quiet { most_messages ≤ begun → HasNoColon result rest.now }
{
    if begun < MESSAGE_LIMIT {
        return (MESSAGE_LIMIT - begun) as usize;
    }
    quiet_len(rest)
}

/// How many bytes of the rest to feed: one, or so few that no limit is passed in them.
fn piece_len(fed: usize, begun: u32, rest: &[u8]) -> usize
    requires { 0 < length rest.now }
    ensures some { 0 < result }
    ensures fits { result ≤ length rest.now }
    ensures short { 1 < result → fed + result ≤ most_message_bytes }
    ensures few { 1 < result → begun < most_messages → begun + result ≤ most_messages }
    ensures quiet { 1 < result → most_messages ≤ begun → HasNoColon result rest.now }
{
    let bytes = FILE_LIMIT.saturating_sub(fed);
    let messages = few_len(begun, rest);
    bytes.min(messages).min(rest.len()).max(1)
}

/// The messages of a file, fed to a cutter in pieces, or its first byte past a limit, or its first fault.
fn cut_in_pieces(alloc: Global, file: &[u8]) -> Result<List<Text>, FileStop>
    requires { length file.now ≤ most_message_bytes + 1 }
    ensures ok { IfOk result (IsMessageFile file.now) }
    ensures stopped { IfErr result (StopsCutting file.now) }
{
    let mut cutter = Cutter::new(alloc);
    let mut messages = List::new(alloc);
    let mut rest = file;
    while !rest.is_empty() {
        let len = piece_len(file.len() - rest.len(), cutter.begun(), rest);
        let (piece, after) = rest.split_at(len);
        let bytes = file.len() - after.len();
        feed_piece(&mut cutter, piece, bytes, &mut messages)?;
        rest = after;
    }
    cutter.finish(&mut messages)?;
    Ok(messages)
}

/// Why a file that is no message file is none: its first byte past a limit, or its first fault.
pub fn first_stop(alloc: Global, file: &[u8]) -> FileStop
    requires short { length file.now ≤ most_message_bytes + 1 }
    requires none { (messages : List (List ℕ)) → IsMessageFile file.now messages → ⊥ }
    ensures { StopsCutting file.now result }
{
    cut_in_pieces(alloc, file).unwrap_err()
}

/// The messages of a file within its limits, each where it stands. None where it is no message file.
fn cut_sound(alloc: Global, file: &[u8]) -> Result<Option<List<Framed<'_>>>, Memory>
    ensures found { IfOk result (λ found. IfSome found (IsMessageFile file.now)) }
    ensures none { IfOk result (λ found. found ≡ None → (messages : List (List ℕ)) → IsMessageFile file.now messages → ⊥) }
{
    if file.len() > FILE_LIMIT {
        return Ok(None);
    }
    cut_whole(alloc, file, MESSAGE_LIMIT as usize)
}

/// The messages of a file, each where it stands, or its first fault: `TooLarge` at its first byte past a limit, or `Framing`.
pub fn cut_file(alloc: Global, file: &[u8]) -> Result<List<Framed<'_>>, FileStop>
    requires { length file.now ≤ most_message_bytes + 1 }
    ensures ok { IfOk result (IsMessageFile file.now) }
    ensures stopped { IfErr result (StopsCutting file.now) }
{
    match cut_sound(alloc, file) {
        Ok(Some(messages)) => Ok(messages),
        Ok(None) => Err(first_stop(alloc, file)),
        Err(memory) => Err(FileStop::from(memory)),
    }
}

/// The bytes of a message file, one more than its limit at most.
pub fn read_file<S: Source>(alloc: Global, source: &mut S) -> Result<Text, FileStop>
    ensures read { IfOk result (Took S.left S.faults most_message_bytes source.old source.new) }
    ensures stopped { IfErr result (λ stop. (file : List ℕ) → StopsAtMessages S.Source source.old source.new file stop) }
{
    Ok(read_whole(alloc, source, FILE_LIMIT)?)
}
