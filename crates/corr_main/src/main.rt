//! The program: a folder of files and the words of a command (docs/operating.md).
#![tactic(auto)]

ghost use Rattle.std.specs.Prelude.{IfErr, IfOk};
ghost use Rattle.corr_top.specs.Status.{HasLine};

mod explain;
mod guarded_sink;
mod meanings;

use crate::explain::explained;
use crate::guarded_sink::{GuardedSink, Journal};
use crate::meanings::MEANINGS;
use corr_disk::{FileDisk, Trouble};
use corr_io::{StdSink, StdSource};
use corr_text::{Memory, Text, let_go};
use corr_top::{Room, Status, Tables, corr, put_status_line};
use std::env::{Env, FillError};
use std::fs::File;
use std::io;
use std::io::Write;
use std::os::fd::{AsRawFd, IntoRawFd};
use std::process::ExitCode;
use std::sync::Wait;
use std::thread::Threads;
use work_pool::OpenGate;

/// What `corr --help` prints: each command with its words, the files of a folder, and the statuses.
const HELP: &[u8] = b"\
corr FOLDER init HOME                 makes journal.bin for the home bank HOME, a BIC, with the accounts
                                      of accounts.csv
corr FOLDER run DATE WORKERS          books the messages of messages.fin on DATE (YYMMDD) with 1 to 16
                                      WORKERS, prints the report and appends the messages that leave to
                                      out.fin
corr FOLDER batch DATE WORKERS ENTRIES
                                      as run, with up to ENTRIES entries, 1 to 1024, under one sync of the
                                      disk
corr FOLDER return PLACE DATE         takes the payment at PLACE back on DATE, prints its entry and appends
                                      the messages that leave to out.fin
corr FOLDER send FROM UNTIL           appends to out.fin once more what leaves for the entries at these
                                      places
corr FOLDER ship FROM UNTIL           appends to out.fin the packets of the records FROM to UNTIL of
                                      journal.bin, its header being 1
corr FOLDER bookings                  prints the entries
corr FOLDER statements DATE           appends to out.fin what the owners of the vostro accounts are sent
                                      of DATE
corr FOLDER customer-statements DATE  appends to out.fin what the customers are told of DATE
corr FOLDER balances [DATE]           prints a row for each account with its balance, after all entries or
                                      after those up to DATE, with commas
corr FOLDER entries FROM UNTIL        prints a row for each entry of these days (YYMMDD), with commas
corr FOLDER check HOME                prints what is wrong with each message of messages.fin, as one to the
                                      home bank HOME; it books nothing, and needs no journal
corr FOLDER page DATE                 prints a page (HTML) of DATE for a desk: what needs somebody of
                                      messages.fin, and the accounts; it books nothing
corr FOLDER reconcile                 prints where the statements of received.fin and the books differ
corr FOLDER generate COUNT SEED       appends to out.fin a day of COUNT messages, 1 to 50000, made from
                                      the number SEED
corr FOLDER trial COUNT SEED WORKERS  books such a day in memory with 1 to 16 WORKERS, and prints its
                                      summary
corr FOLDER mend FROM UNTIL           prints what out.fin should hold: its whole messages, then what leaves
                                      for the entries at these places and isn't in it
corr FOLDER open-account ID KIND OWNER CCY FLOOR CEIL
                                      opens an account in journal.bin, its columns as in accounts.csv,
                                      with opening 0
corr FOLDER set-limits ID FLOOR CEIL  gives an account of journal.bin another floor and ceiling
corr FOLDER migrate                   carries a journal of version 1 over to journal2.bin
corr FOLDER follow                    takes the packets of received.fin into journal.bin, which record 1
                                      makes, and prints how many records it has

A folder has bics.csv, ccys.csv, countries.csv, accounts.csv, ssi.csv, charges.csv, messages.fin
and, for reconcile and follow, received.fin; mend reads out.fin. generate and trial read no file.

corr --help             prints this
corr --version          prints the version
corr --explain CODE ..  prints what codes of a report say and what to do, and the names of fields by their tags

Status 0 done; 1 other words; 2 a table row is refused; 3 a file can't be read; 4 the report or
out.fin can't be written; 5 journal.bin or journal2.bin can't be read or written, or is in use; 6 there is no
journal, it is damaged, or it is there already, or the openings don't balance; 7 no memory; 8 DATE
is before the last entry's day; 9 the message file is too large; 10 it can't be cut; 11 the journal
is full; 12 it is of another version; 13 no account has the ID; 14 there is no second journal's file;
15 no payment stands at PLACE; 16 it is returned already; 17 an account can't take its return;
18 a packet's record may not stand next.
Each but 0 has its line on standard error.

To read on: docs/operating.md says what each command reads and writes, and what to do after each status;
docs/messages.md explains each code of the report.
";

/// What `corr --version` prints.
const VERSION: &[u8] = b"corr 0.1.0\n";

/// The file of the journal.
const JOURNAL: &[u8] = b"journal.bin";

/// The file of the journal that `migrate` makes.
const SECOND: &[u8] = b"journal2.bin";

/// The most bytes of a word of the command line.
const WORD_LIMIT: usize = 4096;

/// The most bytes of the line that tells a status, and of its line end.
const LINE_LIMIT: usize = 128;

/// The line of `Status::Memory`, which takes no memory.
const NO_MEMORY: &[u8] = b"corr: no memory\n";

/// The lines of a journal that can't be used.
const IN_USE: &[u8] = b"corr: journal is in use\n";

const NO_LOCKS: &[u8] = b"corr: journal can't be locked\n";

const GONE: &[u8] = b"corr: journal was removed or cut\n";

/// The commands that only read the journal, and may do so side by side.
const READERS: [&[u8]; 11] = [
    b"send",
    b"ship",
    b"bookings",
    b"balances",
    b"entries",
    b"statements",
    b"customer-statements",
    b"reconcile",
    b"mend",
    b"migrate",
    b"page",
];

/// Puts the null device in the place of each of standard input, output and error that is closed, so that no file that is
/// opened later gets its number. It is open for reading alone: what is written there fails, as to what is closed.
fn fill_standard(rt: &HostRuntime) -> io::Result<()> {
    for _ in 0..3 {
        let null = File::open(rt, "/dev/null")?;
        if null.as_raw_fd() > 2 {
            break;
        }
        null.into_raw_fd();
    }
    Ok(())
}

/// The word at a place of the command line; none after the last one. `Usage`: it is longer than the limit, or not UTF-8.
fn word(rt: &HostRuntime, at: usize) -> Result<Option<Text>, Status>
    ensures { IfErr result HasLine }
{
    let mut bytes = [0u8; WORD_LIMIT];
    let len = match rt.arg(at, &mut bytes) {
        Ok(len) => len,
        Err(FillError::NotPresent) => return Ok(None),
        Err(FillError::TooLong) => return Err(Status::Usage),
    };
    if str::from_utf8(&bytes[..len]).is_err() {
        return Err(Status::Usage);
    }
    match Text::from_bytes(rt.alloc(), &bytes[..len]) {
        Ok(word) => Ok(Some(word)),
        Err(Memory) => Err(Status::Memory),
    }
}

/// The words of the command line after the program's name.
fn words(rt: &HostRuntime) -> Result<Vec<Text>, Status>
    ensures { IfErr result HasLine }
{
    let mut words = Vec::new(rt.alloc());
    for at in 1..usize::MAX {
        let Some(word) = word(rt, at)? else {
            break;
        };
        if words.push(word).is_err() {
            return Err(Status::Memory);
        }
    }
    Ok(words)
}

/// The path of a file in a folder.
fn path(rt: &HostRuntime, folder: &[u8], name: &[u8]) -> Result<Text, Memory> {
    let mut path = Text::from_bytes(rt.alloc(), folder)?;
    path.push(b"/")?;
    path.push(name)?;
    Ok(path)
}

fn source<'a>(
    rt: &'a HostRuntime,
    folder: &[u8],
    name: &[u8],
) -> Result<StdSource<'a, HostRuntime>, Memory> {
    Ok(StdSource::new(rt, path(rt, folder, name)?))
}

/// The table files of a folder.
fn tables<'a>(
    rt: &'a HostRuntime,
    folder: &[u8],
) -> Result<Tables<StdSource<'a, HostRuntime>>, Memory> {
    Ok(Tables {
        bics: source(rt, folder, b"bics.csv")?,
        ccys: source(rt, folder, b"ccys.csv")?,
        countries: source(rt, folder, b"countries.csv")?,
        accounts: source(rt, folder, b"accounts.csv")?,
        ssi: source(rt, folder, b"ssi.csv")?,
        charges: source(rt, folder, b"charges.csv")?,
    })
}

/// What a command is handed: files, and standard output.
type Files<'a> = Room<StdSource<'a, HostRuntime>, GuardedSink<'a>, FileDisk<'a, HostRuntime>>;

/// The files of a folder, and standard output for the report. What is sent is appended to `out.fin`. The journal is held alone
/// but for who only reads it, and nothing is written where it was removed or cut meanwhile. A command that copies the journal has
/// a second disk.
fn room<'a>(
    rt: &'a HostRuntime,
    folder: &[u8],
    journal: &'a Journal,
    reads: bool,
    copies: bool,
) -> Result<Files<'a>, Memory> {
    let out = path(rt, folder, b"out.fin")?;
    Ok(Room {
        messages: source(rt, folder, b"messages.fin")?,
        received: source(rt, folder, b"received.fin")?,
        sent: source(rt, folder, b"out.fin")?,
        tables: tables(rt, folder)?,
        report: GuardedSink::new(rt, journal, StdSink::out(rt)),
        out: GuardedSink::new(rt, journal, StdSink::file(rt, out)),
        disk: disk(rt, path(rt, folder, JOURNAL)?, reads).watched(journal.watch()),
        disk2: second(rt, folder, copies)?,
    })
}

fn disk<'a>(rt: &'a HostRuntime, path: Text, reads: bool) -> FileDisk<'a, HostRuntime> {
    if reads {
        FileDisk::shared(rt, path)
    } else {
        FileDisk::new(rt, path)
    }
}

/// The disk of the journal that is made of another one, which is held alone; none for a command that makes none.
fn second<'a>(
    rt: &'a HostRuntime,
    folder: &[u8],
    copies: bool,
) -> Result<Option<FileDisk<'a, HostRuntime>>, Memory> {
    if copies {
        Ok(Some(FileDisk::new(rt, path(rt, folder, SECOND)?)))
    } else {
        Ok(None)
    }
}

fn journal(rt: &HostRuntime, folder: &[u8]) -> Result<Journal, Memory> {
    Ok(Journal::new(path(rt, folder, JOURNAL)?))
}

/// Whether the command of these words only reads the journal. Words of no command touch nothing.
fn is_reader(words: &[Text]) -> bool {
    match words {
        [word, ..] => READERS.iter().any(|reader| word.bytes() == *reader),
        [] => false,
    }
}

/// Whether the command of these words makes a copy of the journal.
fn is_copier(words: &[Text]) -> bool {
    match words {
        [word] => word.bytes() == b"migrate".as_slice(),
        _ => false,
    }
}

/// What is wrong with the journal of a command that has ended so, where it isn't only that the system refused a call. A command that
/// has written nothing hasn't looked for it yet.
fn trouble(
    rt: &HostRuntime,
    status: &Status,
    room: &Files<'_>,
    journal: &Journal,
) -> Option<Trouble> {
    let is_written = matches!(status, Status::Done | Status::WriteFault { .. });
    if is_written && !journal.find(rt) {
        Some(Trouble::Gone)
    } else {
        room.disk.trouble()
    }
}

/// Does what the words after the folder say. `waiter` is the handle by which a run starts its workers, and waits for locks.
/// The journal is held until this returns.
fn run(
    rt: &HostRuntime,
    waiter: &(impl Wait + Threads + Sync),
    folder: &[u8],
    words: &[Text],
) -> Result<Status, Trouble>
    ensures { IfOk result HasLine }
{
    let journal = match journal(rt, folder) {
        Ok(journal) => journal,
        Err(Memory) => return Ok(Status::Memory),
    };
    let room = match room(rt, folder, &journal, is_reader(words), is_copier(words)) {
        Ok(room) => room,
        Err(Memory) => return Ok(Status::Memory),
    };
    let done = corr(waiter, rt.alloc(), words, room, &OpenGate);
    let status = done.status;
    let room = done.room;
    let trouble = trouble(rt, &status, &room, &journal);
    let_go(room);
    match trouble {
        Some(trouble) => Err(trouble),
        None => Ok(status),
    }
}

fn print(rt: &HostRuntime, text: &[u8]) -> Status
    ensures { HasLine result }
{
    match rt.stdout().write_all(text) {
        Ok(()) => Status::Done,
        Err(_) => Status::WriteFault {
            before: 0,
            after: 1,
        },
    }
}

/// Prints what codes and tags mean. `Usage`: there is none, or a word is neither; then nothing is printed.
fn print_codes(rt: &HostRuntime, words: &[Text]) -> Status
    ensures { HasLine result }
{
    if words.is_empty() {
        return Status::Usage;
    }
    match explained(rt.alloc(), words, MEANINGS) {
        Ok(Some(text)) => print(rt, text.bytes()),
        Ok(None) => Status::Usage,
        Err(Memory) => Status::Memory,
    }
}

/// Without a folder, or with an empty one, no file is touched.
fn command(
    rt: &HostRuntime,
    waiter: &(impl Wait + Threads + Sync),
    words: &[Text],
) -> Result<Status, Trouble>
    ensures { IfOk result HasLine }
{
    match words {
        [] => Ok(Status::Usage),
        [folder, ..] if folder.bytes().is_empty() => Ok(Status::Usage),
        [word] if word.bytes() == b"--help".as_slice() => Ok(print(rt, HELP)),
        [word] if word.bytes() == b"--version".as_slice() => Ok(print(rt, VERSION)),
        [word, codes @ ..] if word.bytes() == b"--explain".as_slice() => Ok(print_codes(rt, codes)),
        [folder, words @ ..] => run(rt, waiter, folder.bytes(), words),
    }
}

/// Does what the command line says. `ReadFault`: the null device is not there.
fn start(rt: &HostRuntime, waiter: &(impl Wait + Threads + Sync)) -> Result<Status, Trouble>
    ensures { IfOk result HasLine }
{
    if fill_standard(rt).is_err() {
        return Ok(Status::ReadFault {
            before: 0,
            after: 1,
        });
    }
    match words(rt) {
        Ok(words) => command(rt, waiter, words.as_slice()),
        Err(status) => Ok(status),
    }
}

/// Tells a status other than 0 on standard error, by a line for which `line` has room, and answers its number. Where
/// memory is refused while the line is made, the status is `Memory`.
fn tell(rt: &HostRuntime, status: &Status, line: &mut Text) -> u8
    requires { HasLine status.now }
{
    if status.number() == 0 {
        return 0;
    }
    let made = put_status_line(rt.alloc(), status, line);
    if made.is_err() || line.push(b"\n").is_err() {
        return tell_no_memory(rt);
    }
    let _ = rt.stderr().write_all(line.bytes());
    status.number()
}

/// Tells that memory was refused.
fn tell_no_memory(rt: &HostRuntime) -> u8 {
    let _ = rt.stderr().write_all(NO_MEMORY);
    Status::Memory.number()
}

/// Tells what is wrong with the journal: a fault of the disk, with a line of its own.
fn tell_trouble(rt: &HostRuntime, trouble: Trouble) -> u8 {
    let line = match trouble {
        Trouble::InUse => IN_USE,
        Trouble::NoLocks => NO_LOCKS,
        Trouble::Gone => GONE,
    };
    let _ = rt.stderr().write_all(line);
    let fault = Status::DiskFault {
        before: 0,
        after: 1,
    };
    fault.number()
}

fn main(rt: HostRuntime) -> ExitCode {
    // the line's memory is taken first: then a status is told where memory is refused later
    let number = match Text::with_room(rt.alloc(), b"", LINE_LIMIT) {
        Ok(mut line) => match start(&rt, &rt) {
            Ok(status) => tell(&rt, &status, &mut line),
            Err(trouble) => tell_trouble(&rt, trouble),
        },
        Err(Memory) => tell_no_memory(&rt),
    };
    ExitCode::from(number)
}
