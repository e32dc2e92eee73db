//! The top calls: the words of a command, and what it is handed.

ghost use Rattle.std.specs.Prelude.{◌≡◌, ◌⊎◌, None, IfSome};
ghost use Rattle.corr_top.specs.Commands.{command_of, meaning_of, plain_of};
ghost use Rattle.corr_top.specs.inner.Commands.{IsSpelled};
ghost use Rattle.corr_top.specs.Complete.{IsFaultless};
ghost use Rattle.corr_top.specs.Ends.{Ends};
ghost use Rattle.corr_top.specs.inner.Ends.{HasTexts};
ghost use Rattle.corr_top.specs.Inputs.{Inputs};
ghost use Rattle.corr_top.specs.Promise.{Promises};
ghost use Rattle.corr_top.specs.Status.{HasLine};
ghost use Rattle.corr_top.specs.declared.words.Command.{Command as TheCommand};
ghost use Rattle.corr_top.specs.declared.words.Command.TheVariants.{Plain as PlainCommand};

use crate::changing::change;
use crate::checking::check;
use crate::following::follow;
use crate::generate::generate;
use crate::init::init;
use crate::mending::mend;
use crate::migrating::migrate;
use crate::paging::page;
use crate::query::query;
use crate::received::reconcile;
use crate::returning::take_back;
use crate::room::{Done, Room};
use crate::run::run;
use crate::status::Status;
use crate::trial::trial;
use crate::words::{Command, Plain, spelled};
use crate::writing::{Texts, write_texts};
use corr_disk::Disk;
use corr_io::{Sink, Source};
use corr_text::Text;
use std::alloc::Global;
use std::sync::Wait;
use std::thread::Threads;
use work_pool::Gate;

/// Words of no command touch nothing.
fn refuse<S: Source, K: Sink, D: Disk>(room: Room<S, K, D>) -> Done<S, K, D>
    ensures { (result.status ≡ Status.Usage) × (result.room ≡ room) }
{
    Done {
        status: Status::Usage,
        room,
    }
}

/// Writes the texts of a command that came to its end, and tells how it ended.
fn end<S: Source, K: Sink, D: Disk>(
    room: Room<S, K, D>,
    texts: Result<Texts, Status>,
) -> Done<S, K, D>
    ensures ends { (command : TheCommand) (old : Room S K D) → HasTexts S.Source D.Disk (meaning_of command) old room texts
        → Ends S.Source D.Disk (meaning_of command) old result.room K.Sink result.status }
    ensures disk { result.room.disk ≡ room.disk }
{
    let mut room = room;
    match texts {
        Ok(texts) => {
            let status = write_texts(&mut room.report, &mut room.out, &texts);
            Done { status, room }
        }
        Err(status) => Done { status, room },
    }
}

/// Does what a command says that waits for nobody.
fn perform<S: Source, K: Sink, D: Disk>(
    alloc: Global,
    command: Plain<'_>,
    room: Room<S, K, D>,
) -> Done<S, K, D>
    requires { IsSpelled (PlainCommand command) }
    ensures ends { Ends S.Source D.Disk (meaning_of (PlainCommand command.entry)) room result.room K.Sink result.status }
    ensures honest { D.honest result.room.disk ≡ D.honest room.disk }
{
    match command {
        Plain::Init { home } => {
            let (room, texts) = init(alloc, home, room);
            end(room, texts)
        }
        Plain::Query(asked) => {
            let (room, texts) = query(alloc, asked, room);
            end(room, texts)
        }
        Plain::Reconcile => {
            let (room, texts) = reconcile(alloc, room);
            end(room, texts)
        }
        Plain::Check { home } => {
            let (room, texts) = check(alloc, &home, room);
            end(room, texts)
        }
        Plain::Generate { count, seed } => end(room, generate(alloc, count, seed)),
        Plain::Change(asked) => {
            let (room, texts) = change(alloc, asked, room);
            end(room, texts)
        }
        Plain::Mend { from, until } => {
            let (room, texts) = mend(alloc, from, until, room);
            end(room, texts)
        }
        Plain::Migrate => {
            let (room, texts) = migrate(alloc, room);
            end(room, texts)
        }
        Plain::Follow => {
            let (room, texts) = follow(alloc, room);
            end(room, texts)
        }
        Plain::Page { day } => {
            let (room, texts) = page(alloc, day, room);
            end(room, texts)
        }
    }
}

/// Does what the words say, for the commands that wait for nobody, and hands the room back: all but `run`, `batch`,
/// `return` and `trial`, which are `Usage` to it (docs/operating.md).
pub fn plain<S: Source, K: Sink, D: Disk>(
    alloc: Global,
    words: &[Text],
    room: Room<S, K, D>,
) -> Done<S, K, D>
    // words of no such command touch nothing
    ensures usage { plain_of words.now ≡ None → (result.status ≡ Status.Usage) × (result.room ≡ room) }
    // what a bank may rely on
    ensures promises { IfSome (plain_of words.now)
        (λ command. Promises S.Source K.Sink D.Disk room result.room result.status (PlainCommand command)) }
    // each other status by its cause
    ensures ends { IfSome (plain_of words.now)
        (λ command. Ends S.Source D.Disk (meaning_of (PlainCommand command)) room result.room K.Sink result.status) }
    // where nothing is wrong and nothing fails, only memory can be wanting
    ensures complete { IfSome (plain_of words.now)
        (λ command. (i : Inputs) → IsFaultless S.Source K.Sink D.Disk (meaning_of (PlainCommand command)) room result.room i
        → (result.status ≡ Status.Done) ⊎ (result.status ≡ Status.Memory)) }
    // a line can tell the status
    ensures line { HasLine result.status }
    ensures honest { D.honest result.room.disk ≡ D.honest room.disk }
{
    match spelled(words) {
        Some(Command::Plain(command)) => perform(alloc, command, room),
        Some(Command::Run { .. } | Command::Return { .. } | Command::Trial { .. }) => refuse(room),
        None => refuse(room),
    }
}

/// Does what the words say over the objects of a room, and hands the room back (docs/operating.md).
///
/// `run DATE WORKERS`, with `DATE` as YYMMDD, reads the tables, opens the journal, lets 1 to 16 workers enter the pays of the
/// message file's messages on that day, writes the report, and then to `out` the outgoing messages of the entries that were
/// added, each followed by `$`. Each pay passes the gate once its accounts are held. `batch DATE WORKERS ENTRIES` does so too,
/// with up to ENTRIES entries, 1 to 1,024, under one sync; `run` has one.
///
/// `return PLACE DATE` opens the journal, takes the payment at this place back on that day, and writes the line of the entry
/// that was added, and its outgoing messages to `out`. `init HOME` makes the journal of the home bank HOME with the accounts of
/// the tables. `open-account ID KIND OWNER CCY FLOOR CEIL` reads the tables of banks and currencies, opens the journal, and opens
/// an account with opening 0; `set-limits ID FLOOR CEIL` gives an account of the journal another floor and ceiling. `migrate`
/// carries a journal of version 1 over to the second disk. `follow` takes the packets of the received file, in their order, into
/// the journal, which the first of them may make, and writes how many there were, how many records came, and how many are held.
///
/// From the journal alone, `send FROM UNTIL` writes the outgoing messages of the entries at these places to `out`, `ship FROM
/// UNTIL` the packets of the records with these numbers to `out`, with nothing between them, `bookings` a line for each entry,
/// `balances` and `balances DATE` a row for each account, with its balance after all entries or after those up to a day, `entries
/// FROM UNTIL` a row for each entry of these days, `statements DATE` to `out` what the owners of the vostro accounts are sent of
/// that day, and `customer-statements DATE` what the customers are. `mend FROM UNTIL` opens the journal, reads the file of messages
/// that leave, and writes to the report what it should hold, with those of the entries at these places.
///
/// `reconcile` reads the tables of banks, currencies and countries, opens the journal, reads the received messages, and writes
/// what is told of their statements against the books. `check HOME` reads these tables and the messages, and writes the verdict on
/// each, as one to the home bank HOME, without a journal. `page DATE` reads what `run` reads, books nothing, and writes the page of
/// that day to the report. `generate COUNT SEED` writes a day of messages, made from a number, to `out`, and `trial COUNT SEED
/// WORKERS` the summary of such a day, run over a journal in memory by 1 to 16 workers; they touch nothing else.
///
/// Other words are `Usage`. To the report and to `out` nothing is written but at `Done`, and a front part of both together at
/// `WriteFault`; what was entered stands in the journal at each status.
pub fn corr<
    R: Wait + Threads + Sync,
    S: Source + Drop,
    K: Sink,
    D: Disk + Drop + Send,
    G: Gate + Sync,
>(rt: &R, alloc: Global, words: &[Text], room: Room<S, K, D>, gate: &G) -> Done<S, K, D>
    // words of no command touch nothing
    ensures usage { command_of words.now ≡ None → (result.status ≡ Status.Usage) × (result.room ≡ room) }
    // what a bank may rely on
    ensures promises { IfSome (command_of words.now) (λ command. Promises S.Source K.Sink D.Disk room result.room result.status command) }
    // each other status by its cause
    ensures ends { IfSome (command_of words.now)
        (λ command. Ends S.Source D.Disk (meaning_of command) room result.room K.Sink result.status) }
    // where nothing is wrong and nothing fails, only memory can be wanting
    ensures complete { IfSome (command_of words.now)
        (λ command. (i : Inputs) → IsFaultless S.Source K.Sink D.Disk (meaning_of command) room result.room i
        → (result.status ≡ Status.Done) ⊎ (result.status ≡ Status.Memory)) }
    // a line can tell the status
    ensures line { HasLine result.status }
    // whether the disk tells its bytes stays
    ensures honest { D.honest result.room.disk ≡ D.honest room.disk }
{
    match spelled(words) {
        Some(Command::Plain(command)) => perform(alloc, command, room),
        Some(
            Command::Run {
                day,
                workers,
                entries,
            },
        ) => {
            let (room, texts) = run(rt, alloc, day, workers, entries, room, gate);
            end(room, texts)
        }
        Some(Command::Return { place, day }) => {
            let (room, texts) = take_back(rt, alloc, place, day, room, gate);
            end(room, texts)
        }
        Some(
            Command::Trial {
                count,
                seed,
                workers,
            },
        ) => end(room, trial(rt, alloc, count, seed, workers, gate)),
        None => refuse(room),
    }
}
