//! The words of a command.

ghost use Rattle.std.specs.Prelude.{◌≡◌, ◌<◌, ◌≤◌, ◌∷◌, ◌^◌, [], IfSome, Some, pos};
ghost use Rattle.std.specs.Option.{option_map};
ghost use Rattle.std.specs.Str.{bytes_eq};
ghost use Rattle.corr_report.specs.Generated.{most_generated};
ghost use Rattle.day_model.specs.Log.{most_entries};
ghost use Rattle.jrn_book.specs.Batches.{most_batch};
ghost use Rattle.ref_tables.specs.Columns.{magnitude_of, signed_of};
ghost use Rattle.work_pool.specs.Served.{most_workers};
ghost use Rattle.corr_top.specs.Commands.{balances_of, check_of, command_of, count_of, entries_of, generate_of, init_of, limits_of, mend_of, two_places, run_command, send_of, statements_of, trial_of, workers_of, place_of, return_command, two_numbers, ship_of, batch_command, batch_of, page_command};
ghost use Rattle.corr_top.specs.inner.Commands.{IsSpelled};
ghost use Rattle.corr_top.specs.declared.account_words.AccountChange.TheVariants.{Open};
ghost use Rattle.corr_top.specs.declared.words.Command.TheVariants.{Plain as CommandPlain};
ghost use Rattle.corr_top.specs.declared.words.Plain.TheVariants.{Change as PlainChange};

use crate::account_words::{AccountChange, AccountWords, Ends, Word};
use crate::cutting::MESSAGE_LIMIT;
use crate::owners::Owners;
use corr_ids::{Bic, Day, day_from_yymmdd, read_bic};
use corr_text::{Text, digits};
use day_model::MOST_ENTRIES;

/// What the words say.
#[derive(Drop)]
pub enum Command<'a> {
    /// `run DATE WORKERS`: answers the messages of the message file on a day, with so many workers, one entry under one sync.
    /// `batch DATE WORKERS ENTRIES`: so too, with up to so many entries under one sync.
    Run {
        day: Day,
        workers: u32,
        entries: u32,
    },
    /// `return PLACE DATE`: takes the payment at a place back, on a day.
    Return {
        place: u32,
        day: Day,
    },
    /// `trial COUNT SEED WORKERS`: runs a generated day over a journal in memory, with so many workers.
    Trial {
        count: u32,
        seed: u64,
        workers: u32,
    },
    /// A command that waits for nobody.
    Plain(Plain<'a>),
}

/// The commands that wait for nobody.
#[derive(Drop)]
pub enum Plain<'a> {
    /// `init HOME`: makes the journal of a home bank.
    Init { home: Bic },
    /// A command that reads the journal and prints.
    Query(Query),
    /// `reconcile`: the statements of the received messages against the books.
    Reconcile,
    /// `check HOME`: the verdict on each message of the message file, as one to a home bank.
    Check { home: Bic },
    /// `generate COUNT SEED`: a day of messages, made from a number.
    Generate { count: u32, seed: u64 },
    /// `mend FROM UNTIL`: what the file of messages that leave should hold, with those of the entries between two places.
    Mend { from: u32, until: u32 },
    /// `open-account` and `set-limits`: the accounts of the journal change.
    Change(AccountChange<'a>),
    /// `migrate`: a journal of version 1 is carried over to the second disk.
    Migrate,
    /// `follow`: packets that were received are taken into the journal of a second machine.
    Follow,
    /// `page DATE`: the messages of the message file and the books, as a page for a desk.
    Page { day: Day },
}

/// The commands that read the journal and print what it says.
#[derive(Clone, Copy)]
pub enum Query {
    /// `send FROM UNTIL`: the outgoing messages of the entries between two places.
    Send { from: u32, until: u32 },
    /// `ship FROM UNTIL`: the records of the journal with the numbers from one to another, as packets.
    Ship { from: u32, until: u32 },
    /// `bookings`: a line for each entry.
    Bookings,
    /// `statements DATE`: what the owners of the vostro accounts are sent of a day. `customer-statements DATE`: what the customers are.
    Statements { owners: Owners, day: Day },
    /// `balances` and `balances DATE`: the accounts and their balances, after all entries or after those up to a day.
    Balances { until: Option<Day> },
    /// `entries FROM UNTIL`: a row for each entry of the days from the first to the last.
    Entries { from: Day, until: Day },
}

/// The last place of a journal that is full.
const LAST_PLACE: u64 = MOST_ENTRIES as u64;

/// The last record that a command can name.
const LAST_RECORD: u64 = 1_000_000;

/// The most messages of a generated day, which is a message file.
const MOST_MESSAGES: u64 = MESSAGE_LIMIT as u64;

/// The most workers of a run.
const MOST_WORKERS: u64 = 16;

/// The most entries under one sync.
pub(crate) const MOST_BATCH: u64 = 1024;

/// Whether bytes are this word.
fn is_word(b: &[u8], word: &[u8]) -> bool
    ensures { result ≡ bytes_eq b.now word.now }
{
    b == word
}

/// Two numbers from 1 to the last, the second not before the first.
fn numbers(from: &[u8], until: &[u8], last: u64) -> Option<(u32, u32)>
    requires { last < 2 ^ 32 }
    ensures value { result ≡ two_numbers last from.now until.now }
    ensures sound { IfSome result (λ numbers. (1 ≤ numbers.0) × (numbers.0 ≤ numbers.1) × (numbers.1 ≤ last)) }
{
    let from = digits(from)?;
    let until = digits(until)?;
    if from < 1 || until < from || until > last {
        return None;
    }
    Some((from as u32, until as u32))
}

/// Two places of a journal, the second not before the first.
fn places(from: &[u8], until: &[u8]) -> Option<(u32, u32)>
    ensures value { result ≡ two_places from.now until.now }
    ensures sound { IfSome result (λ places. (1 ≤ places.0) × (places.0 ≤ places.1) × (places.1 ≤ most_entries)) }
{
    numbers(from, until, LAST_PLACE)
}

/// `init HOME` with a BIC.
fn init(home: &[u8]) -> Option<Command<'static>>
    ensures value { result ≡ option_map CommandPlain (init_of home.now) }
    ensures sound { IfSome result IsSpelled }
{
    let home = read_bic(home)?;
    Some(Command::Plain(Plain::Init { home }))
}

/// `check HOME` with a BIC.
fn check(home: &[u8]) -> Option<Command<'static>>
    ensures value { result ≡ option_map CommandPlain (check_of home.now) }
    ensures sound { IfSome result IsSpelled }
{
    let home = read_bic(home)?;
    Some(Command::Plain(Plain::Check { home }))
}

/// `send FROM UNTIL` with two places of a journal.
fn send(from: &[u8], until: &[u8]) -> Option<Command<'static>>
    ensures value { result ≡ option_map CommandPlain (send_of from.now until.now) }
    ensures sound { IfSome result IsSpelled }
{
    let (from, until) = places(from, until)?;
    Some(Command::Plain(Plain::Query(Query::Send { from, until })))
}

/// `ship FROM UNTIL` with two numbers of records.
fn ship(from: &[u8], until: &[u8]) -> Option<Command<'static>>
    ensures value { result ≡ option_map CommandPlain (ship_of from.now until.now) }
    ensures sound { IfSome result IsSpelled }
{
    let (from, until) = numbers(from, until, LAST_RECORD)?;
    Some(Command::Plain(Plain::Query(Query::Ship { from, until })))
}

/// `mend FROM UNTIL` with two places of a journal.
fn mend(from: &[u8], until: &[u8]) -> Option<Command<'static>>
    ensures value { result ≡ option_map CommandPlain (mend_of from.now until.now) }
    ensures sound { IfSome result IsSpelled }
{
    let (from, until) = places(from, until)?;
    Some(Command::Plain(Plain::Mend { from, until }))
}

/// `statements DATE` and `customer-statements DATE` with a day of the calendar.
fn statements(owners: Owners, date: &[u8]) -> Option<Command<'static>>
    ensures value { result ≡ option_map CommandPlain (statements_of owners date.now) }
    ensures sound { IfSome result IsSpelled }
{
    let day = day_from_yymmdd(date)?;
    Some(Command::Plain(Plain::Query(Query::Statements { owners, day })))
}

/// `balances DATE` with a day of the calendar.
fn balances(date: &[u8]) -> Option<Command<'static>>
    ensures value { result ≡ option_map CommandPlain (balances_of date.now) }
    ensures sound { IfSome result IsSpelled }
{
    let until = Some(day_from_yymmdd(date)?);
    Some(Command::Plain(Plain::Query(Query::Balances { until })))
}

/// `entries FROM UNTIL` with two days of the calendar.
fn entries(from: &[u8], until: &[u8]) -> Option<Command<'static>>
    ensures value { result ≡ option_map CommandPlain (entries_of from.now until.now) }
    ensures sound { IfSome result IsSpelled }
{
    let from = day_from_yymmdd(from)?;
    let until = day_from_yymmdd(until)?;
    Some(Command::Plain(Plain::Query(Query::Entries { from, until })))
}

/// `page DATE` with a day of the calendar.
fn page(date: &[u8]) -> Option<Command<'static>>
    ensures value { result ≡ option_map CommandPlain (page_command date.now) }
    ensures sound { IfSome result IsSpelled }
{
    let day = day_from_yymmdd(date)?;
    Some(Command::Plain(Plain::Page { day }))
}

/// A number of workers: 1 to 16.
fn read_workers(b: &[u8]) -> Option<u32>
    ensures value { result ≡ workers_of b.now }
    ensures sound { IfSome result (λ n. (1 ≤ n) × (n ≤ most_workers)) }
{
    let number = digits(b)?;
    if number < 1 || number > MOST_WORKERS {
        return None;
    }
    Some(number as u32)
}

/// `run DATE WORKERS` with a day of the calendar.
fn run(date: &[u8], number: &[u8]) -> Option<Command<'static>>
    ensures value { result ≡ run_command date.now number.now }
    ensures sound { IfSome result IsSpelled }
{
    let day = day_from_yymmdd(date)?;
    let workers = read_workers(number)?;
    Some(Command::Run {
        day,
        workers,
        entries: 1,
    })
}

/// A number of entries under one sync: 1 to 1,024.
fn read_entries(b: &[u8]) -> Option<u32>
    ensures value { result ≡ batch_of b.now }
    ensures sound { IfSome result (λ n. (1 ≤ n) × (n ≤ most_batch)) }
{
    let number = digits(b)?;
    if number < 1 || number > MOST_BATCH {
        return None;
    }
    Some(number as u32)
}

/// `batch DATE WORKERS ENTRIES` with a day of the calendar, a number of workers and one of entries under one sync.
fn batch(date: &[u8], number: &[u8], entries: &[u8]) -> Option<Command<'static>>
    ensures value { result ≡ batch_command date.now number.now entries.now }
    ensures sound { IfSome result IsSpelled }
{
    let day = day_from_yymmdd(date)?;
    let workers = read_workers(number)?;
    let entries = read_entries(entries)?;
    Some(Command::Run {
        day,
        workers,
        entries,
    })
}

/// A place of a journal: 1 to 100,000.
fn read_place(b: &[u8]) -> Option<u32>
    ensures value { result ≡ place_of b.now }
    ensures sound { IfSome result (λ n. (1 ≤ n) × (n ≤ most_entries)) }
{
    let number = digits(b)?;
    if number < 1 || number > LAST_PLACE {
        return None;
    }
    Some(number as u32)
}

/// `return PLACE DATE` with a place of a journal and a day of the calendar.
fn return_payment(place: &[u8], date: &[u8]) -> Option<Command<'static>>
    ensures value { result ≡ return_command place.now date.now }
    ensures sound { IfSome result IsSpelled }
{
    let place = read_place(place)?;
    let day = day_from_yymmdd(date)?;
    Some(Command::Return { place, day })
}

/// A number of messages of a generated day: 1 to 50,000.
fn read_count(b: &[u8]) -> Option<u32>
    ensures value { result ≡ count_of b.now }
    ensures sound { IfSome result (λ n. (1 ≤ n) × (n ≤ most_generated)) }
{
    let number = digits(b)?;
    if number < 1 || number > MOST_MESSAGES {
        return None;
    }
    Some(number as u32)
}

/// `generate COUNT SEED` with a number of messages and any number.
fn generate(messages: &[u8], seed: &[u8]) -> Option<Command<'static>>
    ensures value { result ≡ option_map CommandPlain (generate_of messages.now seed.now) }
    ensures sound { IfSome result IsSpelled }
{
    let count = read_count(messages)?;
    let seed = digits(seed)?;
    Some(Command::Plain(Plain::Generate { count, seed }))
}

/// `trial COUNT SEED WORKERS` with these and a number of workers.
fn trial(messages: &[u8], seed: &[u8], number: &[u8]) -> Option<Command<'static>>
    ensures value { result ≡ trial_of messages.now seed.now number.now }
    ensures sound { IfSome result IsSpelled }
{
    let count = read_count(messages)?;
    let seed = digits(seed)?;
    let workers = read_workers(number)?;
    Some(Command::Trial {
        count,
        seed,
        workers,
    })
}

/// The number that 1 to 15 digits write.
fn magnitude(b: &[u8]) -> Option<u64>
    ensures value { result ≡ magnitude_of b.now }
    ensures short { IfSome result (λ n. n < 10 ^ 15) }
{
    if b.len() > 15 {
        return None;
    }
    digits(b)
}

fn unsigned(b: &[u8]) -> Option<i64>
    ensures { result ≡ option_map pos (magnitude_of b.now) }
{
    let n = magnitude(b)?;
    Some(n as i64)
}

/// A signed number: a minus sign or none, then 1 to 15 digits.
fn signed(b: &[u8]) -> Option<i64>
    ensures { result ≡ signed_of b.now }
{
    match b {
        [b'-', rest @ ..] => Some(-unsigned(rest)?),
        _ => unsigned(b),
    }
}

/// `open-account ID KIND OWNER CCY FLOOR CEIL` with any words: they are tested with the journal's accounts.
fn open_account<'a>(
    id: &'a [u8],
    kind: &'a [u8],
    owner: &'a [u8],
    ccy: &'a [u8],
    floor: &'a [u8],
    ceil: &'a [u8],
) -> Option<Command<'a>>
    ensures value { result ≡ Some (CommandPlain (PlainChange (Open (record { id = id.now; kind = kind.now; owner = owner.now; ccy = ccy.now; floor = floor.now; ceil = ceil.now })))) }
    ensures sound { IfSome result IsSpelled }
{
    let words = AccountWords {
        id: Word::of(id),
        kind: Word::of(kind),
        owner: Word::of(owner),
        ccy: Word::of(ccy),
        floor: Word::of(floor),
        ceil: Word::of(ceil),
    };
    Some(Command::Plain(Plain::Change(AccountChange::Open(words))))
}

/// `set-limits ID FLOOR CEIL` with any word and two signed numbers.
fn set_limits<'a>(id: &'a [u8], floor: &[u8], ceil: &[u8]) -> Option<Command<'a>>
    ensures value { result ≡ option_map CommandPlain (limits_of id.now floor.now ceil.now) }
    ensures sound { IfSome result IsSpelled }
{
    let floor = signed(floor)?;
    let ceil = signed(ceil)?;
    let id = Word::of(id);
    let ends = Ends { floor, ceil };
    Some(Command::Plain(Plain::Change(AccountChange::Limit { id, ends })))
}

/// A command of one word.
fn alone(word: &[u8]) -> Option<Command<'static>>
    ensures value { result ≡ command_of (word.now ∷ []) }
    ensures sound { IfSome result IsSpelled }
{
    if is_word(word, b"bookings") {
        Some(Command::Plain(Plain::Query(Query::Bookings)))
    } else if is_word(word, b"balances") {
        Some(Command::Plain(Plain::Query(Query::Balances { until: None })))
    } else if is_word(word, b"reconcile") {
        Some(Command::Plain(Plain::Reconcile))
    } else if is_word(word, b"migrate") {
        Some(Command::Plain(Plain::Migrate))
    } else if is_word(word, b"follow") {
        Some(Command::Plain(Plain::Follow))
    } else {
        None
    }
}

/// A command of a word and one more.
fn with_one(word: &[u8], one: &[u8]) -> Option<Command<'static>>
    ensures value { result ≡ command_of (word.now ∷ one.now ∷ []) }
    ensures sound { IfSome result IsSpelled }
{
    if is_word(word, b"init") {
        init(one)
    } else if is_word(word, b"check") {
        check(one)
    } else if is_word(word, b"statements") {
        statements(Owners::Banks, one)
    } else if is_word(word, b"customer-statements") {
        statements(Owners::Customers, one)
    } else if is_word(word, b"balances") {
        balances(one)
    } else if is_word(word, b"page") {
        page(one)
    } else {
        None
    }
}

/// A command of a word and two more.
fn with_two(word: &[u8], one: &[u8], two: &[u8]) -> Option<Command<'static>>
    ensures value { result ≡ command_of (word.now ∷ one.now ∷ two.now ∷ []) }
    ensures sound { IfSome result IsSpelled }
{
    if is_word(word, b"send") {
        send(one, two)
    } else if is_word(word, b"entries") {
        entries(one, two)
    } else if is_word(word, b"ship") {
        ship(one, two)
    } else if is_word(word, b"run") {
        run(one, two)
    } else if is_word(word, b"generate") {
        generate(one, two)
    } else if is_word(word, b"mend") {
        mend(one, two)
    } else if is_word(word, b"return") {
        return_payment(one, two)
    } else {
        None
    }
}

/// A command of a word and three more.
fn with_three<'a>(word: &[u8], one: &'a [u8], two: &[u8], three: &[u8]) -> Option<Command<'a>>
    ensures value { result ≡ command_of (word.now ∷ one.now ∷ two.now ∷ three.now ∷ []) }
    ensures sound { IfSome result IsSpelled }
{
    if is_word(word, b"trial") {
        trial(one, two, three)
    } else if is_word(word, b"batch") {
        batch(one, two, three)
    } else if is_word(word, b"set-limits") {
        set_limits(one, two, three)
    } else {
        None
    }
}

/// The command that the words spell, none where they are no command.
pub fn spelled(words: &[Text]) -> Option<Command<'_>>
    ensures value { result ≡ command_of words.now }
    ensures sound { IfSome result IsSpelled }
{
    match words {
        [word] => alone(word.bytes()),
        [word, one] => with_one(word.bytes(), one.bytes()),
        [word, one, two] => with_two(word.bytes(), one.bytes(), two.bytes()),
        [word, one, two, three] => {
            with_three(word.bytes(), one.bytes(), two.bytes(), three.bytes())
        }
        [word, id, kind, owner, ccy, floor, ceil] if is_word(word.bytes(), b"open-account") => {
            open_account(
                id.bytes(),
                kind.bytes(),
                owner.bytes(),
                ccy.bytes(),
                floor.bytes(),
                ceil.bytes(),
            )
        }
        _ => None,
    }
}
