//! Books over disks in memory: one thread, and two threads at once, a gate between their locks and the journal.

ghost use Rattle.std.specs.Prelude.{◌≡◌, IfOk};
ghost use Rattle.day_model.specs.Fit.{FitsAccounts};
ghost use Rattle.day_model.specs.Shape.{HasShape};
ghost use Rattle.corr_books.specs.Opening.{IsNamed};
ghost use Rattle.corr_books.specs.Passes.{Belongs};

use corr_books::{Books, BooksName, CloseFault, Opened, open_books, told_stands};
use corr_disk::{Disk, MemDisk, OnceDisk};
use corr_ids::{Bic, Day, Mir};
use corr_money::Ccy;
use corr_text::{List, Memory, Text, put_digits};
use day_model::{Account, Accounts, History, Outcome, Pay, rows_hold};
use front_word::Pass;
use jrn_book::{CommitFault, Committed};
use jrn_codec::{put_head, read_entry};
use std::alloc::Global;
use std::marker::Brand;
use std::process::Abort;
use std::sync::Wait;
use std::sync::atomic::AtomicBool;
use std::sync::atomic::Ordering::SeqCst;
use std::test::*;
use std::thread::{Threads, join, yield_now};
use work_pool::{Gate, OpenGate};

pub(crate) type Answer = Result<Committed, CommitFault>;

pub(crate) const DAY: Day = Day(19_877);

fn account(
    alloc: Global,
    id: &[u8],
    kind: u8,
    owner: [u8; 8],
    ccy: [u8; 3],
    floor: i64,
    opening: i64,
) -> Result<Account, Memory> {
    Ok(Account {
        id: Text::from_bytes(alloc, id)?,
        kind,
        owner: Bic {
            head: owner,
            branch: *b"XXX",
        },
        ccy: Ccy(ccy),
        decimals: if ccy[0] == b'J' { 0 } else { 2 },
        floor,
        ceil: 90_000_000_000,
        opening,
    })
}

// Its id, kind, owner, currency, floor and opening.
type Given = (&'static [u8], u8, [u8; 8], [u8; 3], i64, i64);

fn sample_accounts<R: Abort>(rt: &R, alloc: Global) -> Result<Accounts, Fail> {
    let low = -90_000_000_000;
    let (euro, yen) = (*b"EUR", *b"JPY");
    let given: [Given; 7] = [
        (
            b"VALPHEUR",
            b'V',
            *b"ALPHDEFF",
            euro,
            -10_000_000,
            5_000_000,
        ),
        (b"VBETAEUR", b'V', *b"BETAFRPP", euro, 0, 1_000_000),
        (b"CUST1", b'C', *b"HOMEUS33", euro, 0, 0),
        (b"NCORREUR", b'N', *b"CORRBEBB", euro, low, -6_000_000),
        (b"VDELTJPY", b'V', *b"DELTJPJT", yen, 0, 9_000_000),
        (b"NCORRJPY", b'N', *b"CORRBEBB", yen, low, -9_000_000),
        (b"CUST2", b'C', *b"HOMEUS33", yen, 0, 0),
    ];
    let mut rows = List::new(alloc);
    for (id, kind, owner, ccy, floor, opening) in given {
        rows.push(account(alloc, id, kind, owner, ccy, floor, opening)?)?;
    }
    assert!(rt; rows_hold(rows.as_slice()));
    let home = Bic {
        head: *b"HOMEUS33",
        branch: *b"XXX",
    };
    Ok(Accounts::new(home, rows)?)
}

// The record of an entry: amount in minor units from one account to another, booked. The number is that of its reference.
fn record(alloc: Global, number: u32, debit: u8, credit: u8, amount: u64) -> Result<Text, Memory> {
    let amount = amount.to_be_bytes();
    let (from, to) = ([0, debit, 0], [0, credit, 1]);
    let mut bytes = Text::from_bytes(alloc, b"\0240603ALPHDEFFAXXX0001")?;
    put_digits(alloc, u64::from(number), 6, &mut bytes)?;
    let parts: [&[u8]; 7] = [
        b"\x01\0\0\0\x4d\xa5\0\0\x4d\xa5\0\x02",
        &from,
        &amount,
        b"\0\x04REF1",
        &to,
        &amount,
        b"\x01\x01\x01\x04ALPHDEFFXXX\x01\0\0\0\x02\r\n",
    ];
    for part in parts {
        bytes.push(part)?;
    }
    Ok(bytes)
}

pub(crate) fn pay(
    alloc: Global,
    number: u32,
    debit: u8,
    credit: u8,
    amount: u64,
) -> Result<Pay, Fail>
    ensures { IfOk result HasShape }
{
    let bytes = record(alloc, number, debit, credit, amount)?;
    match read_entry(alloc, bytes.bytes()) {
        Ok(entry) => Ok(entry.pay),
        Err(_) => Err("no entry".into()),
    }
}

// Adds a record of fewer than 65,536 bytes after an open gate.
fn add_record(bytes: &mut Text, record: &[u8]) -> Result<(), Memory> {
    let length = record.len();
    bytes.push(&[1, 0, 0, (length / 256 % 256) as u8, (length % 256) as u8])?;
    bytes.push(record)
}

// The journal of these accounts with so many entries, each of 0.01 from account 1 to account 3.
pub(crate) fn journal<R: Abort>(rt: &R, alloc: Global, entries: u32) -> Result<Text, Fail> {
    let accounts = sample_accounts(rt, alloc)?;
    let mut head = Text::from_bytes(alloc, b"")?;
    put_head(&accounts, &mut head)?;
    let mut bytes = Text::from_bytes(alloc, b"")?;
    add_record(&mut bytes, head.bytes())?;
    for number in 0..entries {
        let entry = record(alloc, number, 1, 3, 1)?;
        add_record(&mut bytes, entry.bytes())?;
    }
    bytes.push(&[0])?;
    Ok(bytes)
}

pub(crate) fn new(place: u32) -> Answer {
    Ok(Committed::New {
        place,
        outcome: Outcome::Booked,
    })
}

pub(crate) fn kept(place: u32) -> Answer {
    Ok(Committed::Kept {
        place,
        outcome: Outcome::Booked,
    })
}

// Waits for at most 1,000,000 turns, each of which yields; whether the flag is up then.
fn is_raised(flag: &AtomicBool) -> bool {
    for _ in 0..1_000_000 {
        if flag.load(SeqCst) {
            return true;
        }
        yield_now();
    }
    false
}

// What two calls answered, and how many entries there are then.
#[derive(Drop)]
struct Both {
    one: Answer,
    two: Answer,
    in_time: bool,
    entries: u32,
}

pub(crate) fn book_as<N: BooksName, D: Disk, R: Wait, G: Gate>(
    rt: &R,
    books: &Books<N, D>,
    mut pass: Pass,
    worker: u32,
    p: &Pay,
    gate: &G,
) -> (Pass, Answer)
    requires pass { Belongs N.opening pass }
    requires fits { FitsAccounts N.opening.accounts p.now }
    requires shape { HasShape p.now }
    ensures { Belongs N.opening result.0 }
{
    let answer = books.book(rt, &mut pass, worker, p, gate);
    (pass, answer)
}

// A thread for each of two pays. The second one calls once a flag is up, and raises another when it was answered.
fn book_at_once<
    N: BooksName + Send + Sync,
    D: Disk + Drop + Send,
    R: Threads + Wait + Sync,
    G: Gate + Sync,
>(
    rt: &R,
    books: &Books<N, D>,
    passes: (Pass, Pass),
    first: &Pay,
    second: &Pay,
    gate: &G,
    start: &AtomicBool,
    answered: &AtomicBool,
) -> ((Pass, Answer), (Pass, Answer, bool))
    requires pass { (Belongs N.opening passes.0) × (Belongs N.opening passes.1) }
    requires fit { (FitsAccounts N.opening.accounts first.now) × (FitsAccounts N.opening.accounts second.now) }
    requires shape { (HasShape first.now) × (HasShape second.now) }
    ensures { (Belongs N.opening result.0.0) × (Belongs N.opening result.1.0) }
{
    let (front, last) = passes;
    join(
        rt,
        || -> (Pass, Answer)
            requires pass { Belongs N.opening front }
            requires fits { FitsAccounts N.opening.accounts first.now }
            requires shape { HasShape first.now }
            ensures belongs { Belongs N.opening result.0 }
        { book_as(rt, books, front, 1, first, gate) },
        || -> (Pass, Answer, bool)
            requires pass { Belongs N.opening last }
            requires fits { FitsAccounts N.opening.accounts second.now }
            requires shape { HasShape second.now }
            ensures belongs { Belongs N.opening result.0 }
        {
            let in_time = is_raised(start);
            let (last, two) = book_as(rt, books, last, 2, second, gate);
            answered.store(true, SeqCst);
            (last, two, in_time)
        },
    )
}

// Books under a name, and their two passes.
pub(crate) fn begin<N: BooksName, D: Disk + Drop>(
    alloc: Global,
    opened: Opened<D>,
    made: u32,
) -> Result<(Books<N, D>, Pass, Pass), Fail>
    requires named { IsNamed D.Disk N.opening N.past N.table opened made }
    requires two { made ≡ 2 }
    ensures { IfOk result (λ r. Belongs N.opening r.1 × Belongs N.opening r.2) }
{
    let Ok((books, mut passes)) = opened.books::<N>(alloc, made) else {
        return Err("no memory".into());
    };
    let Some(last) = passes.pop() else {
        return Err("a pass".into());
    };
    let Some(front) = passes.pop() else {
        return Err("another pass".into());
    };
    Ok((books, front, last))
}

// How many entries there are once books were closed with two passes. Promises nothing; likewise the next.
pub(crate) fn close<N: BooksName, D: Disk + Drop>(
    alloc: Global,
    books: Books<N, D>,
    front: Pass,
    last: Pass,
) -> Result<u32, Fail>
    requires { (Belongs N.opening front) × (Belongs N.opening last) }
{
    let mut passes = Vec::new(alloc);
    passes.push(front)?;
    passes.push(last)?;
    let Ok(closed) = books.close(passes) else {
        return Err("two passes".into());
    };
    Ok(closed.history.len())
}

// Two threads book on books that have no name yet.
fn book_both_as<
    N: BooksName + Send + Sync,
    D: Disk + Drop + Send,
    R: Threads + Wait + Sync,
    G: Gate + Sync,
>(
    rt: &R,
    alloc: Global,
    opened: Opened<D>,
    made: u32,
    first: &Pay,
    second: &Pay,
    gate: &G,
    start: &AtomicBool,
    answered: &AtomicBool,
) -> Result<Both, Fail>
    requires named { IsNamed D.Disk N.opening N.past N.table opened made }
    requires two { made ≡ 2 }
    requires fit { (FitsAccounts opened.accounts first.now) × (FitsAccounts opened.accounts second.now) }
    requires shape { (HasShape first.now) × (HasShape second.now) }
{
    let (books, front, last) = begin::<N, D>(alloc, opened, made)?;
    let passes = (front, last);
    let ((front, one), (last, two, in_time)) = book_at_once(
        rt, &books, passes, first, second, gate, start, answered,
    );
    let entries = close(alloc, books, front, last)?;
    Ok(Both {
        one,
        two,
        in_time,
        entries,
    })
}

// Two threads book on a journal of this disk.
fn book_both<D: Disk + Drop + Send, R: Threads + Wait + Sync, G: Gate + Sync>(
    rt: &R,
    alloc: Global,
    disk: D,
    first: &Pay,
    second: &Pay,
    gate: &G,
    start: &AtomicBool,
    answered: &AtomicBool,
) -> Result<Both, Fail>
    requires shape { (HasShape first.now) × (HasShape second.now) }
{
    let Ok(opened) = open_books(alloc, disk, DAY) else {
        return Err("not opened".into());
    };
    if !opened.accounts().fits(first) || !opened.accounts().fits(second) {
        return Err("other accounts".into());
    }
    book_both_as::<Brand, D, R, G>(rt, alloc, opened, 2, first, second, gate, start, answered)
}

#[test]
fn two_pays_between_two_accounts_are_booked_in_either_order(rt: HostRuntime) -> Result<(), Fail> {
    let alloc = rt.alloc();
    let first = pay(alloc, 1, 1, 2, 1_000)?;
    let second = pay(alloc, 2, 2, 1, 2_000)?;
    let up = AtomicBool::new(true);
    let answered = AtomicBool::new(false);
    let disk = MemDisk::new(alloc, journal(&rt, alloc, 0)?);
    let both = book_both(&rt, alloc, disk, &first, &second, &OpenGate, &up, &answered)?;
    let first_came_first = both.one == new(1) && both.two == new(2);
    let second_came_first = both.one == new(2) && both.two == new(1);
    assert!(rt; first_came_first || second_came_first);
    assert_eq!(rt; both.entries, 2);
    Ok(())
}

// Holds worker 1 until the other one was answered.
#[derive(Drop)]
struct HeldGate<'a> {
    reached: &'a AtomicBool,
    answered: &'a AtomicBool,
    late: &'a AtomicBool,
}

impl<'a> Gate for HeldGate<'a> {
    fn pass(&self, worker: u32, _mir: &Mir) {
        if worker == 1 {
            self.reached.store(true, SeqCst);
            if !is_raised(self.answered) {
                self.late.store(true, SeqCst);
            }
        }
    }
}

// Books a pay between accounts 1 and 3 that is held at the gate, and then a second one. Whether the first was held in vain.
fn book_held<R: Threads + Wait + Sync + Abort>(
    rt: &R,
    alloc: Global,
    second: &Pay,
) -> Result<(Both, bool), Fail>
    requires { HasShape second.now }
{
    let first = pay(alloc, 1, 1, 3, 1_000)?;
    let reached = AtomicBool::new(false);
    let answered = AtomicBool::new(false);
    let late = AtomicBool::new(false);
    let gate = HeldGate {
        reached: &reached,
        answered: &answered,
        late: &late,
    };
    let disk = MemDisk::new(alloc, journal(rt, alloc, 0)?);
    let both = book_both(rt, alloc, disk, &first, second, &gate, &reached, &answered)?;
    Ok((both, late.load(SeqCst)))
}

#[test]
fn a_held_pay_holds_no_pay_of_other_accounts(rt: HostRuntime) -> Result<(), Fail> {
    let second = pay(rt.alloc(), 2, 5, 7, 2_000)?;
    let (both, late) = book_held(&rt, rt.alloc(), &second)?;
    assert!(rt; both.in_time && !late);
    assert!(rt; both.two == new(1) && both.one == new(2));
    Ok(())
}

#[test]
fn a_held_pay_holds_a_pay_of_one_of_its_accounts(rt: HostRuntime) -> Result<(), Fail> {
    let second = pay(rt.alloc(), 2, 2, 3, 2_000)?;
    let (both, late) = book_held(&rt, rt.alloc(), &second)?;
    assert!(rt; both.in_time && late);
    assert!(rt; both.one == new(1) && both.two == new(2));
    Ok(())
}

// How many accounts books have, what a pay and then another answer with one of two passes, what a close with the other pass
// alone tells, and the history once all close.
#[derive(Drop)]
struct Turn {
    accounts: u32,
    first: Answer,
    second: Answer,
    mine: u64,
    made: u32,
    history: History,
}

// How many accounts books have. Promises nothing; likewise the next.
fn count_accounts<N: BooksName, D: Disk>(books: &Books<N, D>) -> u32 {
    books.accounts().count()
}

// How many passes books say that they made where they are closed with one of two, and the history once they were closed with
// both.
fn close_late<N: BooksName, D: Disk + Drop>(
    alloc: Global,
    books: Books<N, D>,
    front: Pass,
    last: Pass,
) -> Result<(u32, History), Fail>
    requires { (Belongs N.opening front) × (Belongs N.opening last) }
{
    let mut passes = Vec::new(alloc);
    passes.push(front)?;
    let Err(
        CloseFault {
            books,
            mut passes,
            made,
        },
    ) = books.close(passes)
    else {
        return Err("one of two passes".into());
    };
    passes.push(last)?;
    let Ok(closed) = books.close(passes) else {
        return Err("two passes".into());
    };
    Ok((made, closed.history))
}

fn book_turn_as<N: BooksName, D: Disk + Drop, R: Wait>(
    rt: &R,
    alloc: Global,
    opened: Opened<D>,
    made: u32,
    first: &Pay,
    second: &Pay,
) -> Result<Turn, Fail>
    requires named { IsNamed D.Disk N.opening N.past N.table opened made }
    requires two { made ≡ 2 }
    requires fit { (FitsAccounts opened.accounts first.now) × (FitsAccounts opened.accounts second.now) }
    requires shape { (HasShape first.now) × (HasShape second.now) }
{
    let (books, front, pass) = begin::<N, D>(alloc, opened, made)?;
    let accounts = count_accounts(&books);
    let (pass, first) = book_as(rt, &books, pass, 1, first, &OpenGate);
    let (pass, second) = book_as(rt, &books, pass, 1, second, &OpenGate);
    let mine = pass.mine().len() as u64;
    let (made, history) = close_late(alloc, books, front, pass)?;
    Ok(Turn {
        accounts,
        first,
        second,
        mine,
        made,
        history,
    })
}

fn book_turn<D: Disk + Drop, R: Wait>(
    rt: &R,
    alloc: Global,
    disk: D,
    first: &Pay,
    second: &Pay,
) -> Result<Turn, Fail>
    requires shape { (HasShape first.now) × (HasShape second.now) }
{
    let Ok(opened) = open_books(alloc, disk, DAY) else {
        return Err("not opened".into());
    };
    if !opened.accounts().fits(first) || !opened.accounts().fits(second) {
        return Err("other accounts".into());
    }
    book_turn_as::<Brand, D, R>(rt, alloc, opened, 2, first, second)
}

#[test]
fn books_close_with_all_their_passes_alone(rt: HostRuntime) -> Result<(), Fail> {
    let alloc = rt.alloc();
    let first = pay(alloc, 1, 1, 3, 123_450)?;
    let disk = MemDisk::new(alloc, journal(&rt, alloc, 0)?);
    let turn = book_turn(&rt, alloc, disk, &first, &first)?;
    assert!(rt; turn.first == new(1) && turn.second == kept(1));
    assert_eq!(rt; (turn.mine, turn.made, turn.history.len()), (2, 2, 1));
    Ok(())
}

// The law is a theorem, and its call does nothing. Promises nothing, so that the test carries none of it.
fn law() {
    told_stands();
}

#[test]
fn books_have_the_accounts_of_their_journal_and_close_with_what_they_told(
    rt: HostRuntime,
) -> Result<(), Fail> {
    law();
    let alloc = rt.alloc();
    let first = pay(alloc, 1, 1, 3, 123_450)?;
    let disk = MemDisk::new(alloc, journal(&rt, alloc, 0)?);
    let turn = book_turn(&rt, alloc, disk, &first, &first)?;
    assert_eq!(rt; turn.accounts, 7);
    assert!(rt; turn.first == new(1));
    assert_eq!(rt; turn.history.find(&first.mir), Some(1));
    Ok(())
}

// How many entries there are when books that were opened give their disk back, and it is opened again.
fn opened_again(alloc: Global, disk: MemDisk) -> Option<u32> {
    let opened = open_books(alloc, disk, DAY).ok()?;
    let again = open_books(alloc, opened.into_disk(), DAY).ok()?;
    Some(again.history().len())
}

#[test]
fn books_that_are_not_begun_give_their_disk_back(rt: HostRuntime) -> Result<(), Fail> {
    let alloc = rt.alloc();
    let disk = MemDisk::new(alloc, journal(&rt, alloc, 1)?);
    assert_eq!(rt; opened_again(alloc, disk), Some(1));
    Ok(())
}

// The second sync of the first append fails: it is the sixth call.
#[test]
fn a_disk_that_fails_once_breaks_the_books(rt: HostRuntime) -> Result<(), Fail> {
    let alloc = rt.alloc();
    let first = pay(alloc, 1, 1, 3, 123_450)?;
    let disk = OnceDisk::new(alloc, journal(&rt, alloc, 0)?, 6);
    let turn = book_turn(&rt, alloc, disk, &first, &first)?;
    let failed = Err(CommitFault::DiskFault {
        before: 0,
        after: 1,
    });
    let broken = Err(CommitFault::Broken { at_open: 0, now: 1 });
    assert!(rt; turn.first == failed && turn.second == broken);
    assert_eq!(rt; (turn.mine, turn.history.len()), (0, 0));
    Ok(())
}
