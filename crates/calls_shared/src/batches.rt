//! Books of batches: two threads whose batches have a pay in common, and a disk that fails over one.

ghost use Rattle.std.specs.Prelude.{◌≡◌, ◌≤◌, All, IfOk, length};
ghost use Rattle.day_model.specs.Fit.{FitsAccounts};
ghost use Rattle.day_model.specs.Shape.{HasShape};
ghost use Rattle.corr_books.specs.Opening.{IsNamed};
ghost use Rattle.corr_books.specs.Passes.{Belongs};

use crate::books::{Answer, DAY, begin, close, journal, kept, new, pay};
use corr_books::{Books, BooksName, Opened, open_books};
use corr_disk::{Disk, MemDisk, OnceDisk};
use corr_text::Memory;
use day_model::{Accounts, Pay};
use front_word::Pass;
use jrn_book::CommitFault;
use std::alloc::Global;
use std::marker::Brand;
use std::sync::Wait;
use std::test::*;
use std::thread::{Threads, join};
use work_pool::OpenGate;

type Answers = Vec<Answer>;

// What two batches answered, and how many entries there are then.
#[derive(Drop)]
struct Both {
    one: Answers,
    two: Answers,
    entries: u32,
}

// A batch of two pays, each of which fits the accounts.
fn two_pays(alloc: Global, a: &Accounts, first: Pay, second: Pay) -> Result<Vec<Pay>, Fail>
    requires shape { (HasShape first) × (HasShape second) }
    ensures fits { IfOk result (λ pays. All (FitsAccounts a.now) pays.items) }
    ensures shape { IfOk result (λ pays. All HasShape pays.items) }
    ensures few { IfOk result (λ pays. length pays.items ≡ 2) }
{
    if !a.fits(&first) || !a.fits(&second) {
        return Err("other accounts".into());
    }
    let mut pays = Vec::new(alloc);
    pays.push(first)?;
    pays.push(second)?;
    Ok(pays)
}

// The answers to a batch of two pays.
fn book_batch<N: BooksName, D: Disk, R: Wait>(
    rt: &R,
    alloc: Global,
    books: &Books<N, D>,
    mut pass: Pass,
    worker: u32,
    pays: Vec<Pay>,
) -> (Pass, Result<Answers, Memory>)
    requires pass { Belongs N.opening pass }
    requires few { (length pays.items ≡ 2) × (2 ≤ N.opening.most) }
    requires fits { All (FitsAccounts N.opening.accounts) pays.items }
    requires shape { All HasShape pays.items }
    ensures { Belongs N.opening result.0 }
{
    let Ok(answers) = Vec::with_capacity(alloc, pays.len()) else {
        return (pass, Err(Memory));
    };
    let mut answers = answers;
    books.book_all(rt, alloc, &mut pass, worker, pays, &OpenGate, &mut answers);
    (pass, Ok(answers))
}

// A thread for each of two batches.
fn book_at_once<N: BooksName + Send + Sync, D: Disk + Drop + Send, R: Threads + Wait + Sync>(
    rt: &R,
    alloc: Global,
    books: &Books<N, D>,
    passes: (Pass, Pass),
    first: Vec<Pay>,
    second: Vec<Pay>,
) -> (
    (Pass, Result<Answers, Memory>),
    (Pass, Result<Answers, Memory>),
)
    requires pass { (Belongs N.opening passes.0) × (Belongs N.opening passes.1) }
    requires few { (length first.items ≡ 2) × (length second.items ≡ 2) × (2 ≤ N.opening.most) }
    requires fit { (All (FitsAccounts N.opening.accounts) first.items) × (All (FitsAccounts N.opening.accounts) second.items) }
    requires shape { (All HasShape first.items) × (All HasShape second.items) }
    ensures { (Belongs N.opening result.0.0) × (Belongs N.opening result.1.0) }
{
    let (front, last) = passes;
    join(
        rt,
        || -> (Pass, Result<Answers, Memory>)
            requires pass { Belongs N.opening front }
            requires few { (length first.items ≡ 2) × (2 ≤ N.opening.most) }
            requires fits { All (FitsAccounts N.opening.accounts) first.items }
            requires shape { All HasShape first.items }
            ensures belongs { Belongs N.opening result.0 }
        { book_batch(rt, alloc, books, front, 1, first) },
        || -> (Pass, Result<Answers, Memory>)
            requires pass { Belongs N.opening last }
            requires few { (length second.items ≡ 2) × (2 ≤ N.opening.most) }
            requires fits { All (FitsAccounts N.opening.accounts) second.items }
            requires shape { All HasShape second.items }
            ensures belongs { Belongs N.opening result.0 }
        { book_batch(rt, alloc, books, last, 2, second) },
    )
}

// Two threads book batches on books that have no name yet.
fn book_both_as<N: BooksName + Send + Sync, D: Disk + Drop + Send, R: Threads + Wait + Sync>(
    rt: &R,
    alloc: Global,
    opened: Opened<D>,
    made: u32,
    first: Vec<Pay>,
    second: Vec<Pay>,
) -> Result<Both, Fail>
    requires named { IsNamed D.Disk N.opening N.past N.table opened made }
    requires two { made ≡ 2 }
    requires few { (length first.items ≡ 2) × (length second.items ≡ 2) × (2 ≤ N.opening.most) }
    requires fit { (All (FitsAccounts N.opening.accounts) first.items) × (All (FitsAccounts N.opening.accounts) second.items) }
    requires shape { (All HasShape first.items) × (All HasShape second.items) }
{
    let (books, front, last) = begin::<N, D>(alloc, opened, made)?;
    let passes = (front, last);
    let ((front, one), (last, two)) = book_at_once(rt, alloc, &books, passes, first, second);
    let entries = close(alloc, books, front, last)?;
    Ok(Both {
        one: one?,
        two: two?,
        entries,
    })
}

// Two threads book batches of two pays on a journal of this disk.
fn book_both<D: Disk + Drop + Send, R: Threads + Wait + Sync>(
    rt: &R,
    alloc: Global,
    disk: D,
    first: (Pay, Pay),
    second: (Pay, Pay),
) -> Result<Both, Fail>
    requires first { (HasShape first.0) × (HasShape first.1) }
    requires second { (HasShape second.0) × (HasShape second.1) }
{
    let Ok(opened) = open_books(alloc, disk, DAY) else {
        return Err("not opened".into());
    };
    let (one, two) = first;
    let front = two_pays(alloc, opened.accounts(), one, two)?;
    let (one, two) = second;
    let last = two_pays(alloc, opened.accounts(), one, two)?;
    book_both_as::<Brand, D, R>(rt, alloc, opened, 2, front, last)
}

fn are(answers: &Answers, these: [Answer; 2]) -> bool {
    answers.as_slice() == these.as_slice()
}

#[test]
fn batches_with_a_pay_in_common_are_booked_in_either_order(rt: HostRuntime) -> Result<(), Fail> {
    let alloc = rt.alloc();
    let first = (pay(alloc, 1, 1, 2, 1_000)?, pay(alloc, 2, 2, 1, 2_000)?);
    let second = (pay(alloc, 3, 2, 3, 3_000)?, pay(alloc, 1, 1, 2, 1_000)?);
    let disk = MemDisk::new(alloc, journal(&rt, alloc, 0)?);
    let both = book_both(&rt, alloc, disk, first, second)?;
    let first_came_first = are(&both.one, [new(1), new(2)]) && are(&both.two, [new(3), kept(1)]);
    let second_came_first = are(&both.two, [new(1), new(2)]) && are(&both.one, [kept(2), new(3)]);
    assert!(rt; first_came_first || second_came_first);
    assert_eq!(rt; both.entries, 3);
    Ok(())
}

// The second sync of the first append fails: it is the sixth call. The first batch to come is told of it, and none is entered.
#[test]
fn a_batch_over_which_the_disk_fails_enters_nothing(rt: HostRuntime) -> Result<(), Fail> {
    let alloc = rt.alloc();
    let first = (pay(alloc, 1, 1, 2, 1_000)?, pay(alloc, 2, 2, 1, 2_000)?);
    let second = (pay(alloc, 3, 2, 3, 3_000)?, pay(alloc, 4, 1, 3, 4_000)?);
    let disk = OnceDisk::new(alloc, journal(&rt, alloc, 0)?, 6);
    let both = book_both(&rt, alloc, disk, first, second)?;
    let failed = Err(CommitFault::DiskFault {
        before: 0,
        after: 1,
    });
    let broken = Err(CommitFault::Broken { at_open: 0, now: 1 });
    let first_came_first = are(&both.one, [failed, broken]) && are(&both.two, [broken, broken]);
    let second_came_first = are(&both.two, [failed, broken]) && are(&both.one, [broken, broken]);
    assert!(rt; first_came_first || second_came_first);
    assert_eq!(rt; both.entries, 0);
    Ok(())
}
