//! Batches of pays: their answers, a disk that stops at each call of a batch, and the reference that comes again within one.

ghost use Rattle.std.specs.Prelude.{◌≡◌, ◌⊎◌, ◌<◌, ◌≤◌, [], All, IfOk, length, vec_capacity};
ghost use Rattle.acct_locks.specs.Holdings.{HoldsOnce};
ghost use Rattle.day_model.specs.Fit.{FitsAccounts};
ghost use Rattle.day_model.specs.Shape.{HasShape};
ghost use Rattle.jrn_codec.specs.Record.{IsEntry};
ghost use Rattle.jrn_book.specs.Opening.{HasPurses};

use crate::books::{HEAD, cent, entry_of, hold, is_between, is_latest, journal, opened};
use acct_locks::{Held, Loose, Name, Purses};
use corr_disk::{Disk, FuseDisk, MemDisk};
use day_model::{Accounts, Entry, Outcome, Pay};
use jrn_book::{CommitFault, Committed, JrnBook};
use std::alloc::Global;
use std::marker::Brand;
use std::sync::Wait;
use std::test::Fail;

type Answers = Vec<Result<Committed, CommitFault>>;

// The pay of an entry, once more, if it fits the accounts and is between accounts 1 and 2.
fn pay_of(alloc: Global, a: &Accounts, e: &Entry) -> Result<Pay, Fail>
    requires written { IsEntry e.now }
    ensures fits { IfOk result (FitsAccounts a.now) }
    ensures shape { IfOk result HasShape }
    ensures between { IfOk result (λ p. All (λ leg. (leg.account.0 ≡ 1) ⊎ (leg.account.0 ≡ 2)) p.legs) }
{
    let pay = e.pay.copy(alloc)?;
    if !a.fits(&pay) || !is_between(pay.legs.as_slice()) {
        return Err("another pay".into());
    }
    Ok(pay)
}

// The pays of three entries.
fn pays_of(alloc: Global, a: &Accounts, entries: &[Entry; 3]) -> Result<Vec<Pay>, Fail>
    requires written { All IsEntry entries.now }
    ensures fits { IfOk result (λ pays. All (FitsAccounts a.now) pays.items) }
    ensures shape { IfOk result (λ pays. All HasShape pays.items) }
    ensures between { IfOk result (λ pays. All (λ p. All (λ leg. (leg.account.0 ≡ 1) ⊎ (leg.account.0 ≡ 2)) p.legs) pays.items) }
    ensures few { IfOk result (λ pays. length pays.items ≡ 3) }
{
    let first = pay_of(alloc, a, &entries[0])?;
    let second = pay_of(alloc, a, &entries[1])?;
    let third = pay_of(alloc, a, &entries[2])?;
    let mut pays = Vec::new(alloc);
    pays.push(first)?;
    pays.push(second)?;
    pays.push(third)?;
    Ok(pays)
}

// Enters the pays of three entries on the day of the first, while accounts 1 and 2 are held: the answers, none where the day is too
// early.
fn enter_held<H: Held, D: Disk>(
    alloc: Global,
    book: &mut JrnBook<D>,
    held: &mut H,
    entries: &[Entry; 3],
) -> Result<Answers, Fail>
    requires written { All IsEntry entries.now }
    requires table { book.old.table ≡ H.table held.old }
    requires holds { HoldsOnce (H.held held.old) 1 × HoldsOnce (H.held held.old) 2 }
    ensures { book.new.table ≡ book.old.table }
{
    let mut answers = Vec::with_capacity(alloc, 3)?;
    let pays = pays_of(alloc, book.accounts(), entries)?;
    let day = entries[0].day;
    if is_latest(book.accounts(), book.history(), day) {
        book.commit_all(held, pays, day, &mut answers);
    }
    Ok(answers)
}

fn enter_all<N: Name, D: Disk, R: Wait>(
    rt: &R,
    alloc: Global,
    book: &mut JrnBook<D>,
    purses: &Purses<N>,
    entries: &[Entry; 3],
) -> Result<Answers, Fail>
    requires written { All IsEntry entries.now }
    requires table { book.old.table ≡ N.table }
    requires two { purses.now ≡ 2 }
    ensures { book.new.table ≡ book.old.table }
{
    let mut held = hold(rt, purses);
    let answers = enter_held(alloc, book, &mut held, entries);
    held.give_back();
    answers
}

// What a batch of three pays answers when it is given twice, and the disk.
#[derive(Drop)]
struct Run<D: Disk> {
    first: Answers,
    second: Answers,
    disk: D,
}

fn give_twice<N: Name, D: Disk + Drop, R: Wait>(
    rt: &R,
    alloc: Global,
    book: JrnBook<D>,
    loose: Loose,
    entries: &[Entry; 3],
) -> Result<Run<D>, Fail>
    requires written { All IsEntry entries.now }
    requires table { book.table ≡ N.table }
    requires purses { HasPurses book loose }
{
    let mut book = book;
    if book.accounts().count() != 2 {
        return Err("other accounts".into());
    }
    let purses = loose.lock::<N>(alloc)?;
    let first = enter_all(rt, alloc, &mut book, &purses, entries)?;
    let second = enter_all(rt, alloc, &mut book, &purses, entries)?;
    let (_, _, disk) = book.into_parts();
    Ok(Run {
        first,
        second,
        disk,
    })
}

// Opens the book of a disk and gives it the pays of the cents of these messages twice, as one batch.
fn enter_twice<D: Disk + Drop, R: Wait>(
    rt: &R,
    alloc: Global,
    disk: D,
    numbers: [u64; 3],
) -> Result<Run<D>, Fail> {
    let [first, second, third] = numbers;
    let entries = [
        entry_of(alloc, cent(alloc, first)?.bytes())?,
        entry_of(alloc, cent(alloc, second)?.bytes())?,
        entry_of(alloc, cent(alloc, third)?.bytes())?,
    ];
    let (book, loose) = opened(alloc, disk)?;
    give_twice::<Brand, _, _>(rt, alloc, book, loose, &entries)
}

fn new_at(place: u32) -> Result<Committed, CommitFault> {
    Ok(Committed::New {
        place,
        outcome: Outcome::Booked,
    })
}

fn kept_at(place: u32) -> Result<Committed, CommitFault> {
    Ok(Committed::Kept {
        place,
        outcome: Outcome::Booked,
    })
}

fn are_new(answers: &Answers) -> bool {
    answers.as_slice() == [new_at(1), new_at(2), new_at(3)].as_slice()
}

fn are_kept(answers: &Answers) -> bool {
    answers.as_slice() == [kept_at(1), kept_at(2), kept_at(3)].as_slice()
}

// The first of them was told of the fault, and the others that the book is broken.
fn have_failed(answers: &Answers) -> bool {
    let failed = Err(CommitFault::DiskFault {
        before: 0,
        after: 1,
    });
    let broken = Err(CommitFault::Broken { at_open: 0, now: 1 });
    answers.as_slice() == [failed, broken, broken].as_slice()
}

fn are_broken(answers: &Answers) -> bool {
    let broken = Err(CommitFault::Broken { at_open: 0, now: 1 });
    answers.as_slice() == [broken, broken, broken].as_slice()
}

#[test]
fn a_batch_is_entered_once_and_stands_after_a_restart(rt: HostRuntime) -> Result<(), Fail> {
    let alloc = rt.alloc();
    let disk = MemDisk::new(alloc, journal(alloc, &[HEAD])?);
    let run = enter_twice(&rt, alloc, disk, [1, 2, 3])?;
    assert!(rt; are_new(&run.first) && are_kept(&run.second));
    let run = enter_twice(&rt, alloc, run.disk, [1, 2, 3])?;
    assert!(rt; are_kept(&run.first) && are_kept(&run.second));
    Ok(())
}

#[test]
fn a_reference_that_comes_again_in_a_batch_is_kept(rt: HostRuntime) -> Result<(), Fail> {
    let alloc = rt.alloc();
    let disk = MemDisk::new(alloc, journal(alloc, &[HEAD])?);
    let run = enter_twice(&rt, alloc, disk, [1, 1, 2])?;
    assert!(rt; run.first.as_slice() == [new_at(1), kept_at(1), new_at(2)].as_slice());
    assert!(rt; run.second.as_slice() == [kept_at(1), kept_at(1), kept_at(2)].as_slice());
    Ok(())
}

// Whether a disk that stops after so many calls of the first batch answers so, and then opens with none of its pays or all.
fn resumes<R: Wait>(rt: &R, alloc: Global, calls: u64, torn: u64) -> Result<bool, Fail>
    requires { calls < 5 }
{
    let disk = FuseDisk::new(alloc, journal(alloc, &[HEAD])?, calls + 2, torn);
    let run = enter_twice(rt, alloc, disk, [1, 2, 3])?;
    let answers = if calls == 4 {
        are_new(&run.first) && are_kept(&run.second)
    } else {
        have_failed(&run.first) && are_broken(&run.second)
    };
    let left = MemDisk::new(alloc, run.disk.left());
    let again = enter_twice(rt, alloc, left, [1, 2, 3])?;
    Ok(answers && (are_new(&again.first) || are_kept(&again.first)) && are_kept(&again.second))
}

#[test]
fn a_batch_that_stops_leaves_none_of_its_pays_or_all(rt: HostRuntime) -> Result<(), Fail> {
    for calls in 0..5u64 {
        for torn in 0..12u64 {
            let holds = resumes(&rt, rt.alloc(), calls, torn)?;
            assert!(rt; holds);
        }
    }
    Ok(())
}
