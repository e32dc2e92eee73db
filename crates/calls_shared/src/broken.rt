//! Books whose disk failed once: what each pass is answered from then on.

ghost use Rattle.std.specs.Prelude.{◌≡◌};
ghost use Rattle.day_model.specs.Fit.{FitsAccounts};
ghost use Rattle.day_model.specs.Shape.{HasShape};
ghost use Rattle.corr_books.specs.Opening.{IsNamed};

use crate::books::{Answer, DAY, begin, book_as, close, journal, new, pay};
use corr_books::{BooksName, Opened, open_books};
use corr_disk::{Disk, OnceDisk};
use day_model::Pay;
use jrn_book::CommitFault;
use std::alloc::Global;
use std::marker::Brand;
use std::sync::Wait;
use std::test::*;
use work_pool::OpenGate;

// What a pass is answered for a pay, for a second one, and for the first again; what another pass is for the first; and how many
// entries there are then.
#[derive(Drop)]
struct Told {
    entered: Answer,
    failed: Answer,
    again: Answer,
    other: Answer,
    entries: u32,
}

fn book_on_as<N: BooksName, D: Disk + Drop, R: Wait>(
    rt: &R,
    alloc: Global,
    opened: Opened<D>,
    made: u32,
    first: &Pay,
    second: &Pay,
) -> Result<Told, Fail>
    requires named { IsNamed D.Disk N.opening N.past N.table opened made }
    requires two { made ≡ 2 }
    requires fit { (FitsAccounts opened.accounts first.now) × (FitsAccounts opened.accounts second.now) }
    requires shape { (HasShape first.now) × (HasShape second.now) }
{
    let (books, front, pass) = begin::<N, D>(alloc, opened, made)?;
    let (pass, entered) = book_as(rt, &books, pass, 1, first, &OpenGate);
    let (pass, failed) = book_as(rt, &books, pass, 1, second, &OpenGate);
    let (pass, again) = book_as(rt, &books, pass, 1, first, &OpenGate);
    let (front, other) = book_as(rt, &books, front, 2, first, &OpenGate);
    let entries = close(alloc, books, front, pass)?;
    Ok(Told {
        entered,
        failed,
        again,
        other,
        entries,
    })
}

fn book_on<D: Disk + Drop, R: Wait>(
    rt: &R,
    alloc: Global,
    disk: D,
    first: &Pay,
    second: &Pay,
) -> Result<Told, Fail>
    requires shape { (HasShape first.now) × (HasShape second.now) }
{
    let Ok(opened) = open_books(alloc, disk, DAY) else {
        return Err("not opened".into());
    };
    if !opened.accounts().fits(first) || !opened.accounts().fits(second) {
        return Err("other accounts".into());
    }
    book_on_as::<Brand, D, R>(rt, alloc, opened, 2, first, second)
}

// The first sync of the second append fails: it is the eighth call. From then on each pass is told so, also for a pay that stands.
#[test]
fn a_pay_that_stands_is_answered_broken_after_a_failure(rt: HostRuntime) -> Result<(), Fail> {
    let alloc = rt.alloc();
    let first = pay(alloc, 1, 1, 3, 1_000)?;
    let second = pay(alloc, 2, 1, 3, 2_000)?;
    let disk = OnceDisk::new(alloc, journal(&rt, alloc, 0)?, 8);
    let told = book_on(&rt, alloc, disk, &first, &second)?;
    let failed = Err(CommitFault::DiskFault {
        before: 0,
        after: 1,
    });
    let broken = Err(CommitFault::Broken { at_open: 0, now: 1 });
    assert!(rt; told.entered == new(1) && told.failed == failed);
    assert!(rt; told.again == broken && told.other == broken);
    assert_eq!(rt; told.entries, 1);
    Ok(())
}
