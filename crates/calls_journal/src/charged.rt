//! A pay of three legs, entered while its accounts are held, and found again after a restart.

ghost use Rattle.std.specs.Prelude.{◌≡◌, ◌⊎◌, All, IfOk};
ghost use Rattle.std.specs.Bool.{OnTrue};
ghost use Rattle.acct_locks.specs.Holdings.{HoldsOnce};
ghost use Rattle.jrn_codec.specs.Record.{IsEntry};
ghost use Rattle.jrn_book.specs.Opening.{HasPurses};

use crate::books::{entry_of, is_latest, is_new, journal, opened};
use crate::records::CHARGED;
use acct_locks::{Held, Held3, Loose, Name, Purses};
use corr_disk::{Disk, MemDisk};
use day_model::{AcctNo, Entry, Leg, balance};
use jrn_book::{CommitFault, Committed, JrnBook};
use std::alloc::Global;
use std::marker::Brand;
use std::sync::Wait;
use std::test::*;

// HOMEUS33 with a vostro account of ALPHDEFF, a nostro account with CORRBEBB and an account of fees: EUR 60,000.00, as much less,
// and nothing.
const HEAD: &[u8] =
    b"CORRJ2HOMEUS33XXX\0\x03\x08VALPHEURVALPHDEFFXXXEUR\x02\xff\xff\xff\xff\xffgi\x80\0\0\0\x14\xf4k\x04\0\0\0\0\0\0[\x8d\x80\x08NCORREURNCORRBEBBXXXEUR\x02\xff\xff\xff\xeb\x0b\x94\xfc\0\0\0\0\x14\xf4k\x04\0\xff\xff\xff\xff\xff\xa4r\x80\x06FEEEURFHOMEUS33XXXEUR\x02\0\0\0\0\0\0\0\0\0\0\0\x14\xf4k\x04\0\0\0\0\0\0\0\0\0";

// Accounts 1 to 3 are held.
fn hold<'a, N: Name, R: Wait>(rt: &R, purses: &'a Purses<N>) -> Held3<'a, N>
    requires three { purses.now ≡ 3 }
    ensures table { result.table ≡ N.table }
    ensures holds { HoldsOnce result.held 1 × HoldsOnce result.held 2 × HoldsOnce result.held 3 }
{
    let two = purses.hold().take(rt, AcctNo(1)).take(rt, AcctNo(2));
    two.take(rt, AcctNo(3))
}

// Whether each leg is of account 1, 2 or 3.
fn are_among(legs: &[Leg]) -> bool
    ensures { OnTrue result (All (λ leg. (leg.account.0 ≡ 1) ⊎ (leg.account.0 ≡ 2) ⊎ (leg.account.0 ≡ 3)) legs.now) }
{
    for leg in legs {
        if leg.account.0 != 1 && leg.account.0 != 2 && leg.account.0 != 3 {
            return false;
        }
    }
    true
}

fn enter<H: Held, D: Disk>(
    book: &mut JrnBook<D>,
    held: &mut H,
    e: &Entry,
) -> Option<Result<Committed, CommitFault>>
    requires written { IsEntry e.now }
    requires table { book.old.table ≡ H.table held.old }
    requires holds { HoldsOnce (H.held held.old) 1 × HoldsOnce (H.held held.old) 2 × HoldsOnce (H.held held.old) 3 }
{
    let may = are_among(e.pay.legs.as_slice())
        && book.accounts().fits(&e.pay)
        && is_latest(book.accounts(), book.history(), e.day);
    if !may {
        return None;
    }
    Some(book.commit(held, &e.pay, e.day))
}

// The balances of three accounts after all entries; none where there are other accounts.
fn balances<D: Disk + Drop>(book: JrnBook<D>) -> Option<[i64; 3]> {
    let (accounts, history, _) = book.into_parts();
    if accounts.count() != 3 {
        return None;
    }
    Some([
        balance(&accounts, &history, AcctNo(1)),
        balance(&accounts, &history, AcctNo(2)),
        balance(&accounts, &history, AcctNo(3)),
    ])
}

fn entered<N: Name, D: Disk + Drop, R: Wait>(
    rt: &R,
    alloc: Global,
    book: JrnBook<D>,
    loose: Loose,
    e: &Entry,
) -> Result<(bool, Option<[i64; 3]>), Fail>
    requires written { IsEntry e.now }
    requires table { book.table ≡ N.table }
    requires purses { HasPurses book loose }
{
    let mut book = book;
    if book.accounts().count() != 3 {
        return Err("other accounts".into());
    }
    let purses = loose.lock::<N>(alloc)?;
    book.reserve(&e.pay)?;
    let mut held = hold(rt, &purses);
    let answer = enter(&mut book, &mut held, e);
    held.give_back();
    Ok((is_new(&answer), balances(book)))
}

#[test]
fn a_pay_of_three_legs_is_entered(rt: HostRuntime) -> Result<(), Fail> {
    let alloc = rt.alloc();
    let e = entry_of(alloc, CHARGED)?;
    let (book, loose) = opened(alloc, MemDisk::new(alloc, journal(alloc, &[HEAD])?))?;
    let (new, after) = entered::<Brand, _, _>(&rt, alloc, book, loose, &e)?;
    assert!(rt; new && after == Some([5_876_544, -5_877_044, 500]));
    Ok(())
}

#[test]
fn an_entry_of_three_legs_is_found_again(rt: HostRuntime) -> Result<(), Fail> {
    let alloc = rt.alloc();
    let (book, _) = opened(
        alloc,
        MemDisk::new(alloc, journal(alloc, &[HEAD, CHARGED])?),
    )?;
    assert_eq!(rt; balances(book), Some([5_876_544, -5_877_044, 500]));
    Ok(())
}
