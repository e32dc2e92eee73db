//! The command `return`: a payment is taken back.

ghost use Rattle.std.specs.Prelude.{◌≡◌, ◌≤◌, ◌-◌, ◌∷◌, [], All, IfErr, IfOk, List, None, Some, length, slice_get};
ghost use Rattle.corr_books.specs.Opening.{IsNamed, opening_with, past_of};
ghost use Rattle.corr_ids.specs.Bic.{IsBic};
ghost use Rattle.corr_ids.specs.Day.{InCentury};
ghost use Rattle.corr_report.specs.Bookings.{AreInCentury};
ghost use Rattle.day_model.specs.Fit.{FitsAccounts};
ghost use Rattle.day_model.specs.Legal.{IsLegal};
ghost use Rattle.day_model.specs.Next.{entered_at};
ghost use Rattle.day_model.specs.Balance.{outcome_of};
ghost use Rattle.day_model.specs.Shape.{HasShape};
ghost use Rattle.day_model.specs.declared.entry.Entry.{Entry as TheEntry};
ghost use Rattle.day_model.specs.declared.entry.Outcome.TheVariants.{Booked};
ghost use Rattle.day_model.specs.declared.reply.Reply.{Reply as TheReply};
ghost use Rattle.jrn_book.specs.Journal.{IsJournal};
ghost use Rattle.jrn_file.specs.File.{disk_of};
ghost use Rattle.corr_top.specs.Commands.{meaning_of};
ghost use Rattle.corr_top.specs.inner.Ends.{HasTexts};
ghost use Rattle.corr_top.specs.inner.Returning.{GivesBooked, GivesEntry, GivesLast, GivesReturned, IsEntered};
ghost use Rattle.corr_top.specs.inner.Serving.{HasPayShape, are_replies};
ghost use Rattle.corr_top.specs.declared.words.Command.TheVariants.{Return};

use crate::answers::check_replies;
use crate::desk::{Served, as_served};
use crate::outgoing::parted;
use crate::room::Room;
use crate::run::into_disk;
use crate::status::Status;
use crate::writing::Texts;
use advices::orders;
use corr_books::{BooksName, Closed, Opened, open_books};
use corr_disk::Disk;
use corr_ids::Day;
use corr_io::{Sink, Source};
use corr_report::booking;
use corr_text::Memory;
use day_model::{Accounts, History, Pay};
use pay_returns::{ReturnFault, return_pay};
use std::alloc::Global;
use std::marker::Brand;
use std::sync::Wait;
use work_pool::Gate;

impl From<ReturnFault> for Status {
    ghost use Rattle.corr_top.specs.Stops.{status_of_return};

    ghost from_gives = { λ fault status. status ≡ status_of_return fault };

    fn from(fault: ReturnFault) -> Status {
        match fault {
            ReturnFault::NoPayment { entries } => Status::NoPayment { entries },
            ReturnFault::Returned { place } => Status::Returned { place },
            ReturnFault::Unfunded { leg, balance } => Status::Unfunded { leg, balance },
            ReturnFault::Memory => Status::Memory,
        }
    }
}

/// What is left when one pay was entered: the closed books, and what became of the pay.
#[derive(Drop)]
pub struct Entered<D: Disk> {
    pub closed: Closed<D>,
    pub made: Served,
}

/// What `enter_alone` does, where `N` names the opening, and one entry under one sync.
fn enter_named<N: BooksName, R: Wait, D: Disk + Drop, G: Gate>(
    rt: &R,
    alloc: Global,
    opened: Opened<D>,
    pay: &Pay,
    gate: &G,
) -> Result<Entered<D>, (D, Memory)>
    requires named { IsNamed D.Disk N.opening N.past N.table opened 1 }
    requires most { N.opening.most ≡ 1 }
    requires journal { IsJournal opened.accounts opened.base }
    requires fits { FitsAccounts opened.accounts pay.now }
    requires shape { HasShape pay.now }
    ensures entered { IfOk result (λ e. IsEntered D.Disk (opening_with D.Disk opened 1 1) N.past pay.now e) }
    ensures disk { IfErr result (λ e. e.0 ≡ disk_of opened.file) }
{
    let (books, mut passes) = match opened.books::<N>(alloc, 1) {
        Ok(made) => made,
        Err(refused) => return Err(refused),
    };
    let answer = books.book(rt, &mut passes[0], 1, pay, gate);
    let closed = books.close_all(passes);
    Ok(Entered {
        closed,
        made: as_served(pay.mir, answer),
    })
}

/// Books one pay over the books of an opening, with one pass, and closes the books.
///
/// Where there is no memory for the books, the disk comes back as it was.
fn enter_alone<R: Wait, D: Disk + Drop, G: Gate>(
    rt: &R,
    alloc: Global,
    opened: Opened<D>,
    pay: &Pay,
    gate: &G,
) -> Result<Entered<D>, (D, Memory)>
    requires journal { IsJournal opened.accounts opened.base }
    requires fits { FitsAccounts opened.accounts pay.now }
    requires shape { HasShape pay.now }
    ensures entered { IfOk result (λ e. IsEntered D.Disk (opening_with D.Disk opened 1 1) (past_of D.Disk opened) pay.now e) }
    ensures disk { IfErr result (λ e. e.0 ≡ disk_of opened.file) }
{
    enter_named::<Brand, _, _, _>(rt, alloc, opened, pay, gate)
}

/// The line of the entry at a place, and its outgoing messages, each followed by `$`.
fn entry_texts(alloc: Global, a: &Accounts, h: &History, place: u32) -> Result<Texts, Memory>
    requires home { IsBic a.now.home }
    requires legal { IsLegal a.now h.now.entries }
    requires shapes { All HasPayShape h.now.entries }
    requires days { AreInCentury h.now.entries }
    requires from_one { 1 ≤ place }
    requires there { place ≤ length h.now.entries }
    ensures { IfOk result (λ texts. (entry : TheEntry) → slice_get h.now.entries (place - 1) ≡ Some entry → GivesLast a.now place entry texts) }
{
    let report = booking(alloc, a, h, place)?;
    let messages = orders(alloc, a, h.get(place), place)?;
    let out = parted(alloc, messages.as_slice())?;
    Ok(Texts { report, out })
}

/// The texts of the last entry of a day on which one pay was entered, or why there are none. The disk's count of faults was `before`
/// at the opening.
fn texts_of<D: Disk + Drop>(
    alloc: Global,
    day: &Closed<D>,
    made: Served,
    before: u64,
) -> Result<Texts, Status>
    requires journal { IsJournal day.now.accounts day.now.history.entries }
    requires some { (replies : List TheReply) → made ∷ [] ≡ are_replies replies → 1 ≤ length day.now.history.entries }
    ensures { GivesEntry day.now.accounts day.now.history.entries (made ∷ []) before (D.faults day.now.disk) result }
{
    check_replies(before, day.disk.faults(), &[made])?;
    Ok(entry_texts(alloc, &day.accounts, &day.history, day.history.len())?)
}

/// Books a pay that is new over the books of an opening, and makes the texts of its entry. The disk comes back; its count of faults was
/// `before`.
fn book_new<R: Wait, D: Disk + Drop, G: Gate>(
    rt: &R,
    alloc: Global,
    opened: Opened<D>,
    before: u64,
    pay: &Pay,
    gate: &G,
) -> (D, Result<Texts, Status>)
    requires journal { IsJournal opened.accounts opened.base }
    requires count { before ≡ opened.at_open }
    requires fits { FitsAccounts opened.accounts pay.now }
    requires shape { HasShape pay.now }
    requires new { entered_at pay.now.mir opened.base ≡ None }
    requires funded { outcome_of opened.accounts opened.base pay.now ≡ Booked }
    ensures { GivesBooked D.Disk opened result.0 pay.now result.1 }
{
    let Entered { closed, made } = match enter_alone(rt, alloc, opened, pay, gate) {
        Ok(entered) => entered,
        Err((disk, memory)) => return (disk, Err(Status::from(memory))),
    };
    let texts = texts_of(alloc, &closed, made, before);
    (into_disk(closed), texts)
}

/// Makes the pay that takes the payment at a place back, books it over the books of an opening, and makes the texts of its entry. The
/// disk comes back; its count of faults was `before`.
fn return_in<R: Wait, D: Disk + Drop, G: Gate>(
    rt: &R,
    alloc: Global,
    opened: Opened<D>,
    before: u64,
    place: u32,
    day: Day,
    gate: &G,
) -> (D, Result<Texts, Status>)
    requires journal { IsJournal opened.accounts opened.base }
    requires count { before ≡ opened.at_open }
    requires day { InCentury day }
    ensures { GivesReturned D.Disk opened result.0 place day result.1 }
{
    let pay = match return_pay(alloc, opened.accounts(), opened.history(), place, day) {
        Ok(pay) => pay,
        Err(fault) => return (opened.into_disk(), Err(Status::from(fault))),
    };
    book_new(rt, alloc, opened, before, &pay, gate)
}

/// Opens the journal, and takes the payment at a place back on a day. The texts are the line of the entry that was added, and its
/// outgoing messages.
pub fn take_back<R: Wait, S: Source, K: Sink, D: Disk + Drop, G: Gate>(
    rt: &R,
    alloc: Global,
    place: u32,
    day: Day,
    room: Room<S, K, D>,
    gate: &G,
) -> (Room<S, K, D>, Result<Texts, Status>)
    requires day { InCentury day }
    ensures texts { HasTexts S.Source D.Disk (meaning_of (Return place day)) room result.0 result.1 }
    ensures honest { D.honest result.0.disk ≡ D.honest room.disk }
{
    let mut room = room;
    let before = room.disk.faults();
    let opened = match open_books(alloc, room.disk, day) {
        Ok(opened) => opened,
        Err((disk, fault)) => {
            room.disk = disk;
            return (room, Err(Status::from(fault)));
        }
    };
    let (disk, texts) = return_in(rt, alloc, opened, before, place, day, gate);
    room.disk = disk;
    (room, texts)
}
