//! Opening books.

ghost use Rattle.std.specs.Prelude.{◌≡◌, IfErr, IfNone, IfOk, IfSome, IsTrue, MatchResult};
ghost use Rattle.corr_ids.specs.Day.{InCentury};
ghost use Rattle.day_model.specs.Laws.{IsLatest};
ghost use Rattle.day_model.specs.Legal.{IsLegal};
ghost use Rattle.front_word.specs.Known.{beginner};
ghost use Rattle.jrn_book.specs.Journal.{IsJournal};
ghost use Rattle.jrn_book.specs.Opening.{HasPurses, IsNewBook};
ghost use Rattle.jrn_file.specs.File.{disk_of};
ghost use Rattle.jrn_file.specs.Reading.{opened_of};
ghost use Rattle.jrn_file.specs.Untouched.{IsUntouched};
ghost use Rattle.corr_books.specs.Finding.{BooksCause, IsDateBack, IsGivenBy, ShowsBack, TellsOf};
ghost use Rattle.corr_books.specs.inner.Finding.{BeginsNot};
ghost use Rattle.corr_books.specs.Opening.{parts_from};

use crate::naming::Beginning;
use acct_locks::Loose;
use corr_disk::Disk;
use corr_ids::Day;
use corr_text::Memory;
use day_model::{Accounts, History};
use front_word::{Front, Writer};
use jrn_book::{JrnBook, open_book};
use jrn_file::OpenFault;
use std::alloc::Global;
use std::marker::{Brand, Model};

/// Why books were not opened.
#[derive(Debug, Drop)]
pub enum BooksFault {
    /// The journal was not opened; or there was no memory for the word, as `OpenFault::Memory`.
    Open(OpenFault),
    /// The journal's last entry has this day, which is after that of the books.
    DateBack { last: Day },
}

/// The parts of one opening, which have no name and no locks yet.
///
/// Contracts see the accounts, the history, the day that entries get, the disk's count of faults at the opening, the open
/// file, and the tables of the word and of the purses.
#[derive(Drop)]
pub struct Opened<D: Disk> {
    pub(crate) book: JrnBook<D>,
    pub(crate) loose: Loose,
    pub(crate) front: Front,
    pub(crate) writer: Writer,
    pub(crate) day: Day,
}

impl<D: Disk> Model for Opened<D> {
    ghost use Rattle.std.specs.Prelude.{◌≡◌};
    ghost use Rattle.corr_ids.specs.Day.{InCentury};
    ghost use Rattle.day_model.specs.Laws.{IsLatest};
    ghost use Rattle.front_word.specs.Known.{beginner};
    ghost use Rattle.jrn_book.specs.Opening.{HasPurses, IsNewBook};
    ghost use Rattle.corr_books.specs.Opening.{Parts, parts_from};

    ghost Value = { Parts D };

    ghost view = { λ o. parts_from o.book o.day o.front };

    ghost invariant = { λ o. IsNewBook D.honest D.reads D.may_leave D.faults o.book × HasPurses o.book o.loose
        × (o.writer ≡ beginner o.front o.book.history) × InCentury o.day × IsLatest o.book.history o.day };
}

/// Opens the books of a journal for a day: its accounts and its history, a purse for each account, and the word that counts
/// what is entered from now on. They have no name and no locks yet. It syncs the disk, reads it once and writes nothing.
///
/// The day is of 1980 to 2079. `Open` comes exactly as `open_book` refuses the journal, and with `Memory` also where there is none
/// for the word; `DateBack` exactly where the last entry's day is after `day`. The disk comes back with each refusal.
pub fn open_books<D: Disk>(alloc: Global, disk: D, day: Day) -> Result<Opened<D>, (D, BooksFault)>
    requires century { InCentury day }

    // What it answers is what the bytes give, and what they give is what it answers, unless the disk or memory failed.
    ensures told { IsTrue (D.honest disk) → TellsOf (opened_of (D.reads disk)) day result }
    ensures only { IsTrue (D.honest disk) → IsGivenBy (opened_of (D.reads disk)) day result }
    ensures cause { IfErr result (λ e. BooksCause (D.faults disk) (D.faults e.0) e.1) }

    ensures opened { IfOk result (λ o. (o.day ≡ day) × (o.at_open ≡ D.faults disk)) }
    ensures latest { IfOk result (λ o. IsLatest o.base day) }

    // What was opened, also where the disk doesn't tell its bytes.
    ensures journal { IfOk result (λ o. IsJournal o.accounts o.base) }
    ensures back { IfErr result (λ e. ShowsBack (opened_of (D.reads disk)) (D.honest disk) day e.1) }

    ensures kept { IfOk result (λ o. D.faults (disk_of o.file) ≡ D.faults disk) }

    // Nothing is written, whatever the answer.
    ensures untouched { MatchResult result
        (λ o. IsUntouched D.reads D.may_leave D.moment D.left_since disk (disk_of o.file))
        (λ e. IsUntouched D.reads D.may_leave D.moment D.left_since disk e.0) }
    ensures honest { MatchResult result (λ o. D.honest (disk_of o.file) ≡ D.honest disk) (λ e. D.honest e.0 ≡ D.honest disk) }
{
    match open_book(alloc, disk) {
        Ok((book, loose)) => begin_books(alloc, book, loose, day),
        Err((disk, fault)) => Err((disk, BooksFault::Open(fault))),
    }
}

/// The parts of a book that was just opened and of its purses, or its disk: where its last entry has a later day, and where
/// there is no memory for the word.
fn begin_books<D: Disk>(
    alloc: Global,
    book: JrnBook<D>,
    loose: Loose,
    day: Day,
) -> Result<Opened<D>, (D, BooksFault)>
    requires century { InCentury day }
    requires opened { IsNewBook D.honest D.reads D.may_leave D.faults book }
    requires purses { HasPurses book loose }
    ensures parts { IfOk result (λ o. o ≡ parts_from book day o.word) }
    ensures latest { IfOk result (λ _. IsLatest book.history day) }
    ensures disk { IfErr result (λ e. (e.0 ≡ disk_of book.file) × BeginsNot book.history day e.1) }
{
    if let Some(last) = later_day(book.accounts(), book.history(), day) {
        let (_, _, disk) = book.into_parts();
        return Err((disk, BooksFault::DateBack { last }));
    }
    let Ok((front, writer)) = begin(alloc, book.history()) else {
        let (_, _, disk) = book.into_parts();
        return Err((disk, BooksFault::Open(OpenFault::Memory)));
    };
    Ok(Opened {
        book,
        loose,
        front,
        writer,
        day,
    })
}

/// The day of the last entry of a legal history where it is after this one.
fn later_day(a: &Accounts, h: &History, day: Day) -> Option<Day>
    requires legal { IsLegal a.now h.now.entries }
    ensures later { IfSome result (λ last. IsDateBack h.now.entries day last) }
    ensures none { IfNone result (IsLatest h.now.entries day) }
{
    let count = h.len();
    if count == 0 {
        return None;
    }
    let last = h.get(count).day;
    if last.0 > day.0 { Some(last) } else { None }
}

/// A word that begins with this history.
fn begin(alloc: Global, history: &History) -> Result<(Front, Writer), Memory>
    ensures { IfOk result (λ r. r.1 ≡ beginner r.0 history.now.entries) }
{
    begin_as::<Brand>(alloc, history)
}

fn begin_as<B: Beginning>(alloc: Global, history: &History) -> Result<(Front, Writer), Memory>
    requires { B.history ≡ history.now.entries }
    ensures { IfOk result (λ r. r.1 ≡ beginner r.0 B.history) }
{
    let _ = history;
    Front::new(alloc)
}
