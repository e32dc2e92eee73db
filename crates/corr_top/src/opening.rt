//! The journal, opened.

ghost use Rattle.std.specs.Prelude.{◌≡◌, IfErr, IfOk, MatchResult};
ghost use Rattle.jrn_book.specs.Book.{StandsOnDisk};
ghost use Rattle.jrn_book.specs.Journal.{IsJournal};
ghost use Rattle.jrn_file.specs.File.{disk_of};
ghost use Rattle.corr_top.specs.OnDisk.{StopsOpening};
ghost use Rattle.corr_top.specs.inner.OnDisk.{HasOpened};

use crate::status::Status;
use acct_locks::Loose;
use corr_books::BooksFault;
use corr_disk::Disk;
use jrn_book::{JrnBook, open_book};
use jrn_file::OpenFault;
use std::alloc::Global;

impl From<OpenFault> for Status {
    ghost use Rattle.corr_top.specs.Stops.{status_of_opening};

    ghost from_gives = { λ fault status. status ≡ status_of_opening fault };

    fn from(fault: OpenFault) -> Status {
        match fault {
            OpenFault::NotAJournal => Status::NotAJournal,
            OpenFault::Version { found } => Status::Version { found },
            OpenFault::Damaged { at } => Status::Damaged { at },
            OpenFault::DiskFault { before, after } => Status::DiskFault { before, after },
            OpenFault::Memory => Status::Memory,
        }
    }
}

impl From<BooksFault> for Status {
    ghost use Rattle.corr_top.specs.Stops.{status_of_books};

    ghost from_gives = { λ fault status. status ≡ status_of_books fault };

    fn from(fault: BooksFault) -> Status {
        match fault {
            BooksFault::Open(fault) => Status::from(fault),
            BooksFault::DateBack { last } => Status::DateBack { last },
        }
    }
}

/// Opens the journal of a disk: its book, and the purses of its accounts.
pub fn open_journal<D: Disk>(alloc: Global, disk: D) -> Result<(JrnBook<D>, Loose), (D, OpenFault)>
    ensures opened { IfOk result (λ r. HasOpened D.Disk disk r.0 r.1) }
    ensures stopped { IfErr result (λ e. StopsOpening D.Disk disk e.0 e.1) }
    ensures honest { MatchResult result (λ r. D.honest (disk_of r.0.file) ≡ D.honest disk) (λ e. D.honest e.0 ≡ D.honest disk) }
{
    open_book(alloc, disk)
}

/// Closes a journal, and hands its disk back.
pub fn close_journal<D: Disk>(book: JrnBook<D>) -> D
    ensures disk { result ≡ disk_of book.file }
    ensures stands { StandsOnDisk D.honest D.reads D.may_leave book.failed book.file book.accounts book.history }
    ensures journal { IsJournal book.accounts book.history }
{
    let (_, _, disk) = book.into_parts();
    disk
}
