//! A book: accounts and their history over a journal on a disk.

ghost use Rattle.std.specs.Prelude.{◌≡◌, None, Some, IsOk, OnOk, OnErr, IsTrue};
ghost use Rattle.std.specs.Bool.{OnTrue};
ghost use Rattle.day_model.specs.Chart.{IsChart};
ghost use Rattle.day_model.specs.Legal.{IsLegal};
ghost use Rattle.day_model.specs.Next.{entered_at};
ghost use Rattle.day_model.specs.Shape.{HasShape};
ghost use Rattle.jrn_file.specs.File.{disk_of};
ghost use Rattle.jrn_book.specs.Book.{Counts, StandsOnDisk};
ghost use Rattle.jrn_book.specs.Journal.{IsJournal};

use crate::answer::Failed;
use crate::index::Index;
use crate::room::Room;
use acct_locks::BookSides;
use corr_disk::Disk;
use corr_ids::Mir;
use corr_text::Memory;
use day_model::{Accounts, History, Pay};
use jrn_file::JFile;
use std::alloc::Global;
use std::marker::Model;

/// Accounts and their history, each entry of which is on the disk.
///
/// Contracts see the accounts, the history, the table of the purses that belong to it, the open file, the disk's count of
/// faults at the opening, the failure of a commit, if one failed, and the pay for which there is room, if any.
#[derive(Drop)]
pub struct JrnBook<D: Disk> {
    pub(crate) accounts: Accounts,
    pub(crate) history: History,
    pub(crate) index: Index,
    pub(crate) sides: BookSides,
    pub(crate) pairs: Vec<(u64, u64)>,
    pub(crate) file: JFile<D>,
    pub(crate) at_open: u64,
    pub(crate) failed: Option<Failed>,
    pub(crate) room: Option<Room>,
    pub(crate) alloc: Global,
}

impl<D: Disk> Model for JrnBook<D> {
    ghost use Rattle.jrn_book.specs.Book.{Book, IsBacked, IsBook};

    ghost Value = { Book D };

    ghost view = { λ b. record { accounts = b.accounts; history = b.history.entries; table = b.sides.table; file = b.file; at_open = b.at_open; failed = b.failed; room = b.room } };

    ghost invariant = { λ b. IsBook D.honest D.reads D.may_leave D.faults (record { accounts = b.accounts; history = b.history.entries; table = b.sides.table; file = b.file; at_open = b.at_open; failed = b.failed; room = b.room })
        × IsBacked b.accounts b.history b.index b.sides b.pairs.items b.failed b.room };
}

impl<D: Disk> JrnBook<D> {
    /// The accounts. Takes no memory.
    pub fn accounts(&self) -> &Accounts
        ensures value { result.now ≡ self.now.accounts }
        ensures sound { IsChart self.now.accounts }
        ensures journal { IsJournal self.now.accounts self.now.history }
    {
        &self.accounts
    }

    /// The history. Takes no memory.
    pub fn history(&self) -> &History
        ensures value { result.now.entries ≡ self.now.history }
        ensures legal { IsLegal self.now.accounts self.now.history }
        ensures journal { IsJournal self.now.accounts self.now.history }
    {
        &self.history
    }

    /// The place, from 1, of the entry with this reference; none exactly where there is none. Takes no memory.
    pub fn place_of(&self, mir: &Mir) -> Option<u32>
        ensures { result ≡ entered_at mir.now self.now.history }
    {
        self.index.place(mir)
    }

    fn has_room_for(&self, p: &Pay) -> bool
        ensures same { OnTrue result (self.now.room ≡ Some p.now) }
        ensures all { self.now.room ≡ Some p.now → IsTrue result }
    {
        match &self.room {
            Some(room) => room.is_for(p),
            None => false,
        }
    }

    /// Takes the memory that one commit of this pay needs: a copy of the pay, the bytes of its longest record (that of an entry
    /// that isn't funded), as many and 5 more for the frame that is appended, one entry more in the history and one reference
    /// more in the index. Where there is room for this pay already, it takes none. The disk isn't called.
    ///
    /// The room is for this pay alone: a `reserve` of another pay takes its place, and the next `commit` may use it up. The pay
    /// has the shape of one that can be written down.
    ///
    /// `Memory`: there is none. Then there is room for no pay, and all else of the book is as it was.
    pub fn reserve(&mut self, p: &Pay) -> Result<(), Memory>
        requires shape { HasShape p.now }
        ensures same { self.new ≡ record self.old { room = self.new.room } }
        ensures room { OnOk result (self.new.room ≡ Some p.now) }
        ensures none { OnErr result (self.new.room ≡ None) }
        ensures again { self.old.room ≡ Some p.now → IsOk result }
    {
        if self.has_room_for(p) {
            return Ok(());
        }
        self.room = None;
        self.history.reserve()?;
        self.index.reserve()?;
        let room = Room::new(self.alloc, p)?;
        self.room = Some(room);
        Ok(())
    }

    /// The accounts, the history and the disk. Takes no memory.
    ///
    /// What a crash may leave of the disk stands for the history; where a commit failed, it may also stand for the history
    /// and the legal entries that it was writing, all of them, each of that commit's day.
    pub fn into_parts(self) -> (Accounts, History, D)
        ensures accounts { result.0 ≡ self.accounts }
        ensures history { result.1.entries ≡ self.history }
        ensures disk { result.2 ≡ disk_of self.file }
        ensures legal { IsLegal self.accounts self.history }
        ensures journal { IsJournal self.accounts self.history }
        ensures stands { StandsOnDisk D.honest D.reads D.may_leave self.failed self.file self.accounts self.history }
        ensures counts { Counts self.failed self.at_open (D.faults result.2) }
    {
        let JrnBook {
            accounts,
            history,
            index: _,
            sides: _,
            pairs: _,
            file,
            at_open: _,
            failed: _,
            room: _,
            alloc: _,
        } = self;
        (accounts, history, file.into_disk())
    }
}
