//! The parts of an opening get their name, their passes and their locks.

ghost use Rattle.std.specs.Prelude.{◌≡◌, ◌≤◌, IfErr, IfOk, length};
ghost use Rattle.jrn_file.specs.File.{disk_of};
ghost use Rattle.corr_books.specs.Opening.{IsNamed};
ghost use Rattle.corr_books.specs.Passes.{AreNew};
ghost use Rattle.corr_books.specs.inner.Stand.{IsStand};
ghost use Rattle.corr_books.specs.inner.Taking.{AreMade};
ghost use Rattle.work_pool.specs.Served.{most_workers};

use crate::books::Books;
use crate::naming::BooksName;
use crate::opening::Opened;
use crate::stand::Stand;
use acct_locks::{Loose, Purses};
use corr_disk::Disk;
use corr_ids::Day;
use corr_text::Memory;
use day_model::{Accounts, History};
use front_word::{Front, Pass, Writer};
use jrn_book::JrnBook;
use std::alloc::Global;
use std::marker::PhantomData;
use std::sync::Mutex;

/// What the making of books takes memory for.
struct Made<N: BooksName> {
    accounts: Accounts,
    passes: Vec<Pass>,
    purses: Purses<N>,
}

impl<D: Disk> Opened<D> {
    /// The accounts. Takes no memory.
    pub fn accounts(&self) -> &Accounts
        ensures { result.now ≡ self.now.accounts }
    {
        self.book.accounts()
    }

    /// The history at the opening. Takes no memory.
    pub fn history(&self) -> &History
        ensures { result.now.entries ≡ self.now.base }
    {
        self.book.history()
    }

    /// The disk, as it was at the opening. Takes no memory.
    pub fn into_disk(self) -> D
        ensures { result ≡ disk_of self.file }
    {
        let (_, _, disk) = self.book.into_parts();
        disk
    }

    /// Makes the passes with the numbers 1 to `made`, gives the parts their name, and puts them behind their locks. These are
    /// all passes that the books ever make.
    ///
    /// `N` names these parts and `made`, which is 1 to 16, how many entries come under one sync at most, and at least all that a
    /// crash might have left until now. `Memory`: there is none, and the disk is as it was.
    pub fn books<N: BooksName>(
        self,
        alloc: Global,
        made: u32,
    ) -> Result<(Books<N, D>, Vec<Pass>), (D, Memory)>
        requires named { IsNamed D.Disk N.opening N.past N.table self made }
        requires count { (1 ≤ made) × (made ≤ most_workers) }
        ensures passes { IfOk result (λ r. AreNew N.opening r.1.items) }
        ensures disk { IfErr result (λ e. e.0 ≡ disk_of self.file) }
    {
        let Opened {
            book,
            loose,
            front,
            mut writer,
            day,
        } = self;
        let Ok(parts) = make::<N>(alloc, book.accounts(), loose, &front, &mut writer, made) else {
            let (_, _, disk) = book.into_parts();
            return Err((disk, Memory));
        };
        let Made {
            accounts,
            passes,
            purses,
        } = parts;
        let behind = begin_stand(book, writer, day);
        let stand = Mutex::new(behind);
        let books = Books {
            accounts,
            front,
            purses,
            made,
            stand,
        };
        Ok((books, passes))
    }
}

/// What stands behind the journal's lock at first.
fn begin_stand<N: BooksName, D: Disk>(book: JrnBook<D>, writer: Writer, day: Day) -> Stand<N, D>
    requires { IsStand D.Disk N.opening N.past N.table (record { book = book; writer = writer; day = day }) }
{
    Stand {
        book,
        writer,
        day,
        of: PhantomData,
    }
}

/// A copy of the accounts, the passes, and the purses behind their locks.
fn make<N: BooksName>(
    alloc: Global,
    a: &Accounts,
    loose: Loose,
    f: &Front,
    writer: &mut Writer,
    made: u32,
) -> Result<Made<N>, Memory>
    requires purses { loose.table ≡ N.table }
    requires table { f.now ≡ writer.old.table }
    requires none { writer.old.made ≡ 0 }
    ensures accounts { IfOk result (λ m. m.accounts ≡ a.now) }
    ensures passes { IfOk result (λ m. AreMade writer.old made m.passes.items) }
    ensures purses { IfOk result (λ m. m.purses ≡ length loose.purses) }
    ensures writer { IfOk result (λ m. writer.new ≡ record writer.old { made = made }) }
{
    Ok(Made {
        accounts: a.copy(alloc)?,
        passes: make_passes(alloc, f, writer, made)?,
        purses: loose.lock::<N>(alloc)?,
    })
}

/// So many passes of a writer that has made none.
fn make_passes(
    alloc: Global,
    f: &Front,
    writer: &mut Writer,
    made: u32,
) -> Result<Vec<Pass>, Memory>
    requires table { f.now ≡ writer.old.table }
    requires none { writer.old.made ≡ 0 }
    ensures passes { IfOk result (λ v. AreMade writer.old made v.items) }
    ensures writer { IfOk result (λ v. writer.new ≡ record writer.old { made = made }) }
{
    let mut passes = Vec::new(alloc);
    for _i in 0..made {
        let pass = writer.split(alloc, f)?;
        passes.push(pass)?;
    }
    Ok(passes)
}
