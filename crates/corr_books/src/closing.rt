//! Closing books.

ghost use Rattle.std.specs.Prelude.{◌≡◌, ◌≢◌, IfErr, IfOk, vec_len};
ghost use Rattle.jrn_book.specs.Journal.{IsJournal};
ghost use Rattle.corr_books.specs.Closing.{Closes, LeavesClosed, LeavesInTurn};
ghost use Rattle.corr_books.specs.Passes.{AllBelong};

use crate::books::Books;
use crate::naming::BooksName;
use crate::stand::Stand;
use crate::taking::take_all;
use corr_disk::Disk;
use day_model::{Accounts, History};
use front_word::{Front, Pass};

/// What is left when books are closed.
#[derive(Drop)]
pub struct Closed<D: Disk> {
    pub accounts: Accounts,
    pub history: History,
    pub disk: D,
}

/// The passes are not all that the books made: what was given, and how many they made.
#[derive(Drop)]
pub struct CloseFault<N: BooksName, D: Disk> {
    pub books: Books<N, D>,
    pub passes: Vec<Pass>,
    pub made: u32,
}

impl<N: BooksName, D: Disk> Books<N, D> {
    /// Takes all passes back, and closes the books. Takes no memory.
    ///
    /// These books made each pass. `CloseFault` comes exactly where the number of passes isn't that of all they made; the
    /// books stay open.
    pub fn close(self, passes: Vec<Pass>) -> Result<Closed<D>, CloseFault<N, D>>
        requires passes { AllBelong N.opening passes.items }

        // One history with all that the passes know, and accounts as they were opened.
        ensures closes { IfOk result (λ c. Closes N.opening c.history.entries (D.faults c.disk) passes.items) }
        ensures accounts { IfOk result (λ c. c.accounts ≡ N.opening.accounts) }

        // The history may be opened again from this disk.
        ensures journal { IfOk result (λ c. IsJournal c.accounts c.history.entries) }

        // A crash leaves this history, or, where the disk failed since the opening, it and the legal entries of one commit.
        ensures disk { IfOk result (λ c. LeavesClosed D.Disk N.opening c.history.entries c.disk) }
        ensures honest { IfOk result (λ c. D.honest c.disk ≡ N.opening.honest) }

        // So it was at each moment since the opening: with a front part of what was entered, or, after a failure, the legal entries
        // of one commit more.
        ensures any_moment { IfOk result (λ c. LeavesInTurn D.Disk N.opening N.past c.history.entries c.disk) }

        ensures all { IfOk result (λ _. vec_len passes ≡ N.opening.made) }
        ensures fault { IfErr result (λ f. (f.made ≡ N.opening.made) × (vec_len passes ≢ N.opening.made)) }
        ensures back { IfErr result (λ f. f.passes.items ≡ passes.items) }
    {
        if passes.len() != self.made as usize {
            let made = self.made;
            return Err(CloseFault {
                books: self,
                passes,
                made,
            });
        }
        Ok(self.close_all(passes))
    }

    /// Takes all passes back, and closes the books. Takes no memory.
    ///
    /// These books made each pass, and no others than these.
    pub fn close_all(self, passes: Vec<Pass>) -> Closed<D>
        requires passes { AllBelong N.opening passes.items }
        requires all { vec_len passes ≡ N.opening.made }

        // What `close` says where it answers.
        ensures closes { Closes N.opening result.history.entries (D.faults result.disk) passes.items }
        ensures accounts { result.accounts ≡ N.opening.accounts }
        ensures journal { IsJournal result.accounts result.history.entries }
        ensures disk { LeavesClosed D.Disk N.opening result.history.entries result.disk }
        ensures honest { D.honest result.disk ≡ N.opening.honest }
        ensures any_moment { LeavesInTurn D.Disk N.opening N.past result.history.entries result.disk }
    {
        let Books { front, stand, .. } = self;
        finish(stand.into_inner(), &front, passes)
    }
}

/// Takes the passes back into what stood behind the journal's lock, and gives the rest.
fn finish<N: BooksName, D: Disk>(stand: Stand<N, D>, f: &Front, passes: Vec<Pass>) -> Closed<D>
    requires front { f.now ≡ N.opening.word }
    requires passes { AllBelong N.opening passes.items }
    requires count { vec_len passes ≡ N.opening.made }
    ensures closes { Closes N.opening result.history.entries (D.faults result.disk) passes.items }
    ensures accounts { result.accounts ≡ N.opening.accounts }
    ensures journal { IsJournal result.accounts result.history.entries }
    ensures disk { LeavesClosed D.Disk N.opening result.history.entries result.disk }
    ensures honest { D.honest result.disk ≡ N.opening.honest }
    ensures any_moment { LeavesInTurn D.Disk N.opening N.past result.history.entries result.disk }
{
    let Stand {
        book,
        mut writer,
        day: _,
        of: _,
    } = stand;
    take_all(&mut writer, f, passes);
    let (accounts, history, disk) = book.into_parts();
    Closed {
        accounts,
        history,
        disk,
    }
}
