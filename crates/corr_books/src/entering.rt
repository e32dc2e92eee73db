//! Pays, entered into the journal's book.

ghost use Rattle.std.specs.Prelude.{◌≡◌, ◌≤◌, [], All, length, vec_capacity};
ghost use Rattle.corr_ids.specs.Day.{InCentury};
ghost use Rattle.day_model.specs.Fit.{FitsAccounts};
ghost use Rattle.day_model.specs.Laws.{IsLatest};
ghost use Rattle.day_model.specs.Shape.{HasShape};
ghost use Rattle.jrn_book.specs.Batches.{most_batch};
ghost use Rattle.jrn_book.specs.Deciding.{HoldsAll};
ghost use Rattle.corr_books.specs.inner.Entering.{Enters, EntersAll};

use acct_locks::Held;
use corr_disk::Disk;
use corr_ids::Day;
use day_model::Pay;
use jrn_book::{CommitFault, Committed, JrnBook};

/// Commits a pay whose accounts are held, and passes on what books use of it.
pub(crate) fn enter<H: Held, D: Disk>(
    book: &mut JrnBook<D>,
    held: &mut H,
    p: &Pay,
    day: Day,
) -> Result<Committed, CommitFault>
    requires fits { FitsAccounts book.old.accounts p.now }
    requires shape { HasShape p.now }
    requires held { HoldsAll (H.held held.old) p.now.legs }
    requires table { book.old.table ≡ H.table held.old }
    requires century { InCentury day }
    requires latest { IsLatest book.old.history day }
    ensures enters { Enters D.Disk day 1 book.old book.new p.now result }
{
    book.commit(held, p, day)
}

/// Commits pays together, whose accounts are held, and passes on what books use of it.
pub(crate) fn enter_all<H: Held, D: Disk>(
    book: &mut JrnBook<D>,
    held: &mut H,
    pays: Vec<Pay>,
    day: Day,
    answers: &mut Vec<Result<Committed, CommitFault>>,
)
    requires few { length pays.items ≤ most_batch }
    requires fits { All (FitsAccounts book.old.accounts) pays.items }
    requires shape { All HasShape pays.items }
    requires held { All (λ p. HoldsAll (H.held held.old) p.legs) pays.items }
    requires table { book.old.table ≡ H.table held.old }
    requires century { InCentury day }
    requires latest { IsLatest book.old.history day }
    requires none { answers.old.items ≡ [] }
    requires room { length pays.items ≤ vec_capacity answers.old }
    ensures enters { EntersAll D.Disk day book.old book.new pays.items answers.new.items }
    ensures capacity { vec_capacity answers.new ≡ vec_capacity answers.old }
{
    // What always holds of a book: its history is legal.
    let _history = book.history();
    book.commit_all(held, pays, day, answers);
}
