//! Answers that tell of a fault.

ghost use Rattle.std.specs.Prelude.{◌≡◌, ◌+◌, ◌≤◌, ◌++◌, ◌∷◌, List, Err, length, replicate, true, vec_capacity};
ghost use Rattle.std.specs.List.{list_any, position_from};
ghost use Rattle.jrn_book.specs.Answers.{Answer};
ghost use Rattle.jrn_book.specs.Batches.{is_new};
ghost use Rattle.jrn_book.specs.inner.Drafting.{IsFirstNew};

use crate::answer::{CommitFault, Committed};

/// Adds this fault as the answer to so many pays, for which there is room.
pub(crate) fn answer_each(
    answers: &mut Vec<Result<Committed, CommitFault>>,
    count: usize,
    fault: CommitFault,
)
    requires room { length answers.old.items + count ≤ vec_capacity answers.old }
    ensures each { answers.new.items ≡ answers.old.items ++ replicate count (Err fault) }
    ensures capacity { vec_capacity answers.new ≡ vec_capacity answers.old }
{
    for _at in 0..count {
        answers.push_reserved(Err(fault));
    }
}

fn says_new(answer: &Result<Committed, CommitFault>) -> bool
    ensures { result ≡ is_new answer.now }
{
    matches!(answer, Ok(Committed::New { .. }))
}

// The place, from 0, of the first answer that says that its pay was entered.
fn first_new(answers: &[Result<Committed, CommitFault>]) -> Option<usize>
    ensures { result ≡ position_from is_new 0 answers.now }
{
    answers.iter().position(|answer| says_new(answer))
}

/// Takes back what a batch was told whose entries didn't come to the disk: the first new entry is answered by the counts of the
/// disk's faults before and after, and each pay behind it by those at the opening and now.
pub(crate) fn take_back(
    answers: &mut Vec<Result<Committed, CommitFault>>,
    before: u64,
    after: u64,
    at_open: u64,
)
    requires some { list_any is_new answers.old.items ≡ true }
    ensures taken { (front : List Answer) × (rest : List Answer) × IsFirstNew answers.old.items front rest
        × (answers.new.items ≡ front ++ Err (CommitFault.DiskFault before after) ∷ replicate (length rest) (Err (CommitFault.Broken at_open after))) }
    ensures capacity { vec_capacity answers.new ≡ vec_capacity answers.old }
{
    let count = answers.len();
    let first = first_new(answers.as_slice()).unwrap();
    answers.truncate(first);
    answers.push_reserved(Err(CommitFault::DiskFault { before, after }));
    answer_each(
        answers,
        count - first - 1,
        CommitFault::Broken {
            at_open,
            now: after,
        },
    );
}
