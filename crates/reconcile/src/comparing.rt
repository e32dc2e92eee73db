//! A statement of another bank against our books.

ghost use Rattle.std.specs.Prelude.{◌≡◌, IfOk};
ghost use Rattle.day_model.specs.Chart.{IsListed};
ghost use Rattle.day_model.specs.Legal.{IsLegal};
ghost use Rattle.statement.specs.Seen.{SeenBook};
ghost use Rattle.statement.specs.Valid.{AreShaped};
ghost use Rattle.reconcile.specs.Bounds.{IsReceived};
ghost use Rattle.reconcile.specs.inner.Bounds.{Compares};
ghost use Rattle.reconcile.specs.Comparison.{AddsUp, StandOnce, TakesFirst, compared_of};

use crate::pairing::{Paired, pair_up, unpaired};
use corr_text::{List, Memory};
use day_model::{Accounts, AcctNo, History};
use mt950::Statement;
use statement::HistoryIndex;
use std::alloc::Global;

/// What a statement of another bank and our entries of its day have in common, and what they don't. A place stands for an entry, a
/// number, from 1, for a line.
#[derive(Debug, Drop)]
pub struct Compared {
    /// The place of an entry and the number of the line that says the same, in the order of the lines.
    pub pairs: List<(u32, u32)>,
    /// The entries that no line says, in the order of the journal.
    pub ours: List<u32>,
    /// The lines that no entry says.
    pub theirs: List<u32>,
    /// Our balance before the day and the statement's opening together, in minor units. Where both books agree they cancel.
    pub opening_gap: i64,
    /// The same of our balance after the day and the statement's closing.
    pub closing_gap: i64,
}

/// What `compare` gives, from an index of the history, under its conditions. Of the history it looks at the
/// account's entries alone.
pub fn compare_with(
    alloc: Global,
    ix: &HistoryIndex,
    n: AcctNo,
    s: &Statement,
) -> Result<Compared, Memory>
    requires { (book : SeenBook) × Compares ix.now n.0 s.now book }
    ensures { IfOk result (λ compared. (book : SeenBook) → Compares ix.now n.0 s.now book → compared ≡ compared_of book.chart book.entries n.0 s.now) }
{
    let entries = ix.booked_on(n, s.day);
    let Paired { pairs, theirs } = pair_up(alloc, entries, s.lines.as_slice())?;
    let ours = unpaired(alloc, entries, pairs.as_slice())?;
    Ok(Compared {
        pairs,
        ours,
        theirs,
        opening_gap: ix.balance_before(n, s.day) + s.opening,
        closing_gap: ix.balance_up_to(n, s.day) + s.closing,
    })
}

/// A statement that another bank sent of an account of ours, against our entries of its day (docs/operating.md, "Reconciliation").
///
/// Our entries are the booked ones of the statement's day with a leg on the account, in the order of the journal. Each line in its
/// order takes the first of them that no line before it took, and that adds to our balance what the line takes from it, with the
/// line's value date, quoting the line's reference (`first`). So each entry and each line stands in just one of the three lists
/// (`once`). The gaps are our balance before the day with the opening of the statement, and our balance after it with the closing;
/// they differ by what is in no pair (`adds`).
///
/// The history is legal for the accounts, of which `n` is one, and its pays can be written down; the statement is one that
/// `join_pages` gives of pages that `read_mt950` gives. It should have the account's currency and decimals: nothing here reads
/// them. Out of memory is the only error; a statement of 2^32 lines or more is told so too.
pub fn compare(
    alloc: Global,
    a: &Accounts,
    h: &History,
    n: AcctNo,
    s: &Statement,
) -> Result<Compared, Memory>
    requires legal { IsLegal a.now h.now.entries }
    requires shaped { AreShaped h.now.entries }
    requires listed { IsListed a.now n.0 }
    requires received { IsReceived s.now }
    ensures value { IfOk result (λ compared. compared ≡ compared_of a.now h.now.entries n.0 s.now) }
    ensures first { IfOk result (TakesFirst a.now n.0 h.now.entries s.now) }
    ensures once { IfOk result (StandOnce a.now n.0 h.now.entries s.now) }
    ensures adds { IfOk result (AddsUp a.now n.0 h.now.entries s.now) }
{
    let index = HistoryIndex::new(alloc, a, h)?;
    compare_with(alloc, &index, n, s)
}
