//! Histories that rows give.

ghost use Rattle.std.specs.Prelude.{◌≡◌, ◌<◌, ◌++◌, ◌∷◌, [], IfOk, OnOk, length};
ghost use Rattle.corr_report.specs.Bookings.{AreInCentury};
ghost use Rattle.day_model.specs.Fit.{FitsAccounts};
ghost use Rattle.day_model.specs.Laws.{IsLatest};
ghost use Rattle.day_model.specs.Legal.{IsLegal};
ghost use Rattle.day_model.specs.Next.{entry_of};
ghost use Rattle.day_model.specs.Log.{most_entries};
ghost use Rattle.desk_rows.specs.Entries.{AreValued};

use crate::books::{TODAY, lines_in, pay};
use corr_text::Memory;
use day_model::{Accounts, Entry, History, Outcome, Pay, decide};
use row_words::answer::Answer;
use row_words::stop::Stop;
use row_words::words::Words;
use std::alloc::Global;

/// Enters a pay whose reference is new, with its outcome.
fn enter_new(a: &Accounts, h: &mut History, p: Pay) -> Result<(), Stop>
    requires legal { IsLegal a.now h.old.entries }
    requires fits { FitsAccounts a.now p }
    requires room { length h.old.entries < most_entries }
    ensures { OnOk result (h.new.entries ≡ h.old.entries ++ entry_of a.now h.old.entries p TODAY ∷ []) }
{
    let outcome = decide(a, h, &p);
    h.push(Entry {
        pay: p,
        day: TODAY,
        outcome,
    })?;
    Ok(())
}

/// Enters a pay with its outcome. `Unreadable`: it doesn't fit, its reference is entered, or there are 100,000 entries.
fn enter(a: &Accounts, h: &mut History, p: Pay) -> Result<(), Stop>
    requires legal { IsLegal a.now h.old.entries }
    requires latest { IsLatest h.old.entries TODAY }
    requires days { AreInCentury h.old.entries }
    requires values { AreValued h.old.entries }
    requires value { p.value ≡ TODAY }
    ensures legal { OnOk result (IsLegal a.now h.new.entries) }
    ensures latest { OnOk result (IsLatest h.new.entries TODAY) }
    ensures days { OnOk result (AreInCentury h.new.entries) }
    ensures values { OnOk result (AreValued h.new.entries) }
{
    if !a.fits(&p) || h.find(&p.mir).is_some() || h.len() == 100_000 {
        return Err(Stop::Unreadable);
    }
    enter_new(a, h, p)
}

/// The history of the pays of these lines, over accounts without changes.
#[tactic(auto, using(day_model::proofs::laws::Growth::legal_here))]
pub fn history_in(alloc: Global, a: &Accounts, lines: &[u8]) -> Result<History, Stop>
    requires { a.now.changes ≡ [] }
    ensures legal { IfOk result (λ h. IsLegal a.now h.entries) }
    ensures days { IfOk result (λ h. AreInCentury h.entries) }
    ensures values { IfOk result (λ h. AreValued h.entries) }
{
    let mut h = History::new(alloc);
    for cells in lines_in(alloc, lines)?.as_slice() {
        enter(a, &mut h, pay(alloc, &mut Words::new(cells.as_slice()))?)?;
    }
    Ok(h)
}

/// Adds what became of a pay.
pub fn put_outcome(outcome: &Outcome, answer: &mut Answer) -> Result<(), Memory> {
    match outcome {
        Outcome::Booked => answer.word(b"booked"),
        Outcome::Unfunded { leg, balance } => {
            answer.word(b"unfunded")?;
            answer.number(*leg as u64)?;
            answer.signed(*balance)
        }
    }
}
