//! Counts of calls and of faults.

ghost use Rattle.std.specs.Prelude.{◌≡◌};
ghost use Rattle.corr_text.specs.Faults.{HasCause, Rose};
ghost use Rattle.corr_io.specs.InMemory.{is_next_failing};

use corr_text::{Failed, List};

/// Raises a count of faults; the failure that it tells of.
pub fn count_fault(faults: &mut u64) -> Failed
    ensures { Rose faults.old faults.new }
{
    *faults = faults.saturating_add(1);
    Failed
}

/// An answer, with its failure counted where it is one.
pub fn counted<T: Drop>(answer: Result<T, Failed>, faults: &mut u64) -> Result<T, Failed>
    ensures same { result ≡ answer }
    ensures cause { HasCause faults.old faults.new result }
{
    match answer {
        Ok(value) => Ok(value),
        Err(Failed) => Err(count_fault(faults)),
    }
}

/// Whether the call after `calls` calls is one that is to fail.
pub(crate) fn is_ordered(fails: &List<u64>, calls: u64) -> bool
    ensures { result ≡ is_next_failing fails.now calls }
{
    fails
        .as_slice()
        .iter()
        .any(|n| *n > calls && *n - calls == 1)
}
