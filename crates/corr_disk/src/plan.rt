//! Which calls of a disk in memory are to fail.

ghost use Rattle.std.specs.Prelude.{◌≡◌, ◌+◌, ◌==◌, ℕ};
ghost use Rattle.corr_disk.specs.Calls.{fails_at};

/// Which of the calls to come are to fail.
#[derive(Clone, Copy, Debug, Drop)]
pub(crate) enum Plan {
    /// None.
    Never,
    /// Each after so many.
    After(u64),
    /// The one after so many.
    Once(u64),
}

impl Plan {
    /// The call with this number fails, the first with number 1. There is none with number 0.
    pub(crate) fn one(number: u64) -> Plan
        ensures { (k : ℕ) → fails_at result k ≡ (k + 1 == number) }
    {
        if number == 0 {
            return Plan::Never;
        }
        Plan::Once(number - 1)
    }

    /// Counts a call; whether it is to fail.
    pub(crate) fn fails_next(&mut self) -> bool
        ensures answer { result ≡ fails_at self.old 0 }
        ensures next { (k : ℕ) → fails_at self.new k ≡ fails_at self.old (1 + k) }
    {
        match *self {
            Plan::Never => false,
            Plan::After(0) => true,
            Plan::After(calls) => {
                *self = Plan::After(calls - 1);
                false
            }
            Plan::Once(0) => {
                *self = Plan::Never;
                true
            }
            Plan::Once(calls) => {
                *self = Plan::Once(calls - 1);
                false
            }
        }
    }
}
