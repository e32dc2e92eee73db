//! The rules on who bears the charges: 71F and 71G beside 71A.

ghost use Rattle.std.specs.Prelude.{◌≡◌};
ghost use Rattle.mt103_rules.specs.Rules.{d50, e13, e15_given, e15_taken};

use crate::broken::broken;
use crate::codes::{D50, E13, E15};
use crate::operation::is_charge;
use corr_text::Fault;
use mt103::Mt103;

/// OUR stands without 71F.
#[tactic(auto, unfolding(crate::specs::Rules::e13))]
pub fn e13(m: &Mt103) -> Option<Fault>
    ensures { result ≡ e13 m.now }
{
    let is_taken = !m.taken.as_slice().is_empty();
    broken(is_charge(m, b"OUR") && is_taken, E13, *b"71F", 1)
}

/// SHA stands without 71G.
#[tactic(auto, unfolding(crate::specs::Rules::d50))]
pub fn d50(m: &Mt103) -> Option<Fault>
    ensures { result ≡ d50 m.now }
{
    broken(is_charge(m, b"SHA") && m.given.is_some(), D50, *b"71G", 1)
}

/// BEN stands with 71F.
#[tactic(auto, unfolding(crate::specs::Rules::e15_taken))]
pub fn e15_taken(m: &Mt103) -> Option<Fault>
    ensures { result ≡ e15_taken m.now }
{
    let is_taken = !m.taken.as_slice().is_empty();
    broken(is_charge(m, b"BEN") && !is_taken, E15, *b"71F", 0)
}

/// BEN stands without 71G.
#[tactic(auto, unfolding(crate::specs::Rules::e15_given))]
pub fn e15_given(m: &Mt103) -> Option<Fault>
    ensures { result ≡ e15_given m.now }
{
    broken(is_charge(m, b"BEN") && m.given.is_some(), E15, *b"71G", 1)
}
