//! The rules of the service levels: correspondents and the payee beside 23B.

ghost use Rattle.std.specs.Prelude.{◌≡◌};
ghost use Rattle.mt103_rules.specs.Rules.{e03, e04, e05, e07, e10};

use crate::broken::broken;
use crate::codes::{E03, E04, E05, E07, E10};
use crate::operation::has_level;
use crate::parties::{has_account, is_bare_b, is_d, is_not_a};
use corr_text::Fault;
use mt103::Mt103;

/// A service level has no 53D.
#[tactic(auto, unfolding(crate::specs::Rules::e03))]
pub fn e03(m: &Mt103) -> Option<Fault>
    ensures { result ≡ e03 m.now }
{
    broken(has_level(m) && is_d(&m.p53), E03, *b"53 ", 1)
}

/// A service level has no 53B without a party line.
#[tactic(auto, unfolding(crate::specs::Rules::e04))]
pub fn e04(m: &Mt103) -> Option<Fault>
    ensures { result ≡ e04 m.now }
{
    broken(has_level(m) && is_bare_b(&m.p53), E04, *b"53 ", 1)
}

/// A service level has no 54a of another option than A.
#[tactic(auto, unfolding(crate::specs::Rules::e05))]
pub fn e05(m: &Mt103) -> Option<Fault>
    ensures { result ≡ e05 m.now }
{
    broken(has_level(m) && is_not_a(&m.p54), E05, *b"54 ", 1)
}

/// A service level has no 55a of another option than A.
#[tactic(auto, unfolding(crate::specs::Rules::e07))]
pub fn e07(m: &Mt103) -> Option<Fault>
    ensures { result ≡ e07 m.now }
{
    broken(has_level(m) && is_not_a(&m.p55), E07, *b"55 ", 1)
}

/// A service level has 59a with an account.
#[tactic(auto, unfolding(crate::specs::Rules::e10))]
pub fn e10(m: &Mt103) -> Option<Fault>
    ensures { result ≡ e10 m.now }
{
    broken(has_level(m) && !has_account(&m.payee), E10, *b"59 ", 1)
}
