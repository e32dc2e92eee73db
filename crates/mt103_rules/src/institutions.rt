//! The rules on institutions: 55a, 56a and 57a beside the fields that they stand with.

ghost use Rattle.std.specs.Prelude.{◌≡◌};
ghost use Rattle.mt103_rules.specs.Rules.{c81, e06, e09, e16, e17};

use crate::broken::broken;
use crate::codes::{C81, E06, E09, E16, E17};
use crate::operation::{has_level, is_op, is_standard};
use crate::parties::{is_b, is_bare_d, is_d, is_uncleared_c};
use corr_text::Fault;
use mt103::Mt103;

/// 55a stands with both 53a and 54a.
#[tactic(auto, unfolding(crate::specs::Rules::e06))]
pub fn e06(m: &Mt103) -> Option<Fault>
    ensures { result ≡ e06 m.now }
{
    let lacks_one = m.p53.is_none() || m.p54.is_none();
    broken(m.p55.is_some() && lacks_one, E06, *b"55 ", 1)
}

/// 56a stands with 57a.
#[tactic(auto, unfolding(crate::specs::Rules::c81))]
pub fn c81(m: &Mt103) -> Option<Fault>
    ensures { result ≡ c81 m.now }
{
    broken(m.p56.is_some() && m.p57.is_none(), C81, *b"57 ", 0)
}

/// SPRI stands without 56a.
#[tactic(auto, unfolding(crate::specs::Rules::e16))]
pub fn e16(m: &Mt103) -> Option<Fault>
    ensures { result ≡ e16 m.now }
{
    broken(is_op(m, b"SPRI") && m.p56.is_some(), E16, *b"56 ", 1)
}

/// SSTD and SPAY have no 56D, and no 56C without a clearing code.
#[tactic(auto, unfolding(crate::specs::Rules::e17))]
pub fn e17(m: &Mt103) -> Option<Fault>
    ensures { result ≡ e17 m.now }
{
    let is_vague = is_d(&m.p56) || is_uncleared_c(&m.p56);
    broken(is_standard(m) && is_vague, E17, *b"56 ", 1)
}

/// A service level has no 57B, and no 57D without a party line.
#[tactic(auto, unfolding(crate::specs::Rules::e09))]
pub fn e09(m: &Mt103) -> Option<Fault>
    ensures { result ≡ e09 m.now }
{
    let is_vague = is_b(&m.p57) || is_bare_d(&m.p57);
    broken(has_level(m) && is_vague, E09, *b"57 ", 1)
}
