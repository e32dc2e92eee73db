//! The rules of an MT202 COV: what its fields ask of one another.

ghost use Rattle.std.specs.Prelude.{◌≡◌};
ghost use Rattle.corr_text.specs.First.{first_of};
ghost use Rattle.mt202cov.specs.Rules.{all_rules, c68, c81, lacks_57};

use crate::codes::{C68, C81};
use crate::message::Mt202Cov;
use corr_text::{Code, Fault};

fn lacks_57(code: Code) -> Fault
    ensures { result ≡ lacks_57 code }
{
    Fault {
        code,
        tag: *b"57 ",
        nth: 0,
    }
}

// In sequence A 56a stands with 57a.
fn c81(m: &Mt202Cov) -> Option<Fault>
    ensures { result ≡ c81 m.now }
{
    if m.a56.is_some() && m.a57.is_none() {
        Some(lacks_57(C81))
    } else {
        None
    }
}

// In sequence B 56a stands with 57a.
fn c68(m: &Mt202Cov) -> Option<Fault>
    ensures { result ≡ c68 m.now }
{
    if m.b56.is_some() && m.b57.is_none() {
        Some(lacks_57(C68))
    } else {
        None
    }
}

/// The first rule that a cover breaks, none where it breaks none.
pub fn first_rule(m: &Mt202Cov) -> Option<Fault>
    ensures { result ≡ first_of (all_rules m.now) }
{
    match c81(m) {
        Some(fault) => Some(fault),
        None => c68(m),
    }
}
