//! Rules that are broken.

ghost use Rattle.std.specs.Prelude.{◌≡◌};
ghost use Rattle.mt103_rules.specs.Rules.{broken};

use corr_text::{Code, Fault};

/// The fault of a rule that is broken where `here` holds: its code, the tag that it is told of, and which of that tag; none where
/// it doesn't.
pub fn broken(here: bool, code: Code, tag: [u8; 3], nth: u16) -> Option<Fault>
    ensures { result ≡ broken here code tag nth }
{
    if here {
        Some(Fault { code, tag, nth })
    } else {
        None
    }
}
