//! When two pays are the same.

ghost use Rattle.std.specs.Prelude.{◌≡◌};
ghost use Rattle.day_model.specs.Same.{is_mt, is_same_pay, is_same_uetr};

use crate::pay::{Mt, Pay};
use corr_ids::Uetr;

fn is_same_type(m: Mt, n: Mt) -> bool
    ensures { result ≡ is_mt m n }
{
    m == n
}

fn is_same_uetr(u: Option<Uetr>, v: Option<Uetr>) -> bool
    ensures { result ≡ is_same_uetr u v }
{
    match (u, v) {
        (Some(u), Some(v)) => u.0 == v.0,
        (None, None) => true,
        _ => false,
    }
}

impl Pay {
    /// Whether the other pay is the same: its reference, type, UETR and text agree.
    pub fn is_same(&self, other: &Pay) -> bool
        ensures { result ≡ is_same_pay self.now other.now }
    {
        self.mir == other.mir
            && is_same_type(self.mt, other.mt)
            && is_same_uetr(self.uetr, other.uetr)
            && self.text.bytes() == other.text.bytes()
    }
}
