//! Message input references.

ghost use Rattle.std.specs.Prelude.{◌≡◌, IsTrue, IfSome, length};
ghost use Rattle.corr_ids.specs.Bic.{IsBic};
ghost use Rattle.corr_ids.specs.Address.{IsLt, bank_of};
ghost use Rattle.corr_ids.specs.Mir.{IsMir, is_mir, mir_of, sender_of};

use crate::address::{LtAddress, address, has_lt_form};
use crate::day::day_from_yymmdd;
use corr_text::all_digits;

/// A message input reference (MIR), 28 characters, as block 2 of a received message has it: date, sender's LT address, session
/// and sequence number.
#[derive(Clone, Copy, Debug, PartialEq, Eq)]
pub struct Mir(pub [u8; 28]);

#[tactic(auto, unfolding(crate::specs::Mir::is_mir))]
fn has_mir_form(b: &[u8]) -> bool
    ensures value { result ≡ is_mir b.now }
    ensures long { IsTrue result → length b.now ≡ 28 }
{
    b.len() == 28
        && day_from_yymmdd(&b[..6]).is_some()
        && has_lt_form(&b[6..18])
        && all_digits(&b[18..])
}

/// The reference that these bytes spell: a valid date `6!n`, an LT address, a session `4!n`, a sequence number `6!n`; none where
/// they are anything else.
///
/// `240603ALPHDEFFAXXX0001000001` was sent on 3 June 2024 by terminal `A` of `ALPHDEFF`, in its session 1 as number 1.
#[inline(always)]
pub fn read_mir(b: &[u8]) -> Option<Mir>
    ensures value { result ≡ mir_of b.now }
    ensures form { IfSome result IsMir }
    ensures bytes { IfSome result (λ m. m.0 ≡ b.now) }
    ensures sender { IfSome result (λ m. IsLt (sender_of m)) }
{
    if !has_mir_form(b) {
        return None;
    }
    let mut mir = [0; 28];
    mir.copy_from_slice(b);
    Some(Mir(mir))
}

impl Mir {
    /// The sender's address, the second part: that of `240603ALPHDEFFAXXX0001000001` is `ALPHDEFFAXXX`.
    pub fn sender(&self) -> LtAddress
        ensures value { result ≡ sender_of self.now }
        ensures form { IsMir self.now → IsLt result }
        ensures bank { IsMir self.now → IsBic (bank_of result) }
    {
        address(&self.0[6..18])
    }
}
