//! Addresses of logical terminals.

ghost use Rattle.std.specs.Prelude.{◌≡◌, IsTrue, IfSome, length};
ghost use Rattle.corr_ids.specs.Bic.{IsBic};
ghost use Rattle.corr_ids.specs.Address.{IsLt, address_of, bank_of, is_lt, lt_of};

use corr_text::{Set, is_each_of};

/// The address of a logical terminal: a BIC with the terminal's letter after its first eight characters.
#[derive(Clone, Copy, Debug, PartialEq, Eq)]
pub struct LtAddress {
    pub head: [u8; 8],
    pub lt: u8,
    pub branch: [u8; 3],
}

/// Whether bytes spell an address.
#[tactic(auto, unfolding(crate::specs::Address::is_lt))]
pub fn has_lt_form(b: &[u8]) -> bool
    ensures value { result ≡ is_lt b.now }
    ensures long { IsTrue result → length b.now ≡ 12 }
{
    b.len() == 12 && is_each_of(Set::A, &b[..6]) && is_each_of(Set::C, &b[6..])
}

/// The parts of twelve bytes.
pub fn address(b: &[u8]) -> LtAddress
    requires { length b.now ≡ 12 }
    ensures { result ≡ address_of b.now }
{
    let mut head = [0; 8];
    head.copy_from_slice(&b[..8]);
    let mut branch = [0; 3];
    branch.copy_from_slice(&b[9..]);
    LtAddress {
        head,
        lt: b[8],
        branch,
    }
}

/// The address that these bytes spell, `4!a2!a2!c`, the terminal (one capital letter or digit), `3!c`.
///
/// `ALPHDEFFAXXX` is terminal `A` of the bank `ALPHDEFF`; `ALPHDEFFXXX` spells none.
#[inline(always)]
pub fn read_lt(b: &[u8]) -> Option<LtAddress>
    ensures value { result ≡ lt_of b.now }
    ensures form { IfSome result IsLt }
    ensures bank { IfSome result (λ a. IsBic (bank_of a)) }
{
    if !has_lt_form(b) {
        return None;
    }
    Some(address(b))
}
