//! The operation of a transfer and who bears its charges: fields 23B and 71A.

ghost use Rattle.std.specs.Prelude.{◌≡◌};
ghost use Rattle.mt103_rules.specs.Rules.{has_level, is_charge, is_op, is_standard};

use mt103::Mt103;

/// Whether 23B is this code.
pub fn is_op(m: &Mt103, op: &[u8; 4]) -> bool
    ensures { result ≡ is_op m.now op.now }
{
    m.op == *op
}

/// Whether 71A is this code.
pub fn is_charge(m: &Mt103, charge: &[u8; 3]) -> bool
    ensures { result ≡ is_charge m.now charge.now }
{
    m.charge == *charge
}

/// Whether 23B is SSTD or SPAY.
pub fn is_standard(m: &Mt103) -> bool
    ensures { result ≡ is_standard m.now }
{
    is_op(m, b"SSTD") || is_op(m, b"SPAY")
}

/// Whether 23B names a service level: SPRI, SSTD or SPAY.
pub fn has_level(m: &Mt103) -> bool
    ensures { result ≡ has_level m.now }
{
    is_op(m, b"SPRI") || is_standard(m)
}
