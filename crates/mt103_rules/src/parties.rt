//! What the rules ask of parties.

ghost use Rattle.std.specs.Prelude.{◌≡◌};
ghost use Rattle.mt103_rules.specs.Parties.{has_account, has_clearing_code, is_a, is_b, is_bare_b, is_bare_d, is_d, is_not_a, is_uncleared_c};

use fin_parties::Party;

fn is_a(party: &Option<Party>) -> bool
    ensures { result ≡ is_a party.now }
{
    matches!(party, Some(Party::A { .. }))
}

/// Whether a party is there by another option than A.
pub fn is_not_a(party: &Option<Party>) -> bool
    ensures { result ≡ is_not_a party.now }
{
    party.is_some() && !is_a(party)
}

/// Whether a party is there by option B.
pub fn is_b(party: &Option<Party>) -> bool
    ensures { result ≡ is_b party.now }
{
    matches!(party, Some(Party::B { .. }))
}

/// Whether a party is there by option D.
pub fn is_d(party: &Option<Party>) -> bool
    ensures { result ≡ is_d party.now }
{
    matches!(party, Some(Party::D { .. }))
}

/// Whether a party is there by option B without a party line.
pub fn is_bare_b(party: &Option<Party>) -> bool
    ensures { result ≡ is_bare_b party.now }
{
    match party {
        Some(Party::B { line, .. }) => line.is_none(),
        _ => false,
    }
}

/// Whether a party is there by option D without a party line.
pub fn is_bare_d(party: &Option<Party>) -> bool
    ensures { result ≡ is_bare_d party.now }
{
    match party {
        Some(Party::D { line, .. }) => line.is_none(),
        _ => false,
    }
}

fn has_clearing_code(line: &[u8]) -> bool
    ensures { result ≡ has_clearing_code line.now }
{
    matches!(line, [b'/', b'/', ..])
}

/// Whether a party is there by option C without a clearing code.
pub fn is_uncleared_c(party: &Option<Party>) -> bool
    ensures { result ≡ is_uncleared_c party.now }
{
    match party {
        Some(Party::C { line }) => !has_clearing_code(line.bytes()),
        _ => false,
    }
}

/// Whether a payee has an account.
pub fn has_account(payee: &Party) -> bool
    ensures { result ≡ has_account payee.now }
{
    match payee {
        Party::A { line, .. } | Party::F { line, .. } => line.is_some(),
        Party::K { account, .. } => account.is_some(),
        Party::B { .. } | Party::C { .. } | Party::D { .. } => false,
    }
}
