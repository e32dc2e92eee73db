//! The sets of characters that field formats name (docs/messages.md, "Characters").

ghost use Rattle.std.specs.Prelude.{◌≡◌};
ghost use Rattle.std.specs.List.{list_all};
ghost use Rattle.corr_text.specs.Sets.{is_in, is_x_byte};

/// A set of characters: X, N (digits), A (capital letters), C (capital letters and digits).
#[derive(Clone, Copy, Debug, PartialEq, Eq)]
pub enum Set {
    X,
    N,
    A,
    C,
}

// 1 at each byte of set X, 0 at each other one.
const IN_X: [u8; 256] = [
    0, 0, 0, 0, 0, 0, 0, 0, 0, 0, 0, 0, 0, 0, 0, 0, 0, 0, 0, 0, 0, 0, 0, 0, 0, 0, 0, 0, 0, 0, 0, 0,
    1, 0, 0, 0, 0, 0, 0, 1, 1, 1, 0, 1, 1, 1, 1, 1, 1, 1, 1, 1, 1, 1, 1, 1, 1, 1, 1, 0, 0, 0, 0, 1,
    0, 1, 1, 1, 1, 1, 1, 1, 1, 1, 1, 1, 1, 1, 1, 1, 1, 1, 1, 1, 1, 1, 1, 1, 1, 1, 1, 0, 0, 0, 0, 0,
    0, 1, 1, 1, 1, 1, 1, 1, 1, 1, 1, 1, 1, 1, 1, 1, 1, 1, 1, 1, 1, 1, 1, 1, 1, 1, 1, 0, 0, 0, 0, 0,
    0, 0, 0, 0, 0, 0, 0, 0, 0, 0, 0, 0, 0, 0, 0, 0, 0, 0, 0, 0, 0, 0, 0, 0, 0, 0, 0, 0, 0, 0, 0, 0,
    0, 0, 0, 0, 0, 0, 0, 0, 0, 0, 0, 0, 0, 0, 0, 0, 0, 0, 0, 0, 0, 0, 0, 0, 0, 0, 0, 0, 0, 0, 0, 0,
    0, 0, 0, 0, 0, 0, 0, 0, 0, 0, 0, 0, 0, 0, 0, 0, 0, 0, 0, 0, 0, 0, 0, 0, 0, 0, 0, 0, 0, 0, 0, 0,
    0, 0, 0, 0, 0, 0, 0, 0, 0, 0, 0, 0, 0, 0, 0, 0, 0, 0, 0, 0, 0, 0, 0, 0, 0, 0, 0, 0, 0, 0, 0, 0,
];

/// Whether a byte is in set X: letters, digits, space and `/ - ? : ( ) . , ' +`.
pub fn is_x(b: u8) -> bool
    ensures { result ≡ is_x_byte b }
{
    IN_X[b as usize] == 1
}

/// Whether a byte is in this set.
pub fn is_set(set: Set, b: u8) -> bool
    ensures { result ≡ is_in set b }
{
    match set {
        Set::X => is_x(b),
        Set::N => b.is_ascii_digit(),
        Set::A => b.is_ascii_uppercase(),
        Set::C => b.is_ascii_uppercase() || b.is_ascii_digit(),
    }
}

/// As `is_all_of`. To the end in each case, so that some bytes are tested at once: for a text whose length is known.
#[inline(always)]
pub fn is_each_of(set: Set, text: &[u8]) -> bool
    ensures { result ≡ list_all (is_in set) text.now }
{
    let mut all = true;
    for b in text {
        all &= is_set(set, *b);
    }
    all
}

/// Whether each byte of a text is in this set.
pub fn is_all_of(set: Set, text: &[u8]) -> bool
    ensures { result ≡ list_all (is_in set) text.now }
{
    text.iter().all(|b| is_set(set, *b))
}
