//! Braces in a text.

ghost use Rattle.std.specs.Prelude.{◌≡◌, ◌<◌, ◌≤◌, ℕ, length, slice_index, true, false};
ghost use Rattle.std.specs.List.{list_any};
ghost use Rattle.corr_text.specs.Braces.{is_brace};
ghost use Rattle.corr_text.specs.inner.Braces.{one_if};

/// How many bytes are tested at once where braces are far, and where one is near.
const FAR: usize = 32;

const NEAR: usize = 8;

#[inline(always)]
fn is_brace(b: u8) -> bool
    ensures { result ≡ is_brace b }
{
    b == b'{' || b == b'}'
}

/// 1 for a brace, 0 for every other byte. By both comparisons in each case, so that some bytes are tested at once.
#[inline(always)]
fn as_one(b: u8) -> u8
    ensures { result ≡ one_if (is_brace b) }
{
    (b == b'{') as u8 | (b == b'}') as u8
}

/// Whether a brace is among the bytes of a group. Goes to its end in each case.
#[inline(always)]
pub fn has_brace(group: &[u8]) -> bool
    ensures { result ≡ list_any is_brace group.now }
{
    let mut found = 0u8;
    for b in group {
        found |= as_one(*b);
    }
    found != 0
}

/// Goes from a place on past groups of `len` bytes without a brace.
#[inline(always)]
fn after_groups(text: &[u8], from: usize, len: usize) -> usize
    requires some { 0 < len }
    requires inside { from ≤ length text.now }
    ensures least { from ≤ result }
    ensures most { result ≤ length text.now }
    ensures none { (k : ℕ) → from ≤ k → k < result → is_brace (slice_index text.now k) ≡ false }
{
    let mut at = from;
    while len <= text.len() - at {
        if has_brace(&text[at..at + len]) {
            return at;
        }
        at += len;
    }
    at
}

/// As `next_brace`, byte after byte.
#[inline(always)]
fn next_by_one(text: &[u8], from: usize) -> usize
    requires { from ≤ length text.now }
    ensures least { from ≤ result }
    ensures most { result ≤ length text.now }
    ensures first { (k : ℕ) → from ≤ k → k < result → is_brace (slice_index text.now k) ≡ false }
    ensures found { result < length text.now → is_brace (slice_index text.now result) ≡ true }
{
    let mut at = from;
    while at < text.len() {
        if is_brace(text[at]) {
            return at;
        }
        at += 1;
    }
    at
}

/// The place, from 0, of the first brace from a place on, which is the text's length at most; that length where there is none.
#[inline(never)]
pub fn next_brace(text: &[u8], from: usize) -> usize
    requires { from ≤ length text.now }
    ensures least { from ≤ result }
    ensures most { result ≤ length text.now }
    ensures first { (k : ℕ) → from ≤ k → k < result → is_brace (slice_index text.now k) ≡ false }
    ensures found { result < length text.now → is_brace (slice_index text.now result) ≡ true }
{
    let far = after_groups(text, from, FAR);
    next_by_one(text, after_groups(text, far, NEAR))
}
