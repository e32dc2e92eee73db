//! Groups: a `{` up to its matching `}`.

ghost use Rattle.std.specs.Prelude.{◌≡◌, ◌≢◌, ◌<◌, ◌≤◌, ◌+◌, ◌-◌, ◌^◌, [], get_or, length, option_map, true, false};
ghost use Rattle.std.specs.List.{list_any, slice_range};
ghost use Rattle.corr_text.specs.Braces.{depth_after as depth_of, is_brace};
ghost use Rattle.fin_blocks.specs.inner.Groups.{IsCut};

use corr_text::{has_brace, next_brace};

/// Bytes, their next group, if there is one and it is closed, and what stands after it.
#[derive(Clone, Copy, Debug)]
pub struct Piece<'a> {
    pub from: &'a [u8],
    pub group: Option<&'a [u8]>,
    pub rest: &'a [u8],
}

fn depth_after(depth: usize, b: u8) -> usize
    requires { depth + 1 < 2 ^ 64 }
    ensures { result ≡ depth_of depth b }
{
    match b {
        b'{' => depth + 1,
        b'}' => depth.saturating_sub(1),
        _ => depth,
    }
}

/// Cuts bytes after their next group. One that is never closed is none, with nothing after it.
pub fn next_group(bytes: &[u8]) -> Piece<'_>
    ensures from { result.from.now ≡ bytes.now }
    ensures cut { IsCut bytes.now (option_map (λ b. b.now) result.group) result.rest.now }
    ensures shorter { bytes.now ≢ [] → length result.rest.now < length bytes.now }
{
    let mut depth = 0;
    let mut at = 0;
    while at < bytes.len() {
        depth = depth_after(depth, bytes[at]);
        if depth == 0 {
            return Piece {
                from: bytes,
                group: Some(&bytes[..at + 1]),
                rest: &bytes[at + 1..],
            };
        }
        at = next_brace(bytes, at + 1);
    }
    Piece {
        from: bytes,
        group: None,
        rest: &[],
    }
}

/// Whether so many bytes are in front that a `{` begins and a `}` ends, without a brace between them.
#[inline(always)]
fn is_plain_to(bytes: &[u8], len: usize) -> bool
    requires { 2 ≤ len }
    ensures { result ≡ true → (len ≤ length bytes.now) × (get_or bytes.now 0 0 ≡ 123) × (get_or bytes.now (len - 1) 0 ≡ 125)
        × (list_any is_brace (slice_range bytes.now 1 (len - 1)) ≡ false) }
{
    len <= bytes.len()
        && bytes[0] == b'{'
        && bytes[len - 1] == b'}'
        && !has_brace(&bytes[1..len - 1])
}

/// As `next_group`, where that group mostly has so many bytes.
#[inline(always)]
pub fn next_group_of(bytes: &[u8], mostly: usize) -> Piece<'_>
    requires two { 2 ≤ mostly }
    ensures from { result.from.now ≡ bytes.now }
    ensures cut { IsCut bytes.now (option_map (λ b. b.now) result.group) result.rest.now }
{
    if is_plain_to(bytes, mostly) {
        return Piece {
            from: bytes,
            group: Some(&bytes[..mostly]),
            rest: &bytes[mostly..],
        };
    }
    next_group(bytes)
}
