//! The end of a group.

ghost use Rattle.std.specs.Prelude.{◌≡◌, ◌⊎◌, ◌+◌, ◌^◌, ◌<◌, ◌≤◌, length, take, Some};
ghost use Rattle.corr_text.specs.Braces.{depth_after};
ghost use Rattle.fin_frame.specs.File.{left_open};

use corr_text::next_brace;

/// How many groups are open after a byte, within `depth` of them.
fn after(depth: u32, b: u8) -> u32
    requires some { 0 < depth }
    requires few { depth + 1 < 2 ^ 32 }
    ensures { result ≡ depth_after depth b }
{
    match b {
        b'{' => depth + 1,
        b'}' => depth - 1,
        _ => depth,
    }
}

/// How many bytes stand within `depth` groups, their end included, and how many groups are open after them.
pub(crate) fn within(bytes: &[u8], depth: u32) -> (usize, u32)
    requires some { 0 < depth }
    requires few { depth + length bytes.now < 2 ^ 32 }
    ensures most { result.0 ≤ length bytes.now }
    ensures open { left_open depth (take result.0 bytes.now) ≡ Some result.1 }
    ensures bound { result.1 ≤ depth + result.0 }
    ensures end { (result.1 ≡ 0) ⊎ (result.0 ≡ length bytes.now) }
{
    let mut left = depth;
    let mut len = 0;
    while left > 0 && len < bytes.len() {
        let at = next_brace(bytes, len);
        if at == bytes.len() {
            return (at, left);
        }
        left = after(left, bytes[at]);
        len = at + 1;
    }
    (len, left)
}
