//! What stands after a place of a text.

ghost use Rattle.std.specs.Prelude.{◌≡◌, ◌≤◌, drop, length};

/// What stands after the first `count` bytes.
pub fn after(text: &[u8], count: usize) -> &[u8]
    requires { count ≤ length text.now }
    ensures { result.now ≡ drop count text.now }
{
    &text[count..]
}
