//! What the forms of blocks share.

ghost use Rattle.std.specs.Prelude.{◌≡◌, ◌==◌, ◌&&◌, ◌<◌, ◌≤◌, IsTrue, option_map, IfSome, length, Some, None};
ghost use Rattle.corr_text.specs.Digits.{number_of};
ghost use Rattle.fin_blocks.specs.Forms.{between as between_of, inside as inside_of, is_plain as is_plain_of, is_tagged as is_tagged_of, tagged_of};

use corr_text::digits;

/// Whether no byte is a brace.
pub fn is_plain(b: &[u8]) -> bool
    ensures { result ≡ is_plain_of b.now }
{
    b.iter().all(|c| *c != b'{' && *c != b'}')
}

/// What stands between a start and an end; none where a group doesn't begin and end so.
#[tactic(auto, unfolding(crate::specs::Forms::between))]
pub fn between<'a>(start: &[u8], end: &[u8], group: &'a [u8]) -> Option<&'a [u8]>
    ensures { option_map (λ b. b.now) result ≡ between_of start.now end.now group.now }
{
    group.strip_prefix(start)?.strip_suffix(end)
}

/// What a block holds that begins so; none of another group.
pub fn inside<'a>(start: &[u8], group: Option<&'a [u8]>) -> Option<&'a [u8]>
    requires { length start.now < 8 }
    ensures { option_map (λ b. b.now) result ≡ inside_of start.now (option_map (λ b. b.now) group.entry) }
{
    between(start, b"}", group?)
}

/// A piece of block 3 or block 5: its three bytes before the colon, and its text.
#[derive(Clone, Copy, Debug)]
pub struct Tagged<'a> {
    pub tag: &'a [u8],
    pub text: &'a [u8],
}

#[tactic(auto, unfolding(crate::specs::Forms::is_tagged))]
fn is_tagged(b: &[u8]) -> bool
    ensures value { result ≡ is_tagged_of b.now }
    ensures long { IsTrue result → 4 ≤ length b.now }
{
    b.len() >= 4 && b[3] == b':' && is_plain(&b[4..])
}

/// The piece that a group is; none of a group of another form.
#[tactic(auto, unfolding(crate::specs::Forms::tagged_of))]
pub fn read_tagged(group: Option<&[u8]>) -> Option<Tagged<'_>>
    ensures value { option_map (λ t. (t.tag.now, t.text.now)) result ≡ tagged_of (option_map (λ b. b.now) group.entry) }
    ensures three { IfSome result (λ t. length t.tag.now ≡ 3) }
{
    let b = inside(b"{", group)?;
    if !is_tagged(b) {
        return None;
    }
    Some(Tagged {
        tag: &b[..3],
        text: &b[4..],
    })
}

/// The number of three digits, none where one of the bytes is no digit.
#[tactic(auto, using(crate::proofs::Numbers::three))]
pub fn three_digits(b: &[u8]) -> Option<u16>
    requires { length b.now ≡ 3 }
    ensures value { result ≡ number_of b.now }
    ensures bound { IfSome result (λ n. n < 1000) }
{
    let n = digits(b)?;
    Some(n as u16)
}
