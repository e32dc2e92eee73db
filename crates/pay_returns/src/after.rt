//! Texts by their pieces.

ghost use Rattle.std.specs.Prelude.{◌≡◌, ◌<◌, Some, length, option_map, slice_get};
ghost use Rattle.std.specs.List.{flat_map};
ghost use Rattle.std.specs.Str.{bytes_eq};
ghost use Rattle.pay_returns.specs.inner.Texts.{after};

/// What stands in a text after a beginning; none of a text that begins otherwise.
#[tactic(auto, unfolding(crate::specs::inner::Texts::after))]
fn after<'a>(text: &'a [u8], front: &[u8]) -> Option<&'a [u8]>
    ensures { option_map (λ rest. rest.now) result ≡ after front.now text.now }
{
    text.strip_prefix(front)
}

fn piece_at<'a>(pieces: &[&'a [u8]], k: usize) -> &'a [u8]
    requires { k < length pieces.now }
    ensures { slice_get pieces.now k ≡ Some result }
{
    pieces[k]
}

/// Whether a text is exactly these pieces, one after another. Takes no memory.
#[tactic(auto, using(crate::proofs::Pieces::piece_by_piece))]
pub fn is_made_of(text: &[u8], pieces: &[&[u8]]) -> bool
    ensures { result ≡ bytes_eq text.now (flat_map (λ piece. piece.now) pieces.now) }
{
    let mut rest = text;
    for k in 0..pieces.len() {
        match after(rest, piece_at(pieces, k)) {
            Some(more) => rest = more,
            None => return false,
        }
    }
    rest.is_empty()
}
