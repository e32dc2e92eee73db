//! Unique end-to-end transaction references.

ghost use Rattle.std.specs.Prelude.{◌≡◌, ◌==◌, IsTrue, IfSome, length};
ghost use Rattle.std.specs.List.{list_all, zip};
ghost use Rattle.corr_ids.specs.Uetr.{IsUetr, fits_mark, is_uetr, uetr_form, uetr_of};

/// A unique end-to-end transaction reference (UETR), as field 121 of block 3 has it: the 36 characters of a UUID of version 4
/// (RFC 9562), in lower case.
#[derive(Clone, Copy, Debug, PartialEq, Eq)]
pub struct Uetr(pub [u8; 36]);

// `x` stands for a hexadecimal digit, `v` for one of `8 9 a b`, any other character for itself.
const FORM: [u8; 36] = *b"xxxxxxxx-xxxx-4xxx-vxxx-xxxxxxxxxxxx";

fn fits(mark: u8, b: u8) -> bool
    ensures { result ≡ fits_mark mark b }
{
    match mark {
        b'x' => matches!(b, b'0'..=b'9' | b'a'..=b'f'),
        b'v' => matches!(b, b'8' | b'9' | b'a' | b'b'),
        _ => b == mark,
    }
}

fn all_fit(b: &[u8]) -> bool
    ensures { result ≡ list_all (λ p. fits_mark p.1 p.0) (zip b.now uetr_form) }
{
    b.iter().zip(FORM.iter()).all(|(c, mark)| fits(*mark, *c))
}

#[tactic(auto, unfolding(crate::specs::Uetr::is_uetr))]
fn has_uetr_form(b: &[u8]) -> bool
    ensures value { result ≡ is_uetr b.now }
    ensures long { IsTrue result → length b.now ≡ 36 }
{
    b.len() == 36 && all_fit(b)
}

/// The reference that these bytes spell: groups of 8, 4, 4, 4 and 12 lower-case hexadecimal digits joined by `-`,
/// the third beginning with `4`, the fourth with `8`, `9`, `a` or `b`.
///
/// `f47ac10b-58cc-4372-a567-0e02b2c3d479` is one; with capital letters, or without its dashes, it is none.
pub fn read_uetr(b: &[u8]) -> Option<Uetr>
    ensures value { result ≡ uetr_of b.now }
    ensures form { IfSome result IsUetr }
    ensures bytes { IfSome result (λ u. u.0 ≡ b.now) }
{
    if !has_uetr_form(b) {
        return None;
    }
    let mut uetr = [0; 36];
    uetr.copy_from_slice(b);
    Some(Uetr(uetr))
}
