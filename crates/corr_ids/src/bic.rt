//! Bank identifiers.

ghost use Rattle.std.specs.Prelude.{◌≡◌, ◌≢◌, ◌≤◌, ◌++◌, IsTrue, IfSome, OnOk, OnErr, length, take, Some};
ghost use Rattle.corr_ids.specs.Bic.{IsBic, bic_of, bic_text, branch_of, is_bic};

use corr_text::{Memory, Set, Text, is_all_of};

/// A bank identifier (BIC, ISO 9362): its first eight characters and its branch, `XXX` for the head office.
#[derive(Clone, Copy, Debug, PartialEq, Eq)]
pub struct Bic {
    pub head: [u8; 8],
    pub branch: [u8; 3],
}

#[tactic(auto, unfolding(crate::specs::Bic::is_bic))]
fn has_bic_form(b: &[u8]) -> bool
    ensures value { result ≡ is_bic b.now }
    ensures long { IsTrue result → 8 ≤ length b.now }
    ensures full { IsTrue result → length b.now ≢ 8 → length b.now ≡ 11 }
{
    (b.len() == 8 || b.len() == 11) && is_all_of(Set::A, &b[..6]) && is_all_of(Set::C, &b[6..])
}

fn head(b: &[u8]) -> [u8; 8]
    requires { 8 ≤ length b.now }
    ensures { result ≡ take 8 b.now }
{
    let mut head = [0; 8];
    head.copy_from_slice(&b[..8]);
    head
}

fn branch(b: &[u8]) -> [u8; 3]
    requires { length b.now ≢ 8 → length b.now ≡ 11 }
    ensures { result ≡ branch_of b.now }
{
    if b.len() == 8 {
        return *b"XXX";
    }
    let mut branch = [0; 3];
    branch.copy_from_slice(&b[8..]);
    branch
}

/// The BIC that these bytes spell, `4!a2!a2!c[3!c]`: without a branch it is `XXX`.
///
/// `ALPHDEFF` is the BIC with the head `ALPHDEFF` and the branch `XXX`; `ALPHDEFF50` and `alphdeff` spell none.
pub fn read_bic(b: &[u8]) -> Option<Bic>
    ensures value { result ≡ bic_of b.now }
    ensures form { IfSome result IsBic }
{
    if !has_bic_form(b) {
        return None;
    }
    Some(Bic {
        head: head(b),
        branch: branch(b),
    })
}

/// The 11 characters of a BIC, its branch too where that is `XXX`.
pub fn with_branch(b: &Bic) -> [u8; 11]
    ensures { result ≡ b.now.head ++ b.now.branch }
{
    let mut full = [0; 11];
    full[..8].copy_from_slice(&b.head);
    full[8..].copy_from_slice(&b.branch);
    full
}

/// Adds a BIC: 8 characters where its branch is `XXX`, else 11. Where memory runs out, the text is as it was.
///
/// The head `ALPHDEFF` is printed `ALPHDEFF` with the branch `XXX`, and `ALPHDEFF500` with the branch `500`.
pub fn put_bic(b: &Bic, out: &mut Text) -> Result<(), Memory>
    ensures ok { OnOk result (out.new ≡ out.old ++ bic_text b.now) }
    ensures err { OnErr result (out.new ≡ out.old) }
    ensures again { IsBic b.now → bic_of (bic_text b.now) ≡ Some b.now }
{
    if b.branch == *b"XXX" {
        return out.push(&b.head);
    }
    out.push(&with_branch(b))
}
