//! Writing fields into a buffer. Each writing succeeds where there is room for what it adds.

ghost use Rattle.std.specs.Prelude.{◌≡◌, ◌++◌, flat_map, OnOk};
ghost use Rattle.jrn_codec.specs.inner.Writing.{WritesInRoom, IsFrontOf};

use corr_text::{Buf, Memory};

/// Adds bytes.
#[tactic(auto, using(crate::proofs::Fronts::adds, crate::proofs::Fronts::stays))]
pub fn push(out: &mut Buf, bytes: &[u8]) -> Result<(), Memory>
    ensures ok { OnOk result (out.new.bytes ≡ out.old.bytes ++ bytes.now) }
    ensures room { WritesInRoom bytes.now out.old.spare out.new.spare result }
    ensures front { IsFrontOf out.old.bytes out.new.bytes }
{
    out.push(bytes)
}

/// Adds pieces, one after the other.
#[tactic(auto, using(crate::proofs::Fronts::goes_on))]
pub fn push_all(out: &mut Buf, pieces: &[&[u8]]) -> Result<(), Memory>
    ensures ok { OnOk result (out.new.bytes ≡ out.old.bytes ++ flat_map (λ piece. piece.now) pieces.now) }
    ensures room { WritesInRoom (flat_map (λ piece. piece.now) pieces.now) out.old.spare out.new.spare result }
    ensures front { IsFrontOf out.old.bytes out.new.bytes }
{
    match pieces {
        [] => Ok(()),
        [piece, others @ ..] => {
            push(out, piece)?;
            push_all(out, others)
        }
    }
}
