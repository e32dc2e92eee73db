//! Block 5: trailers.

ghost use Rattle.std.specs.Prelude.{◌≡◌, codes, option_map, IfOk};
ghost use Rattle.fin_blocks.specs.Groups.{groups_of};
ghost use Rattle.fin_blocks.specs.Forms.{each_of, inside as inside_of, trailer_of};
ghost use Rattle.fin_blocks.specs.Blocks.{optional};

use crate::forms::{inside, read_tagged};
use crate::groups::next_group;
use corr_text::{List, Memory, Set, is_all_of};
use std::alloc::Global;

#[tactic(auto, unfolding(crate::specs::Forms::trailer_of))]
fn trailer(group: Option<&[u8]>) -> Option<[u8; 3]>
    ensures { result ≡ trailer_of (option_map (λ b. b.now) group.entry) }
{
    let piece = read_tagged(group)?;
    if !is_all_of(Set::A, piece.tag) {
        return None;
    }
    let mut code = [0; 3];
    code.copy_from_slice(piece.tag);
    Some(code)
}

fn trailers_in(alloc: Global, b: &[u8]) -> Result<Option<List<[u8; 3]>>, Memory>
    ensures { IfOk result (λ o. o ≡ each_of trailer_of (groups_of b.now)) }
{
    let mut trailers = List::new(alloc);
    let mut rest = b;
    while !rest.is_empty() {
        let piece = next_group(rest);
        let Some(code) = trailer(piece.group) else {
            return Ok(None);
        };
        trailers.push(code)?;
        rest = piece.rest;
    }
    Ok(Some(trailers))
}

/// The codes of block 5: an empty list where there is no group or another, none where it is block 5 and not of its form.
pub fn read_trailers(alloc: Global, group: Option<&[u8]>) -> Result<Option<List<[u8; 3]>>, Memory>
    ensures { IfOk result (λ o. o ≡ optional (λ b. each_of trailer_of (groups_of b)) (inside_of (codes "{5:") (option_map (λ b. b.now) group.entry))) }
{
    match inside(b"{5:", group) {
        Some(b) => trailers_in(alloc, b),
        None => Ok(Some(List::new(alloc))),
    }
}
