//! Block 1: the terminal that a message belongs to.

ghost use Rattle.std.specs.Prelude.{◌≡◌, IsTrue, length, option_map};
ghost use Rattle.fin_blocks.specs.Forms.{basic_in, basic_of, is_basic as is_basic_of};

use crate::forms::inside;
use corr_ids::{LtAddress, read_lt};
use corr_text::all_digits;

/// The version of the form, and the terminal.
#[derive(Clone, Copy, Debug)]
pub struct Basic {
    pub version: [u8; 2],
    pub own: LtAddress,
}

#[tactic(auto, unfolding(crate::specs::Forms::is_basic))]
fn is_basic(b: &[u8]) -> bool
    ensures value { result ≡ is_basic_of b.now }
    ensures long { IsTrue result → length b.now ≡ 24 }
{
    b.len() == 24 && all_digits(&b[..2]) && all_digits(&b[14..])
}

#[tactic(auto, unfolding(crate::specs::Forms::basic_in))]
fn read_inside(b: &[u8]) -> Option<Basic>
    ensures { result ≡ basic_in b.now }
{
    if !is_basic(b) {
        return None;
    }
    let own = read_lt(&b[2..14])?;
    let mut version = [0; 2];
    version.copy_from_slice(&b[..2]);
    Some(Basic { version, own })
}

/// Block 1 of a message, if the group is one.
pub fn read_basic(group: Option<&[u8]>) -> Option<Basic>
    ensures { result ≡ basic_of (option_map (λ b. b.now) group.entry) }
{
    read_inside(inside(b"{1:F", group)?)
}
