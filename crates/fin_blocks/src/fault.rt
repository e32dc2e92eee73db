//! Why a message cannot be read block by block.

ghost use Rattle.std.specs.Prelude.{◌≡◌};
ghost use Rattle.fin_blocks.specs.declared.fault.BlockFault.TheVariants.{Memory as NoMemory};

use corr_ids::Mir;
use corr_text::{Code, Memory};

/// The first group is not block 1.
pub const P01: Code = Code(*b"P01");
/// Block 1 is not of version 01.
pub const P02: Code = Code(*b"P02");
/// The second group is not block 2.
pub const P03: Code = Code(*b"P03");
/// Block 3 is not of its form.
pub const P04: Code = Code(*b"P04");
/// The next group is not block 4.
pub const P05: Code = Code(*b"P05");
/// Block 5 is not of its form, or something is left.
pub const P06: Code = Code(*b"P06");

/// The first block that is not of its form; or out of memory.
#[derive(Clone, Copy, Debug, PartialEq, Eq)]
pub enum BlockFault {
    /// P01 to P06 (docs/messages.md, "Blocks"), with the reference of a received message where block 2 was read.
    Bad { code: Code, mir: Option<Mir> },
    /// There was no memory for the parts.
    Memory,
}

impl From<Memory> for BlockFault {
    ghost from_gives = { λ _ e. e ≡ NoMemory };

    fn from(_e: Memory) -> BlockFault {
        BlockFault::Memory
    }
}
