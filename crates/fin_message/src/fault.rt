//! Why a message is refused.

ghost use Rattle.std.specs.Prelude.{◌≡◌};
ghost use Rattle.fin_message.specs.Answers.{fault_of_blocks};
ghost use Rattle.fin_message.specs.Heading.{at_block as at_block_of};
ghost use Rattle.fin_message.specs.Verdict.{block_tag as tag_of};

use corr_ids::Mir;
use corr_text::{Code, Fault};
use fin_blocks::{BlockFault, P01, P02, P03, P04, P05};

/// The first test that a message fails; or out of memory.
#[derive(Clone, Copy, Debug, PartialEq, Eq)]
pub enum MessageFault {
    /// The test, with the message's reference where blocks 1 and 2 are read and block 2 is of output form.
    Refused { mir: Option<Mir>, fault: Fault },
    /// There was no memory for the message.
    Memory,
}

/// A fault that is told of a block.
pub fn at_block(code: Code, tag: [u8; 3]) -> Fault
    ensures { result ≡ at_block_of code tag }
{
    Fault { code, tag, nth: 0 }
}

/// The block that P01 to P06 are told of.
fn block_tag(code: Code) -> [u8; 3]
    ensures { result ≡ tag_of code }
{
    if code == P01 || code == P02 {
        *b"B1 "
    } else if code == P03 {
        *b"B2 "
    } else if code == P04 {
        *b"B3 "
    } else if code == P05 {
        *b"B4 "
    } else {
        *b"B5 "
    }
}

impl From<BlockFault> for MessageFault {
    ghost from_gives = { λ fault refusal. refusal ≡ fault_of_blocks fault };

    fn from(fault: BlockFault) -> MessageFault {
        match fault {
            BlockFault::Bad { code, mir } => MessageFault::Refused {
                mir,
                fault: at_block(code, block_tag(code)),
            },
            BlockFault::Memory => MessageFault::Memory,
        }
    }
}
