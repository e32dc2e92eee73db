//! The parts of a message.

ghost use Rattle.std.specs.Prelude.{◌≡◌};

use corr_ids::{LtAddress, Mir};
use corr_text::{List, Text};
use std::alloc::Global;

/// Block 2: what a message is, and where it comes from or goes to.
#[derive(Clone, Copy, Debug, PartialEq, Eq)]
pub enum App {
    /// Of output form: the type, as 103, and the reference (MIR) under which its sender handed it in.
    Received { mt: u16, mir: Mir },
    /// Of input form: the type and the receiver's terminal.
    Sent { mt: u16, to: LtAddress },
}

/// The parts of a message.
#[derive(Debug, Drop)]
pub struct Blocks {
    /// The terminal of block 1.
    pub own: LtAddress,
    pub app: App,
    /// The subblocks of block 3 in their order: of each the number, as 121, and the text.
    pub user: List<(u16, Text)>,
    /// The lines of block 4, each ended by CR LF.
    pub text: Text,
    /// The codes of block 5 in their order, as `CHK`.
    pub trailers: List<[u8; 3]>,
}

fn no_terminal() -> LtAddress {
    LtAddress {
        head: [0; 8],
        lt: 0,
        branch: [0; 3],
    }
}

impl Blocks {
    /// A place for blocks to be read into. Block 4 is this text, into whose memory the next one is read; the other parts say
    /// nothing yet.
    pub fn blank(alloc: Global, text: Text) -> Blocks
        ensures { result.text ≡ text }
    {
        let to = no_terminal();
        Blocks {
            own: to,
            app: App::Sent { mt: 0, to },
            user: List::new(alloc),
            text,
            trailers: List::new(alloc),
        }
    }
}
