//! What a follower answers to a packet.

ghost use Rattle.std.specs.Prelude.{◌≡◌};
ghost use Rattle.standby.specs.declared.answer.TakeFault.TheVariants.{Memory};

/// What became of a packet that was taken: how many records are held after it.
#[derive(Clone, Copy, Debug, PartialEq, Eq, Drop)]
pub enum Took {
    /// Its record was added, and is on the disk.
    Added { have: u32 },
    /// Its number was not the next one, and nothing has changed.
    Skipped { have: u32 },
}

/// Why a packet was not taken: the first of these, but `Memory`, which may come at any place after `Broken`. What was held is held
/// still.
#[derive(Clone, Copy, Debug, PartialEq, Eq, Drop)]
pub enum TakeFault {
    /// The bytes are not one whole packet.
    NotAPacket,
    /// The number is the next one, and the record is no header (of number 1), or no item that is legal next.
    NotNext { number: u32 },
    /// The file would pass 2^30 bytes: `end` is the place of the closed gate, and `need` the length of the record and 6. Never of
    /// number 1.
    Full { end: u64, need: u64 },
    /// A call of the disk failed: its count of faults before and after.
    DiskFault { before: u64, after: u64 },
    /// An earlier packet was answered by `DiskFault`: the disk's count of faults when the follower began, and now.
    Broken { at_open: u64, now: u64 },
    /// Out of memory.
    Memory,
}

impl From<corr_text::Memory> for TakeFault {
    ghost from_gives = { λ _ e. e ≡ Memory };

    fn from(_: corr_text::Memory) -> TakeFault {
        TakeFault::Memory
    }
}
