//! How a command ended.

ghost use Rattle.std.specs.Prelude.{◌≡◌};
ghost use Rattle.corr_top.specs.Status.{status_number};

use corr_ids::Day;
use corr_money::Ccy;
use corr_text::Memory;
use ref_tables::{TableName, Why};

/// How a command ended (docs/operating.md, "Statuses").
#[derive(Clone, Copy, Debug, PartialEq, Eq)]
pub enum Status {
    /// All was read, answered and written.
    Done,
    /// The words are no command.
    Usage,
    /// A table file fails a test: its first row that does, from 1, or 0 for the whole file, and why. Of a change of accounts the
    /// table is that of accounts: row 1 is refused of an account that is opened, and of limits the number of their account.
    Table {
        table: TableName,
        row: u32,
        why: Why,
    },
    /// A source failed: its count of faults before this call and after it.
    ReadFault {
        before: u64,
        after: u64,
    },
    /// A sink failed: its count of faults before this call and after it.
    WriteFault {
        before: u64,
        after: u64,
    },
    /// A call of the journal's disk failed: its count of faults before this call and after it.
    DiskFault {
        before: u64,
        after: u64,
    },
    /// A call of the second disk failed: its count of faults before this call and after it.
    SecondDiskFault {
        before: u64,
        after: u64,
    },
    /// The disk holds no journal.
    NotAJournal,
    /// The journal is damaged: the place, in bytes from 0, of the first open gate that no whole and legal record follows.
    Damaged {
        at: u64,
    },
    /// The openings of a currency's accounts sum to this many minor units, and not to 0: the first such currency in byte order.
    Unbalanced {
        ccy: Ccy,
        decimals: u8,
        sum: i64,
    },
    /// The disk on which a journal is to be made has more than one byte, and its first is this one, not 0.
    Exists {
        first: u8,
    },
    /// There was no memory for what was to be made.
    Memory,
    /// The journal's last entry has this day, which is after the day of the run.
    DateBack {
        last: Day,
    },
    /// The message file, or in `reconcile` that of received statements, passes 67,108,864 bytes or 50,000 messages: how many
    /// bytes there are up to and with the first that passes a limit, and how many messages begin in them. Or in `mend` the file of
    /// messages that leave passes 1,073,741,824 bytes, or in `follow` that of packets 67,108,864, of which no message is counted: 0.
    TooLarge {
        bytes: u64,
        messages: u32,
    },
    /// The message file, or in `reconcile` that of received statements, can't be cut, or in `follow` that of packets: the place of the
    /// fault, in bytes from 0.
    Framing {
        at: u64,
    },
    /// A pay found no room in the journal, the first such in the order of the messages: how many entries there were, the place of
    /// the closed gate, in bytes from 0, and how many bytes the pay needed from there on. A change of accounts tells the same of
    /// itself, and the record of a packet; a journal that is carried over and would be too long, 0 and its whole length.
    Full {
        entries: u32,
        end: u64,
        need: u64,
    },
    /// The disk holds a journal of another version, which is told: no command reads it.
    Version {
        found: u8,
    },
    /// No account has the id whose limits are to change.
    Unknown,
    /// There is no second disk.
    NoSecond,
    /// At the place stands no payment that may be taken back: the journal has so many entries.
    NoPayment {
        entries: u32,
    },
    /// The reference of the return is entered, at this place.
    Returned {
        place: u32,
    },
    /// The account of this leg of the return, from 1, can't take it, and has this balance in minor units.
    Unfunded {
        leg: u8,
        balance: i64,
    },
    /// A packet has the next number, which is told, and its record may not stand next: it is no header, or none of an entry or a change
    /// that is legal there.
    NotNext {
        number: u32,
    },
}

impl Status {
    /// The status as a number, which is the program's exit status.
    pub fn number(&self) -> u8
        ensures { result ≡ status_number self.now }
    {
        match self {
            Status::Done => 0,
            Status::Usage => 1,
            Status::Table { .. } => 2,
            Status::ReadFault { .. } => 3,
            Status::WriteFault { .. } => 4,
            Status::DiskFault { .. } => 5,
            Status::SecondDiskFault { .. } => 5,
            Status::NotAJournal => 6,
            Status::Damaged { .. } => 6,
            Status::Unbalanced { .. } => 6,
            Status::Exists { .. } => 6,
            Status::Memory => 7,
            Status::DateBack { .. } => 8,
            Status::TooLarge { .. } => 9,
            Status::Framing { .. } => 10,
            Status::Full { .. } => 11,
            Status::Version { .. } => 12,
            Status::Unknown => 13,
            Status::NoSecond => 14,
            Status::NoPayment { .. } => 15,
            Status::Returned { .. } => 16,
            Status::Unfunded { .. } => 17,
            Status::NotNext { .. } => 18,
        }
    }
}

impl From<Memory> for Status {
    ghost use Rattle.corr_top.specs.declared.status.Status.TheVariants.{Memory as NoMemory};

    ghost from_gives = { λ _ status. status ≡ NoMemory };

    fn from(_e: Memory) -> Status {
        Status::Memory
    }
}
