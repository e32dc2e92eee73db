//! What the page says of a message.

use corr_ids::{Bic, Day, Mir, Uetr};
use corr_money::{Amount, Minor};
use corr_text::{Code, Fault, Text};
use day_model::{AcctNo, Side};

/// A payment that a valid transfer or cover asks for, as far as the page says it: its message's reference and sender, field 20, the
/// UETR if it has one, the value date and the amount of 32A, and the beneficiary (59a of a transfer, 58a of a cover) as a text.
#[derive(Debug, Drop)]
pub struct Payment {
    pub mir: Mir,
    pub sender: Bic,
    pub reference: Text,
    pub uetr: Option<Uetr>,
    pub value: Day,
    pub amount: Amount,
    pub payee: Text,
}

/// Where a payment stands with the journal; places count from 1.
#[derive(Clone, Copy, Debug, PartialEq, Eq)]
pub enum Standing {
    /// Its reference isn't entered yet.
    New,
    /// It is booked.
    Booked {
        place: u32,
    },
    /// It is entered unfunded: this account could not take this amount on this side.
    Unfunded {
        place: u32,
        account: AcctNo,
        side: Side,
        amount: Minor,
    },
    /// Another payment is entered under its reference.
    Conflict {
        place: u32,
    },
    /// It has no accounts, by this code.
    Unrouted {
        code: Code,
    },
}

/// What the page says of a message of the file.
#[derive(Debug, Drop)]
pub enum Row {
    /// It is faulty. A message has a reference where its blocks 1 and 2 are read.
    Refused {
        mir: Option<Mir>,
        fault: Fault,
    },
    /// It is a valid transfer or cover.
    Asks {
        payment: Payment,
        standing: Standing,
    },
    /// It tells of an account: a valid page of a statement of this one, or a valid advice.
    Told {
        mir: Mir,
        account: Option<Text>,
    },
}
