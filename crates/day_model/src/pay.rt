//! Pays: what a valid and routed message asks to be booked and sent on.

use crate::account::AcctNo;
use corr_ids::{Bic, Day, Mir, Uetr};
use corr_money::Minor;
use corr_text::{List, Text};

/// The side of an account that a leg is booked on.
#[derive(Clone, Copy, Debug, PartialEq, Eq)]
pub enum Side {
    Debit,
    Credit,
}

/// The type of the message that a pay came from: MT103, or MT202 COV.
#[derive(Clone, Copy, Debug, PartialEq, Eq)]
pub enum Mt {
    Transfer,
    Cover,
}

/// The reference that a statement line quotes for a leg: the other bank's, or that of our order `k`, from 1.
#[derive(Debug, Drop)]
pub enum Quote {
    Theirs(Text),
    Ours(u8),
}

/// One side of a booking: an account, debit or credit, an amount in minor units, and what a statement line quotes for it.
#[derive(Debug, Drop)]
pub struct Leg {
    pub account: AcctNo,
    pub side: Side,
    pub amount: Minor,
    pub quote: Quote,
}

/// Which of the fields 56a and 57a an order leaves out: none, 56a, or both.
#[derive(Clone, Copy, Debug, PartialEq, Eq)]
pub enum Skip {
    Keep,
    Mid,
    Both,
}

/// A message to send once a pay is booked; `leg` counts from 1.
#[derive(Clone, Copy, Debug, PartialEq, Eq)]
pub enum Order {
    /// A transfer to `to`, with `via` as the bank that covers it.
    Transfer {
        to: Bic,
        skip: Skip,
        via: Option<Bic>,
    },
    /// A cover to `to`, for the bank `end`.
    Cover {
        to: Bic,
        end: Bic,
        skip: Skip,
    },
    /// The cover that came, on to `to`.
    Pass {
        to: Bic,
        skip: Skip,
    },
    /// A notice to `to` that its account was debited by this leg.
    Debit {
        to: Bic,
        leg: u8,
    },
    /// A notice to `to` that its account was credited by this leg.
    Credit {
        to: Bic,
        leg: u8,
    },
}

/// What one message asks: what is booked, and the messages to send on.
///
/// A pay has two or three legs on distinct accounts of one currency. Each amount is above 0 and below 10^14, the first
/// leg is a debit, and the debits sum to what the credits sum to.
///
/// `mir` is the message's reference, `uetr` that of the payment, if it has one; `text` is the message's block 4, its lines each
/// ended by CR LF; `value` is the value date.
#[derive(Debug, Drop)]
pub struct Pay {
    pub mir: Mir,
    pub mt: Mt,
    pub uetr: Option<Uetr>,
    pub text: Text,
    pub value: Day,
    pub legs: List<Leg>,
    pub orders: List<Order>,
}
