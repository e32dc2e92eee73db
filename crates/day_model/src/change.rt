//! Changes of a book's accounts.

use crate::account::{Account, AcctNo};
use crate::entry::Entry;

/// What changes: an account is opened and stands last, or an account gets another floor and ceiling, in minor units.
#[derive(Debug, Drop)]
pub enum What {
    Opened(Account),
    Limits {
        account: AcctNo,
        floor: i64,
        ceil: i64,
    },
}

/// A change of the accounts, directly after the first `after` entries and the changes before it.
#[derive(Debug, Drop)]
pub struct Change {
    pub after: u32,
    pub what: What,
}

/// What a journal has behind its header: an entry, or what changes in the accounts.
#[derive(Debug, Drop)]
pub enum Item {
    Entered(Entry),
    Changed(What),
}

/// Why a change is refused: the first of these, in this order.
///
/// - `Unknown`: limits are of an account that isn't there.
/// - `Rows`: there are 1,000 accounts already.
/// - `Double`: account `row`, the least of such, has the new account's id, or its kind, owner's head and currency, where it
///   isn't a customer's.
/// - `Currency`: an account of the new account's currency has other decimals.
/// - `Limits`: the opening of a new account isn't 0, floor and ceiling aren't below 10^14 in size, or the balance doesn't lie
///   between them. `account` is 0 for a new one.
#[derive(Clone, Copy, Debug, PartialEq, Eq)]
pub enum Refusal {
    Unknown,
    Rows,
    Double { row: u32 },
    Currency,
    Limits { account: u32 },
}
