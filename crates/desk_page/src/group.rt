//! The groups of the messages of a file, by what is to be done (docs/operating.md, "What to do with a message").

ghost use Rattle.std.specs.Prelude.{◌≡◌, ◌||◌};
ghost use Rattle.desk_page.specs.Groups.{asks_nothing, goes_back, group_by, group_for, group_of, group_short, is_astray, is_by_hand, is_in, wants_answer, wants_tables};
ghost use Rattle.desk_page.specs.Reasons.{is_code};

use crate::reasons::is_code;
use crate::row::{Row, Standing};
use corr_text::Code;
use day_model::Side;

/// Where a message stands on the page: what is to be done with it.
#[derive(Clone, Copy, Debug, PartialEq, Eq)]
pub enum Group {
    /// It is faulty: its sender mends it.
    Mend,
    /// Its sender is to be asked.
    Ask,
    /// It goes back, or what its code says in place of that.
    Return,
    /// A row of our tables, or an account, is missing or wrong.
    Tables,
    /// It is handled by hand.
    ByHand,
    /// It doesn't belong into the file.
    Stray,
    /// The account that is debited lacks funds.
    Fund,
    /// An account that is credited has no room up to its ceiling.
    Room,
    /// Another payment has its reference.
    Disputed,
    /// Nothing is to be done.
    Nothing,
    /// It is in order.
    InOrder,
}

/// Whether the sender of a message with this code is asked.
fn wants_answer(code: Code) -> bool
    ensures { result ≡ wants_answer code }
{
    is_code(code, b"P10") || is_code(code, b"P32") || is_code(code, b"P38")
}

/// Whether a payment with this code may go back.
fn goes_back(code: Code) -> bool
    ensures { result ≡ goes_back code }
{
    is_code(code, b"P31") || is_code(code, b"P33") || is_code(code, b"P39")
}

/// Whether a message with this code may want a row of a table, or an account.
fn wants_tables(code: Code) -> bool
    ensures { result ≡ wants_tables code }
{
    is_code(code, b"P12")
        || is_code(code, b"P25")
        || is_code(code, b"T52")
        || is_code(code, b"P30")
        || is_code(code, b"P36")
        || is_code(code, b"P40")
}

/// Whether a message with this code is handled by hand.
fn is_by_hand(code: Code) -> bool
    ensures { result ≡ is_by_hand code }
{
    is_code(code, b"P11") || is_code(code, b"P13") || is_code(code, b"P27") || is_code(code, b"P35")
}

/// Whether a message with this code doesn't belong into the file.
fn is_astray(code: Code) -> bool
    ensures { result ≡ is_astray code }
{
    is_code(code, b"P07") || is_code(code, b"P08")
}

/// Whether nothing is to be done with a message with this code.
fn asks_nothing(code: Code) -> bool
    ensures { result ≡ asks_nothing code }
{
    is_code(code, b"P02") || is_code(code, b"P09") || is_code(code, b"P34")
}

/// The group of a message with this code.
fn group_by(code: Code) -> Group
    ensures { result ≡ group_by code }
{
    if wants_answer(code) {
        Group::Ask
    } else if goes_back(code) {
        Group::Return
    } else if wants_tables(code) {
        Group::Tables
    } else if is_by_hand(code) {
        Group::ByHand
    } else if is_astray(code) {
        Group::Stray
    } else if asks_nothing(code) {
        Group::Nothing
    } else {
        Group::Mend
    }
}

/// The group of a payment that an account couldn't take on a side.
fn group_short(side: Side) -> Group
    ensures { result ≡ group_short side }
{
    match side {
        Side::Debit => Group::Fund,
        Side::Credit => Group::Room,
    }
}

/// The group of a payment.
fn group_for(standing: Standing) -> Group
    ensures { result ≡ group_for standing }
{
    match standing {
        Standing::New | Standing::Booked { .. } => Group::InOrder,
        Standing::Unfunded { side, .. } => group_short(side),
        Standing::Conflict { .. } => Group::Disputed,
        Standing::Unrouted { code } => group_by(code),
    }
}

/// The group of a message.
fn group_of(row: &Row) -> Group
    ensures { result ≡ group_of row.now }
{
    match row {
        Row::Refused { fault, .. } => group_by(fault.code),
        Row::Asks { standing, .. } => group_for(*standing),
        Row::Told { .. } => Group::InOrder,
    }
}

/// Whether a message is of a group.
pub(crate) fn is_in(group: Group, row: &Row) -> bool
    ensures { result ≡ is_in group row.now }
{
    group_of(row) == group
}
