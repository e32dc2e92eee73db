//! Movements as statement lines.

ghost use Rattle.std.specs.Prelude.{◌≡◌, All, IfOk, Some, map};
ghost use Rattle.corr_ids.specs.Day.{InCentury};
ghost use Rattle.statement.specs.Lines.{transaction_type, statement_mark, mmdd_of};
ghost use Rattle.statement.specs.Running.{line_by};

use crate::movement::Movement;
use corr_ids::{Day, put_yymmdd};
use corr_text::{List, Memory, Text};
use day_model::{Mt, Side};
use fin_contents::array_of;
use mt950::{Line61, Mark};
use pay_returns::own_reference;
use std::alloc::Global;

/// The mark of a side: in a return a credit reverses a debit, and a debit reverses a credit.
pub(crate) fn mark_of(side: Side, returned: bool) -> Mark
    ensures { result ≡ statement_mark side returned }
{
    match (side, returned) {
        (Side::Credit, false) => Mark::C,
        (Side::Credit, true) => Mark::RD,
        (Side::Debit, false) => Mark::D,
        (Side::Debit, true) => Mark::RC,
    }
}

/// The type of the transaction by the message that asked for it.
fn kind_of(mt: Mt) -> [u8; 4]
    ensures { result ≡ transaction_type mt }
{
    match mt {
        Mt::Transfer => *b"S103",
        Mt::Cover => *b"S202",
    }
}

/// The month and the day of a date.
fn mmdd(alloc: Global, day: Day) -> Result<Option<[u8; 4]>, Memory>
    requires { InCentury day }
    ensures { IfOk result (λ part. part ≡ Some (mmdd_of day)) }
{
    let mut text = Text::from_bytes(alloc, b"")?;
    put_yymmdd(day, &mut text)?;
    Ok(array_of::<4>(&text.bytes()[2..]))
}

/// A movement as a line.
fn line_of(alloc: Global, movement: &Movement) -> Result<Line61, Memory>
    requires { InCentury movement.now.day }
    ensures { IfOk result (λ line. line ≡ line_by movement.now) }
{
    Ok(Line61 {
        value: movement.value,
        entry: mmdd(alloc, movement.day)?,
        mark: mark_of(movement.side, movement.returned),
        funds: None,
        amount: movement.amount,
        kind: kind_of(movement.mt),
        reference: movement.reference.copy(alloc)?,
        servicer: Some(own_reference(alloc, movement.place)?),
        detail: None,
    })
}

/// Movements as lines, in their order.
pub fn lines_of(alloc: Global, movements: &[Movement]) -> Result<List<Line61>, Memory>
    requires { All (λ movement. InCentury movement.day) movements.now }
    ensures { IfOk result (λ lines. lines ≡ map line_by movements.now) }
{
    let mut lines = List::with_room(alloc, movements.len())?;
    for movement in movements {
        lines.push(line_of(alloc, movement)?)?;
    }
    Ok(lines)
}
