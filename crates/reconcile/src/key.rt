//! What an entry and a line share that are a pair, and what names a statement.

ghost use Rattle.std.specs.Prelude.{◌≡◌, ◌<◌, ◌≤◌, length};
ghost use Rattle.corr_money.specs.Amounts.{amount_end};
ghost use Rattle.statement.specs.Running.{placed_by};
ghost use Rattle.reconcile.specs.inner.Bounds.{CanBeKeyed, IsLine};
ghost use Rattle.reconcile.specs.inner.Keys.{added_on, key_of, short_of, taken_by};

use corr_money::Minor;
use day_model::Side;
use mt950::Line61;
use statement::Movement;

/// What an entry and a line share that are a pair: what the entry adds to our balance and the line takes from it, the value date,
/// and the reference.
#[derive(Clone, Copy, Debug, PartialEq, Eq, Hash)]
pub struct Key {
    amount: i64,
    value: i32,
    reference: [u8; 17],
}

/// A text of fewer than `N` bytes as so many: its length, its bytes, and zeros. Distinct texts are distinct so.
pub fn short<const N: usize>(text: &[u8]) -> [u8; N]
    requires short { length text.now < N }
    requires byte { N ≤ 256 }
    ensures { result ≡ short_of N text.now }
{
    let mut short = [0; N];
    let bytes = &mut short[..];
    bytes[0] = text.len() as u8;
    bytes[1..text.len() + 1].copy_from_slice(text);
    short
}

/// What a leg adds to our balance.
fn signed(side: Side, amount: Minor) -> i64
    requires { amount.0 < amount_end }
    ensures { result ≡ added_on side amount.0 }
{
    match side {
        Side::Credit => amount.0 as i64,
        Side::Debit => -(amount.0 as i64),
    }
}

/// What a line must share with an entry of ours.
pub fn entry_key(entry: &Movement) -> Key
    requires { CanBeKeyed entry.now }
    ensures { result ≡ key_of (placed_by entry.now).line }
{
    Key {
        amount: signed(entry.side, entry.amount),
        value: entry.value.0,
        reference: short(entry.reference.bytes()),
    }
}

/// What an entry of ours must share with a line.
pub fn line_key(line: &Line61) -> Key
    requires { IsLine line.now }
    ensures { result ≡ taken_by line.now }
{
    Key {
        amount: -line.effect(),
        value: line.value.0,
        reference: short(line.reference.bytes()),
    }
}
