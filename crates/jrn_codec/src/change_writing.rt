//! Writing changes.

ghost use Rattle.std.specs.Prelude.{◌≡◌, ◌++◌, ◌≤◌, length, OnErr, OnOk};
ghost use Rattle.day_model.specs.Legal.{IsInForm};
ghost use Rattle.jrn_codec.specs.Change.{IsWhat, NumberFits, change_bytes, ends_bytes, most_change_bytes};
ghost use Rattle.jrn_codec.specs.inner.Writing.{IsFrontOf};

use crate::header_writing::{put_account, put_signed};
use corr_text::{Memory, Text};
use day_model::{AcctNo, What};

#[tactic(auto, using(crate::proofs::Fronts::goes_on, crate::proofs::Fronts::adds, crate::proofs::Fronts::stays), unfolding(crate::specs::Change::ends_bytes))]
fn put_ends(out: &mut Text, n: AcctNo, floor: i64, ceil: i64) -> Result<(), Memory>
    requires { n.0 ≤ 65535 }
    ensures ok { OnOk result (out.new ≡ out.old ++ ends_bytes n.0 floor ceil) }
    ensures front { IsFrontOf out.old out.new }
{
    let number = n.0 as u16;
    out.push(&number.to_be_bytes())?;
    put_signed(out, floor)?;
    put_signed(out, ceil)
}

#[tactic(auto, using(crate::proofs::Fronts::goes_on, crate::proofs::Fronts::adds, crate::proofs::Fronts::stays))]
fn put_what(out: &mut Text, c: &What) -> Result<(), Memory>
    requires form { IsInForm c.now }
    requires number { NumberFits c.now }
    ensures ok { OnOk result (out.new ≡ out.old ++ change_bytes c.now) }
    ensures front { IsFrontOf out.old out.new }
    ensures what { OnOk result (IsWhat c.now) }
{
    match c {
        What::Opened(account) => {
            out.push(&[1, 0])?;
            put_account(out, account)
        }
        What::Limits {
            account,
            floor,
            ceil,
        } => {
            out.push(&[1, 1])?;
            put_ends(out, *account, *floor, *ceil)
        }
    }
}

/// Adds the record of a change, which `read_change` reads: 77 bytes at most. Where memory runs out, the text is as before.
///
/// A new account has the form of its columns, as `has_form` says it, and the number of the account that limits name is at most
/// 65,535.
pub fn put_change(c: &What, out: &mut Text) -> Result<(), Memory>
    requires form { IsInForm c.now }
    requires number { NumberFits c.now }
    ensures ok { OnOk result (out.new ≡ out.old ++ change_bytes c.now) }
    ensures change { OnOk result (IsWhat c.now) }
    ensures few { OnOk result (length (change_bytes c.now) ≤ most_change_bytes) }
    ensures err { OnErr result (out.new ≡ out.old) }
{
    let before = out.bytes().len();
    let written = put_what(out, c);
    if written.is_err() {
        out.truncate(before);
    }
    written
}
