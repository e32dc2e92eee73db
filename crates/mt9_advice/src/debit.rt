//! MT900, the confirmation of a debit.

ghost use Rattle.std.specs.Prelude.{◌≡◌, ◌≤◌, All, IfOk, IsTrue, None, Ok, length};
ghost use Rattle.corr_text.specs.First.{first_of};
ghost use Rattle.fin_fields.specs.Fields.{most_text_lines};
ghost use Rattle.fin_contents.specs.Money.{IsPayable};
ghost use Rattle.fin_contents.specs.Writing.{IsReadable};
ghost use Rattle.fin_fields.specs.Writing.{IsField};
ghost use Rattle.fin_layout.specs.Order.{places_from};
ghost use Rattle.fin_layout.specs.Reading.{Gives};
ghost use Rattle.mt9_advice.specs.Advice.{contents_900, mt900_of, tests_900};
ghost use Rattle.mt9_advice.specs.inner.Parts.{mt900, parts_900};
ghost use Rattle.mt9_advice.specs.declared.debit.Mt900.{Mt900 as Mt900Seen};
ghost use Rattle.mt9_advice.specs.Order.{order_900};
ghost use Rattle.ref_tables.specs.Seen.{few_decimals};

use crate::booking::{Booking, read_booking};
use crate::order::ORDER_900;
use crate::places::{NOTES_900, ORDERING_900};
use corr_ids::Day;
use corr_money::Amount;
use corr_text::{List, Text};
use fin_contents::{KnownParty, Texts, or_none};
use fin_fields::{Field, FieldLines, lend_fields};
use fin_layout::{Found, MtFault, check_structure, read_optional};
use fin_parties::Party;
use ref_tables::RefTables;
use std::alloc::Global;

/// A confirmation of a debit.
#[derive(Debug, Drop)]
pub struct Mt900 {
    /// Field 20, the sender's reference.
    pub reference: Text,
    /// 21, the reference of the transaction that was booked.
    pub related: Text,
    /// 25, the account.
    pub account: Text,
    /// 13D, when it was booked: a date, a time of day and its distance from UTC, as `2406031215+0200`. The form alone is tested.
    pub at: Option<Text>,
    /// The value date of 32A.
    pub value: Day,
    /// The amount of 32A, above zero.
    pub amount: Amount,
    /// 52a, the ordering institution.
    pub p52: Option<Party>,
    /// The lines of 72, sender to receiver; none without the field.
    pub notes: List<Text>,
}

fn message(booking: Booking, p52: Option<Party>, notes: List<Text>) -> Mt900
    ensures { result ≡ mt900 booking p52 notes }
{
    Mt900 {
        reference: booking.reference,
        related: booking.related,
        account: booking.account,
        at: booking.at,
        value: booking.value.day,
        amount: booking.value.amount,
        p52,
        notes,
    }
}

#[tactic(auto, unfolding(crate::specs::inner::Parts::parts_900))]
fn read_contents(
    alloc: Global,
    tables: &RefTables,
    fields: &[FieldLines<'_>],
    found: &Found,
) -> Result<Mt900, MtFault>
    requires few { length fields.now ≤ most_text_lines }
    ensures { Gives result (parts_900 tables.now fields.now found.now) }
{
    let booking = read_booking(alloc, &ORDER_900, tables, fields, found)?;
    let p52 = read_optional(alloc, &KnownParty { tables }, fields, found, ORDERING_900)?;
    let notes = read_optional(alloc, &Texts { most: 6 }, fields, found, NOTES_900)?;
    Ok(message(booking, p52, or_none(alloc, notes)))
}

/// The confirmation of a debit that the fields of block 4 say.
///
/// `Bad` tells the first test that fails (docs/messages.md, "MT900 and MT910"): P22 and P23 of the order of fields; then each
/// content in the order of the text, with its field's tag and occurrence. Where no test fails the fields say a confirmation
/// (`complete`), so there is no other refusal. The amount is above zero and below 10^14 minor units (`amount`). `put_mt900` takes
/// what fields of a text say (`written`). There are at most 65,535 fields.
#[tactic(auto, using(crate::proofs::Complete::complete_900))]
pub fn read_mt900(alloc: Global, f: &[Field], t: &RefTables) -> Result<Mt900, MtFault>
    requires few { length f.now ≤ most_text_lines }
    ensures message { Gives result (mt900_of t.now f.now) }
    ensures amount { IfOk result (λ m. IsPayable m.amount) }
    ensures written { IsTrue (few_decimals t.now.ccys) → All IsField f.now → IfOk result (IsReadable mt900_of) }
    ensures complete { first_of (tests_900 t.now f.now) ≡ None
        → (m : Mt900Seen) × (contents_900 t.now f.now (places_from order_900 0 f.now) ≡ Ok m) }
{
    let lent = lend_fields(alloc, f)?;
    read_mt900_lines(alloc, lent.as_slice(), t)
}

/// As `read_mt900`, of fields whose lines stay in a text.
#[tactic(auto, using(crate::proofs::Complete::complete_900))]
pub fn read_mt900_lines(
    alloc: Global,
    f: &[FieldLines<'_>],
    t: &RefTables,
) -> Result<Mt900, MtFault>
    requires few { length f.now ≤ most_text_lines }
    ensures message { Gives result (mt900_of t.now f.now) }
    ensures amount { IfOk result (λ m. IsPayable m.amount) }
    ensures written { IsTrue (few_decimals t.now.ccys) → All IsField f.now → IfOk result (IsReadable mt900_of) }
    ensures complete { first_of (tests_900 t.now f.now) ≡ None
        → (m : Mt900Seen) × (contents_900 t.now f.now (places_from order_900 0 f.now) ≡ Ok m) }
{
    let found = check_structure(alloc, &ORDER_900, f)?;
    read_contents(alloc, t, f, &found)
}
