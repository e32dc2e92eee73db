//! MT910, the confirmation of a credit.

ghost use Rattle.std.specs.Prelude.{◌≡◌, ◌≤◌, All, IfOk, IsTrue, None, Ok, length};
ghost use Rattle.corr_text.specs.First.{first_of};
ghost use Rattle.fin_fields.specs.Fields.{most_text_lines};
ghost use Rattle.fin_contents.specs.Money.{IsPayable};
ghost use Rattle.fin_contents.specs.Writing.{IsReadable};
ghost use Rattle.fin_fields.specs.Writing.{IsField};
ghost use Rattle.fin_layout.specs.Order.{places_from};
ghost use Rattle.fin_layout.specs.Reading.{Gives};
ghost use Rattle.mt9_advice.specs.Advice.{c06, contents_910, mt910_of, tests_910};
ghost use Rattle.mt9_advice.specs.inner.Parts.{booking_of, ending_of, mt910, orderers_of, parts_910};
ghost use Rattle.mt9_advice.specs.declared.credit.Mt910.{Mt910 as Mt910Seen};
ghost use Rattle.mt9_advice.specs.Order.{order_910};
ghost use Rattle.ref_tables.specs.Seen.{few_decimals};

use crate::booking::{Booking, read_booking};
use crate::order::ORDER_910;
use crate::places::{INTERMEDIARY, NOTES_910, ORDERING_910, PAYER};
use corr_ids::Day;
use corr_money::Amount;
use corr_text::{Code, Fault, List, Text, let_go};
use fin_contents::{KnownParty, Texts, or_none};
use fin_fields::{Field, FieldLines, lend_fields};
use fin_layout::{Found, MtFault, check_structure, read_optional};
use fin_parties::Party;
use ref_tables::RefTables;
use std::alloc::Global;

/// Neither an ordering customer (50a) nor an ordering institution (52a) in an MT910, as the SWIFT User Handbook names it.
pub const C06: Code = Code(*b"C06");

/// A confirmation of a credit.
#[derive(Debug, Drop)]
pub struct Mt910 {
    /// Field 20, the sender's reference.
    pub reference: Text,
    /// 21, the reference of the transaction that was booked.
    pub related: Text,
    /// 25, the account.
    pub account: Text,
    /// 13D, when it was booked: a date, a time of day and its distance from UTC, as `2406031215+0200`. The form alone is tested.
    pub at: Option<Text>,
    /// The value date of 32A.
    pub value: Day,
    /// The amount of 32A, above zero.
    pub amount: Amount,
    /// 50a, the ordering customer. Where there is none there is `p52`.
    pub payer: Option<Party>,
    /// 52a, the ordering institution. Where there is none there is `payer`.
    pub p52: Option<Party>,
    /// 56a, the intermediary.
    pub p56: Option<Party>,
    /// The lines of 72, sender to receiver; none without the field.
    pub notes: List<Text>,
}

/// Who ordered a credit: what 50a and 52a say.
#[derive(Drop)]
pub struct Orderers {
    pub payer: Option<Party>,
    pub p52: Option<Party>,
}

/// What 56a and 72 say.
#[derive(Drop)]
pub struct Ending {
    pub p56: Option<Party>,
    pub notes: List<Text>,
}

fn message(booking: Booking, orderers: Orderers, ending: Ending) -> Mt910
    ensures { result ≡ mt910 booking orderers.payer orderers.p52 ending.p56 ending.notes }
{
    Mt910 {
        reference: booking.reference,
        related: booking.related,
        account: booking.account,
        at: booking.at,
        value: booking.value.day,
        amount: booking.value.amount,
        payer: orderers.payer,
        p52: orderers.p52,
        p56: ending.p56,
        notes: ending.notes,
    }
}

/// The booking of a credit.
fn read_credit(
    alloc: Global,
    tables: &RefTables,
    fields: &[FieldLines<'_>],
    found: &Found,
) -> Result<Booking, MtFault>
    requires few { length fields.now ≤ most_text_lines }
    ensures { Gives result (booking_of order_910 tables.now fields.now found.now) }
{
    read_booking(alloc, &ORDER_910, tables, fields, found)
}

/// Who ordered the credit.
#[tactic(auto, unfolding(crate::specs::inner::Parts::orderers_of))]
fn read_orderers(
    alloc: Global,
    tables: &RefTables,
    fields: &[FieldLines<'_>],
    found: &Found,
) -> Result<Orderers, MtFault>
    requires few { length fields.now ≤ most_text_lines }
    ensures { Gives result (orderers_of tables.now fields.now found.now) }
{
    let payer = read_optional(alloc, &KnownParty { tables }, fields, found, PAYER)?;
    let p52 = read_optional(alloc, &KnownParty { tables }, fields, found, ORDERING_910)?;
    Ok(Orderers { payer, p52 })
}

/// What follows them.
#[tactic(auto, unfolding(crate::specs::inner::Parts::ending_of))]
fn read_ending(
    alloc: Global,
    tables: &RefTables,
    fields: &[FieldLines<'_>],
    found: &Found,
) -> Result<Ending, MtFault>
    requires few { length fields.now ≤ most_text_lines }
    ensures { Gives result (ending_of tables.now fields.now found.now) }
{
    let p56 = read_optional(alloc, &KnownParty { tables }, fields, found, INTERMEDIARY)?;
    let notes = read_optional(alloc, &Texts { most: 6 }, fields, found, NOTES_910)?;
    Ok(Ending {
        p56,
        notes: or_none(alloc, notes),
    })
}

#[tactic(auto, unfolding(crate::specs::inner::Parts::parts_910))]
fn read_contents(
    alloc: Global,
    tables: &RefTables,
    fields: &[FieldLines<'_>],
    found: &Found,
) -> Result<Mt910, MtFault>
    requires few { length fields.now ≤ most_text_lines }
    ensures { Gives result (parts_910 tables.now fields.now found.now) }
{
    let booking = read_credit(alloc, tables, fields, found)?;
    let orderers = match read_orderers(alloc, tables, fields, found) {
        Ok(orderers) => orderers,
        Err(fault) => {
            let_go(booking);
            return Err(fault);
        }
    };
    match read_ending(alloc, tables, fields, found) {
        Ok(ending) => Ok(message(booking, orderers, ending)),
        Err(fault) => {
            let_go(booking);
            let_go(orderers);
            Err(fault)
        }
    }
}

fn c06(m: &Mt910) -> Option<Fault>
    ensures { result ≡ c06 m.now }
{
    if m.payer.is_some() || m.p52.is_some() {
        return None;
    }
    Some(Fault {
        code: C06,
        tag: *b"50 ",
        nth: 0,
    })
}

/// The confirmation of a credit that the fields of block 4 say.
///
/// `Bad` tells the first test that fails (docs/messages.md, "MT900 and MT910"): P22 and P23 of the order of fields; then each
/// content in the order of the text, with its field's tag and occurrence; then C06 with the tag 50 and occurrence 0, where
/// neither 50a nor 52a is there. Where no test of the fields fails they say a confirmation (`complete`), so there is no other
/// refusal. The amount is above zero and below 10^14 minor units (`amount`). `put_mt910` takes what fields of a text say
/// (`written`). There are at most 65,535 fields.
#[tactic(auto, using(crate::proofs::Complete::complete_910))]
pub fn read_mt910(alloc: Global, f: &[Field], t: &RefTables) -> Result<Mt910, MtFault>
    requires few { length f.now ≤ most_text_lines }
    ensures message { Gives result (mt910_of t.now f.now) }
    ensures amount { IfOk result (λ m. IsPayable m.amount) }
    ensures written { IsTrue (few_decimals t.now.ccys) → All IsField f.now → IfOk result (IsReadable mt910_of) }
    ensures complete { first_of (tests_910 t.now f.now) ≡ None
        → (m : Mt910Seen) × (contents_910 t.now f.now (places_from order_910 0 f.now) ≡ Ok m) }
{
    let lent = lend_fields(alloc, f)?;
    read_mt910_lines(alloc, lent.as_slice(), t)
}

/// As `read_mt910`, of fields whose lines stay in a text.
#[tactic(auto, using(crate::proofs::Complete::complete_910))]
pub fn read_mt910_lines(
    alloc: Global,
    f: &[FieldLines<'_>],
    t: &RefTables,
) -> Result<Mt910, MtFault>
    requires few { length f.now ≤ most_text_lines }
    ensures message { Gives result (mt910_of t.now f.now) }
    ensures amount { IfOk result (λ m. IsPayable m.amount) }
    ensures written { IsTrue (few_decimals t.now.ccys) → All IsField f.now → IfOk result (IsReadable mt910_of) }
    ensures complete { first_of (tests_910 t.now f.now) ≡ None
        → (m : Mt910Seen) × (contents_910 t.now f.now (places_from order_910 0 f.now) ≡ Ok m) }
{
    let found = check_structure(alloc, &ORDER_910, f)?;
    let m = read_contents(alloc, t, f, &found)?;
    match c06(&m) {
        Some(fault) => Err(MtFault::Bad(fault)),
        None => Ok(m),
    }
}
