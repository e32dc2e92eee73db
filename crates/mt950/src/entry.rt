//! Statement lines: field 61.

ghost use Rattle.std.specs.Prelude.{◌≡◌, ◌<◌, ◌≤◌, IfOk, option_map};
ghost use Rattle.corr_money.specs.Amounts.{amount_end, most_decimals};
ghost use Rattle.fin_layout.specs.Reading.{Reads};
ghost use Rattle.mt950.specs.Entry.{effect_of, line_of};
ghost use Rattle.mt950.specs.Writing.{mark_text};

use crate::parts::{detail_in, parts_in};
use corr_ids::{Day, day_from_yymmdd};
use corr_money::Minor;
use corr_text::{Memory, Text};
use fin_contents::{T50, minor_in};
use fin_fields::FieldLines;
use fin_layout::{P24, Refusal};
use std::alloc::Global;

/// The side of a statement line: credit, debit, and the reversals of a credit and of a debit.
#[derive(Clone, Copy, Debug, PartialEq, Eq)]
pub enum Mark {
    C,
    D,
    RC,
    RD,
}

impl Mark {
    /// The letters of the mark, as field 61 and a report of breaks write it: C, D, RC or RD.
    pub fn letters(self) -> &'static [u8]
        ensures { result.now ≡ mark_text self }
    {
        match self {
            Mark::C => b"C",
            Mark::D => b"D",
            Mark::RC => b"RC",
            Mark::RD => b"RD",
        }
    }
}

/// A statement line.
///
/// Example: `2406030603D1234,50S103REF1//P00000001` is a debit of 123450 cents of EUR, with the value date 3 June 2024, booked on
/// 3 June, for the MT103 that the owner knows as REF1 and the bank as P00000001.
#[derive(Debug, Drop)]
pub struct Line61 {
    /// The value date.
    pub value: Day,
    /// The entry date, month and day in four digits (MMDD), if there is one. No calendar is asked.
    pub entry: Option<[u8; 4]>,
    /// Whether it is a credit or a debit, or reverses one.
    pub mark: Mark,
    /// The funds code, a capital letter, if there is one.
    pub funds: Option<u8>,
    /// The amount in minor units of the statement's currency.
    pub amount: Minor,
    /// The type of the transaction: S and a message type, or N or F and a code.
    pub kind: [u8; 4],
    /// The reference of the account's owner.
    pub reference: Text,
    /// The reference of the bank that holds the account, if there is one.
    pub servicer: Option<Text>,
    /// The further line, if there is one.
    pub detail: Option<Text>,
}

fn copy_part(alloc: Global, part: Option<&[u8]>) -> Result<Option<Text>, Memory>
    ensures { IfOk result (λ t. t ≡ option_map (λ b. b.now) part.entry) }
{
    match part {
        Some(part) => Ok(Some(Text::from_bytes(alloc, part)?)),
        None => Ok(None),
    }
}

fn copy_text(alloc: Global, text: &Option<Text>) -> Result<Option<Text>, Memory>
    ensures { IfOk result (λ t. t ≡ text.now) }
{
    match text {
        Some(text) => Ok(Some(text.copy(alloc)?)),
        None => Ok(None),
    }
}

/// What a field says as a statement line in a currency of so many decimals, as `StatementLine` tells it.
#[tactic(auto, unfolding(crate::specs::Entry::line_of))]
pub fn read_line(alloc: Global, decimals: u8, f: &FieldLines<'_>) -> Result<Line61, Refusal>
    requires { decimals ≤ most_decimals }
    ensures { Reads result (line_of decimals f.now) }
{
    let Some((line, detail)) = detail_in(f.lines()) else {
        return Err(Refusal::Bad(P24));
    };
    let Some(parts) = parts_in(line) else {
        return Err(Refusal::Bad(P24));
    };
    let Some(value) = day_from_yymmdd(parts.date) else {
        return Err(Refusal::Bad(T50));
    };
    let amount = match minor_in(decimals, parts.amount) {
        Ok(amount) => amount,
        Err(code) => return Err(Refusal::Bad(code)),
    };
    Ok(Line61 {
        value,
        entry: parts.entry,
        mark: parts.mark,
        funds: parts.funds,
        amount,
        kind: parts.kind,
        reference: Text::from_bytes(alloc, parts.reference)?,
        servicer: copy_part(alloc, parts.servicer)?,
        detail: copy_part(alloc, detail)?,
    })
}

impl Line61 {
    /// The same line once more.
    pub fn copy(&self, alloc: Global) -> Result<Line61, Memory>
        ensures { IfOk result (λ line. line ≡ self.now) }
    {
        Ok(Line61 {
            value: self.value,
            entry: self.entry,
            mark: self.mark,
            funds: self.funds,
            amount: self.amount,
            kind: self.kind,
            reference: self.reference.copy(alloc)?,
            servicer: copy_text(alloc, &self.servicer)?,
            detail: copy_text(alloc, &self.detail)?,
        })
    }

    /// What the line adds to the balance, in minor units: its amount where its mark is C or RD, less it where it is D or RC.
    pub fn effect(&self) -> i64
        requires { self.now.amount.0 < amount_end }
        ensures { result ≡ effect_of self.now }
    {
        match self.mark {
            Mark::C | Mark::RD => self.amount.0 as i64,
            Mark::D | Mark::RC => -(self.amount.0 as i64),
        }
    }
}
