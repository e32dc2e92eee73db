//! Fields added after those of a message that stand already. Where memory runs out, those alone stand there.

ghost use Rattle.std.specs.Prelude.{◌≡◌, ◌++◌, All, IfSome, None, OnErr, OnOk, Some, map};
ghost use Rattle.fin_contents.specs.Writing.{IsAmount, ccy_amount_field, line_field, lines_fields, some_field};
ghost use Rattle.fin_parties.specs.Writing.{party_field};

use crate::amount::put_ccy_amount;
use crate::party::put_known_party;
use crate::rate::put_rate;
use crate::texts::put_texts;
use crate::time::put_time;
use corr_money::Amount;
use corr_text::{List, Memory, Text};
use fin_fields::Field;
use fin_parties::Party;
use std::alloc::Global;

/// Adds each time, as field 13C. `Memory`: there was no room; then nothing was added.
pub fn push_times(alloc: Global, times: &[Text], fields: &mut List<Field>) -> Result<(), Memory>
    ensures ok { OnOk result (fields.new ≡ fields.old ++ map (line_field 13 (Some 67)) times.now) }
    ensures err { OnErr result (fields.new ≡ fields.old) }
{
    let mut added = List::new(alloc);
    for time in times {
        added.push(put_time(alloc, time)?)?;
    }
    fields.append(added)
}

/// Adds a rate, if there is one, as field 36. `Memory`: there was no room; then nothing was added.
pub fn push_rate(alloc: Global, rate: &Option<Text>, fields: &mut List<Field>) -> Result<(), Memory>
    ensures ok { OnOk result (fields.new ≡ fields.old ++ some_field (line_field 36 None) rate.now) }
    ensures err { OnErr result (fields.new ≡ fields.old) }
{
    match rate {
        Some(rate) => fields.push(put_rate(alloc, rate)?),
        None => Ok(()),
    }
}

/// Adds a currency and an amount, if there are any, as a field of this tag and letter. `Memory`: there was no room; then
/// nothing was added.
pub fn push_ccy_amount(
    alloc: Global,
    tag: u8,
    letter: Option<u8>,
    amount: &Option<Amount>,
    fields: &mut List<Field>,
) -> Result<(), Memory>
    requires { IfSome amount.now IsAmount }
    ensures ok { OnOk result (fields.new ≡ fields.old ++ some_field (ccy_amount_field tag letter) amount.now) }
    ensures err { OnErr result (fields.new ≡ fields.old) }
{
    match amount {
        Some(amount) => fields.push(put_ccy_amount(alloc, tag, letter, amount)?),
        None => Ok(()),
    }
}

/// Adds each currency and amount, as fields of this tag and letter. `Memory`: there was no room; then nothing was added.
pub fn push_ccy_amounts(
    alloc: Global,
    tag: u8,
    letter: Option<u8>,
    amounts: &[Amount],
    fields: &mut List<Field>,
) -> Result<(), Memory>
    requires { All IsAmount amounts.now }
    ensures ok { OnOk result (fields.new ≡ fields.old ++ map (ccy_amount_field tag letter) amounts.now) }
    ensures err { OnErr result (fields.new ≡ fields.old) }
{
    let mut added = List::new(alloc);
    for amount in amounts {
        added.push(put_ccy_amount(alloc, tag, letter, amount)?)?;
    }
    fields.append(added)
}

/// Adds a party, if there is one, as a field of this tag. `Memory`: there was no room; then nothing was added.
pub fn push_party(
    alloc: Global,
    tag: u8,
    party: &Option<Party>,
    fields: &mut List<Field>,
) -> Result<(), Memory>
    ensures ok { OnOk result (fields.new ≡ fields.old ++ some_field (party_field tag) party.now) }
    ensures err { OnErr result (fields.new ≡ fields.old) }
{
    match party {
        Some(party) => fields.push(put_known_party(alloc, tag, party)?),
        None => Ok(()),
    }
}

/// Adds lines of text, if there are any, as a field of this tag and letter. `Memory`: there was no room; then nothing was
/// added.
pub fn push_texts(
    alloc: Global,
    tag: u8,
    letter: Option<u8>,
    lines: &[Text],
    fields: &mut List<Field>,
) -> Result<(), Memory>
    ensures ok { OnOk result (fields.new ≡ fields.old ++ lines_fields tag letter lines.now) }
    ensures err { OnErr result (fields.new ≡ fields.old) }
{
    match lines {
        [] => Ok(()),
        [_, ..] => fields.push(put_texts(alloc, tag, letter, lines)?),
    }
}
