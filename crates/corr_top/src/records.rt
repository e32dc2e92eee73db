//! The records of a journal.

ghost use Rattle.std.specs.Prelude.{◌≡◌, ◌≤◌, ◌∷◌, ◌+◌, All, IfNone, IfOk, IfSome, List, OnOk, length};
ghost use Rattle.day_model.specs.declared.change.Change.{Change as TheChange};
ghost use Rattle.day_model.specs.declared.change.What.{What as TheWhat};
ghost use Rattle.jrn_book.specs.Journal.{IsJournal, item_records};
ghost use Rattle.jrn_codec.specs.Change.{IsWhat, change_bytes};
ghost use Rattle.jrn_codec.specs.Record.{IsEntry, entry_bytes};
ghost use Rattle.jrn_file.specs.Reading.{most_record_bytes};
ghost use Rattle.corr_top.specs.inner.Ship.{AddsDue, AreDue};

use corr_text::{Buf, Memory, Text};
use day_model::{Accounts, Change, Entry, History, What};
use jrn_codec::{put_change, put_entry};
use std::alloc::Global;

/// The record of an entry, which is written in a room for records first.
pub fn record_of(alloc: Global, entry: &Entry, room: &mut Buf) -> Result<Text, Memory>
    requires { IsEntry entry.now }
    ensures value { IfOk result (λ text. text ≡ entry_bytes entry.now) }
    ensures few { length (entry_bytes entry.now) ≤ most_record_bytes }
{
    room.clear();
    put_entry(entry, room)?;
    Text::from_bytes(alloc, room.bytes())
}

/// The record of a change.
fn change_record(alloc: Global, what: &What) -> Result<Text, Memory>
    requires { IsWhat what.now }
    ensures value { IfOk result (λ text. text ≡ change_bytes what.now) }
    ensures few { IfOk result (λ text. length text ≤ most_record_bytes) }
{
    let mut text = Text::from_bytes(alloc, b"")?;
    put_change(what, &mut text)?;
    Ok(text)
}

/// What the first change is, and the changes after it, where it came directly after so many entries.
fn cut_due(changes: &[Change], after: u32) -> Option<(&What, &[Change])>
    ensures some { IfSome result (λ cut. changes.now ≡ record { after = after; what = cut.0.now } ∷ cut.1.now) }
    ensures none { IfNone result ((what : TheWhat) (more : List TheChange) → changes.now ≡ record { after = after; what = what } ∷ more → ⊥) }
{
    match changes {
        [change, more @ ..] if change.after == after => Some((&change.what, more)),
        _ => None,
    }
}

/// Adds the records of the changes in front that came directly after so many entries, and tells the changes that are left.
fn push_due<'a>(
    alloc: Global,
    changes: &'a [Change],
    after: u32,
    records: &mut Vec<Text>,
) -> Result<&'a [Change], Memory>
    requires due { AreDue after changes.now }
    requires short { All (λ r. length r ≤ most_record_bytes) records.old.items }
    ensures added { IfOk result (λ rest. AddsDue after records.old.items changes.now records.new.items rest.now) }
    ensures due { IfOk result (λ rest. AreDue (after + 1) rest.now) }
    ensures short { OnOk result (All (λ r. length r ≤ most_record_bytes) records.new.items) }
{
    let mut rest = changes;
    while let Some((what, more)) = cut_due(rest, after) {
        records.push(change_record(alloc, what)?)?;
        rest = more;
    }
    Ok(rest)
}

/// The records of a journal behind its header: of its entries, and of the changes among them, in their order.
pub fn item_texts(alloc: Global, a: &Accounts, h: &History) -> Result<Vec<Text>, Memory>
    requires { IsJournal a.now h.now.entries }
    ensures value { IfOk result (λ records. records.items ≡ item_records a.now h.now.entries) }
    ensures few { IfOk result (λ records. All (λ r. length r ≤ most_record_bytes) records.items) }
{
    let mut room = Buf::new(alloc);
    let mut records = Vec::new(alloc);
    let mut rest = a.changes();
    for place in 1..h.len() + 1 {
        rest = push_due(alloc, rest, place - 1, &mut records)?;
        records.push(record_of(alloc, h.get(place), &mut room)?)?;
    }
    push_due(alloc, rest, h.len(), &mut records)?;
    Ok(records)
}
