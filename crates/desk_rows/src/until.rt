//! Each account's totals up to a day.

ghost use Rattle.std.specs.Prelude.{◌≡◌, [], IfOk, length};
ghost use Rattle.day_model.specs.Chart.{accounts_of};
ghost use Rattle.day_model.specs.Legal.{IsLegal};
ghost use Rattle.day_model.specs.Totals.{HasTotals};
ghost use Rattle.desk_rows.specs.Until.{entries_until, is_until};
ghost use Rattle.desk_rows.specs.inner.Until.{legs_until};

use corr_ids::Day;
use corr_text::Memory;
use day_model::{Accounts, Entry, History, Leg, add_legs, legs_booked};
use std::alloc::Global;

/// Whether an entry is of no later day than one that is told.
fn counts(entry: &Entry, until: Option<Day>) -> bool
    ensures { result ≡ is_until until entry.now }
{
    match until {
        Some(day) => entry.day.0 <= day.0,
        None => true,
    }
}

/// The legs that an entry books, where it is of no later day; else none.
fn counted_legs(entry: &Entry, until: Option<Day>) -> &[Leg]
    ensures { result.now ≡ legs_until until entry.now }
{
    if counts(entry, until) {
        legs_booked(entry)
    } else {
        &[]
    }
}

/// Each account's credits and debits over the booked entries up to a day, in minor units; account 1's come first.
pub fn totals_until(
    alloc: Global,
    a: &Accounts,
    h: &History,
    until: Option<Day>,
) -> Result<Vec<(u64, u64)>, Memory>
    requires legal { IsLegal a.now h.now.entries }
    ensures value { IfOk result (λ pairs. HasTotals pairs.items (length (accounts_of a.now)) (entries_until until h.now.entries)) }
{
    let mut pairs = vec![in alloc; (0, 0); a.count() as usize]?;
    for at in 0..h.len() {
        add_legs(&mut pairs, counted_legs(h.get(at + 1), until));
    }
    Ok(pairs)
}
