//! The entries of a journal as lines.

ghost use Rattle.std.specs.Prelude.{◌≡◌, ◌++◌, ◌-◌, ◌≤◌, IfOk, OnOk, Some, length, slice_get};
ghost use Rattle.corr_ids.specs.Day.{InCentury};
ghost use Rattle.day_model.specs.Fit.{FitsAccounts};
ghost use Rattle.day_model.specs.Legal.{IsLegal};
ghost use Rattle.day_model.specs.declared.entry.Entry.{Entry as TheEntry};
ghost use Rattle.corr_report.specs.Bookings.{AreInCentury, booking_line, bookings_of};
ghost use Rattle.corr_report.specs.inner.Outcomes.{NamesLeg};

use crate::outcome::put_outcome;
use crate::words::put_word;
use corr_ids::put_yymmdd;
use corr_text::{Memory, Text, put_digits};
use day_model::{Accounts, Entry, History};
use std::alloc::Global;

fn put_line(
    alloc: Global,
    a: &Accounts,
    place: u32,
    entry: &Entry,
    out: &mut Text,
) -> Result<(), Memory>
    requires fits { FitsAccounts a.now entry.now.pay }
    requires leg { NamesLeg (length entry.now.pay.legs) entry.now.outcome }
    requires day { InCentury entry.now.day }
    ensures { OnOk result (out.new ≡ out.old ++ booking_line a.now place entry.now) }
{
    put_digits(alloc, place as u64, 8, out)?;
    out.push(b" ")?;
    put_yymmdd(entry.day, out)?;
    put_word(&entry.pay.mir.0, out)?;
    put_outcome(alloc, a, entry, out)?;
    out.push(b"\n")
}

/// The entries of a journal, a line each: its place, its day, its message's MIR, and `BOOKED` with all legs (`D` or
/// `C`, the account's id and the amount) or `UNFUNDED` with the account of the failing leg and its balance then
/// (docs/operating.md, "Bookings"). The history is legal for the accounts, and each entry has a day from 1980 to 2079.
///
/// `Memory`: there was no room for the text.
pub fn bookings(alloc: Global, a: &Accounts, h: &History) -> Result<Text, Memory>
    requires legal { IsLegal a.now h.now.entries }
    requires days { AreInCentury h.now.entries }
    ensures { IfOk result (λ text. text ≡ bookings_of a.now h.now.entries) }
{
    let mut out = Text::from_bytes(alloc, b"")?;
    for place in 1..h.len() + 1 {
        put_line(alloc, a, place, h.get(place), &mut out)?;
    }
    Ok(out)
}

/// The line of the entry at a place, counted from 1, as `bookings` has it. The history is legal for the accounts and has this place,
/// and each entry has a day from 1980 to 2079.
///
/// `Memory`: there was no room for the line.
pub fn booking(alloc: Global, a: &Accounts, h: &History, place: u32) -> Result<Text, Memory>
    requires legal { IsLegal a.now h.now.entries }
    requires days { AreInCentury h.now.entries }
    requires from_one { 1 ≤ place }
    requires there { place ≤ length h.now.entries }
    ensures { IfOk result (λ text. (entry : TheEntry) → slice_get h.now.entries (place - 1) ≡ Some entry → text ≡ booking_line a.now place entry) }
{
    let mut out = Text::from_bytes(alloc, b"")?;
    put_line(alloc, a, place, h.get(place), &mut out)?;
    Ok(out)
}
