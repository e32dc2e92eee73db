//! An MT940 read from its fields.

ghost use Rattle.std.specs.Prelude.{◌≡◌, ◌≤◌, ◌<◌, All, IfErr, IfOk, IsTrue, None, OnOk, Some, false, length, take};
ghost use Rattle.corr_text.specs.First.{first_of};
ghost use Rattle.fin_fields.specs.Fields.{most_text_lines};
ghost use Rattle.fin_fields.specs.Writing.{IsField};
ghost use Rattle.fin_contents.specs.Writing.{IsReadable};
ghost use Rattle.fin_layout.specs.Reading.{Gives, Tells};
ghost use Rattle.fin_layout.specs.Tests.{lacking};
ghost use Rattle.mt950.specs.Order.{order_950};
ghost use Rattle.ref_tables.specs.Seen.{few_decimals};
ghost use Rattle.mt940_out.specs.inner.Faults.{earlier_fault, first_bad_note, is_ahead, structure_940};
ghost use Rattle.mt940_out.specs.Order.{fields_beside};
ghost use Rattle.mt940_out.specs.Page.{mt940_of, tests_940};

use crate::beside::{fields_beside, first_bad_note, notes_of, place_beside};
use crate::page::Page940;
use corr_text::Fault;
use fin_fields::{Field, FieldLines, lend_fields, tag_of};
use fin_layout::{MtFault, P22, P24, absent, fault_at, missing, places};
use mt950::{ORDER, read_mt950_lines};
use ref_tables::RefTables;
use std::alloc::Global;

/// Each field stands at its place, and each that must be there does. `all` are the fields, `beside` those without 86.
fn check_places(
    alloc: Global,
    fields: &[Field],
    all: &[FieldLines<'_>],
    beside: &[FieldLines<'_>],
) -> Result<(), MtFault>
    requires few { length fields.now ≤ most_text_lines }
    requires same { all.now ≡ fields.now }
    requires beside { beside.now ≡ fields_beside fields.now }
    ensures fault { IfErr result (Tells (first_of (structure_940 fields.now))) }
    ensures sound { OnOk result (first_of (structure_940 fields.now) ≡ None) }
{
    let found = places(alloc, &ORDER, beside)?;
    let placed = found.as_slice().len();
    if placed != beside.len() {
        return Err(MtFault::Bad(fault_at(all, place_beside(fields, placed), P22)));
    }
    match missing(&ORDER, found.as_slice()) {
        Some(at) => Err(MtFault::Bad(absent(&ORDER, at))),
        None => Ok(()),
    }
}

/// Whether a fault is that of one of the fields ahead: so many of them have its tag.
fn is_ahead(ahead: &[FieldLines<'_>], fault: &Fault) -> bool
    ensures { result ≡ is_ahead ahead.now fault.now }
{
    let alike = ahead.iter().filter(|f| tag_of(f) == fault.tag).count();
    fault.nth as usize <= alike
}

/// The fault that is told where the first 86 of another form stands at `at`: this one, where it is that of a field ahead of the 86,
/// else P24 of the 86.
fn earlier_fault(all: &[FieldLines<'_>], at: usize, fault: Fault) -> Fault
    requires few { length all.now ≤ most_text_lines }
    requires within { at < length all.now }
    ensures { result ≡ earlier_fault all.now at fault }
{
    if is_ahead(&all[..at], &fault) {
        return fault;
    }
    fault_at(all, at, P24)
}

/// The first fault where each field stands at its place and the 86 at `at` is the first of another form: that of a field ahead of
/// it, or P24 of the 86.
fn first_fault(
    alloc: Global,
    t: &RefTables,
    all: &[FieldLines<'_>],
    beside: &[FieldLines<'_>],
    at: usize,
) -> MtFault
    requires few { length all.now ≤ most_text_lines }
    requires beside { beside.now ≡ fields_beside all.now }
    requires short { length beside.now ≤ length all.now }
    requires sound { first_of (structure_940 all.now) ≡ None }
    requires bad { first_bad_note 0 false all.now ≡ Some at }
    requires within { at < length all.now }
    ensures { Tells (first_of (tests_940 t.now all.now)) result }
{
    match read_mt950_lines(alloc, beside, t) {
        Ok(_) => MtFault::Bad(fault_at(all, at, P24)),
        Err(MtFault::Memory) => MtFault::Memory,
        Err(MtFault::Bad(fault)) => MtFault::Bad(earlier_fault(all, at, fault)),
    }
}

/// The page of a customer's statement that the fields of block 4 say: 20, 25, 28C, 60a, then lines 61, each with an 86 behind it or
/// none, then 62a and 64 or none.
///
/// `Bad` tells the first test that fails (docs/messages.md, "MT940"): P22 and P23 of the order of fields; then each content in the
/// order of the text, where an 86 that isn't 1 to 6 lines of 65 characters is P24; then the rules of an MT950. `put_mt940` takes
/// what fields of a text say (`written`). There are at most 65,535 fields.
#[tactic(auto, unfolding(crate::specs::Page::mt940_of))]
pub fn read_mt940(alloc: Global, f: &[Field], t: &RefTables) -> Result<Page940, MtFault>
    requires few { length f.now ≤ most_text_lines }
    ensures message { Gives result (mt940_of t.now f.now) }
    ensures written { IsTrue (few_decimals t.now.ccys) → All IsField f.now → IfOk result (IsReadable mt940_of) }
{
    let all = lend_fields(alloc, f)?;
    let beside = fields_beside(alloc, f)?;
    check_places(alloc, f, all.as_slice(), beside.as_slice())?;
    match first_bad_note(f) {
        Some(at) => Err(first_fault(alloc, t, all.as_slice(), beside.as_slice(), at)),
        None => {
            let page = read_mt950_lines(alloc, beside.as_slice(), t)?;
            Ok(Page940 {
                page,
                notes: notes_of(alloc, f)?,
            })
        }
    }
}
