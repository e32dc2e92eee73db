//! A page of a customer's statement as a message.

ghost use Rattle.std.specs.Prelude.{◌≡◌, ◌≤◌, All, IfOk, OnOk, map};
ghost use Rattle.corr_ids.specs.Bic.{IsBic};
ghost use Rattle.day_model.specs.declared.entry.Entry.{Entry};
ghost use Rattle.fin_contents.specs.Writing.{IsReadable};
ghost use Rattle.mt950.specs.Page.{mt950_of};
ghost use Rattle.statement.specs.Valid.{AreShaped};
ghost use Rattle.mt940_out.specs.Notes.{note_at};
ghost use Rattle.mt940_out.specs.Pages.{customer_message, noted_page};
ghost use Rattle.mt940_out.specs.Valid.{IsSent};
ghost use Rattle.mt940_out.specs.inner.Writing.{IsNote};

use crate::note::note_of;
use crate::writing::put_noted;
use corr_ids::Bic;
use corr_text::{List, Memory, Text};
use day_model::History;
use fin_blocks::put_blocks;
use statement::PlacedPage;
use std::alloc::Global;

/// The note of the entry at a place, from 1; none where there is no entry.
fn note_at(alloc: Global, h: &History, place: u32) -> Result<List<Text>, Memory>
    requires { AreShaped h.now.entries }
    ensures value { IfOk result (λ note. note ≡ note_at h.now.entries place) }
    ensures fit { IfOk result IsNote }
{
    if place == 0 || place > h.len() {
        return Ok(List::new(alloc));
    }
    note_of(alloc, &h.get(place).pay)
}

/// The notes of the entries at these places.
fn notes_at(alloc: Global, h: &History, places: &[u32]) -> Result<List<List<Text>>, Memory>
    requires { AreShaped h.now.entries }
    ensures value { IfOk result (λ notes. notes ≡ map (note_at h.now.entries) places.now) }
    ensures fit { IfOk result (All IsNote) }
{
    let mut notes = List::with_room(alloc, places.len())?;
    for place in places {
        notes.push(note_at(alloc, h, *place)?)?;
    }
    Ok(notes)
}

/// The message of a page, each line with the note of its entry, from the home bank to itself.
pub fn customer_message(
    alloc: Global,
    home: &Bic,
    h: &History,
    placed: &PlacedPage,
) -> Result<Text, Memory>
    requires home { IsBic home.now }
    requires shaped { AreShaped h.now.entries }
    requires readable { IsReadable mt950_of placed.now.page }
    ensures value { IfOk result (λ text. text ≡ customer_message home.now (noted_page h.now.entries placed.now)) }
    ensures sent { OnOk result (IsSent home.now (noted_page h.now.entries placed.now)) }
{
    let notes = notes_at(alloc, h, placed.places.as_slice())?;
    let text = put_noted(alloc, &placed.page, notes.as_slice())?;
    put_blocks(alloc, home, 940, home, &[], text.bytes())
}
