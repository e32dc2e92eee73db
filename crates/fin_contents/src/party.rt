//! Parties: fields 50a to 59a.

ghost use Rattle.std.specs.Prelude.{◌≡◌, IfOk, Ok};
ghost use Rattle.fin_contents.specs.Parties.{is_known, known_party_of};
ghost use Rattle.fin_fields.specs.Writing.{IsField};
ghost use Rattle.fin_fields.specs.declared.field.Field.{Field as FieldSeen};
ghost use Rattle.fin_layout.specs.Reading.{Reads, Refills};
ghost use Rattle.fin_parties.specs.Writing.{party_field};
ghost use Rattle.ref_tables.specs.Seen.{Tables};

use crate::codes::P25;
use corr_text::Memory;
use fin_fields::{Field, FieldLines};
use fin_layout::{Content, P24, Refill, Refusal};
use fin_parties::{Party, PartyFault, fill_party, put_party, read_party_lines};
use ref_tables::RefTables;
use std::alloc::Global;

/// A party. P24: the field is not in the grammar of its tag and letter. P25: the head of its BIC is not in the table of
/// banks.
#[derive(Clone, Copy)]
pub struct KnownParty<'a> {
    pub tables: &'a RefTables,
}

fn is_known(tables: &RefTables, p: &Party) -> bool
    ensures { result ≡ is_known tables.now p.now }
{
    match p {
        Party::A { bic, .. } => tables.has_bic(&bic.head),
        _ => true,
    }
}

#[tactic(auto, unfolding(crate::specs::Parties::known_party_of))]
fn read_known_party(alloc: Global, tables: &RefTables, f: &FieldLines<'_>) -> Result<Party, Refusal>
    ensures { Reads result (known_party_of tables.now f.now) }
{
    let p = match read_party_lines(alloc, f) {
        Ok(p) => p,
        Err(PartyFault::P24) => return Err(Refusal::Bad(P24)),
        Err(PartyFault::Memory) => return Err(Refusal::Memory),
    };
    if !is_known(tables, &p) {
        return Err(Refusal::Bad(P25));
    }
    Ok(p)
}

impl Content for KnownParty<'_> {
    type Value = Party;

    ghost meaning = { λ c f. known_party_of c.tables.now f };

    fn read(&self, alloc: Global, f: &FieldLines<'_>) -> Result<Party, Refusal> {
        read_known_party(alloc, self.tables, f)
    }
}

#[tactic(auto, unfolding(crate::specs::Parties::known_party_of))]
fn fill_known_party(
    alloc: Global,
    tables: &RefTables,
    f: &FieldLines<'_>,
    place: &mut Party,
) -> Result<(), Refusal>
    ensures { Refills result place.new (known_party_of tables.now f.now) }
{
    match fill_party(alloc, f, place) {
        Ok(()) if is_known(tables, place) => Ok(()),
        Ok(()) => Err(Refusal::Bad(P25)),
        Err(PartyFault::P24) => Err(Refusal::Bad(P24)),
        Err(PartyFault::Memory) => Err(Refusal::Memory),
    }
}

impl Refill for KnownParty<'_> {
    fn refill(&self, alloc: Global, f: &FieldLines<'_>, value: &mut Party) -> Result<(), Refusal> {
        fill_known_party(alloc, self.tables, f, value)
    }
}

/// Writes a party as a field of this tag. What was read under some tables from a field of that tag is read again from it, the
/// letters of both are one, and the written field may stand in a text where the other did.
pub fn put_known_party(alloc: Global, tag: u8, p: &Party) -> Result<Field, Memory>
    ensures field { IfOk result (λ f. f ≡ party_field tag p.now) }
    ensures again { IfOk result (λ f. (t : Tables) (read : FieldSeen) → read.tag ≡ tag → known_party_of t read ≡ Ok p.now → known_party_of t f ≡ Ok p.now) }
    ensures letter { IfOk result (λ f. (t : Tables) (read : FieldSeen) → read.tag ≡ tag → known_party_of t read ≡ Ok p.now → f.letter ≡ read.letter) }
    ensures fit { IfOk result (λ f. (t : Tables) (read : FieldSeen) → read.tag ≡ tag → known_party_of t read ≡ Ok p.now → IsField read → IsField f) }
{
    put_party(alloc, tag, p)
}
