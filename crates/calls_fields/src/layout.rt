//! Each call once; cases stand in rows (layout.rows).

ghost use Rattle.std.specs.Prelude.{[], slice_get};
ghost use Rattle.corr_text.specs.First.{or_fault};
ghost use Rattle.fin_layout.specs.declared.fault.TheConstants.{P24 as WrongFormat};

use corr_text::{List, Memory, Text};
use fin_fields::FieldLines;
use fin_layout::{
    Content, Found, MtFault, P23, P24, Place, Refill, Refusal, absent, check_structure, fault_at,
    fill_all, fill_one, fill_optional, fill_structure, find, missing, places, put_places, read_all,
    read_one, read_optional, refusal, takes_any,
};
use std::alloc::Global;
use std::test::Fail;

// Field 20, which must be there.
const ORDER: [Place; 1] = [Place {
    tag: 20,
    options: *b"    ",
    many: false,
    must: true,
}];

#[derive(Drop)]
struct FirstLine;

impl Content for FirstLine {
    type Value = Text;

    ghost meaning = { λ _ f. or_fault (slice_get f.lines 0) WrongFormat };

    fn read(&self, alloc: Global, f: &FieldLines<'_>) -> Result<Text, Refusal> {
        match f.lines().first() {
            Some(line) => Ok(line.copy(alloc)?),
            None => Err(Refusal::Bad(P24)),
        }
    }
}

impl Refill for FirstLine {
    fn refill(&self, _alloc: Global, f: &FieldLines<'_>, value: &mut Text) -> Result<(), Refusal> {
        match f.lines().first() {
            Some(line) => Ok(value.refill(line.bytes())?),
            None => Err(Refusal::Bad(P24)),
        }
    }
}

fn reference<'a>() -> FieldLines<'a> {
    FieldLines::of_line(20, None, b"A")
}

// Calls go through functions that promise nothing: a test then carries none of what a call promises.

fn is_first(places: &[usize]) -> bool {
    places == [0].as_slice()
}

fn is_in_place(alloc: Global, fields: &[FieldLines<'_>; 1]) -> Result<bool, MtFault> {
    Ok(is_first(check_structure(alloc, &ORDER, fields)?.as_slice()))
}

fn takes_its_place(alloc: Global, fields: &[FieldLines<'_>; 1]) -> Result<bool, Memory> {
    Ok(is_first(places(alloc, &ORDER, fields)?.as_slice()))
}

fn is_found(alloc: Global, fields: &[FieldLines<'_>; 1]) -> Result<bool, Memory> {
    let found = places(alloc, &ORDER, fields)?;
    Ok(find(fields, &found, 0).is_some())
}

#[test]
fn a_field_takes_its_place(rt: HostRuntime) -> Result<(), Fail> {
    let fields = [reference()];
    assert!(rt; is_in_place(rt.alloc(), &fields)?);
    assert!(rt; takes_its_place(rt.alloc(), &fields)?);
    assert!(rt; is_found(rt.alloc(), &fields)?);
    assert_eq!(rt; fault_at(&fields, 0, P24).nth, 1);
    Ok(())
}

// Whether the first place alone is taken.
fn takes_the_first(found: &Found) -> bool {
    is_first(found.as_slice()) && takes_any(found, 0, 0) && !takes_any(found, 1, 2)
}

// Whether places stand where others stood.
fn is_put_again(alloc: Global, fields: &[FieldLines<'_>; 1]) -> Result<bool, MtFault> {
    let mut found = Found::new(alloc);
    put_places(&ORDER, fields, &mut found)?;
    let first = takes_the_first(&found);
    fill_structure(&ORDER, fields, &mut found)?;
    Ok(first && takes_the_first(&found))
}

// Whether places are forgotten.
fn is_cleared(alloc: Global, fields: &[FieldLines<'_>; 1]) -> Result<bool, Memory> {
    let mut found = places(alloc, &ORDER, fields)?;
    found.clear();
    Ok(found.as_slice().is_empty() && !takes_any(&found, 0, 0))
}

#[test]
fn places_take_the_place_of_others(rt: HostRuntime) -> Result<(), Fail> {
    let fields = [reference()];
    assert!(rt; is_put_again(rt.alloc(), &fields)?);
    assert!(rt; is_cleared(rt.alloc(), &fields)?);
    Ok(())
}

#[test]
fn a_missing_field_is_told(rt: HostRuntime) {
    assert_eq!(rt; missing(&ORDER, &[]), Some(0));
    assert_eq!(rt; absent(&ORDER, 0).code, P23);
}

fn one(alloc: Global, fields: &[FieldLines<'_>; 1]) -> Result<Text, MtFault> {
    let found = places(alloc, &ORDER, fields)?;
    read_one(alloc, &FirstLine, &ORDER, fields, &found, 0)
}

// What the field says, in the place of a longer text.
fn filled(alloc: Global, fields: &[FieldLines<'_>; 1]) -> Result<Text, MtFault> {
    let found = places(alloc, &ORDER, fields)?;
    let mut value = Text::from_bytes(alloc, b"OTHER")?;
    fill_one(alloc, &FirstLine, &ORDER, fields, &found, 0, &mut value)?;
    Ok(value)
}

fn second(alloc: Global, fields: &[FieldLines<'_>; 1]) -> Result<Option<Text>, MtFault> {
    let found = places(alloc, &ORDER, fields)?;
    read_optional(alloc, &FirstLine, fields, &found, 1)
}

fn count(alloc: Global, fields: &[FieldLines<'_>; 1]) -> Result<usize, MtFault> {
    let found = places(alloc, &ORDER, fields)?;
    Ok(
        read_all(alloc, &FirstLine, fields, &found, 0)?
            .as_slice()
            .len(),
    )
}

// What an optional place says, in the place of a text.
fn may_fill(
    alloc: Global,
    fields: &[FieldLines<'_>; 1],
    place: usize,
) -> Result<Option<Text>, MtFault> {
    let found = places(alloc, &ORDER, fields)?;
    let mut value = Some(Text::from_bytes(alloc, b"OTHER")?);
    fill_optional(alloc, &FirstLine, fields, &found, place, &mut value)?;
    Ok(value)
}

// How many fields at a place are read into a list of one text.
fn count_filled(
    alloc: Global,
    fields: &[FieldLines<'_>; 1],
    place: usize,
) -> Result<usize, MtFault> {
    let found = places(alloc, &ORDER, fields)?;
    let mut all = read_all(alloc, &FirstLine, fields, &found, 0)?;
    fill_all(alloc, &FirstLine, fields, &found, place, &mut all)?;
    Ok(all.as_slice().len())
}

#[test]
fn a_field_is_read_by_its_place(rt: HostRuntime) -> Result<(), Fail> {
    let fields = [reference()];
    assert_eq!(rt; one(rt.alloc(), &fields)?.bytes(), b"A".as_slice());
    assert_eq!(rt; filled(rt.alloc(), &fields)?.bytes(), b"A".as_slice());
    assert!(rt; second(rt.alloc(), &fields)?.is_none());
    assert_eq!(rt; count(rt.alloc(), &fields)?, 1);
    Ok(())
}

#[test]
fn a_field_without_lines_is_refused(rt: HostRuntime) -> Result<(), Fail> {
    let bare = FieldLines::of_lines(20, None, List::new(rt.alloc()));
    assert_eq!(rt; refusal(rt.alloc(), &FirstLine, &bare)?, Some(P24));
    Ok(())
}

#[test]
fn fields_are_read_where_others_stood(rt: HostRuntime) -> Result<(), Fail> {
    let fields = [reference()];
    assert!(rt; may_fill(rt.alloc(), &fields, 0)?.is_some());
    assert!(rt; may_fill(rt.alloc(), &fields, 1)?.is_none());
    assert_eq!(rt; count_filled(rt.alloc(), &fields, 0)?, 1);
    assert_eq!(rt; count_filled(rt.alloc(), &fields, 1)?, 0);
    Ok(())
}
