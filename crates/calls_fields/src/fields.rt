//! Each call once; cases stand in rows (fields.rows).

ghost use Rattle.std.specs.Prelude.{◌≢◌, [], All, IfOk};
ghost use Rattle.fin_fields.specs.Writing.{IsField};

use corr_text::{List, Memory, Set, Text};
use fin_fields::{
    Field, FieldFault, FieldLines, Line, Pattern, are_x_runs, copy_lines, cut_fields, cut_lines,
    heading, is_of_x, is_run_of, is_x_run, lend_field, lend_fields, letter_of, lines_match,
    matches, nth_of, own_fields, put_fields, refill_lines, tag_of,
};
use std::alloc::Global;
use std::test::Fail;

// The fields of a short text.
#[tactic(auto, using(fin_fields::proofs::laws::Bounds::lines_few))]
fn cut(alloc: Global, text: &[u8]) -> Result<List<Field>, FieldFault>
    ensures { IfOk result (λ fields. (fields ≢ []) × All IsField fields) }
{
    if text.len() > 1000 {
        return Err(FieldFault::Memory);
    }
    cut_fields(alloc, text)
}

// The fields of a text, written again.
fn rewritten(alloc: Global, text: &[u8]) -> Result<Option<Text>, FieldFault> {
    let fields = cut(alloc, text)?;
    Ok(put_fields(alloc, fields.as_slice()).ok())
}

const THREE: Pattern = Pattern::Fixed {
    set: Set::A,
    len: 3,
};

// Whether it is the field `:71A:SHA`.
fn is_sha(f: &FieldLines<'_>) -> bool {
    tag_of(f) == *b"71A" && letter_of(f) == b'A' && lines_match(f.lines(), THREE)
}

// Whether the only one of some fields is `:71A:SHA`, and the first of its tag.
fn are_sha(fields: &[FieldLines<'_>]) -> bool {
    match fields {
        [f] => is_sha(f) && nth_of(fields, 0) == 1,
        _ => false,
    }
}

// The same of fields with lines of their own.
fn are_all_sha(alloc: Global, fields: &[Field]) -> Result<bool, Memory> {
    let lent = lend_fields(alloc, fields)?;
    Ok(are_sha(lent.as_slice()) && fields.iter().all(|f| matches(f, THREE)))
}

// How many lines a field has, once lent and copied.
fn count_lines(alloc: Global, f: &Field) -> Result<usize, Memory> {
    let lent = lend_field(alloc, f)?;
    Ok(copy_lines(alloc, lent.lines())?.as_slice().len())
}

// How many lines of a field are in a list where other texts stood.
fn count_refilled(
    alloc: Global,
    f: &FieldLines<'_>,
    mut texts: List<Text>,
) -> Result<usize, Memory> {
    refill_lines(alloc, f.lines(), &mut texts)?;
    Ok(texts.as_slice().len())
}

// The fields of a short text, the lines where they are.
#[tactic(auto, using(fin_fields::proofs::laws::Bounds::lines_few))]
fn cut_lent(alloc: Global, text: &[u8]) -> Result<List<FieldLines<'_>>, FieldFault> {
    if text.len() > 1000 {
        return Err(FieldFault::Memory);
    }
    cut_lines(alloc, text)
}

// Fields that are cut without copies, then kept.
fn kept(alloc: Global, text: &[u8]) -> Result<List<Field>, FieldFault> {
    let lent = cut_lent(alloc, text)?;
    Ok(own_fields(alloc, lent.as_slice())?)
}

// Whether a field is known to have bytes of set X alone, and has lines as those of a party.
fn is_plain_name(f: &FieldLines<'_>) -> bool {
    f.is_plain() && are_x_runs(4, 35, f.lines(), f.is_plain())
}

// How many fields of a short text are such.
fn count_names(alloc: Global, text: &[u8]) -> Result<usize, FieldFault> {
    let lent = cut_lent(alloc, text)?;
    Ok(lent.as_slice().iter().filter(|f| is_plain_name(f)).count())
}

#[test]
fn a_field_is_cut_and_written(rt: HostRuntime) -> Result<(), Fail> {
    let fields = cut(rt.alloc(), b":71A:SHA\n")?;
    assert!(rt; are_all_sha(rt.alloc(), fields.as_slice())?);
    assert!(rt; is_run_of(Set::A, 3, b"SHA"));
    match rewritten(rt.alloc(), b":71A:SHA\n")? {
        Some(text) => assert_eq!(rt; text.bytes(), b":71A:SHA\r\n".as_slice()),
        None => assert!(rt; false, "a text"),
    }
    Ok(())
}

#[test]
fn fields_are_lent_and_kept(rt: HostRuntime) -> Result<(), Fail> {
    let fields = kept(rt.alloc(), b":50K:/12\nA PAYER\nA TOWN\n:71A:SHA\n")?;
    assert_eq!(rt; fields.as_slice().len(), 2);
    assert_eq!(rt; count_lines(rt.alloc(), &fields.as_slice()[0])?, 3);
    Ok(())
}

#[test]
fn bytes_that_were_tested_are_known(rt: HostRuntime) -> Result<(), Fail> {
    assert_eq!(rt;
        count_names(rt.alloc(), b":50K:A PAYER\nA TOWN\n:71A:SHA\n")?,
        2
    );
    assert!(rt; is_of_x(b"SHA", false) && is_x_run(3, b"SHA", false));
    assert!(rt; !is_plain_name(&FieldLines::of_line(20, None, b"A")));
    Ok(())
}

// A field of two lines, the second added, with lines of its own.
fn lengthened(alloc: Global) -> Result<Field, Memory> {
    let mut f = FieldLines::of_line(50, Some(b'K'), b"A PAYER");
    f.add(alloc, b"A TOWN")?;
    f.to_owned(alloc)
}

// Whether a line is the second and last of a field.
fn ends_with(f: &Field, line: &Line<'_>) -> bool {
    match f.lines.as_slice() {
        [_, last] => last.bytes() == line.bytes(),
        _ => false,
    }
}

#[test]
fn a_field_takes_a_line_more(rt: HostRuntime) -> Result<(), Fail> {
    let f = FieldLines::of_line(50, Some(b'K'), b"A PAYER");
    assert!(rt; f.tag() == 50 && f.letter() == Some(b'K'));
    assert!(rt; ends_with(&lengthened(rt.alloc())?, &Line::of(b"A TOWN")));
    Ok(())
}

#[test]
fn lines_take_the_place_of_others(rt: HostRuntime) -> Result<(), Fail> {
    let f = FieldLines::of_line(20, None, b"A");
    let mut texts = List::new(rt.alloc());
    assert_eq!(rt; count_refilled(rt.alloc(), &f, List::new(rt.alloc()))?, 1);
    texts.push(Text::from_bytes(rt.alloc(), b"B")?)?;
    texts.push(Text::from_bytes(rt.alloc(), b"C")?)?;
    assert_eq!(rt; count_refilled(rt.alloc(), &f, texts)?, 1);
    Ok(())
}

// Whether a line begins the field of this tag and letter, with this behind it.
fn begins(line: &[u8], tag: u8, letter: Option<u8>, content: &[u8]) -> bool {
    heading(line).is_some_and(|h| h.tag == tag && h.letter == letter && h.content == content)
}

#[test]
fn a_heading_is_read(rt: HostRuntime) -> Result<(), Fail> {
    assert!(rt; begins(b":20:REF1", 20, None, b"REF1"));
    assert!(rt; begins(b":50K:/ACC", 50, Some(b'K'), b"/ACC"));
    assert!(rt; begins(b":71A:", 71, Some(b'A'), b""));
    for line in [
        &b""[..],
        b":",
        b":20",
        b":2:REF1",
        b"20:REF1",
        b":20k:REF1",
        b"A PAYER",
    ] {
        assert!(rt; heading(line).is_none());
    }
    Ok(())
}
