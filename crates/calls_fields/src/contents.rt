//! Each call once; cases stand in rows (contents.rows). Calls go through functions that promise nothing: a test
//! then carries none of what a call promises.

use corr_ids::Day;
use corr_money::{Amount, Ccy, Minor};
use corr_text::{List, Memory, Set, Text, is_all_of};
use fin_contents::{
    CcyAmount, KnownParty, Rate, Reference, ShortLine, Texts, Time, Value, ValueDate, array_of,
    ccy_amount_in, first_slash, is_clock, is_dated_amount, line_field, minor_in, one_line, or_none,
    push_ccy_amount, push_ccy_amounts, push_party, push_rate, push_texts, push_times,
    put_ccy_amount, put_ccy_amount_text, put_known_party, put_rate, put_reference, put_short_line,
    put_texts, put_time, put_value,
};
use fin_fields::{Field, FieldLines, lend_field};
use fin_layout::{Content, Refill, Refusal};
use fin_parties::Party;
use ref_tables::{RefTables, TableFault, read_tables};
use std::alloc::Global;
use std::test::Fail;

const CENTS: Amount = Amount {
    ccy: Ccy(*b"EUR"),
    minor: Minor(150),
    decimals: 2,
};

fn tables(alloc: Global) -> Result<RefTables, TableFault> {
    read_tables(alloc, b"HOMEUS33", b"EUR,2", b"")
}

// Whether a field of one line is read.
fn is_read<C: Content>(alloc: Global, content: &C, line: &[u8]) -> bool {
    let f = FieldLines::of_line(20, None, line);
    one_line(&f) == Some(line) && content.read(alloc, &f).is_ok()
}

#[test]
fn texts_are_read(rt: HostRuntime) {
    assert!(rt; is_read(rt.alloc(), &Reference, b"A"));
    assert!(rt; is_read(rt.alloc(), &Time, b"/A/0915+0100"));
    assert!(rt; is_read(rt.alloc(), &Rate, b"1,5"));
    assert!(rt; is_read(rt.alloc(), &ShortLine { most: 1 }, b"A"));
    assert!(rt; is_read(rt.alloc(), &Texts { most: 1 }, b"A"));
}

// Whether a reference is read into the place of another text.
fn is_refilled(alloc: Global, line: &[u8]) -> Result<bool, Refusal> {
    let mut value = Text::from_bytes(alloc, b"OTHER")?;
    Reference.refill(alloc, &FieldLines::of_line(20, None, line), &mut value)?;
    Ok(value.bytes() == line)
}

#[test]
fn a_reference_takes_the_place_of_another(rt: HostRuntime) {
    assert_eq!(rt; is_refilled(rt.alloc(), b"A"), Ok(true));
    assert!(rt; is_refilled(rt.alloc(), b"/").is_err());
}

#[test]
fn bytes_have_their_forms(rt: HostRuntime) {
    assert!(rt; is_clock(b"0915+0100") && is_all_of(Set::N, b"0915"));
    assert_eq!(rt; array_of(b"AB"), Some(*b"AB"));
    assert!(rt; or_none(rt.alloc(), None).as_slice().is_empty());
    assert!(rt; is_dated_amount(b"240603EUR1,5"));
    assert_eq!(rt; first_slash(b"A/B"), Some(1));
}

// The amount of a line, under tables of one currency.
fn spelled(alloc: Global) -> Result<Amount, Refusal> {
    let Ok(tables) = tables(alloc) else {
        return Err(Refusal::Memory);
    };
    match ccy_amount_in(&tables, b"EUR1,5") {
        Ok(amount) => Ok(amount),
        Err(code) => Err(Refusal::Bad(code)),
    }
}

// An amount at the end of a text.
fn spelled_again(alloc: Global) -> Result<Text, Memory> {
    let mut text = Text::from_bytes(alloc, b":33B:")?;
    put_ccy_amount_text(alloc, &CENTS, &mut text)?;
    Ok(text)
}

#[test]
fn an_amount_is_read_and_put_in_a_text(rt: HostRuntime) -> Result<(), Fail> {
    assert_eq!(rt; minor_in(2, b"1,5"), Ok(Minor(150)));
    assert_eq!(rt; spelled(rt.alloc()), Ok(CENTS));
    assert_eq!(rt;
        spelled_again(rt.alloc())?.bytes(),
        b":33B:EUR1,50".as_slice()
    );
    Ok(())
}

// Whether a field has this one line.
fn has_line(f: &Field, line: &[u8]) -> bool {
    match f.lines.as_slice() {
        [only] => only.bytes() == line,
        _ => false,
    }
}

// Whether the party of a line is written again as it stands.
fn is_kept(alloc: Global, tables: &RefTables, line: &[u8]) -> Result<bool, Memory> {
    let bank = line_field(alloc, 52, Some(b'A'), line)?;
    match (KnownParty { tables }).read(alloc, &lend_field(alloc, &bank)?) {
        Ok(party) => Ok(has_line(&put_known_party(alloc, 52, &party)?, line)),
        Err(_) => Ok(false),
    }
}

// Whether a bank is read into the place of another party.
fn is_replaced(alloc: Global, tables: &RefTables, line: &[u8]) -> Result<bool, Refusal> {
    let bank = line_field(alloc, 52, Some(b'A'), line)?;
    let mut party = Party::C {
        line: Text::from_bytes(alloc, b"/12")?,
    };
    (KnownParty { tables }).refill(alloc, &lend_field(alloc, &bank)?, &mut party)?;
    Ok(has_line(&put_known_party(alloc, 52, &party)?, line))
}

// What a line says in the place of no value, under tables of one currency.
fn dated(alloc: Global, line: &[u8]) -> Result<Value, Refusal> {
    let Ok(tables) = tables(alloc) else {
        return Err(Refusal::Memory);
    };
    let f = FieldLines::of_line(32, Some(b'A'), line);
    let mut value = Value::blank();
    (ValueDate { tables: &tables }).refill(alloc, &f, &mut value)?;
    Ok(value)
}

#[test]
fn a_value_takes_the_place_of_none(rt: HostRuntime) {
    let value = Value {
        day: Day(19877),
        amount: CENTS,
    };
    assert_eq!(rt; dated(rt.alloc(), b"240603EUR1,5"), Ok(value));
    assert!(rt; dated(rt.alloc(), b"240603EUR0,").is_err());
}

#[test]
fn contents_under_tables_are_read(rt: HostRuntime) -> Result<(), Fail> {
    let tables = tables(rt.alloc())?;
    assert!(rt; is_read(rt.alloc(), &ValueDate { tables: &tables }, b"240603EUR1,5"));
    assert!(rt; is_read(rt.alloc(), &CcyAmount { tables: &tables }, b"EUR1,5"));
    assert!(rt; is_kept(rt.alloc(), &tables, b"HOMEUS33")?);
    assert_eq!(rt; is_replaced(rt.alloc(), &tables, b"HOMEUS33"), Ok(true));
    Ok(())
}

// Whether a field was made, with this number.
fn is_tagged(made: Result<Field, Memory>, tag: u8) -> bool {
    match made {
        Ok(f) => f.tag == tag,
        Err(_) => false,
    }
}

fn is_line(made: Result<Field, Memory>, line: &[u8]) -> bool {
    match made {
        Ok(f) => has_line(&f, line),
        Err(_) => false,
    }
}

fn amount(alloc: Global) -> Result<Field, Memory> {
    put_ccy_amount(alloc, 33, Some(b'B'), &CENTS)
}

fn value(alloc: Global) -> Result<Field, Memory> {
    let value = Value {
        day: Day(19877),
        amount: CENTS,
    };
    put_value(alloc, &value)
}

#[test]
fn contents_are_written(rt: HostRuntime) -> Result<(), Fail> {
    let text = Text::from_bytes(rt.alloc(), b"A")?;
    assert!(rt; is_tagged(put_reference(rt.alloc(), 20, &text), 20));
    assert!(rt; is_tagged(put_short_line(rt.alloc(), 25, &text), 25));
    assert!(rt; is_tagged(put_time(rt.alloc(), &text), 13));
    assert!(rt; is_tagged(put_rate(rt.alloc(), &text), 36));
    assert!(rt; is_tagged(put_texts(rt.alloc(), 70, None, &[text]), 70));
    assert!(rt; is_line(amount(rt.alloc()), b"EUR1,50"));
    assert!(rt; is_line(value(rt.alloc()), b"240603EUR1,50"));
    Ok(())
}

// The number of the only field.
fn only_tag(fields: &List<Field>) -> Option<u8> {
    match fields.as_slice() {
        [f] => Some(f.tag),
        _ => None,
    }
}

fn added_times(alloc: Global, times: &[Text]) -> Result<Option<u8>, Memory> {
    let mut fields = List::new(alloc);
    push_times(alloc, times, &mut fields)?;
    Ok(only_tag(&fields))
}

fn added_rate(alloc: Global, rate: &Option<Text>) -> Result<Option<u8>, Memory> {
    let mut fields = List::new(alloc);
    push_rate(alloc, rate, &mut fields)?;
    Ok(only_tag(&fields))
}

fn added_party(alloc: Global, party: &Option<Party>) -> Result<Option<u8>, Memory> {
    let mut fields = List::new(alloc);
    push_party(alloc, 56, party, &mut fields)?;
    Ok(only_tag(&fields))
}

fn added_texts(alloc: Global, texts: &[Text]) -> Result<Option<u8>, Memory> {
    let mut fields = List::new(alloc);
    push_texts(alloc, 70, None, texts, &mut fields)?;
    Ok(only_tag(&fields))
}

fn added_no_amount(alloc: Global) -> Result<Option<u8>, Memory> {
    let mut fields = List::new(alloc);
    push_ccy_amount(alloc, 33, Some(b'B'), &None, &mut fields)?;
    push_ccy_amounts(alloc, 71, Some(b'F'), &[], &mut fields)?;
    Ok(only_tag(&fields))
}

fn added_amount(alloc: Global) -> Result<Option<u8>, Memory> {
    let mut fields = List::new(alloc);
    push_ccy_amount(alloc, 33, Some(b'B'), &Some(CENTS), &mut fields)?;
    Ok(only_tag(&fields))
}

fn added_amounts(alloc: Global) -> Result<Option<u8>, Memory> {
    let mut fields = List::new(alloc);
    push_ccy_amounts(alloc, 71, Some(b'F'), &[CENTS], &mut fields)?;
    Ok(only_tag(&fields))
}

#[test]
fn a_field_is_added_where_there_is_a_content(rt: HostRuntime) -> Result<(), Fail> {
    let texts = [Text::from_bytes(rt.alloc(), b"A")?];
    let rate = Some(Text::from_bytes(rt.alloc(), b"1,5")?);
    let line = Text::from_bytes(rt.alloc(), b"/12")?;
    assert_eq!(rt; added_times(rt.alloc(), &texts)?, Some(13));
    assert_eq!(rt; added_rate(rt.alloc(), &rate)?, Some(36));
    assert_eq!(rt;
        added_party(rt.alloc(), &Some(Party::C { line }))?,
        Some(56)
    );
    assert_eq!(rt; added_texts(rt.alloc(), &texts)?, Some(70));
    assert_eq!(rt; added_amount(rt.alloc())?, Some(33));
    assert_eq!(rt; added_amounts(rt.alloc())?, Some(71));
    Ok(())
}

#[test]
fn no_field_is_added_where_there_is_none(rt: HostRuntime) -> Result<(), Fail> {
    assert_eq!(rt; added_times(rt.alloc(), &[])?, None);
    assert_eq!(rt; added_rate(rt.alloc(), &None)?, None);
    assert_eq!(rt; added_party(rt.alloc(), &None)?, None);
    assert_eq!(rt; added_texts(rt.alloc(), &[])?, None);
    assert_eq!(rt; added_no_amount(rt.alloc())?, None);
    Ok(())
}
