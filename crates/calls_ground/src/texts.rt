//! Each call once; cases stand in rows (texts.rows).

use corr_text::{
    Buf, Decimal, List, Set, Text, all_digits, clear, copy_texts, digits, first_line, has_brace,
    is_all_of, is_each_of, is_set, is_x, let_go, next_brace, plain_line, push_texts, put,
    put_digits,
};
use std::test::Fail;

#[test]
fn digits_are_read_and_put(rt: HostRuntime) -> Result<(), Fail> {
    assert_eq!(rt; digits(b"007"), Some(7));
    assert!(rt; all_digits(b"07"));
    let mut out = Text::from_bytes(rt.alloc(), b"P")?;
    put_digits(rt.alloc(), 1, 3, &mut out)?;
    assert_eq!(rt; out.bytes(), b"P001".as_slice());
    Ok(())
}

#[test]
fn a_number_has_zeros_before_it(rt: HostRuntime) {
    let mut decimal = Decimal::new();
    assert_eq!(rt; decimal.padded(7, 3), b"007".as_slice());
}

#[test]
fn sets_have_members(rt: HostRuntime) {
    assert!(rt; is_x(b'/') && is_set(Set::N, b'0') && is_all_of(Set::A, b"AZ"));
    assert!(rt; is_each_of(Set::C, b"A1") && !is_each_of(Set::C, b"A/"));
}

#[test]
fn a_group_has_a_brace(rt: HostRuntime) {
    assert!(rt; has_brace(b"A}") && !has_brace(b"A("));
}

#[test]
fn a_text_is_cut_after_its_first_line_end(rt: HostRuntime) {
    let cut = first_line(b"A*\nB");
    assert_eq!(rt; cut.line, b"A*".as_slice());
    assert_eq!(rt; cut.rest, b"B".as_slice());
    assert!(rt; plain_line(b"A*\nB").is_none());
    assert_eq!(rt; next_brace(b"A{", 0), 1);
}

#[test]
fn a_text_is_copied_and_grows(rt: HostRuntime) -> Result<(), Fail> {
    let mut text = Text::from_bytes(rt.alloc(), b"REF1")?;
    let copy = text.copy(rt.alloc())?;
    text.push(b"")?;
    text.push(b"//X")?;
    text.push_all(&[b"", b"Y", b"Z1"])?;
    assert_eq!(rt; text.bytes(), b"REF1//XYZ1".as_slice());
    assert_eq!(rt; copy.bytes(), b"REF1".as_slice());
    Ok(())
}

#[test]
fn a_text_is_cut_to_its_first_bytes(rt: HostRuntime) -> Result<(), Fail> {
    let mut text = Text::from_vec(Vec::from_slice(rt.alloc(), b"REF1//X")?);
    text.truncate(4);
    assert_eq!(rt; text.bytes(), b"REF1".as_slice());
    Ok(())
}

#[test]
fn room_after_a_text_is_no_part_of_it(rt: HostRuntime) -> Result<(), Fail> {
    let mut text = Text::with_room(rt.alloc(), b"REF1", 3)?;
    assert_eq!(rt; text.bytes(), b"REF1".as_slice());
    text.push(b"//X")?;
    assert_eq!(rt; text.bytes(), b"REF1//X".as_slice());
    let mut list = List::with_room(rt.alloc(), 2)?;
    list.push(7u64)?;
    assert_eq!(rt; list.as_slice(), [7].as_slice());
    Ok(())
}

#[test]
fn a_text_is_refilled(rt: HostRuntime) -> Result<(), Fail> {
    let mut text = Text::from_bytes(rt.alloc(), b"REF1")?;
    text.refill(b"A PAYER")?;
    assert_eq!(rt; text.bytes(), b"A PAYER".as_slice());
    text.refill(b"X")?;
    assert_eq!(rt; text.bytes(), b"X".as_slice());
    Ok(())
}

#[test]
fn a_buffer_is_filled_again(rt: HostRuntime) -> Result<(), Fail> {
    let mut buf = Buf::new(rt.alloc());
    assert_eq!(rt; buf.bytes(), b"".as_slice());
    buf.reserve(4)?;
    buf.push(b"AB")?;
    buf.push(b"CD")?;
    assert_eq!(rt; buf.bytes(), b"ABCD".as_slice());
    buf.clear();
    buf.push(b"EFGHI")?;
    assert_eq!(rt; buf.bytes(), b"EFGHI".as_slice());
    Ok(())
}

#[test]
fn a_buffer_is_cut_to_its_first_bytes(rt: HostRuntime) -> Result<(), Fail> {
    let mut buf = Buf::new(rt.alloc());
    buf.push(b"ABCD")?;
    buf.truncate(2);
    assert_eq!(rt; buf.bytes(), b"AB".as_slice());
    Ok(())
}

#[test]
fn a_list_keeps_its_order(rt: HostRuntime) -> Result<(), Fail> {
    let mut list = List::new(rt.alloc());
    list.push(3u64)?;
    list.push(1)?;
    list.push(2)?;
    assert_eq!(rt; list.as_slice(), [3, 1, 2].as_slice());
    Ok(())
}

#[test]
fn a_list_takes_the_values_of_another(rt: HostRuntime) -> Result<(), Fail> {
    let mut list = List::new(rt.alloc());
    list.push(3u64)?;
    let mut more = List::new(list.allocator());
    more.push(1)?;
    list.append(more)?;
    let values = list.into_vec();
    assert_eq!(rt; values.as_slice(), [3, 1].as_slice());
    Ok(())
}

#[test]
fn a_list_gives_its_last_value(rt: HostRuntime) -> Result<(), Fail> {
    let mut list = List::new(rt.alloc());
    list.push(3u64)?;
    list.push(1)?;
    assert_eq!(rt; list.pop(), Some(1));
    list.push(2)?;
    assert_eq!(rt; list.as_slice(), [3, 2].as_slice());
    list.clear();
    assert_eq!(rt; list.pop(), None);
    Ok(())
}

#[test]
fn texts_are_put_in_the_places_of_others(rt: HostRuntime) -> Result<(), Fail> {
    let mut list = List::new(rt.alloc());
    list.put_at(rt.alloc(), 0, b"A PAYER")?;
    list.put_at(rt.alloc(), 1, b"ITS STREET")?;
    list.put_at(rt.alloc(), 2, b"ITS TOWN")?;
    list.put_at(rt.alloc(), 0, b"A PAYEE")?;
    list.truncate(2);
    let texts = list.as_slice();
    assert_eq!(rt; texts.len(), 2);
    assert_eq!(rt; texts[0].bytes(), b"A PAYEE".as_slice());
    assert_eq!(rt; texts[1].bytes(), b"ITS STREET".as_slice());
    Ok(())
}

#[test]
fn a_value_takes_the_place_of_another_and_ends(rt: HostRuntime) -> Result<(), Fail> {
    let mut place = Text::from_bytes(rt.alloc(), b"REF1")?;
    put(&mut place, Text::from_bytes(rt.alloc(), b"REF2")?);
    assert_eq!(rt; place.bytes(), b"REF2".as_slice());
    let_go(place);
    Ok(())
}

#[test]
fn a_place_is_cleared(rt: HostRuntime) -> Result<(), Fail> {
    let mut place = Some(Text::from_bytes(rt.alloc(), b"REF1")?);
    clear(&mut place);
    assert!(rt; place.is_none());
    clear(&mut place);
    assert!(rt; place.is_none());
    Ok(())
}

#[test]
fn texts_are_copied_after_others(rt: HostRuntime) -> Result<(), Fail> {
    let texts = [
        Text::from_bytes(rt.alloc(), b"A")?,
        Text::from_bytes(rt.alloc(), b"BC")?,
    ];
    let mut copies = copy_texts(rt.alloc(), &texts)?;
    push_texts(rt.alloc(), &texts, &mut copies)?;
    let copies = copies.as_slice();
    assert_eq!(rt; copies.len(), 4);
    assert_eq!(rt; copies[0].bytes(), b"A".as_slice());
    assert_eq!(rt; copies[1].bytes(), b"BC".as_slice());
    assert_eq!(rt; copies[2].bytes(), b"A".as_slice());
    assert_eq!(rt; copies[3].bytes(), b"BC".as_slice());
    Ok(())
}
