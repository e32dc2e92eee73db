//! Each call once; cases stand in rows (money.rows).

use corr_money::{Minor, is_comma_number, put_15d, put_signed, put_total, read_15d};
use corr_text::Text;
use std::test::Fail;

#[test]
fn an_amount_is_read(rt: HostRuntime) {
    assert_eq!(rt; read_15d(b"1,5", 2), Ok(Minor(150)));
    assert!(rt; is_comma_number(b"1,5"));
}

#[test]
fn amounts_are_written(rt: HostRuntime) -> Result<(), Fail> {
    let mut text = Text::from_bytes(rt.alloc(), b"")?;
    put_15d(rt.alloc(), Minor(150), 2, &mut text)?;
    put_signed(rt.alloc(), -1, 2, &mut text)?;
    put_total(rt.alloc(), 5, 0, &mut text)?;
    assert_eq!(rt; text.bytes(), b"1,50-0,015,".as_slice());
    Ok(())
}
