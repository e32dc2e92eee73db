//! Each call once; cases stand in rows (ids.rows).

use corr_ids::{
    Bic, Day, LtAddress, Mir, Uetr, day_from_yymmdd, day_of_year, put_bic, put_yymmdd, read_bic,
    read_lt, read_mir, read_uetr, with_branch,
};
use corr_text::Text;
use std::test::Fail;

#[test]
fn a_bank_is_read_and_printed(rt: HostRuntime) -> Result<(), Fail> {
    let bic = Bic {
        head: *b"ALPHDEFF",
        branch: *b"XXX",
    };
    assert_eq!(rt; read_bic(b"ALPHDEFF"), Some(bic));
    assert_eq!(rt; with_branch(&bic), *b"ALPHDEFFXXX");
    let mut text = Text::from_bytes(rt.alloc(), b":")?;
    put_bic(&bic, &mut text)?;
    assert_eq!(rt; text.bytes(), b":ALPHDEFF".as_slice());
    Ok(())
}

#[test]
fn references_are_read(rt: HostRuntime) {
    let sender = LtAddress {
        head: *b"ALPHDEFF",
        lt: b'A',
        branch: *b"XXX",
    };
    assert_eq!(rt; read_lt(b"ALPHDEFFAXXX"), Some(sender));
    let mir = Mir(*b"240603ALPHDEFFAXXX0001000001");
    assert_eq!(rt; read_mir(&mir.0), Some(mir));
    assert_eq!(rt; mir.sender(), sender);
    let uetr = Uetr(*b"f47ac10b-58cc-4372-a567-0e02b2c3d479");
    assert_eq!(rt; read_uetr(&uetr.0), Some(uetr));
}

#[test]
fn a_day_is_read_and_printed(rt: HostRuntime) -> Result<(), Fail> {
    assert_eq!(rt; day_from_yymmdd(b"240603"), Some(Day(19877)));
    let mut text = Text::from_bytes(rt.alloc(), b":")?;
    put_yymmdd(Day(19877), &mut text)?;
    assert_eq!(rt; text.bytes(), b":240603".as_slice());
    assert_eq!(rt; day_of_year(Day(19877)), 155);
    Ok(())
}
