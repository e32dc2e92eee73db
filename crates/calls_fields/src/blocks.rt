//! Each call once; cases stand in rows (blocks.rows).

use corr_text::Text;
use fin_blocks::{App, BlockFault, Blocks, fill_blocks, read_blocks};
use std::alloc::Global;
use std::test::Fail;

// Promises nothing, so that the test carries none of what blocks are.
fn blocks(alloc: Global, message: &[u8]) -> Result<Blocks, BlockFault> {
    read_blocks(alloc, message)
}

#[test]
fn a_sent_message_is_read(rt: HostRuntime) -> Result<(), Fail> {
    let message =
        b"{1:F01HOMEUS33AXXX0000000000}{2:I202CORRBEBBXXXXN}{3:{119:COV}}{4:\n:20:A\n-}{5:{PDM:}}";
    let blocks = blocks(rt.alloc(), message)?;
    assert_eq!(rt; blocks.own.head, *b"HOMEUS33");
    assert!(rt; matches!(blocks.app, App::Sent { mt: 202, .. }));
    assert_eq!(rt; blocks.user.as_slice().len(), 1);
    assert_eq!(rt; blocks.text.bytes(), b":20:A\r\n".as_slice());
    assert_eq!(rt; blocks.trailers.as_slice(), [*b"PDM"].as_slice());
    Ok(())
}

// A message, read into the place of another one.
fn replaced(alloc: Global, mut place: Blocks, message: &[u8]) -> Result<Blocks, BlockFault> {
    fill_blocks(alloc, message, &mut place)?;
    Ok(place)
}

// The same in the place of none.
fn placed(alloc: Global, message: &[u8]) -> Result<Blocks, BlockFault> {
    let text = Text::from_bytes(alloc, b"OTHER")?;
    replaced(alloc, Blocks::blank(alloc, text), message)
}

#[test]
fn a_message_takes_the_place_of_another(rt: HostRuntime) -> Result<(), Fail> {
    let first =
        b"{1:F01HOMEUS33AXXX0000000000}{2:I202CORRBEBBXXXXN}{3:{119:COV}}{4:\n:20:A\n-}{5:{PDM:}}";
    let next = b"{1:F01HOMEUS33AXXX0000000000}{2:I202CORRBEBBXXXXN}{4:\n:20:BC\n-}";
    let blocks = placed(rt.alloc(), first)?;
    assert_eq!(rt; blocks.text.bytes(), b":20:A\r\n".as_slice());
    let blocks = replaced(rt.alloc(), blocks, next)?;
    assert_eq!(rt; blocks.text.bytes(), b":20:BC\r\n".as_slice());
    assert!(rt; blocks.user.as_slice().is_empty() && blocks.trailers.as_slice().is_empty());
    Ok(())
}
