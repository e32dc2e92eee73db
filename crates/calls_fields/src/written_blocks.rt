//! A message as it is sent on; cases stand in rows (blocks.rows).

ghost use Rattle.corr_ids.specs.Bic.{IsBic};

use corr_ids::Bic;
use corr_text::{Memory, Text};
use fin_blocks::put_blocks;
use std::alloc::Global;
use std::test::Fail;

#[tactic(auto, unfolding(corr_ids::specs::Bic::is_bic))]
fn home() -> Bic
    ensures { IsBic result }
{
    Bic {
        head: *b"HOMEUS33",
        branch: *b"XXX",
    }
}

#[tactic(auto, unfolding(fin_blocks::specs::Text::text_in, fin_blocks::specs::Sending::are_subblocks))]
fn advice(alloc: Global) -> Result<Text, Memory> {
    put_blocks(alloc, &home(), 900, &home(), &[], b"A\r\n")
}

#[test]
fn an_advice_is_sent(rt: HostRuntime) -> Result<(), Fail> {
    let sent = advice(rt.alloc())?;
    assert_eq!(rt;
        sent.bytes(),
        b"{1:F01HOMEUS33AXXX0000000000}{2:I900HOMEUS33XXXXN}{4:\r\nA\r\n-}".as_slice()
    );
    Ok(())
}
