//! Writing a message that is sent on.

ghost use Rattle.std.specs.Prelude.{◌≡◌, ◌≤◌, ◌++◌, IfOk, IsTrue, OnOk, Ok};
ghost use Rattle.std.specs.List.{flat_map};
ghost use Rattle.corr_ids.specs.Address.{lt_text};
ghost use Rattle.corr_ids.specs.Bic.{IsBic};
ghost use Rattle.fin_blocks.specs.Blocks.{blocks_of};
ghost use Rattle.fin_blocks.specs.Sending.{IsText, are_subblocks, lines_text, own_text, receiver_text, sent_blocks, sent_text, subblock_text, terminal_of, user_text};

use corr_ids::Bic;
use corr_text::{Memory, Text, put_digits};
use std::alloc::Global;

// Room for what stands around the lines: blocks 1 and 2, block 3 with a UETR, the ends of block 4.
const AROUND: usize = 128;

fn put_terminal(bank: &Bic, letter: u8, out: &mut Text) -> Result<(), Memory>
    ensures { OnOk result (out.new ≡ out.old ++ lt_text (terminal_of bank.now letter)) }
{
    out.push(&bank.head)?;
    out.push(&[letter])?;
    out.push(&bank.branch)
}

fn put_own(home: &Bic, out: &mut Text) -> Result<(), Memory>
    ensures { OnOk result (out.new ≡ out.old ++ own_text home.now) }
{
    out.push(b"{1:F01")?;
    put_terminal(home, b'A', out)?;
    out.push(b"0000000000}")
}

fn put_receiver(alloc: Global, mt: u16, to: &Bic, out: &mut Text) -> Result<(), Memory>
    ensures { OnOk result (out.new ≡ out.old ++ receiver_text mt to.now) }
{
    out.push(b"{2:I")?;
    put_digits(alloc, mt as u64, 3, out)?;
    put_terminal(to, b'X', out)?;
    out.push(b"N}")
}

fn put_subblock(alloc: Global, number: u16, text: &[u8], out: &mut Text) -> Result<(), Memory>
    ensures { OnOk result (out.new ≡ out.old ++ subblock_text (number, text.now)) }
{
    out.push(b"{")?;
    put_digits(alloc, number as u64, 3, out)?;
    out.push(b":")?;
    out.push(text)?;
    out.push(b"}")
}

fn put_subblocks(alloc: Global, user: &[(u16, Text)], out: &mut Text) -> Result<(), Memory>
    ensures { OnOk result (out.new ≡ out.old ++ flat_map subblock_text user.now) }
{
    for sub in user {
        put_subblock(alloc, sub.0, sub.1.bytes(), out)?;
    }
    Ok(())
}

fn put_user(alloc: Global, user: &[(u16, Text)], out: &mut Text) -> Result<(), Memory>
    ensures { OnOk result (out.new ≡ out.old ++ user_text user.now) }
{
    if user.is_empty() {
        return Ok(());
    }
    out.push(b"{3:")?;
    put_subblocks(alloc, user, out)?;
    out.push(b"}")
}

fn put_lines(text: &[u8], out: &mut Text) -> Result<(), Memory>
    ensures { OnOk result (out.new ≡ out.old ++ lines_text text.now) }
{
    out.push(b"{4:\r\n")?;
    out.push(text)?;
    out.push(b"-}")
}

/// A message of type `mt` that the home bank sends (docs/messages.md, "Sent messages"): block 1 of its terminal `A`,
/// block 2 of input form with normal priority, block 3 where there is any subblock, and block 4. `read_blocks` reads
/// it to these parts. Out of memory is the only error.
///
/// `home` and `to` meet the grammar of a BIC, and `mt` has up to three digits. The numbers of `user` have up to three digits and
/// differ, their texts have no braces, and 121 is a UETR; `text` has no braces and is lines that end with CR LF.
#[tactic(auto, using(crate::proofs::ReadBack::reading_back), unfolding(crate::specs::Sending::sent_text))]
pub fn put_blocks(
    alloc: Global,
    home: &Bic,
    mt: u16,
    to: &Bic,
    user: &[(u16, Text)],
    text: &[u8],
) -> Result<Text, Memory>
    requires home { IsBic home.now }
    requires to { IsBic to.now }
    requires mt { mt ≤ 999 }
    requires user { IsTrue (are_subblocks user.now) }
    requires text { IsText text.now }
    ensures value { IfOk result (λ t. t ≡ sent_text home.now mt to.now user.now text.now) }
    ensures again { blocks_of (sent_text home.now mt to.now user.now text.now) ≡ Ok (sent_blocks home.now mt to.now user.now text.now) }
{
    let mut out = Text::from_vec(Vec::with_capacity(alloc, text.len() + AROUND)?);
    put_own(home, &mut out)?;
    put_receiver(alloc, mt, to, &mut out)?;
    put_user(alloc, user, &mut out)?;
    put_lines(text, &mut out)?;
    Ok(out)
}
