//! Reading a message block by block.

ghost use Rattle.std.specs.Prelude.{◌≡◌, ◌≤◌, ◌<◌, ◌*◌, Err, IfErr, IfOk, Ok, OnOk, Some, length, option_map};
ghost use Rattle.corr_text.specs.Lines.{lines_of};
ghost use Rattle.fin_blocks.specs.Groups.{groups_of};
ghost use Rattle.fin_blocks.specs.inner.Groups.{IsCut};
ghost use Rattle.fin_blocks.specs.Forms.{when};
ghost use Rattle.fin_blocks.specs.Blocks.{AreNamed, Tells, are_last as are_last_of, blocks_of, ending_of, groups_past as past_of};

use crate::application::{mir_of, read_app};
use crate::basic::read_basic;
use crate::blocks::Blocks;
use crate::fault::{BlockFault, P01, P02, P03, P04, P05, P06};
use crate::forms::inside;
use crate::groups::{Piece, next_group, next_group_of};
use crate::text::fill_text;
use crate::trailers::read_trailers;
use crate::user::read_user;
use corr_ids::Mir;
use corr_text::{Code, List, Memory, Text, let_go};
use std::alloc::Global;

/// How many bytes block 1 has, and block 2 of a received message.
const BASIC: usize = 29;

const RECEIVED: usize = 51;

// The next piece, where this one is the block that begins so.
fn past<'a>(start: &[u8], piece: Piece<'a>) -> Piece<'a>
    requires cut { IsCut piece.from.now (option_map (λ b. b.now) piece.group) piece.rest.now }
    requires small { length start.now < 8 }
    ensures groups { groups_of result.from.now ≡ past_of start.now (groups_of piece.entry.from.now) }
    ensures cut { IsCut result.from.now (option_map (λ b. b.now) result.group) result.rest.now }
{
    if inside(start, piece.group).is_some() {
        return next_group(piece.rest);
    }
    piece
}

fn are_last(piece: Piece<'_>) -> bool
    requires { IsCut piece.from.now (option_map (λ b. b.now) piece.group) piece.rest.now }
    ensures { result ≡ are_last_of (groups_of piece.entry.from.now) }
{
    piece.from.is_empty() || (piece.rest.is_empty() && inside(b"{S:", piece.group).is_some())
}

// Whether these bytes after block 4 are block 5 and what may stand last, or nothing: then the codes of block 5 are put into a list.
#[tactic(auto, unfolding(crate::specs::Blocks::ending_of))]
fn fill_ending(alloc: Global, bytes: &[u8], trailers: &mut List<[u8; 3]>) -> Result<bool, Memory>
    ensures { IfOk result (λ is_ending. ending_of (groups_of bytes.now) ≡ when is_ending (Some trailers.new)) }
{
    if bytes.is_empty() {
        trailers.clear();
        return Ok(true);
    }
    let fifth = next_group(bytes);
    let Some(codes) = read_trailers(alloc, fifth.group)? else {
        return Ok(false);
    };
    *trailers = codes;
    Ok(are_last(past(b"{5:", fifth)))
}

fn refuse(code: Code, mir: Option<Mir>) -> Result<(), BlockFault>
    ensures { result ≡ Err (BlockFault.Bad code mir) }
{
    Err(BlockFault::Bad { code, mir })
}

// Puts what the message says into `blocks`, or tells its first fault.
#[tactic(auto, unfolding(crate::specs::Blocks::blocks_of))]
fn fill(alloc: Global, m: &[u8], blocks: &mut Blocks) -> Result<(), BlockFault>
    ensures value { OnOk result (blocks_of m.now ≡ Ok blocks.new) }
    ensures fault { IfErr result (Tells (blocks_of m.now)) }
{
    let first = next_group_of(m, BASIC);
    let Some(basic) = read_basic(first.group) else {
        return refuse(P01, None);
    };
    if basic.version != *b"01" {
        return refuse(P02, None);
    }
    blocks.own = basic.own;
    let second = next_group_of(first.rest, RECEIVED);
    let Some(app) = read_app(second.group) else {
        return refuse(P03, None);
    };
    blocks.app = app;
    let third = next_group(second.rest);
    let Some(user) = read_user(alloc, third.group)? else {
        return refuse(P04, mir_of(&blocks.app));
    };
    blocks.user = user;
    let fourth = past(b"{3:", third);
    if !fill_text(fourth.group, &mut blocks.text)? {
        return refuse(P05, mir_of(&blocks.app));
    }
    if !fill_ending(alloc, fourth.rest, &mut blocks.trailers)? {
        return refuse(P06, mir_of(&blocks.app));
    }
    Ok(())
}

/// As `read_blocks`, but what the message says is put into `blocks`, whatever they were: block 4 into the memory of their
/// text. After a fault they may be anything.
#[inline(never)]
pub fn fill_blocks(alloc: Global, m: &[u8], blocks: &mut Blocks) -> Result<(), BlockFault>
    ensures value { OnOk result (blocks_of m.now ≡ Ok blocks.new) }
    ensures lines { OnOk result (length (lines_of blocks.new.text) ≤ length m.now) }
    ensures bytes { OnOk result (length blocks.new.text ≤ 2 * length m.now) }
    ensures names { OnOk result (AreNamed blocks.new) }
    ensures fault { IfErr result (Tells (blocks_of m.now)) }
{
    fill(alloc, m, blocks)
}

/// The parts of a message: blocks 1, 2 and 4, and 3 and 5 where they stand; a last block `S` is dropped.
///
/// The fault is the first block, in order, that is not of its form (docs/messages.md, "Blocks"): P01 block 1, P02 its
/// version, P03 block 2, P04 block 3, P05 block 4, P06 block 5 or what is left. From P04 on it has the message's
/// reference, if the message was received. A line of block 4 may end with LF alone; the text has CR LF, and so at most twice
/// as many bytes as the message. The banks that blocks 1 and 2 name and a received message's reference meet their grammar
/// (`names`).
pub fn read_blocks(alloc: Global, m: &[u8]) -> Result<Blocks, BlockFault>
    ensures value { IfOk result (λ b. blocks_of m.now ≡ Ok b) }
    ensures lines { IfOk result (λ b. length (lines_of b.text) ≤ length m.now) }
    ensures bytes { IfOk result (λ b. length b.text ≤ 2 * length m.now) }
    ensures names { IfOk result AreNamed }
    ensures fault { IfErr result (Tells (blocks_of m.now)) }
{
    let mut blocks = Blocks::blank(alloc, Text::from_vec(Vec::new(alloc)));
    match fill_blocks(alloc, m, &mut blocks) {
        Ok(()) => Ok(blocks),
        Err(fault) => {
            let_go(blocks);
            Err(fault)
        }
    }
}
