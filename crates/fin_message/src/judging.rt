//! The verdict on a message.

ghost use Rattle.std.specs.Prelude.{◌≡◌, ◌≤◌, ◌*◌, IfOk, OnOk, length};
ghost use Rattle.corr_text.specs.Lines.{lines_of};
ghost use Rattle.fin_fields.specs.Fields.{fields_of, most_text_lines};
ghost use Rattle.fin_layout.specs.Reading as mt;
ghost use Rattle.fin_message.specs.Answers.{Answers, Fills};
ghost use Rattle.fin_message.specs.inner.Filling.{with_text};
ghost use Rattle.fin_message.specs.Sound.{IsValid};
ghost use Rattle.fin_message.specs.Verdict.{judged, message_in, message_of, most_bytes_judged, sent_verdict_of, verdict_of};

use crate::advices::{read_credit, read_debit};
use crate::cover::read_cover;
use crate::direction::Direction;
use crate::fault::MessageFault;
use crate::fields::read_fields;
use crate::heading::heading_fault;
use crate::message::{Message, put_text, take_text};
use crate::page::read_page;
use crate::parts::{mir_of, type_of};
use crate::transfer::read_transfer;
use corr_ids::Bic;
use corr_text::let_go;
use fin_blocks::{Blocks, fill_blocks};
use fin_fields::FieldLines;
use fin_layout::{Found, MtFault};
use ref_tables::RefTables;
use std::alloc::Global;

/// Puts the message that blocks and their fields say into `out`, by its type, but for its text. `Bad`: the first test of the
/// type that it fails.
fn read_of_type(
    alloc: Global,
    t: &RefTables,
    blocks: &Blocks,
    fields: &[FieldLines<'_>],
    found: &mut Found,
    out: &mut Message,
) -> Result<(), MtFault>
    requires few { length fields.now ≤ most_text_lines }
    requires same { fields.now ≡ fields_of blocks.now.text }
    ensures { mt.Fills result (with_text blocks.now.text out.new) (message_in t.now blocks.now) }
{
    match type_of(&blocks.app) {
        103 => read_transfer(alloc, t, blocks, fields, found, out),
        202 => read_cover(alloc, t, blocks, fields, out),
        900 => read_debit(alloc, t, blocks, fields, out),
        910 => read_credit(alloc, t, blocks, fields, out),
        // P11 leaves no other type than 950
        _ => read_page(alloc, t, blocks, fields, out),
    }
}

/// Puts the message that blocks say into `out`, but for its text. `Bad`: the first test after those of the blocks that it
/// fails.
#[tactic(auto, unfolding(crate::specs::Verdict::message_of))]
fn read_parts(
    alloc: Global,
    way: Direction,
    home: &Bic,
    t: &RefTables,
    blocks: &Blocks,
    found: &mut Found,
    out: &mut Message,
) -> Result<(), MtFault>
    requires { length (lines_of blocks.now.text) ≤ most_text_lines }
    ensures { mt.Fills result (with_text blocks.now.text out.new) (message_of way home.now t.now blocks.now) }
{
    if let Some(fault) = heading_fault(way, home, t, blocks) {
        return Err(MtFault::Bad(fault));
    }
    let fields = read_fields(alloc, blocks.text.bytes())?;
    read_of_type(alloc, t, blocks, fields.as_slice(), found, out)
}

#[tactic(auto, unfolding(crate::specs::Verdict::judged))]
fn judge(
    alloc: Global,
    way: Direction,
    home: &Bic,
    t: &RefTables,
    m: &[u8],
    found: &mut Found,
    out: &mut Message,
) -> Result<(), MessageFault>
    requires { length m.now ≤ most_bytes_judged }
    ensures { Fills result out.new (judged way home.now t.now m.now) }
{
    // block 4 is read into the memory of the message that stood in `out`
    let mut blocks = Blocks::blank(alloc, take_text(alloc, out));
    fill_blocks(alloc, m, &mut blocks)?;
    let read = read_parts(alloc, way, home, t, &blocks, found, out);
    put_text(blocks.text, out);
    match read {
        Ok(()) => Ok(()),
        Err(MtFault::Bad(fault)) => Err(MessageFault::Refused {
            mir: mir_of(&blocks.app),
            fault,
        }),
        Err(MtFault::Memory) => Err(MessageFault::Memory),
    }
}

/// As `judge`, in a place of its own.
#[inline(never)]
fn judge_apart(
    alloc: Global,
    way: Direction,
    home: &Bic,
    t: &RefTables,
    m: &[u8],
) -> Result<Message, MessageFault>
    requires { length m.now ≤ most_bytes_judged }
    ensures { Answers result (judged way home.now t.now m.now) }
{
    let mut message = Message::blank(alloc);
    let mut found = Found::new(alloc);
    match judge(alloc, way, home, t, m, &mut found, &mut message) {
        Ok(()) => Ok(message),
        Err(fault) => {
            let_go(message);
            Err(fault)
        }
    }
}

/// What a message says that the home bank received, or the first test that it fails (docs/messages.md, "The tests of a
/// message"): its blocks (P01 to P06), what they say (P07 to P13), its lines and characters (P20, P21), then by its type
/// the order of its fields, their contents and its rules.
///
/// The message's reference is told with the fault where blocks 1 and 2 are read (none of P01 to P03 holds) and block 2 is
/// of output form. A message has at most 65,535 bytes.
///
/// What is accepted is `sound`: block 4 is cut into fields without fault, no test of their order and contents fails, the
/// type's reader reads the message of them, it breaks no rule of its type, and it can be written again.
#[tactic(auto, using(crate::proofs::Judged::sound))]
pub fn verdict(alloc: Global, m: &[u8], home: &Bic, t: &RefTables) -> Result<Message, MessageFault>
    requires { length m.now ≤ most_bytes_judged }
    ensures value { Answers result (verdict_of home.now t.now m.now) }
    ensures sound { IfOk result (IsValid Direction.Received t.now (2 * length m.now)) }
{
    judge_apart(alloc, Direction::Received, home, t, m)
}

/// As `verdict`, but what the message says is put into `out`, where another message stood. After a fault it may say anything.
/// `found` is room for the places of its fields.
#[tactic(auto, using(crate::proofs::Judged::sound_in))]
pub fn verdict_into(
    alloc: Global,
    m: &[u8],
    home: &Bic,
    t: &RefTables,
    found: &mut Found,
    out: &mut Message,
) -> Result<(), MessageFault>
    requires { length m.now ≤ most_bytes_judged }
    ensures value { Fills result out.new (verdict_of home.now t.now m.now) }
    ensures sound { OnOk result (IsValid Direction.Received t.now (2 * length m.now) out.new) }
{
    judge(alloc, Direction::Received, home, t, m, found, out)
}

/// The same of a message that the home bank sends: block 2 is of input form (else P07) and names the receiver, who is in
/// the table of banks (else P12); block 1 is the home bank's, as in a received message.
#[tactic(auto, using(crate::proofs::Judged::sound))]
pub fn check_sent(
    alloc: Global,
    m: &[u8],
    home: &Bic,
    t: &RefTables,
) -> Result<Message, MessageFault>
    requires { length m.now ≤ most_bytes_judged }
    ensures value { Answers result (sent_verdict_of home.now t.now m.now) }
    ensures sound { IfOk result (IsValid Direction.Sent t.now (2 * length m.now)) }
{
    judge_apart(alloc, Direction::Sent, home, t, m)
}
