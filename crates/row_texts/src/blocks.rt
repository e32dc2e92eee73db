//! Calls of fin_blocks: the blocks of a message.

ghost use Rattle.std.specs.Prelude.{◌≡◌, ◌&&◌, nat_le, true, IfOk, IsTrue};
ghost use Rattle.corr_ids.specs.Bic.{IsBic};
ghost use Rattle.fin_blocks.specs.Forms.{is_plain as is_plain_of};
ghost use Rattle.fin_blocks.specs.Sending.{IsText, are_subblocks};
ghost use Rattle.fin_blocks.specs.Text.{text_in};
ghost use Rattle.fin_blocks.specs.User.{may_hold};

use crate::ids::put_terminal;
use corr_ids::{Bic, read_bic, read_uetr};
use corr_text::{Memory, Text, first_line};
use fin_blocks::{App, BlockFault, Blocks, put_blocks, read_blocks};
use row_words::answer::Answer;
use row_words::stop::Stop;
use row_words::words::Words;
use std::alloc::Global;

/// Makes a call, and answers whether one of these has that name.
pub fn call(name: &[u8], words: &mut Words, answer: &mut Answer) -> Result<bool, Stop> {
    match name {
        b"read_blocks" => read(words, answer)?,
        b"put_blocks" => put(words, answer)?,
        _ => return Ok(false),
    }
    Ok(true)
}

/// Adds what block 2 says.
fn put_app(app: &App, answer: &mut Answer) -> Result<(), Stop> {
    match app {
        App::Received { mt, mir } => {
            answer.word(b"received")?;
            answer.number(*mt as u64)?;
            Ok(answer.text(&mir.0)?)
        }
        App::Sent { mt, to } => {
            answer.word(b"sent")?;
            answer.number(*mt as u64)?;
            put_terminal(to, answer)
        }
    }
}

/// Adds subblocks, each by its number and its text.
fn put_user(user: &[(u16, Text)], answer: &mut Answer) -> Result<(), Stop> {
    answer.word(b"user")?;
    for sub in user {
        answer.number(sub.0 as u64)?;
        answer.text(sub.1.bytes())?;
    }
    Ok(())
}

/// Adds the parts of a message.
fn put_parts(blocks: &Blocks, answer: &mut Answer) -> Result<(), Stop> {
    put_terminal(&blocks.own, answer)?;
    put_app(&blocks.app, answer)?;
    put_user(blocks.user.as_slice(), answer)?;
    answer.word(b"text")?;
    answer.text(blocks.text.bytes())?;
    answer.word(b"trailers")?;
    for code in blocks.trailers.as_slice() {
        answer.text(code)?;
    }
    Ok(())
}

/// `read_blocks MESSAGE`, or `read_blocks FRONT REST` of a message in two parts
fn read(words: &mut Words, answer: &mut Answer) -> Result<(), Stop> {
    let alloc = answer.alloc();
    let mut message = Text::from_bytes(alloc, b"")?;
    for part in words.rest() {
        message.push(part.bytes())?;
    }
    match read_blocks(alloc, message.bytes()) {
        Ok(blocks) => put_parts(&blocks, answer),
        Err(BlockFault::Memory) => Err(Stop::Memory),
        Err(BlockFault::Bad { code, mir }) => {
            answer.word(&code.0)?;
            match mir {
                Some(mir) => Ok(answer.text(&mir.0)?),
                None => Ok(()),
            }
        }
    }
}

/// Whether no byte is a brace.
fn is_plain(b: &[u8]) -> bool
    ensures { result ≡ is_plain_of b.now }
{
    b.iter().all(|c| *c != b'{' && *c != b'}')
}

/// The lines of a text, each ended by CR LF.
fn each_ended(alloc: Global, b: &[u8]) -> Result<Text, Memory>
    ensures { IfOk result (λ t. t ≡ text_in b.now) }
{
    let mut text = Text::from_bytes(alloc, b"")?;
    let mut rest = b;
    while !rest.is_empty() {
        let cut = first_line(rest);
        text.push(cut.line)?;
        text.push(b"\r\n")?;
        rest = cut.rest;
    }
    Ok(text)
}

/// Whether a text has no braces, and lines that are each ended by CR LF.
fn is_text(alloc: Global, b: &[u8]) -> Result<bool, Memory>
    ensures { IfOk result (λ holds. holds ≡ true → IsText b.now) }
{
    let ended = each_ended(alloc, b)?;
    Ok(is_plain(b) && ended.bytes() == b)
}

/// Whether a number and a text may stand in block 3.
fn fits(number: u16, text: &[u8]) -> bool
    ensures { result ≡ (nat_le number 999 && is_plain_of text.now && may_hold number text.now) }
{
    number <= 999 && is_plain(text) && (number != 121 || read_uetr(text).is_some())
}

/// Whether these may be the subblocks of block 3; of more than two none are.
#[tactic(auto, unfolding(fin_blocks::specs::Sending::are_subblocks))]
fn are_sound(user: &[(u16, Text)]) -> bool
    ensures { result ≡ true → IsTrue (are_subblocks user.now) }
{
    match user {
        [] => true,
        [one] => fits(one.0, one.1.bytes()),
        [one, two] => one.0 != two.0 && fits(one.0, one.1.bytes()) && fits(two.0, two.1.bytes()),
        _ => false,
    }
}

/// The subblocks of the words that are left, each by its number and its text.
fn subblocks(alloc: Global, words: &mut Words) -> Result<Vec<(u16, Text)>, Stop> {
    let mut user = Vec::new(alloc);
    for pair in words.rest().chunks(2) {
        let mut pair = Words::new(pair);
        let number = pair.number()?;
        let number = u16::try_from(number).map_err(|_| Stop::Unreadable)?;
        let text = Text::from_bytes(alloc, pair.next()?)?;
        user.push((number, text)).map_err(Memory::from)?;
    }
    Ok(user)
}

/// The next word as a bank.
fn next_bank(words: &mut Words) -> Result<Bic, Stop>
    ensures { IfOk result IsBic }
{
    read_bic(words.next()?).ok_or(Stop::Unreadable)
}

/// `put_blocks HOME TYPE TO TEXT`, and after it the number and the text of each subblock
fn put(words: &mut Words, answer: &mut Answer) -> Result<(), Stop> {
    let alloc = answer.alloc();
    let home = next_bank(words)?;
    let mt = u16::try_from(words.number()?).map_err(|_| Stop::Unreadable)?;
    let to = next_bank(words)?;
    let text = words.next()?;
    let user = subblocks(alloc, words)?;
    if mt > 999 || !are_sound(user.as_slice()) || !is_text(alloc, text)? {
        return Err(Stop::Unreadable);
    }
    let sent = put_blocks(alloc, &home, mt, &to, user.as_slice(), text)?;
    Ok(answer.text(sent.bytes())?)
}
