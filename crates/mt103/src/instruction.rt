//! Instructions: field 23E.

ghost use Rattle.std.specs.Prelude.{◌≡◌, ◌≤◌, ◌||◌, IfOk, IfSome, is_none, length, option_map};
ghost use Rattle.mt103.specs.Codes.{code_in, instr_of, is_instruction, takes_text, instruction_text};
ghost use Rattle.fin_layout.specs.Reading.{Reads};

use crate::codes::{D97, P28};
use corr_text::{Memory, Set, Text, is_all_of};
use fin_contents::{array_of, one_line};
use fin_fields::{FieldLines, is_run_of};
use fin_layout::{Content, P24, Refusal};
use std::alloc::Global;

/// The codes of 23E, in the order in which they may stand.
pub const INSTRUCTIONS: [[u8; 4]; 12] = [
    *b"SDVA", *b"INTC", *b"REPA", *b"CORT", *b"HOLD", *b"CHQB", *b"PHOB", *b"TELB", *b"PHON",
    *b"TELE", *b"PHOI", *b"TELI",
];

/// The codes that may have a text.
pub const WITH_TEXT: [[u8; 4]; 8] = [
    *b"PHON", *b"PHOB", *b"PHOI", *b"TELE", *b"TELB", *b"TELI", *b"HOLD", *b"REPA",
];

/// An instruction: its code and, with some codes, a text.
///
/// Example: `PHOB/20.527.19.60` is the code PHOB with the text `20.527.19.60`.
#[derive(Debug, Drop)]
pub struct Instr {
    pub code: [u8; 4],
    pub text: Option<Text>,
}

/// An instruction, `4!c[/30x]`. P24: the field is not one line of this form. P28: the code is not in the list. D97: a text
/// with a code that takes none.
#[derive(Clone, Copy)]
pub struct Instruction;

#[tactic(auto, unfolding(crate::specs::Codes::is_instruction))]
fn is_instruction(code: &[u8; 4]) -> bool
    ensures { result ≡ is_instruction code.now }
{
    INSTRUCTIONS.iter().any(|c| *c == *code)
}

#[tactic(auto, unfolding(crate::specs::Codes::takes_text))]
fn takes_text(code: &[u8; 4]) -> bool
    ensures { result ≡ takes_text code.now }
{
    WITH_TEXT.iter().any(|c| *c == *code)
}

fn code_in(line: &[u8]) -> Option<[u8; 4]>
    ensures value { result ≡ code_in line.now }
    ensures long { IfSome result (λ _. 4 ≤ length line.now) }
{
    if line.len() < 4 || !is_all_of(Set::C, &line[..4]) {
        return None;
    }
    array_of::<4>(&line[..4])
}

// The text after a code, none where there is another form.
fn text_in(rest: &[u8]) -> Option<Option<&[u8]>>
    ensures { option_map (option_map (λ b. b.now)) result ≡ instruction_text rest.now }
{
    match rest {
        [] => Some(None),
        [b'/', text @ ..] if is_run_of(Set::X, 30, text) => Some(Some(text)),
        _ => None,
    }
}

// Whether a code may stand with this text, or with none.
fn may_stand(code: &[u8; 4], text: Option<&[u8]>) -> bool
    ensures { result ≡ is_none (option_map (λ b. b.now) text.entry) || takes_text code.now }
{
    match text {
        Some(_) => takes_text(code),
        None => true,
    }
}

fn copy_text(alloc: Global, text: Option<&[u8]>) -> Result<Option<Text>, Memory>
    ensures { IfOk result (λ t. t ≡ option_map (λ b. b.now) text.entry) }
{
    match text {
        Some(text) => Ok(Some(Text::from_bytes(alloc, text)?)),
        None => Ok(None),
    }
}

#[tactic(auto, unfolding(crate::specs::Codes::instr_of))]
fn read_instr(alloc: Global, f: &FieldLines<'_>) -> Result<Instr, Refusal>
    ensures { Reads result (instr_of f.now) }
{
    let Some(line) = one_line(f) else {
        return Err(Refusal::Bad(P24));
    };
    let Some(code) = code_in(line) else {
        return Err(Refusal::Bad(P24));
    };
    let Some(text) = text_in(&line[4..]) else {
        return Err(Refusal::Bad(P24));
    };
    if !is_instruction(&code) {
        return Err(Refusal::Bad(P28));
    }
    if !may_stand(&code, text) {
        return Err(Refusal::Bad(D97));
    }
    Ok(Instr {
        code,
        text: copy_text(alloc, text)?,
    })
}

impl Content for Instruction {
    type Value = Instr;

    ghost meaning = { λ _ f. instr_of f };

    fn read(&self, alloc: Global, f: &FieldLines<'_>) -> Result<Instr, Refusal> {
        read_instr(alloc, f)
    }
}
