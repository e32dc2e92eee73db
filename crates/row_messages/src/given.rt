//! Tables and fields that rows give.

ghost use Rattle.std.specs.Prelude.{◌≤◌, All, IfOk, IsTrue, length};
ghost use Rattle.fin_fields.specs.Writing.{IsField};
ghost use Rattle.fin_fields.specs.Fields.{most_text_lines};
ghost use Rattle.ref_tables.specs.Seen.{few_decimals};

use corr_ids::{Bic, put_bic};
use corr_text::{Code, Fault, List, Memory, Text};
use fin_fields::{Field, FieldFault, cut_fields};
use fin_layout::MtFault;
use memchr::memmem;
use ref_tables::{RefTables, TableFault, read_tables};
use row_words::answer::Answer;
use row_words::stop::Stop;
use row_words::words::Words;
use std::alloc::Global;

/// A text up to its first empty line, and what follows that line.
pub fn section(text: &[u8]) -> (&[u8], &[u8]) {
    match memmem::find(text, b"\r\n\r\n") {
        Some(at) if at <= text.len() && text.len() - at >= 4 => (&text[..at + 2], &text[at + 4..]),
        _ => (text, b""),
    }
}

/// The files of banks, currencies and countries in a text, one after the other, with an empty line between two.
pub fn tables_in(alloc: Global, text: &[u8]) -> Result<RefTables, Stop>
    ensures { IfOk result (λ t. IsTrue (few_decimals t.ccys)) }
{
    let (bics, rest) = section(text);
    let (ccys, rest) = section(rest);
    let (countries, _) = section(rest);
    match read_tables(alloc, bics, ccys, countries) {
        Ok(tables) => Ok(tables),
        Err(TableFault::Memory) => Err(Stop::Memory),
        Err(_) => Err(Stop::Unreadable),
    }
}

/// Whether a line begins the field of this tag, as `:32A:`.
fn begins(line: &[u8], tag: &[u8]) -> bool {
    match line.strip_prefix(b":") {
        Some(line) => match line.strip_prefix(tag) {
            Some(line) => line.starts_with(b":"),
            None => false,
        },
        None => false,
    }
}

/// Adds lines, ended by LF; none where there is no byte.
fn push_lines(lines: &[u8], out: &mut Text) -> Result<(), Memory> {
    out.push(lines)?;
    if !lines.is_empty() && !lines.ends_with(b"\n") {
        out.push(b"\n")?;
    }
    Ok(())
}

/// The lines of a text with others in place of those of the fields that have this tag.
fn with_field(alloc: Global, text: &[u8], tag: &[u8], other: &[u8]) -> Result<Text, Memory> {
    let mut out = Text::from_bytes(alloc, b"")?;
    let mut within = false;
    for line in text.split(|b| *b == b'\n') {
        if begins(line, tag) {
            within = true;
            push_lines(other, &mut out)?;
        } else if line.starts_with(b":") {
            within = false;
        }
        if !within {
            push_lines(line, &mut out)?;
        }
    }
    Ok(out)
}

/// The text that the words say: a text as it is; or a sample, and for some of its fields the tag and the lines that stand in
/// their place.
pub fn text_in(alloc: Global, words: &mut Words) -> Result<Text, Stop> {
    let mut text = Text::from_bytes(alloc, words.next()?)?;
    for _ in 0..words.count() / 2 {
        let tag = words.next()?;
        let other = words.next()?;
        text = with_field(alloc, text.bytes(), tag, other)?;
    }
    Ok(text)
}

/// The fields of a text, which can be cut.
#[tactic(auto, using(fin_fields::proofs::laws::Bounds::lines_few))]
pub fn cut(alloc: Global, text: &[u8]) -> Result<List<Field>, Stop>
    ensures few { IfOk result (λ fields. length fields ≤ most_text_lines) }
    ensures fit { IfOk result (λ fields. All IsField fields) }
{
    if text.len() > 65000 {
        return Err(Stop::Unreadable);
    }
    match cut_fields(alloc, text) {
        Ok(fields) if fields.as_slice().len() <= 65535 => Ok(fields),
        Err(FieldFault::Memory) => Err(Stop::Memory),
        _ => Err(Stop::Unreadable),
    }
}

/// The fields that the words say, as `text_in` has them.
pub fn fields_in(alloc: Global, words: &mut Words) -> Result<List<Field>, Stop>
    ensures few { IfOk result (λ fields. length fields ≤ most_text_lines) }
    ensures fit { IfOk result (λ fields. All IsField fields) }
{
    let text = text_in(alloc, words)?;
    cut(alloc, text.bytes())
}

/// Adds a bank, as its BIC.
pub fn put_bank(bank: &Bic, out: &mut Answer) -> Result<(), Memory> {
    let mut text = Text::from_bytes(out.alloc(), b"")?;
    put_bic(bank, &mut text)?;
    out.word(text.bytes())
}

/// Adds a code.
pub fn put_code(code: Code, out: &mut Answer) -> Result<(), Memory> {
    out.word(&code.0)
}

/// Adds a fault, as `T52 32A 1`.
pub fn put_fault(fault: &Fault, out: &mut Answer) -> Result<(), Memory> {
    put_code(fault.code, out)?;
    out.word(fault.tag.trim_ascii_end())?;
    out.number(fault.nth as u64)
}

/// Adds the fault of fields that are no message.
pub fn put_refusal(fault: &MtFault, out: &mut Answer) -> Result<(), Stop> {
    match fault {
        MtFault::Bad(fault) => Ok(put_fault(fault, out)?),
        MtFault::Memory => Err(Stop::Memory),
    }
}

/// Lets a message go. Generic, so that it is one value.
pub fn let_go<M: Drop>(_m: M) {}
