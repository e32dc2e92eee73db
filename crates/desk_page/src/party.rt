//! Parties as texts.

ghost use Rattle.std.specs.Prelude.{◌≡◌, ◌++◌, ◌∷◌, [], IfOk, OnOk, option_to_list};
ghost use Rattle.desk_page.specs.Row.{lined, party_text};

use corr_ids::put_bic;
use corr_text::{Memory, Text};
use fin_parties::Party;
use std::alloc::Global;

/// Adds a line, and a line feed after it.
fn put_line(line: &[u8], out: &mut Text) -> Result<(), Memory>
    ensures { OnOk result (out.new ≡ out.old ++ line.now ++ 10 ∷ []) }
{
    out.push_all(&[line, b"\n"])
}

/// Adds a line, if there is one.
fn put_optional(line: &Option<Text>, out: &mut Text) -> Result<(), Memory>
    ensures { OnOk result (out.new ≡ out.old ++ lined (option_to_list line.now)) }
{
    match line {
        Some(line) => put_line(line.bytes(), out),
        None => Ok(()),
    }
}

/// Adds lines, each with a line feed after it.
fn put_lines(lines: &[Text], out: &mut Text) -> Result<(), Memory>
    ensures { OnOk result (out.new ≡ out.old ++ lined lines.now) }
{
    for line in lines {
        put_line(line.bytes(), out)?;
    }
    Ok(())
}

/// Adds a party.
fn put_party(party: &Party, out: &mut Text) -> Result<(), Memory>
    ensures { OnOk result (out.new ≡ out.old ++ party_text party.now) }
{
    match party {
        Party::A { line, bic } => {
            put_optional(line, out)?;
            put_bic(bic, out)
        }
        Party::B { line, place } => {
            put_optional(line, out)?;
            put_optional(place, out)
        }
        Party::C { line } => out.push(line.bytes()),
        Party::D { line, lines } | Party::F { line, lines } => {
            put_optional(line, out)?;
            put_lines(lines.as_slice(), out)
        }
        Party::K { account, lines } => {
            put_optional(account, out)?;
            put_lines(lines.as_slice(), out)
        }
    }
}

/// A party as a text: its account or party line, if it has one, and then its bank, or its name and address, a line feed after each line.
///
/// `Memory`: there was no room for the text.
pub fn party_text(alloc: Global, party: &Party) -> Result<Text, Memory>
    ensures { IfOk result (λ text. text ≡ party_text party.now) }
{
    let mut out = Text::from_bytes(alloc, b"")?;
    put_party(party, &mut out)?;
    Ok(out)
}
