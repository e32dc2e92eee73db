//! Parties written as fields.

ghost use Rattle.std.specs.Prelude.{◌≡◌, ◌++◌, [], ◌∷◌, Some, IfOk, OnOk, option_map};
ghost use Rattle.corr_ids.specs.Bic.{bic_text};
ghost use Rattle.fin_fields.specs.declared.field.Field.{Field as FieldSeen};
ghost use Rattle.fin_fields.specs.Writing.{IsField};
ghost use Rattle.fin_parties.specs.Party.{party_of};
ghost use Rattle.fin_parties.specs.Writing.{led_by, party_field, party_letter, party_lines};

use crate::party::Party;
use corr_ids::{Bic, put_bic};
use corr_text::{List, Memory, Text, push_texts};
use fin_fields::Field;
use std::alloc::Global;

fn party_letter(tag: u8, p: &Party) -> Option<u8>
    ensures { result ≡ party_letter tag p.now }
{
    match p {
        Party::A { .. } => Some(b'A'),
        Party::B { .. } => Some(b'B'),
        Party::C { .. } => Some(b'C'),
        Party::D { .. } => Some(b'D'),
        Party::K { .. } if tag == 59 => None,
        Party::K { .. } => Some(b'K'),
        Party::F { .. } => Some(b'F'),
    }
}

fn bic_line(alloc: Global, bic: &Bic) -> Result<Text, Memory>
    ensures { IfOk result (λ t. t ≡ bic_text bic.now) }
{
    let mut line = Text::from_bytes(alloc, b"")?;
    put_bic(bic, &mut line)?;
    Ok(line)
}

fn account_line(alloc: Global, account: &Text) -> Result<Text, Memory>
    ensures { IfOk result (λ t. t ≡ 47 ∷ account.now) }
{
    let mut line = Text::from_bytes(alloc, b"/")?;
    line.push(account.bytes())?;
    Ok(line)
}

fn push_line(alloc: Global, line: &Option<Text>, lines: &mut List<Text>) -> Result<(), Memory>
    ensures { OnOk result (lines.new ≡ lines.old ++ led_by line.now []) }
{
    match line {
        Some(line) => lines.push(line.copy(alloc)?),
        None => Ok(()),
    }
}

fn push_account(alloc: Global, account: &Option<Text>, lines: &mut List<Text>) -> Result<(), Memory>
    ensures { OnOk result (lines.new ≡ lines.old ++ led_by (option_map (λ a. 47 ∷ a) account.now) []) }
{
    match account {
        Some(account) => lines.push(account_line(alloc, account)?),
        None => Ok(()),
    }
}

fn party_lines(alloc: Global, p: &Party) -> Result<List<Text>, Memory>
    ensures { IfOk result (λ lines. lines ≡ party_lines p.now) }
{
    let mut lines = List::new(alloc);
    match p {
        Party::A { line, bic } => {
            push_line(alloc, line, &mut lines)?;
            lines.push(bic_line(alloc, bic)?)?;
        }
        Party::B { line, place } => {
            push_line(alloc, line, &mut lines)?;
            push_line(alloc, place, &mut lines)?;
        }
        Party::C { line } => lines.push(line.copy(alloc)?)?,
        Party::D { line, lines: rest } | Party::F { line, lines: rest } => {
            push_line(alloc, line, &mut lines)?;
            push_texts(alloc, rest.as_slice(), &mut lines)?;
        }
        Party::K {
            account,
            lines: rest,
        } => {
            push_account(alloc, account, &mut lines)?;
            push_texts(alloc, rest.as_slice(), &mut lines)?;
        }
    }
    Ok(lines)
}

/// Writes a party as a field of this tag; a BIC is written with 8 characters where its branch is `XXX`, else with 11.
///
/// Where `read_party` gives the party for a field of that tag, it reads the written field as the same party (`again`), the
/// letters of both are one (`letter`), and the written one may stand in block 4 where the first might (`fit`).
///
/// Example: at tag 59 `K` with the account `CUST1` and the line `A PAYEE` is `:59:/CUST1` and `A PAYEE`.
pub fn put_party(alloc: Global, tag: u8, p: &Party) -> Result<Field, Memory>
    ensures field { IfOk result (λ f. f ≡ party_field tag p.now) }
    ensures again { IfOk result (λ written. (f : FieldSeen) → f.tag ≡ tag → party_of f ≡ Some p.now → party_of written ≡ Some p.now) }
    ensures letter { IfOk result (λ written. (f : FieldSeen) → f.tag ≡ tag → party_of f ≡ Some p.now → written.letter ≡ f.letter) }
    ensures fit { IfOk result (λ written. (f : FieldSeen) → f.tag ≡ tag → party_of f ≡ Some p.now → IsField f → IsField written) }
{
    Ok(Field {
        tag,
        letter: party_letter(tag, p),
        lines: party_lines(alloc, p)?,
    })
}
