//! A page of a statement written as block 4's lines.

ghost use Rattle.std.specs.Prelude.{◌≡◌, ◌++◌, All, List as Items, IfOk, IfSome, None, Ok, OnOk, map};
ghost use Rattle.fin_contents.specs.Writing.{IsReadable, some_field};
ghost use Rattle.fin_fields.specs.Faults.{field_fault};
ghost use Rattle.fin_fields.specs.Fields.{fields_of};
ghost use Rattle.fin_fields.specs.Writing.{fields_text, letter_text};
ghost use Rattle.fin_fields.specs.declared.field.Field.{Field as FieldSeen};
ghost use Rattle.mt950.specs.Page.{mt950_of};
ghost use Rattle.mt950.specs.Writing.{IsBalance, IsWritableLine, balance_field, balance_mark, detail_lines, fields_950, balance_letter, line_field_61, line_text, number_field, page_text, part_text, servicer_text};
ghost use Rattle.ref_tables.specs.Seen.{Tables};

use crate::balance::Balance;
use crate::entry::Line61;
use crate::page::Page950;
use corr_ids::put_yymmdd;
use corr_money::{Amount, Ccy, Minor, put_15d};
use corr_text::{List, Memory, Text, put_digits};
use fin_contents::{line_field, put_ccy_amount_text, put_reference, put_short_line};
use fin_fields::{Field, put_fields};
use std::alloc::Global;

/// The letter of a balance's field.
fn letter_of(last: bool) -> u8
    ensures { result ≡ balance_letter last }
{
    if last { b'F' } else { b'M' }
}

#[tactic(auto, using(crate::proofs::PageNumbers::bare_digits))]
fn put_page(alloc: Global, page: Option<u32>, out: &mut Text) -> Result<(), Memory>
    ensures { OnOk result (out.new ≡ out.old ++ page_text page) }
{
    match page {
        Some(page) => {
            out.push(b"/")?;
            put_digits(alloc, page as u64, 0, out)
        }
        None => Ok(()),
    }
}

/// Field 28C, the page's number after a slash where it is given.
#[tactic(auto, using(crate::proofs::PageNumbers::bare_digits))]
fn put_numbers(alloc: Global, number: u32, page: Option<u32>) -> Result<Field, Memory>
    ensures { IfOk result (λ f. f ≡ number_field number page) }
{
    let mut line = Text::from_bytes(alloc, b"")?;
    put_digits(alloc, number as u64, 0, &mut line)?;
    put_page(alloc, page, &mut line)?;
    line_field(alloc, 28, Some(b'C'), line.bytes())
}

fn balance_mark(signed: i64) -> &'static [u8]
    ensures { result.now ≡ balance_mark signed }
{
    if signed < 0 { b"D" } else { b"C" }
}

/// A balance as a field: mark D where it is below 0, else C.
fn put_balance(
    alloc: Global,
    tag: u8,
    letter: Option<u8>,
    ccy: Ccy,
    decimals: u8,
    balance: Balance,
) -> Result<Field, Memory>
    requires { IsBalance decimals balance }
    ensures { IfOk result (λ f. f ≡ balance_field tag letter ccy decimals balance) }
{
    let mut line = Text::from_bytes(alloc, balance_mark(balance.signed))?;
    put_yymmdd(balance.day, &mut line)?;
    let amount = Amount {
        ccy,
        minor: Minor(balance.signed.unsigned_abs()),
        decimals,
    };
    put_ccy_amount_text(alloc, &amount, &mut line)?;
    line_field(alloc, tag, letter, line.bytes())
}

fn put_entry(entry: Option<[u8; 4]>, out: &mut Text) -> Result<(), Memory>
    ensures { OnOk result (out.new ≡ out.old ++ part_text entry) }
{
    match entry {
        Some(entry) => out.push(&entry),
        None => Ok(()),
    }
}

fn put_funds(funds: Option<u8>, out: &mut Text) -> Result<(), Memory>
    ensures { OnOk result (out.new ≡ out.old ++ letter_text funds) }
{
    match funds {
        Some(letter) => out.push(&[letter]),
        None => Ok(()),
    }
}

fn put_servicer(servicer: &Option<Text>, out: &mut Text) -> Result<(), Memory>
    ensures { OnOk result (out.new ≡ out.old ++ servicer_text servicer.now) }
{
    match servicer {
        Some(text) => out.push_all(&[b"//", text.bytes()]),
        None => Ok(()),
    }
}

/// The first line of a field 61.
fn put_first_line(alloc: Global, decimals: u8, line: &Line61) -> Result<Text, Memory>
    requires { IsWritableLine decimals line.now }
    ensures { IfOk result (λ t. t ≡ line_text decimals line.now) }
{
    let mut out = Text::from_bytes(alloc, b"")?;
    put_yymmdd(line.value, &mut out)?;
    put_entry(line.entry, &mut out)?;
    out.push(line.mark.letters())?;
    put_funds(line.funds, &mut out)?;
    put_15d(alloc, line.amount, decimals, &mut out)?;
    out.push(&line.kind)?;
    out.push(line.reference.bytes())?;
    put_servicer(&line.servicer, &mut out)?;
    Ok(out)
}

fn push_detail(alloc: Global, detail: &Option<Text>, lines: &mut List<Text>) -> Result<(), Memory>
    ensures { OnOk result (lines.new ≡ lines.old ++ detail_lines detail.now) }
{
    match detail {
        Some(detail) => lines.push(detail.copy(alloc)?),
        None => Ok(()),
    }
}

fn put_line(alloc: Global, decimals: u8, line: &Line61) -> Result<Field, Memory>
    requires { IsWritableLine decimals line.now }
    ensures { IfOk result (λ f. f ≡ line_field_61 decimals line.now) }
{
    let mut lines = List::new(alloc);
    lines.push(put_first_line(alloc, decimals, line)?)?;
    push_detail(alloc, &line.detail, &mut lines)?;
    Ok(Field {
        tag: 61,
        letter: None,
        lines,
    })
}

fn push_lines(
    alloc: Global,
    decimals: u8,
    lines: &[Line61],
    fields: &mut List<Field>,
) -> Result<(), Memory>
    requires { All (IsWritableLine decimals) lines.now }
    ensures { OnOk result (fields.new ≡ fields.old ++ map (line_field_61 decimals) lines.now) }
{
    for line in lines {
        fields.push(put_line(alloc, decimals, line)?)?;
    }
    Ok(())
}

fn push_available(alloc: Global, p: &Page950, fields: &mut List<Field>) -> Result<(), Memory>
    requires { IfSome p.now.available (IsBalance p.now.decimals) }
    ensures { OnOk result (fields.new ≡ fields.old ++ some_field (balance_field 64 None p.now.ccy p.now.decimals) p.now.available) }
{
    match p.available {
        Some(balance) => { fields.push(put_balance(alloc, 64, None, p.ccy, p.decimals, balance)?) }
        None => Ok(()),
    }
}

/// The fields of a page in the order of their places, as `put_mt950` writes them: 20, 25, 28C, 60F or 60M, a 61 for each line, 62F or
/// 62M, and 64 if it is there. The balances and the lines are those that a page can say: below 10^14 minor units of its currency.
#[tactic(auto, unfolding(crate::specs::Writing::fields_950))]
pub fn fields_950(alloc: Global, p: &Page950) -> Result<List<Field>, Memory>
    requires opening { IsBalance p.now.decimals p.now.opening }
    requires lines { All (IsWritableLine p.now.decimals) p.now.lines }
    requires closing { IsBalance p.now.decimals p.now.closing }
    requires available { IfSome p.now.available (IsBalance p.now.decimals) }
    ensures { IfOk result (λ fields. fields ≡ fields_950 p.now) }
{
    let (ccy, decimals) = (p.ccy, p.decimals);
    let first = Some(letter_of(p.opening.last));
    let last = Some(letter_of(p.closing.last));
    let mut fields = List::new(alloc);
    fields.push(put_reference(alloc, 20, &p.reference)?)?;
    fields.push(put_short_line(alloc, 25, &p.account)?)?;
    fields.push(put_numbers(alloc, p.number, p.page)?)?;
    fields.push(put_balance(alloc, 60, first, ccy, decimals, p.opening)?)?;
    push_lines(alloc, decimals, p.lines.as_slice(), &mut fields)?;
    fields.push(put_balance(alloc, 62, last, ccy, decimals, p.closing)?)?;
    push_available(alloc, p, &mut fields)?;
    Ok(fields)
}

/// Writes the page of a statement as block 4's lines: its fields in the order of their places, each line ended by CR LF. Each
/// amount has all decimals of the currency, and a balance of 0 the mark C.
///
/// The page is one that `read_mt950` gives of fields that were cut from a text (its clause `written`). The lines are cut into
/// fields without fault (`sound`), and under all tables under which the page may be read they read as the same one (`again`).
pub fn put_mt950(alloc: Global, p: &Page950) -> Result<Text, Memory>
    requires { IsReadable mt950_of p.now }
    ensures text { IfOk result (λ text. text ≡ fields_text (fields_950 p.now)) }
    ensures sound { IfOk result (λ text. field_fault text ≡ None) }
    ensures again { IfOk result (λ text. (t : Tables) (fs : Items FieldSeen) → mt950_of t fs ≡ Ok p.now → mt950_of t (fields_of text) ≡ Ok p.now) }
{
    let fields = fields_950(alloc, p)?;
    put_fields(alloc, fields.as_slice())
}
