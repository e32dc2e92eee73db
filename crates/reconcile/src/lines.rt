//! The lines that tell of a statement.

ghost use Rattle.std.specs.Prelude.{◌≡◌, ◌-◌, ◌≤◌, ◌<◌, ◌++◌, All, IfSome, OnOk, Some, map, slice_get};
ghost use Rattle.std.specs.List.{Contains};
ghost use Rattle.std.specs.Option.{option_copied, option_map};
ghost use Rattle.corr_money.specs.Amounts.{amount_end, most_decimals};
ghost use Rattle.mt950.specs.Joining.{told};
ghost use Rattle.mt950.specs.declared.joining.PageFault.TheVariants as fault;
ghost use Rattle.statement.specs.inner.Lines.{PlacesFrom};
ghost use Rattle.statement.specs.Running.{placed_by};
ghost use Rattle.reconcile.specs.inner.Bounds.{CanBeKeyed, IsLine};
ghost use Rattle.reconcile.specs.Comparison.{placed_at};
ghost use Rattle.reconcile.specs.Lines.{compared_lines, fault_words, gap_line, ours_line, ours_lines, pair_line, pair_lines, theirs_line, theirs_lines};

use crate::comparing::Compared;
use corr_report::{put_amount, put_balance, put_number, put_word, side_letter};
use corr_text::{Memory, Text};
use mt950::{Line61, PageFault};
use statement::Movement;
use std::alloc::Global;

/// Adds the line of a pair: the place of the entry and the number of the line.
fn put_pair(alloc: Global, place: u32, number: u32, out: &mut Text) -> Result<(), Memory>
    ensures { OnOk result (out.new ≡ out.old ++ pair_line (place, number)) }
{
    out.push(b"PAIR")?;
    put_number(alloc, place as u64, 8, out)?;
    put_number(alloc, number as u64, 5, out)?;
    out.push(b"\n")
}

fn put_pairs(alloc: Global, pairs: &[(u32, u32)], out: &mut Text) -> Result<(), Memory>
    ensures { OnOk result (out.new ≡ out.old ++ pair_lines pairs.now) }
{
    for (place, number) in pairs {
        put_pair(alloc, *place, *number, out)?;
    }
    Ok(())
}

/// Adds the line of an entry that no line says: its place, its side, its amount and what it quotes.
#[tactic(auto, using(crate::proofs::Sides::as_lettered))]
fn put_entry(alloc: Global, entry: &Movement, decimals: u8, out: &mut Text) -> Result<(), Memory>
    requires amount { entry.now.amount.0 < amount_end }
    requires decimals { decimals ≤ most_decimals }
    ensures { OnOk result (out.new ≡ out.old ++ ours_line decimals (placed_by entry.now)) }
{
    out.push(b"OURS")?;
    put_number(alloc, entry.place as u64, 8, out)?;
    put_word(side_letter(entry.side), out)?;
    put_amount(alloc, entry.amount, decimals, out)?;
    put_word(entry.reference.bytes(), out)?;
    out.push(b"\n")
}

/// The entry at a place of the journal, among entries whose places rise.
fn entry_at(entries: &[Movement], place: u32) -> Option<&Movement>
    requires { PlacesFrom 1 (map placed_by entries.now) }
    ensures value { option_map placed_by (option_copied result) ≡ placed_at place (map placed_by entries.now) }
    ensures member { IfSome result (λ entry. Contains entries.now entry.now) }
{
    let at = entries.partition_point(|entry| entry.place < place);
    let entry = entries.get(at)?;
    if entry.place != place {
        return None;
    }
    Some(entry)
}

fn put_ours(
    alloc: Global,
    entries: &[Movement],
    places: &[u32],
    decimals: u8,
    out: &mut Text,
) -> Result<(), Memory>
    requires entries { All CanBeKeyed entries.now }
    requires rising { PlacesFrom 1 (map placed_by entries.now) }
    requires decimals { decimals ≤ most_decimals }
    ensures { OnOk result (out.new ≡ out.old ++ ours_lines decimals (map placed_by entries.now) places.now) }
{
    for place in places {
        if let Some(entry) = entry_at(entries, *place) {
            put_entry(alloc, entry, decimals, out)?;
        }
    }
    Ok(())
}

/// Adds the line of a line that no entry says: its number, its mark, its amount and its reference.
fn put_line(
    alloc: Global,
    number: u32,
    line: &Line61,
    decimals: u8,
    out: &mut Text,
) -> Result<(), Memory>
    requires line { IsLine line.now }
    requires decimals { decimals ≤ most_decimals }
    ensures { OnOk result (out.new ≡ out.old ++ theirs_line decimals number line.now) }
{
    out.push(b"THEIRS")?;
    put_number(alloc, number as u64, 5, out)?;
    put_word(line.mark.letters(), out)?;
    put_amount(alloc, line.amount, decimals, out)?;
    put_word(line.reference.bytes(), out)?;
    out.push(b"\n")
}

/// The line with a number, from 1.
fn line_with(lines: &[Line61], number: u32) -> Option<&Line61>
    requires { 1 ≤ number }
    ensures value { option_copied result ≡ slice_get lines.now (number - 1) }
    ensures member { IfSome result (λ line. Contains lines.now line.now) }
{
    lines.get(number as usize - 1)
}

fn put_theirs(
    alloc: Global,
    lines: &[Line61],
    numbers: &[u32],
    decimals: u8,
    out: &mut Text,
) -> Result<(), Memory>
    requires lines { All IsLine lines.now }
    requires numbers { All (λ number. 1 ≤ number) numbers.now }
    requires decimals { decimals ≤ most_decimals }
    ensures { OnOk result (out.new ≡ out.old ++ theirs_lines decimals lines.now numbers.now) }
{
    for number in numbers {
        if let Some(line) = line_with(lines, *number) {
            put_line(alloc, *number, line, decimals, out)?;
        }
    }
    Ok(())
}

fn put_gap(
    alloc: Global,
    opening: i64,
    closing: i64,
    decimals: u8,
    out: &mut Text,
) -> Result<(), Memory>
    requires { decimals ≤ most_decimals }
    ensures { OnOk result (out.new ≡ out.old ++ gap_line decimals opening closing) }
{
    out.push(b"GAP")?;
    put_balance(alloc, opening, decimals, out)?;
    put_balance(alloc, closing, decimals, out)?;
    out.push(b"\n")
}

/// Adds the lines of a statement that was compared with these entries: the pairs, what is left of ours and of theirs, and the gaps.
pub fn put_compared(
    alloc: Global,
    compared: &Compared,
    entries: &[Movement],
    lines: &[Line61],
    decimals: u8,
    out: &mut Text,
) -> Result<(), Memory>
    requires entries { All CanBeKeyed entries.now }
    requires rising { PlacesFrom 1 (map placed_by entries.now) }
    requires lines { All IsLine lines.now }
    requires numbers { All (λ number. 1 ≤ number) compared.now.theirs }
    requires decimals { decimals ≤ most_decimals }
    ensures { OnOk result (out.new ≡ out.old ++ compared_lines decimals (map placed_by entries.now) lines.now compared.now) }
{
    put_pairs(alloc, compared.pairs.as_slice(), out)?;
    put_ours(alloc, entries, compared.ours.as_slice(), decimals, out)?;
    put_theirs(alloc, lines, compared.theirs.as_slice(), decimals, out)?;
    put_gap(
        alloc,
        compared.opening_gap,
        compared.closing_gap,
        decimals,
        out,
    )
}

/// Adds why pages are no statement, with amounts of so many decimals. `Memory`: there was none, for the pages or for the text.
pub fn put_fault(
    alloc: Global,
    fault: PageFault,
    decimals: u8,
    out: &mut Text,
) -> Result<(), Memory>
    requires { decimals ≤ most_decimals }
    ensures words { OnOk result (out.new ≡ out.old ++ fault_words decimals fault) }
    ensures told { OnOk result (told fault ≡ Some fault) }
{
    match fault {
        PageFault::Gap { page } => {
            out.push(b" GAP")?;
            put_number(alloc, page as u64, 5, out)
        }
        PageFault::NotCarried {
            page,
            closing,
            opening,
        } => {
            out.push(b" NOT CARRIED")?;
            put_number(alloc, page as u64, 5, out)?;
            put_balance(alloc, closing, decimals, out)?;
            put_balance(alloc, opening, decimals, out)
        }
        PageFault::DoesNotAdd {
            opening,
            sum,
            closing,
        } => {
            out.push(b" DOES NOT ADD")?;
            put_balance(alloc, opening, decimals, out)?;
            put_balance(alloc, sum, decimals, out)?;
            put_balance(alloc, closing, decimals, out)
        }
        PageFault::Memory => Err(Memory),
    }
}
