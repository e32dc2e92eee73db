//! Messages to look at twice.

ghost use Rattle.std.specs.Prelude.{◌≡◌, ◌++◌, ◌||◌, ℕ, [], ◌∷◌, All, IfOk, List, OnOk, map};
ghost use Rattle.std.specs.List.{list_any};
ghost use Rattle.std.specs.Str.{bytes_eq};
ghost use Rattle.day_model.specs.Chart.{Chart};
ghost use Rattle.desk_page.specs.Markup.{markup};
ghost use Rattle.desk_page.specs.Row.{IsShown, IsShownPayment};
ghost use Rattle.desk_page.specs.Twice.{is_known_uetr, is_twice, keys_of, stands_in, terms_of, twice_from, twice_if, twice_line, twice_row, twice_section, uetr_keys};
ghost use Rattle.desk_page.specs.inner.Twice.{terms_in};
ghost use Rattle.desk_page.specs.declared.mark.Piece.TheVariants as piece;

use crate::cells::{put_amount, put_bank, put_cell, put_number};
use crate::mark::{Piece, mark};
use crate::row::{Payment, Row};
use corr_ids::Uetr;
use corr_text::{Decimal, Memory, Text};
use indexmap::IndexSet;
use std::alloc::Global;

/// A payment's sender, currency, amount in minor units, and field 20, one after another.
#[tactic(auto, unfolding(crate::specs::Twice::terms_of))]
fn terms_of(alloc: Global, payment: &Payment) -> Result<Text, Memory>
    ensures { IfOk result (λ terms. terms ≡ terms_of payment.now) }
{
    let mut room = Decimal::new();
    let mut terms = Text::from_bytes(alloc, &payment.sender.head)?;
    terms.push(&payment.sender.branch)?;
    terms.push(&payment.amount.ccy.0)?;
    terms.push(room.padded(payment.amount.minor.0, 14))?;
    terms.push(payment.reference.bytes())?;
    Ok(terms)
}

/// Those of a message, if it asks for a payment.
fn terms_in(alloc: Global, row: &Row) -> Result<Text, Memory>
    ensures { IfOk result (λ terms. terms ≡ terms_in row.now) }
{
    match row {
        Row::Asks { payment, .. } => terms_of(alloc, payment),
        Row::Refused { .. } => Text::from_bytes(alloc, b""),
        Row::Told { .. } => Text::from_bytes(alloc, b""),
    }
}

/// Those of each message.
fn all_terms(alloc: Global, rows: &[Row]) -> Result<Vec<Text>, Memory>
    ensures { IfOk result (λ terms. terms.items ≡ map terms_in rows.now) }
{
    let mut all = Vec::with_capacity(alloc, rows.len())?;
    for row in rows {
        let terms = terms_in(alloc, row)?;
        all.push(terms)?;
    }
    Ok(all)
}

/// Adds a key to those that are known.
fn add<'a>(known: &mut IndexSet<&'a [u8]>, added: &'a [u8]) -> Result<(), Memory>
    ensures { OnOk result ((keys : List (List ℕ)) → ((key : List ℕ) → list_any (λ k. bytes_eq key k.now) known.old.keys ≡ stands_in keys key)
        → (key : List ℕ) → list_any (λ k. bytes_eq key k.now) known.new.keys ≡ stands_in (keys ++ added.now ∷ []) key) }
{
    known.insert(added)?;
    Ok(())
}

/// Adds a UETR, if there is one.
fn add_uetr<'a>(known: &mut IndexSet<&'a [u8]>, uetr: &'a Option<Uetr>) -> Result<(), Memory>
    ensures { OnOk result ((keys : List (List ℕ)) → ((key : List ℕ) → list_any (λ k. bytes_eq key k.now) known.old.keys ≡ stands_in keys key)
        → (key : List ℕ) → list_any (λ k. bytes_eq key k.now) known.new.keys ≡ stands_in (keys ++ uetr_keys uetr.now) key) }
{
    match uetr {
        Some(uetr) => add(known, &uetr.0),
        None => Ok(()),
    }
}

/// Adds what a message is known by.
fn note<'a>(known: &mut IndexSet<&'a [u8]>, row: &'a Row, terms: &'a [u8]) -> Result<(), Memory>
    requires { terms.now ≡ terms_in row.now }
    ensures { OnOk result ((keys : List (List ℕ)) → ((key : List ℕ) → list_any (λ k. bytes_eq key k.now) known.old.keys ≡ stands_in keys key)
        → (key : List ℕ) → list_any (λ k. bytes_eq key k.now) known.new.keys ≡ stands_in (keys ++ keys_of row.now) key) }
{
    match row {
        Row::Asks { payment, .. } => {
            add(known, &payment.mir.0)?;
            add(known, terms)?;
            add_uetr(known, &payment.uetr)
        }
        Row::Refused { .. } => Ok(()),
        Row::Told { .. } => Ok(()),
    }
}

/// Whether a key is known.
fn is_known(known: &IndexSet<&[u8]>, key: &[u8]) -> bool
    ensures { result ≡ list_any (λ k. bytes_eq key.now k.now) known.now.keys }
{
    known.contains(key)
}

/// Whether a UETR is known.
fn is_known_uetr(known: &IndexSet<&[u8]>, uetr: &Option<Uetr>) -> bool
    ensures { result ≡ is_known_uetr (λ key. list_any (λ k. bytes_eq key k.now) known.now.keys) uetr.now }
{
    match uetr {
        Some(uetr) => is_known(known, &uetr.0),
        None => false,
    }
}

/// Whether a message's reference isn't known, and its terms or its UETR are.
fn is_twice(known: &IndexSet<&[u8]>, row: &Row, terms: &[u8]) -> bool
    requires { terms.now ≡ terms_in row.now }
    ensures { result ≡ is_twice (λ key. list_any (λ k. bytes_eq key k.now) known.now.keys) row.now }
{
    match row {
        Row::Asks { payment, .. } => {
            !is_known(known, &payment.mir.0)
                && (is_known(known, terms) || is_known_uetr(known, &payment.uetr))
        }
        Row::Refused { .. } => false,
        Row::Told { .. } => false,
    }
}

/// Adds the row of the `n`-th message, of this payment.
#[tactic(auto, unfolding(crate::specs::Twice::twice_line))]
fn put_line(alloc: Global, n: u64, payment: &Payment, out: &mut Text) -> Result<(), Memory>
    requires { IsShownPayment payment.now }
    ensures { OnOk result (out.new ≡ out.old ++ twice_line n payment.now) }
{
    out.push(mark(Piece::RowBegin))?;
    put_number(n, out)?;
    put_cell(&payment.mir.0, out)?;
    put_bank(&payment.sender, out)?;
    put_cell(payment.reference.bytes(), out)?;
    put_amount(alloc, &payment.amount, out)?;
    out.push(mark(Piece::RowEnd))
}

/// Adds the row of the `n`-th message.
fn put_row(alloc: Global, n: u64, row: &Row, out: &mut Text) -> Result<(), Memory>
    requires { (chart : Chart) × IsShown chart row.now }
    ensures { OnOk result (out.new ≡ out.old ++ twice_row n row.now) }
{
    match row {
        Row::Asks { payment, .. } => put_line(alloc, n, payment, out),
        Row::Refused { .. } => Ok(()),
        Row::Told { .. } => Ok(()),
    }
}

/// Adds the row of the `n`-th message where it is to be looked at twice.
fn put_if(
    alloc: Global,
    known: &IndexSet<&[u8]>,
    n: u64,
    row: &Row,
    terms: &[u8],
    out: &mut Text,
) -> Result<(), Memory>
    requires shown { (chart : Chart) × IsShown chart row.now }
    requires terms { terms.now ≡ terms_in row.now }
    ensures { OnOk result (out.new ≡ out.old ++ twice_if (λ key. list_any (λ k. bytes_eq key k.now) known.now.keys) n row.now) }
{
    if is_twice(known, row, terms) {
        return put_row(alloc, n, row, out);
    }
    Ok(())
}

/// Adds the rows of the messages to look at twice.
fn put_rows(alloc: Global, rows: &[Row], terms: &[Text], out: &mut Text) -> Result<(), Memory>
    requires shown { (chart : Chart) × All (IsShown chart) rows.now }
    requires terms { terms.now ≡ map terms_in rows.now }
    ensures { OnOk result (out.new ≡ out.old ++ twice_from [] 1 rows.now) }
{
    let mut known = IndexSet::new(alloc);
    for (at, row) in rows.iter().enumerate() {
        let key = terms[at].bytes();
        put_if(alloc, &known, at as u64 + 1, row, key, out)?;
        note(&mut known, row, key)?;
    }
    Ok(())
}

/// Adds the messages to look at twice.
pub(crate) fn put_twice(alloc: Global, rows: &[Row], out: &mut Text) -> Result<(), Memory>
    requires { (chart : Chart) × All (IsShown chart) rows.now }
    ensures { OnOk result (out.new ≡ out.old ++ twice_section rows.now) }
{
    let terms = all_terms(alloc, rows)?;
    out.push(mark(Piece::TwiceBegin))?;
    put_rows(alloc, rows, terms.as_slice(), out)?;
    out.push(mark(Piece::TableEnd))
}
