//! References on statements and in returns.

ghost use Rattle.std.specs.Prelude.{◌≡◌, IfOk, OnOk};
ghost use Rattle.std.specs.Str.{bytes_eq};
ghost use Rattle.advices.specs.Fields.{ours};
ghost use Rattle.day_model.specs.declared.pay.Quote.TheVariants.{Theirs};
ghost use Rattle.pay_returns.specs.Equal.{is_quote};
ghost use Rattle.pay_returns.specs.References.{IsByteQuote, own_reference, quote_text};

use crate::after::is_made_of;
use corr_text::{Decimal, Memory, Text, put_digits};
use day_model::Quote;
use std::alloc::Global;

/// The reference of the entry at a place, as `P00000001`.
pub fn own_reference(alloc: Global, place: u32) -> Result<Text, Memory>
    ensures { IfOk result (λ text. text ≡ own_reference place) }
{
    let mut text = Text::from_bytes(alloc, b"P")?;
    put_digits(alloc, place as u64, 8, &mut text)?;
    Ok(text)
}

/// The reference of the `k`-th order, from 1, of the entry at a place, as `P00000001K1`.
fn ours(alloc: Global, place: u32, k: u8) -> Result<Text, Memory>
    ensures { IfOk result (λ text. text ≡ ours place k) }
{
    let number = k.to_string(alloc)?;
    let mut text = own_reference(alloc, place)?;
    text.push(b"K")?;
    text.push(number.as_bytes())?;
    Ok(text)
}

/// What a line quotes for a leg of the entry at a place: the other bank's reference, or that of our order.
pub fn quote_text(alloc: Global, place: u32, quote: &Quote) -> Result<Text, Memory>
    ensures value { IfOk result (λ text. text ≡ quote_text place quote.now) }
    ensures byte { OnOk result (IsByteQuote quote.now) }
{
    match quote {
        Quote::Theirs(text) => text.copy(alloc),
        Quote::Ours(k) => ours(alloc, place, *k),
    }
}

fn is_ours(text: &[u8], place: u32, k: u8) -> bool
    ensures { result ≡ bytes_eq text.now (ours place k) }
{
    let mut places = Decimal::new();
    let mut orders = Decimal::new();
    is_made_of(
        text,
        &[
            b"P",
            places.padded(place as u64, 8),
            b"K",
            orders.padded(k as u64, 0),
        ],
    )
}

/// Whether a quote is the text that a line quotes for this one of the entry at a place. Takes no memory.
pub(crate) fn is_quote_of(quote: &Quote, place: u32, of: &Quote) -> bool
    ensures { result ≡ is_quote quote.now (Theirs (quote_text place of.now)) }
{
    match (quote, of) {
        (Quote::Theirs(text), Quote::Theirs(own)) => text.bytes() == own.bytes(),
        (Quote::Theirs(text), Quote::Ours(k)) => is_ours(text.bytes(), place, *k),
        (Quote::Ours(_), _) => false,
    }
}
