//! A pay as an answer: side, account, amount and quote of each leg, then the messages that are sent on, as
//! `D 1 123450 REF1, C 2 123450 K1; TRANSFER BETAFRPP BOTH; DEBIT ALPHDEFF 1`.

use corr_ids::{Bic, put_bic};
use corr_text::{Memory, Text, put_digits};
use day_model::{Leg, Order, Pay, Quote, Side, Skip};
use row_words::answer::Answer;

fn skip_word(skip: Skip) -> &'static [u8] {
    match skip {
        Skip::Keep => b"KEEP",
        Skip::Mid => b"MID",
        Skip::Both => b"BOTH",
    }
}

fn side_word(side: Side) -> &'static [u8] {
    match side {
        Side::Debit => b"D",
        Side::Credit => b"C",
    }
}

/// Adds a word and a bank.
fn put_to(word: &[u8], to: &Bic, answer: &mut Answer) -> Result<(), Memory> {
    answer.word(word)?;
    let mut text = Text::from_bytes(answer.alloc(), b"")?;
    put_bic(to, &mut text)?;
    answer.word(text.bytes())
}

fn put_transfer(
    to: &Bic,
    skip: Skip,
    via: &Option<Bic>,
    answer: &mut Answer,
) -> Result<(), Memory> {
    put_to(b"TRANSFER", to, answer)?;
    answer.word(skip_word(skip))?;
    match via {
        Some(bank) => put_to(b"VIA", bank, answer),
        None => Ok(()),
    }
}

fn put_cover(to: &Bic, end: &Bic, skip: Skip, answer: &mut Answer) -> Result<(), Memory> {
    put_to(b"COVER", to, answer)?;
    put_to(b"FOR", end, answer)?;
    answer.word(skip_word(skip))
}

fn put_order(order: &Order, answer: &mut Answer) -> Result<(), Memory> {
    match order {
        Order::Transfer { to, skip, via } => put_transfer(to, *skip, via, answer),
        Order::Cover { to, end, skip } => put_cover(to, end, *skip, answer),
        Order::Pass { to, skip } => {
            put_to(b"PASS", to, answer)?;
            answer.word(skip_word(*skip))
        }
        Order::Debit { to, leg } => {
            put_to(b"DEBIT", to, answer)?;
            answer.number(*leg as u64)
        }
        Order::Credit { to, leg } => {
            put_to(b"CREDIT", to, answer)?;
            answer.number(*leg as u64)
        }
    }
}

fn put_leg(leg: &Leg, answer: &mut Answer) -> Result<(), Memory> {
    answer.word(side_word(leg.side))?;
    answer.number(leg.account.0 as u64)?;
    answer.number(leg.amount.0)?;
    match &leg.quote {
        Quote::Theirs(text) => answer.word(text.bytes()),
        Quote::Ours(order) => {
            let mut text = Text::from_bytes(answer.alloc(), b"K")?;
            put_digits(answer.alloc(), *order as u64, 1, &mut text)?;
            answer.word(text.bytes())
        }
    }
}

/// Adds a pay.
pub fn put_pay(pay: &Pay, answer: &mut Answer) -> Result<(), Memory> {
    for (i, leg) in pay.legs.as_slice().iter().enumerate() {
        if i > 0 {
            answer.more(b",")?;
        }
        put_leg(leg, answer)?;
    }
    for order in pay.orders.as_slice() {
        answer.more(b";")?;
        put_order(order, answer)?;
    }
    Ok(())
}
