//! Calls of routing.

use crate::books::{bic, ccy};
use crate::desks::open_desk;
use corr_ids::{Bic, Day, day_from_yymmdd, read_bic};
use corr_money::{Amount, Minor};
use corr_text::{Code, Memory, Text};
use routing::{Cover, Routed, Target, route};
use row_messages::given::put_bank;
use row_words::answer::Answer;
use row_words::stop::Stop;
use row_words::words::Words;
use ssi_versions::Method;
use std::alloc::Global;

/// Makes a call, and answers whether one of these has that name.
pub fn call(name: &[u8], words: &mut Words, answer: &mut Answer) -> Result<bool, Stop> {
    match name {
        b"route" => routed(words, answer)?,
        _ => return Ok(false),
    }
    Ok(true)
}

/// What is routed.
#[derive(Drop)]
struct Asked {
    sender: Bic,
    amount: Amount,
    value: Day,
    cover: Cover,
    target: Target,
}

/// `SENDER CURRENCY DECIMALS DATE COVER TARGET`
fn read_asked(alloc: Global, words: &mut Words) -> Result<Asked, Stop> {
    let sender = bic(words)?;
    let amount = amount(words)?;
    let value = day_from_yymmdd(words.next()?).ok_or(Stop::Unreadable)?;
    let cover = cover(alloc, words.next()?)?;
    let target = target(alloc, words.next()?)?;
    Ok(Asked {
        sender,
        amount,
        value,
        cover,
        target,
    })
}

/// The route of what is asked. Promises nothing. The desk is let go here: each way out of a function that holds one is dear to prove.
fn found(alloc: Global, text: &[u8], asked: &Asked) -> Result<Result<Routed, Code>, Stop> {
    let desk = open_desk(alloc, text)?;
    Ok(route(
        &asked.sender,
        &asked.amount,
        asked.value,
        &asked.cover,
        &asked.target,
        &desk.ssi,
        &desk.accounts,
    ))
}

/// `route DESK SENDER CURRENCY DECIMALS DATE COVER TARGET`: the accounts, the method and the bank between; or the code.
fn routed(words: &mut Words, answer: &mut Answer) -> Result<(), Stop> {
    let text = words.next()?;
    let asked = read_asked(answer.alloc(), words)?;
    match found(answer.alloc(), text, &asked)? {
        Ok(routed) => Ok(put_routed(&routed, answer)?),
        Err(code) => Ok(answer.word(&code.0)?),
    }
}

/// The amount of a currency and its decimals.
fn amount(words: &mut Words) -> Result<Amount, Stop> {
    Ok(Amount {
        ccy: ccy(words)?,
        decimals: words.byte()?,
        minor: Minor(123_450),
    })
}

/// `-` for the relation, a bank by its BIC, `/` and an account's id, or a bank without BIC.
fn cover(alloc: Global, word: &[u8]) -> Result<Cover, Memory> {
    match word {
        b"-" => Ok(Cover::Relation),
        [b'/', id @ ..] => Ok(Cover::Account(Text::from_bytes(alloc, id)?)),
        _ => match read_bic(word) {
            Some(bic) => Ok(Cover::Bank(bic)),
            None => Ok(Cover::NoBic),
        },
    }
}

/// `-` for a customer without account, `/` and a customer's account, a bank by its BIC, or a bank without BIC.
fn target(alloc: Global, word: &[u8]) -> Result<Target, Memory> {
    match word {
        b"-" => Ok(Target::Customer { account: None }),
        [b'/', id @ ..] => Ok(Target::Customer {
            account: Some(Text::from_bytes(alloc, id)?),
        }),
        _ => match read_bic(word) {
            Some(bic) => Ok(Target::Bank { bic, field: 57 }),
            None => Ok(Target::NoBic),
        },
    }
}

fn method_word(method: Method) -> &'static [u8] {
    match method {
        Method::Book => b"BOOK",
        Method::Serial => b"SERIAL",
        Method::Cover => b"COVER",
    }
}

fn put_routed(routed: &Routed, answer: &mut Answer) -> Result<(), Memory> {
    answer.number(routed.debit.0 as u64)?;
    answer.number(routed.credit.0 as u64)?;
    if let Some(method) = routed.method {
        answer.word(method_word(method))?;
    }
    match &routed.via {
        Some(bank) => put_bank(bank, answer),
        None => Ok(()),
    }
}
