//! Calls of fin_message.

ghost use Rattle.std.specs.Prelude.{◌≤◌, IfOk, length};
ghost use Rattle.fin_message.specs.Verdict.{most_bytes_judged};

use crate::given::{let_go, put_bank, put_fault, tables_in};
use corr_ids::{Bic, Envelope, Mir};
use corr_money::Ccy;
use corr_text::{Memory, Text};
use fin_message::{Message, MessageFault, check_sent, verdict};
use row_words::answer::Answer;
use row_words::stop::Stop;
use row_words::words::Words;
use std::alloc::Global;

/// Makes a call, and answers whether one of these has that name.
pub fn call(name: &[u8], words: &mut Words, answer: &mut Answer) -> Result<bool, Stop> {
    match name {
        b"verdict" => received(words, answer)?,
        b"check_sent" => sent(words, answer)?,
        _ => return Ok(false),
    }
    Ok(true)
}

/// The home bank of these rows.
const HOME: Bic = Bic {
    head: *b"HOMEUS33",
    branch: *b"XXX",
};

/// The next word as a message of at most 65,535 bytes.
fn message<'a>(words: &mut Words<'a>) -> Result<&'a [u8], Stop>
    ensures { IfOk result (λ m. length m.now ≤ most_bytes_judged) }
{
    let message = words.next()?;
    if message.len() > 65535 {
        return Err(Stop::Unreadable);
    }
    Ok(message)
}

/// The verdict on a message that the home bank received, under the tables of a file. Promises nothing; likewise the next.
fn judged(alloc: Global, file: &[u8], m: &[u8]) -> Result<Result<Message, MessageFault>, Stop>
    requires { length m.now ≤ most_bytes_judged }
{
    let tables = tables_in(alloc, file)?;
    Ok(verdict(alloc, m, &HOME, &tables))
}

/// The verdict on one that it sends.
fn judged_sent(alloc: Global, file: &[u8], m: &[u8]) -> Result<Result<Message, MessageFault>, Stop>
    requires { length m.now ≤ most_bytes_judged }
{
    let tables = tables_in(alloc, file)?;
    Ok(check_sent(alloc, m, &HOME, &tables))
}

/// `verdict TABLES MESSAGE`: what a message says that the home bank received, or the reference and the fault.
fn received(words: &mut Words, answer: &mut Answer) -> Result<(), Stop> {
    let file = words.next()?;
    let m = message(words)?;
    put_verdict(judged(answer.alloc(), file, m)?, answer)
}

/// `check_sent TABLES MESSAGE`: the same of one that it sends.
fn sent(words: &mut Words, answer: &mut Answer) -> Result<(), Stop> {
    let file = words.next()?;
    let m = message(words)?;
    put_verdict(judged_sent(answer.alloc(), file, m)?, answer)
}

fn put_verdict(read: Result<Message, MessageFault>, answer: &mut Answer) -> Result<(), Stop> {
    match read {
        Ok(message) => {
            let put = put_message(&message, answer);
            let_go(message);
            Ok(put?)
        }
        Err(MessageFault::Refused { mir, fault }) => {
            put_mir(&mir, answer)?;
            Ok(put_fault(&fault, answer)?)
        }
        Err(MessageFault::Memory) => Err(Stop::Memory),
    }
}

/// Adds a reference, or `none`.
fn put_mir(mir: &Option<Mir>, answer: &mut Answer) -> Result<(), Memory> {
    match mir {
        Some(mir) => answer.word(&mir.0),
        None => answer.none(),
    }
}

/// Adds the reference, the sender, the receiver and the UETR.
fn put_envelope(env: &Envelope, answer: &mut Answer) -> Result<(), Memory> {
    put_mir(&env.mir, answer)?;
    put_bank(&env.sender, answer)?;
    put_bank(&env.receiver, answer)?;
    match env.uetr {
        Some(uetr) => answer.word(&uetr.0),
        None => answer.none(),
    }
}

/// What is told of a message.
#[derive(Clone, Copy)]
struct Told<'a> {
    kind: &'a [u8],
    env: &'a Envelope,
    text: &'a Text,
    reference: &'a Text,
    ccy: Ccy,
    number: u64,
}

fn put_told(told: &Told, answer: &mut Answer) -> Result<(), Memory> {
    answer.word(told.kind)?;
    put_envelope(told.env, answer)?;
    answer.text(told.text.bytes())?;
    answer.text(told.reference.bytes())?;
    answer.word(&told.ccy.0)?;
    answer.number(told.number)
}

fn parts_of(message: &Message) -> Told<'_> {
    match message {
        Message::Transfer(env, text, m) => Told {
            kind: b"transfer",
            env,
            text,
            reference: &m.reference,
            ccy: m.amount.ccy,
            number: m.amount.minor.0,
        },
        Message::Cover(env, text, m) => Told {
            kind: b"cover",
            env,
            text,
            reference: &m.related,
            ccy: m.amount.ccy,
            number: m.amount.minor.0,
        },
        Message::Debit(env, m) => Told {
            kind: b"debit",
            env,
            text: &m.account,
            reference: &m.related,
            ccy: m.amount.ccy,
            number: m.amount.minor.0,
        },
        Message::Credit(env, m) => Told {
            kind: b"credit",
            env,
            text: &m.account,
            reference: &m.related,
            ccy: m.amount.ccy,
            number: m.amount.minor.0,
        },
        Message::Page(env, m) => Told {
            kind: b"page",
            env,
            text: &m.account,
            reference: &m.reference,
            ccy: m.ccy,
            number: m.lines.as_slice().len() as u64,
        },
    }
}

/// Adds the type and the envelope; of a transfer and a cover block 4 and the reference, of an advice the account and the
/// reference that it is about, of a page the account and its reference; then the currency and the amount in minor units, of a
/// page how many lines it has, and of a credit whether it names a payer.
fn put_message(message: &Message, answer: &mut Answer) -> Result<(), Memory> {
    put_told(&parts_of(message), answer)?;
    match message {
        Message::Credit(_, m) => answer.flag(m.payer.is_some()),
        _ => Ok(()),
    }
}
