//! Calls of day_model: the core of workers.

use crate::books::{book_in, lines_in, pay, small};
use crate::histories::put_outcome;
use corr_text::Memory;
use day_model::{AcctNo, Core, Event, History};
use row_words::answer::Answer;
use row_words::stop::Stop;
use row_words::words::Words;
use std::alloc::Global;

/// Makes a call, and answers whether one of these has that name.
pub fn call(name: &[u8], words: &mut Words, answer: &mut Answer) -> Result<bool, Stop> {
    match name {
        b"core" => run(words, answer)?,
        _ => return Ok(false),
    }
    Ok(true)
}

/// A core over so many accounts.
#[derive(Drop)]
struct Desk {
    core: Core,
    accounts: u32,
}

/// `core ACCOUNTS WORKERS EVENTS`, an event a line: what the lines `state` and `journal` tell.
fn run(words: &mut Words, answer: &mut Answer) -> Result<(), Stop> {
    let alloc = answer.alloc();
    let mut desk = open_desk(alloc, words)?;
    for cells in lines_in(alloc, words.next()?)?.as_slice() {
        take(&mut desk, &mut Words::new(cells.as_slice()), answer)?;
    }
    Ok(())
}

#[tactic(auto, using(day_model::proofs::laws::Growth::legal_here))]
fn open_desk(alloc: Global, words: &mut Words) -> Result<Desk, Stop> {
    let book = book_in(alloc, words.next()?)?;
    let accounts = book.count();
    let core = Core::new(alloc, book, History::new(alloc), small(words)?)?;
    Ok(Desk { core, accounts })
}

/// Takes a line.
fn take(desk: &mut Desk, words: &mut Words, answer: &mut Answer) -> Result<(), Stop> {
    match words.next()? {
        b"state" => put_state(desk, answer)?,
        b"journal" => put_journal(desk.core.history(), answer)?,
        word => desk.core.step(event(answer.alloc(), word, words)?)?,
    }
    Ok(())
}

/// The event of a line: `draw WORKER PAY`, `take WORKER ACCOUNT`, `commit WORKER`, `give-back WORKER` or `fault`.
fn event(alloc: Global, word: &[u8], words: &mut Words) -> Result<Event, Stop> {
    if word == b"fault".as_slice() {
        return Ok(Event::Fault);
    }
    let worker = small(words)?;
    match word {
        b"draw" => Ok(Event::Draw {
            worker,
            pay: pay(alloc, words)?,
        }),
        b"take" => Ok(Event::Take {
            worker,
            account: AcctNo(small(words)?),
        }),
        b"commit" => Ok(Event::Commit { worker }),
        b"give-back" => Ok(Event::GiveBack { worker }),
        _ => Err(Stop::Unreadable),
    }
}

/// Adds who holds which accounts, which worker may go on, and how many entries there are.
fn put_state(desk: &Desk, answer: &mut Answer) -> Result<(), Memory> {
    for n in 0..desk.accounts {
        if let Some(worker) = desk.core.holder(AcctNo(n.saturating_add(1))) {
            answer.number(worker as u64)?;
            answer.word(b"holds")?;
            answer.number(n as u64 + 1)?;
        }
    }
    match desk.core.ready() {
        Some(worker) => {
            answer.number(worker as u64)?;
            answer.word(b"ready")?;
        }
        None => answer.word(b"idle")?,
    }
    answer.number(desk.core.history().len() as u64)
}

/// Adds the day and the outcome of each entry.
fn put_journal(h: &History, answer: &mut Answer) -> Result<(), Memory> {
    for place in 1..h.len() + 1 {
        let entry = h.get(place);
        answer.signed(entry.day.0 as i64)?;
        put_outcome(&entry.outcome, answer)?;
    }
    Ok(())
}
