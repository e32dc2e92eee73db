//! Calls of day_model: accounts, pays and histories.

ghost use Rattle.std.specs.Prelude.{IfOk};
ghost use Rattle.day_model.specs.Chart.{IsListed};

use crate::books::{
    HOME, TODAY, accounts_in, book_in, ccy, cells, lines_in, mir, pay, rows_in, small,
};
use crate::histories::{history_in, put_outcome};
use corr_text::Memory;
use day_model::{Accounts, AccountsFault, AcctNo, Entry, History, Outcome, balance, rows_hold};
use row_words::answer::Answer;
use row_words::stop::Stop;
use row_words::words::Words;
use std::alloc::Global;

/// Makes a call, and answers whether one of these has that name.
pub fn call(name: &[u8], words: &mut Words, answer: &mut Answer) -> Result<bool, Stop> {
    Ok(of_books(name, words, answer)? || of_pays(name, words, answer)?)
}

fn of_books(name: &[u8], words: &mut Words, answer: &mut Answer) -> Result<bool, Stop> {
    match name {
        b"rows_hold" => rows(words, answer)?,
        b"accounts" => book(words, answer)?,
        b"get" => account(words, answer)?,
        b"find" => by_id(words, answer)?,
        b"owned" => by_owner(words, answer)?,
        _ => return Ok(false),
    }
    Ok(true)
}

fn of_pays(name: &[u8], words: &mut Words, answer: &mut Answer) -> Result<bool, Stop> {
    match name {
        b"fits" => fit(words, answer)?,
        b"is_same" => same(words, answer)?,
        b"history" => history(words, answer)?,
        b"decide" => outcomes(words, answer)?,
        b"balance" => balances(words, answer)?,
        _ => return Ok(false),
    }
    Ok(true)
}

/// Adds the number of an account, or `none`.
fn put_number(number: Option<AcctNo>, answer: &mut Answer) -> Result<(), Memory> {
    match number {
        Some(number) => answer.number(number.0 as u64),
        None => answer.none(),
    }
}

/// `rows_hold ACCOUNTS`: whether they may be those of a book.
fn rows(words: &mut Words, answer: &mut Answer) -> Result<(), Stop> {
    let accounts = accounts_in(answer.alloc(), words.next()?)?;
    Ok(answer.flag(rows_hold(accounts.as_slice()))?)
}

/// `accounts ACCOUNTS`: the home bank and how many there are; or the currency whose openings don't sum to 0, its decimals and
/// that sum.
fn book(words: &mut Words, answer: &mut Answer) -> Result<(), Stop> {
    match Accounts::new(HOME, rows_in(answer.alloc(), words.next()?)?) {
        Ok(book) => {
            answer.word(&book.home().head)?;
            answer.number(book.count() as u64)?;
        }
        Err(AccountsFault::Unbalanced { ccy, decimals, sum }) => {
            answer.word(&ccy.0)?;
            answer.number(decimals as u64)?;
            answer.signed(sum)?;
        }
        Err(AccountsFault::Memory) => return Err(Stop::Memory),
    }
    Ok(())
}

/// The next word as the number of an account.
fn listed(book: &Accounts, words: &mut Words) -> Result<AcctNo, Stop>
    ensures { IfOk result (λ n. IsListed book.now n.0) }
{
    let n = small(words)?;
    if n < 1 || book.count() < n {
        return Err(Stop::Unreadable);
    }
    Ok(AcctNo(n))
}

/// `get ACCOUNTS NUMBER`: the id and the opening of the account.
fn account(words: &mut Words, answer: &mut Answer) -> Result<(), Stop> {
    let book = book_in(answer.alloc(), words.next()?)?;
    let n = listed(&book, words)?;
    let account = book.get(n);
    answer.word(account.id.bytes())?;
    Ok(answer.signed(account.opening)?)
}

/// `find ACCOUNTS ID`: the number of the account, or `none`.
fn by_id(words: &mut Words, answer: &mut Answer) -> Result<(), Stop> {
    let book = book_in(answer.alloc(), words.next()?)?;
    Ok(put_number(book.find(words.next()?), answer)?)
}

/// `owned ACCOUNTS KIND HEAD CURRENCY DECIMALS`: the number of the account, or `none`.
fn by_owner(words: &mut Words, answer: &mut Answer) -> Result<(), Stop> {
    let book = book_in(answer.alloc(), words.next()?)?;
    let kind = words.array::<1>()?[0];
    let head = words.array()?;
    let ccy = ccy(words)?;
    let decimals = words.byte()?;
    Ok(put_number(book.owned(kind, &head, ccy, decimals), answer)?)
}

/// `fits ACCOUNTS PAY`: whether the pay, in words of their own, fits.
fn fit(words: &mut Words, answer: &mut Answer) -> Result<(), Stop> {
    let book = book_in(answer.alloc(), words.next()?)?;
    let pay = pay(answer.alloc(), words)?;
    Ok(answer.flag(book.fits(&pay))?)
}

/// `is_same PAY PAY`, each one word: whether the pays are the same. A copy of the first is the first.
fn same(words: &mut Words, answer: &mut Answer) -> Result<(), Stop> {
    let alloc = answer.alloc();
    let first = cells(alloc, words.next()?)?;
    let second = cells(alloc, words.next()?)?;
    let first = pay(alloc, &mut Words::new(first.as_slice()))?.copy(alloc)?;
    let second = pay(alloc, &mut Words::new(second.as_slice()))?;
    Ok(answer.flag(first.is_same(&second))?)
}

/// `decide ACCOUNTS PAYS`, a pay a line: what becomes of each, one entered after the other.
fn outcomes(words: &mut Words, answer: &mut Answer) -> Result<(), Stop> {
    let book = book_in(answer.alloc(), words.next()?)?;
    let h = history_in(answer.alloc(), &book, words.next()?)?;
    for place in 1..h.len() + 1 {
        put_outcome(&h.get(place).outcome, answer)?;
    }
    Ok(())
}

/// `balance ACCOUNTS NUMBER PAYS`, a pay a line: the balance of an account once they are entered.
fn balances(words: &mut Words, answer: &mut Answer) -> Result<(), Stop> {
    let book = book_in(answer.alloc(), words.next()?)?;
    let n = listed(&book, words)?;
    let h = history_in(answer.alloc(), &book, words.next()?)?;
    Ok(answer.signed(balance(&book, &h, n))?)
}

/// The history of the pays of these lines, each booked.
fn booked(alloc: Global, lines: &[u8]) -> Result<History, Stop> {
    let mut h = History::new(alloc);
    for cells in lines_in(alloc, lines)?.as_slice() {
        if h.len() == 100_000 {
            return Err(Stop::Unreadable);
        }
        let entry = Entry {
            pay: pay(alloc, &mut Words::new(cells.as_slice()))?,
            day: TODAY,
            outcome: Outcome::Booked,
        };
        h.reserve()?;
        h.push(entry)?;
    }
    Ok(h)
}

/// Adds a place, or `none`.
fn put_place(place: Option<u32>, answer: &mut Answer) -> Result<(), Memory> {
    match place {
        Some(place) => answer.number(place as u64),
        None => answer.none(),
    }
}

/// Adds the amounts of the last entry.
fn put_last(h: &History, answer: &mut Answer) -> Result<(), Memory> {
    if h.len() >= 1 {
        for leg in h.get(h.len()).pay.legs.as_slice() {
            answer.number(leg.amount.0)?;
        }
    }
    Ok(())
}

/// `history REFERENCE PAYS`, a pay a line: how many entries they make, the place of the first with this reference, or `none`, and
/// the amounts of the last.
fn history(words: &mut Words, answer: &mut Answer) -> Result<(), Stop> {
    let reference = mir(answer.alloc(), words.number()?)?;
    let h = booked(answer.alloc(), words.next()?)?;
    answer.number(h.len() as u64)?;
    put_place(h.find(&reference), answer)?;
    Ok(put_last(&h, answer)?)
}
