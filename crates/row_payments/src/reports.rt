//! Calls of corr_report and desk_rows.

ghost use Rattle.std.specs.Prelude.{◌≤◌, All, IfOk, length};
ghost use Rattle.corr_report.specs.Report.{NamesPlace};

use crate::books::{book_in, lines_in, mir, small};
use crate::histories::history_in;
use corr_ids::{Day, day_from_yymmdd};
use corr_report::{bookings, generated, report, summary};
use corr_text::{Code, Fault, List};
use day_model::{History, Reply};
use desk_rows::{balances, entries};
use row_words::answer::Answer;
use row_words::stop::Stop;
use row_words::words::Words;
use std::alloc::Global;

/// Makes a call, and answers whether one of these has that name.
pub fn call(name: &[u8], words: &mut Words, answer: &mut Answer) -> Result<bool, Stop> {
    match name {
        b"report" => reported(words, answer)?,
        b"bookings" => booked(words, answer)?,
        b"summary" => summed(words, answer)?,
        b"balances" => balanced(words, answer)?,
        b"entries" => listed(words, answer)?,
        b"generated" => made(words, answer)?,
        _ => return Ok(false),
    }
    Ok(true)
}

/// The next word as a place of a history.
fn place(h: &History, words: &mut Words) -> Result<u32, Stop>
    ensures from_one { IfOk result (λ place. 1 ≤ place) }
    ensures there { IfOk result (λ place. place ≤ length h.now.entries) }
{
    let place = small(words)?;
    if place < 1 || h.len() < place {
        return Err(Stop::Unreadable);
    }
    Ok(place)
}

/// The fault of a code, a tag and which of that tag it is.
fn fault(words: &mut Words) -> Result<Fault, Stop> {
    let code = Code(words.array()?);
    let tag = match words.next()? {
        [a, b] => [*a, *b, b' '],
        [a, b, c] => [*a, *b, *c],
        _ => return Err(Stop::Unreadable),
    };
    let nth = u16::try_from(words.number()?).map_err(|_| Stop::Unreadable)?;
    Ok(Fault { code, tag, nth })
}

/// `REFERENCE PLACE`, of a message that is entered or in conflict with one.
fn reply_of_place(
    alloc: Global,
    h: &History,
    is_entered: bool,
    words: &mut Words,
) -> Result<Reply, Stop>
    ensures { IfOk result (NamesPlace h.now.entries) }
{
    let mir = mir(alloc, words.number()?)?;
    let place = place(h, words)?;
    if is_entered {
        Ok(Reply::Entered { mir, place })
    } else {
        Ok(Reply::Conflict { mir, place })
    }
}

/// `REFERENCE CODE TAG NTH` of a message that is refused, `CODE TAG NTH` of one without a reference, `REFERENCE CODE` of one
/// without a route.
fn reply_of_code(alloc: Global, h: &History, word: &[u8], words: &mut Words) -> Result<Reply, Stop>
    ensures { IfOk result (NamesPlace h.now.entries) }
{
    match word {
        b"unread" => Ok(Reply::Refused {
            mir: None,
            fault: fault(words)?,
        }),
        b"refused" => Ok(Reply::Refused {
            mir: Some(mir(alloc, words.number()?)?),
            fault: fault(words)?,
        }),
        b"unrouted" => Ok(Reply::Unrouted {
            mir: mir(alloc, words.number()?)?,
            code: Code(words.array()?),
        }),
        _ => Err(Stop::Unreadable),
    }
}

/// The reply of a line: `entered REFERENCE PLACE`, `conflict REFERENCE PLACE`, `refused REFERENCE CODE TAG NTH`,
/// `unread CODE TAG NTH` without a reference, or `unrouted REFERENCE CODE`.
fn reply(alloc: Global, h: &History, words: &mut Words) -> Result<Reply, Stop>
    ensures { IfOk result (NamesPlace h.now.entries) }
{
    match words.next()? {
        b"entered" => reply_of_place(alloc, h, true, words),
        b"conflict" => reply_of_place(alloc, h, false, words),
        word => reply_of_code(alloc, h, word, words),
    }
}

/// The replies of these lines.
fn replies_in(alloc: Global, h: &History, lines: &[u8]) -> Result<List<Reply>, Stop>
    ensures { IfOk result (λ replies. All (NamesPlace h.now.entries) replies) }
{
    let mut replies = List::new(alloc);
    for cells in lines_in(alloc, lines)?.as_slice() {
        replies.push(reply(alloc, h, &mut Words::new(cells.as_slice()))?)?;
    }
    Ok(replies)
}

/// `report ACCOUNTS PAYS REPLIES`: the report of the replies over the history of the pays.
fn reported(words: &mut Words, answer: &mut Answer) -> Result<(), Stop> {
    let alloc = answer.alloc();
    let book = book_in(alloc, words.next()?)?;
    let h = history_in(alloc, &book, words.next()?)?;
    let replies = replies_in(alloc, &h, words.next()?)?;
    let text = report(alloc, &book, &h, replies.as_slice())?;
    Ok(answer.text(text.bytes())?)
}

/// `bookings ACCOUNTS PAYS`: the lines of the history of the pays.
fn booked(words: &mut Words, answer: &mut Answer) -> Result<(), Stop> {
    let alloc = answer.alloc();
    let book = book_in(alloc, words.next()?)?;
    let h = history_in(alloc, &book, words.next()?)?;
    let text = bookings(alloc, &book, &h)?;
    Ok(answer.text(text.bytes())?)
}

/// `summary ACCOUNTS PAYS`: the summary of the history of the pays.
fn summed(words: &mut Words, answer: &mut Answer) -> Result<(), Stop> {
    let alloc = answer.alloc();
    let book = book_in(alloc, words.next()?)?;
    let h = history_in(alloc, &book, words.next()?)?;
    let text = summary(alloc, &book, &h)?;
    Ok(answer.text(text.bytes())?)
}

/// The next word as a day, none for `-`.
fn until(words: &mut Words) -> Result<Option<Day>, Stop> {
    match words.next()? {
        b"-" => Ok(None),
        day => Ok(Some(day_from_yymmdd(day).ok_or(Stop::Unreadable)?)),
    }
}

/// `balances ACCOUNTS PAYS DAY`: the balances after the history of the pays, or after those up to a day.
fn balanced(words: &mut Words, answer: &mut Answer) -> Result<(), Stop> {
    let alloc = answer.alloc();
    let book = book_in(alloc, words.next()?)?;
    let h = history_in(alloc, &book, words.next()?)?;
    let text = balances(alloc, &book, &h, until(words)?)?;
    Ok(answer.text(text.bytes())?)
}

/// The next word as a day.
fn day(words: &mut Words) -> Result<Day, Stop> {
    day_from_yymmdd(words.next()?).ok_or(Stop::Unreadable)
}

/// `entries ACCOUNTS PAYS FROM UNTIL`: the entries of the history of the pays from one day to another.
fn listed(words: &mut Words, answer: &mut Answer) -> Result<(), Stop> {
    let alloc = answer.alloc();
    let book = book_in(alloc, words.next()?)?;
    let h = history_in(alloc, &book, words.next()?)?;
    let from = day(words)?;
    let until = day(words)?;
    let text = entries(alloc, &book, &h, from, until)?;
    Ok(answer.text(text.bytes())?)
}

/// `generated COUNT SEED`: a day of messages, made from a number.
fn made(words: &mut Words, answer: &mut Answer) -> Result<(), Stop> {
    let count = small(words)?;
    let seed = words.number()?;
    if count > 50_000 {
        return Err(Stop::Unreadable);
    }
    let text = generated(answer.alloc(), count, seed)?;
    Ok(answer.text(text.bytes())?)
}
