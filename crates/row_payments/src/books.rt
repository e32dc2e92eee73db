//! Accounts and pays that rows give.

ghost use Rattle.std.specs.Prelude.{◌≡◌, [], IfOk};
ghost use Rattle.day_model.specs.Chart.{AreRows};

use corr_ids::{Bic, Day, Mir, Uetr, read_bic, read_uetr};
use corr_money::{Ccy, Minor};
use corr_text::{List, Memory, Text, put_digits};
use day_model::{Account, Accounts, AccountsFault, AcctNo, Leg, Mt, Pay, Quote, Side, rows_hold};
use row_words::stop::Stop;
use row_words::words::Words;
use std::alloc::Global;

/// The home bank of these rows.
pub const HOME: Bic = Bic {
    head: *b"HOMEUS33",
    branch: *b"XXX",
};

/// 3 June 2024.
pub const TODAY: Day = Day(19877);

/// The words of a line.
pub fn cells(alloc: Global, line: &[u8]) -> Result<Vec<Text>, Memory> {
    let mut cells = Vec::new(alloc);
    for cell in line.trim_ascii_end().split(|b| *b == b' ') {
        cells.push(Text::from_bytes(alloc, cell)?)?;
    }
    Ok(cells)
}

/// The words of each line.
pub fn lines_in(alloc: Global, text: &[u8]) -> Result<Vec<Vec<Text>>, Memory> {
    let mut lines = Vec::new(alloc);
    for line in text.split(|b| *b == b'\n') {
        if !line.is_empty() {
            lines.push(cells(alloc, line)?)?;
        }
    }
    Ok(lines)
}

/// The next word as a currency.
pub fn ccy(words: &mut Words) -> Result<Ccy, Stop> {
    Ok(Ccy(words.array()?))
}

/// The next word as a BIC.
pub fn bic(words: &mut Words) -> Result<Bic, Stop> {
    read_bic(words.next()?).ok_or(Stop::Unreadable)
}

/// The next word as a number below 2^32.
pub fn small(words: &mut Words) -> Result<u32, Stop> {
    u32::try_from(words.number()?).map_err(|_| Stop::Unreadable)
}

/// What an account may hold, and what it opens with.
#[derive(Clone, Copy)]
struct Limits {
    floor: i64,
    ceil: i64,
    opening: i64,
}

fn read_limits(words: &mut Words) -> Result<Limits, Stop> {
    Ok(Limits {
        floor: words.signed()?,
        ceil: words.signed()?,
        opening: words.signed()?,
    })
}

/// The account of a line: its id, kind, owner, currency, decimals, floor, ceiling and opening.
fn account(alloc: Global, words: &mut Words) -> Result<Account, Stop> {
    let id = words.next()?;
    let kind = words.array::<1>()?[0];
    let owner = bic(words)?;
    let ccy = ccy(words)?;
    let decimals = words.byte()?;
    let limits = read_limits(words)?;
    Ok(Account {
        id: Text::from_bytes(alloc, id)?,
        kind,
        owner,
        ccy,
        decimals,
        floor: limits.floor,
        ceil: limits.ceil,
        opening: limits.opening,
    })
}

/// The accounts of these lines.
pub fn accounts_in(alloc: Global, lines: &[u8]) -> Result<List<Account>, Stop> {
    let mut accounts = List::new(alloc);
    for cells in lines_in(alloc, lines)?.as_slice() {
        accounts.push(account(alloc, &mut Words::new(cells.as_slice()))?)?;
    }
    Ok(accounts)
}

/// The accounts of these lines, which may be those of a book.
pub fn rows_in(alloc: Global, lines: &[u8]) -> Result<List<Account>, Stop>
    ensures { IfOk result AreRows }
{
    let accounts = accounts_in(alloc, lines)?;
    if !rows_hold(accounts.as_slice()) {
        return Err(Stop::Unreadable);
    }
    Ok(accounts)
}

/// The book of these lines, whose openings sum to 0, without changes.
pub fn book_in(alloc: Global, lines: &[u8]) -> Result<Accounts, Stop>
    ensures { IfOk result (λ book. book.changes ≡ []) }
{
    match Accounts::new(HOME, rows_in(alloc, lines)?) {
        Ok(book) => Ok(book),
        Err(AccountsFault::Memory) => Err(Stop::Memory),
        Err(AccountsFault::Unbalanced { .. }) => Err(Stop::Unreadable),
    }
}

/// The reference of this number, below 10^6, from 3 June 2024.
pub fn mir(alloc: Global, number: u64) -> Result<Mir, Stop> {
    let mut text = Text::from_bytes(alloc, b"240603ALPHDEFFAXXX0001")?;
    put_digits(alloc, number, 6, &mut text)?;
    if text.bytes().len() != 28 {
        return Err(Stop::Unreadable);
    }
    let mut bytes = [0; 28];
    bytes.copy_from_slice(text.bytes());
    Ok(Mir(bytes))
}

/// The account that is debited, the one that is credited, and the amount.
#[derive(Clone, Copy)]
struct Transfer {
    debit: u32,
    credit: u32,
    amount: u64,
}

fn read_transfer(words: &mut Words) -> Result<Transfer, Stop> {
    Ok(Transfer {
        debit: small(words)?,
        credit: small(words)?,
        amount: words.number()?,
    })
}

fn leg(
    alloc: Global,
    account: u32,
    side: Side,
    amount: u64,
    reference: &[u8],
) -> Result<Leg, Memory> {
    Ok(Leg {
        account: AcctNo(account),
        side,
        amount: Minor(amount),
        quote: Quote::Theirs(Text::from_bytes(alloc, reference)?),
    })
}

/// Both legs of a transfer, which quote this reference.
fn legs(alloc: Global, asked: Transfer, reference: &[u8]) -> Result<List<Leg>, Stop> {
    let Transfer {
        debit,
        credit,
        amount,
    } = asked;
    let mut legs = List::new(alloc);
    legs.push(leg(alloc, debit, Side::Debit, amount, reference)?)?;
    legs.push(leg(alloc, credit, Side::Credit, amount, reference)?)?;
    Ok(legs)
}

/// The next word, or none of `-` where there is none.
fn optional<'a>(words: &mut Words<'a>) -> Result<&'a [u8], Stop> {
    if words.are_used() {
        Ok(b"-")
    } else {
        words.next()
    }
}

fn mt(word: &[u8]) -> Result<Mt, Stop> {
    match word {
        b"-" => Ok(Mt::Transfer),
        b"cover" => Ok(Mt::Cover),
        _ => Err(Stop::Unreadable),
    }
}

/// What a pay has beside its reference and its legs.
#[derive(Drop)]
struct Message {
    text: Text,
    mt: Mt,
    uetr: Option<Uetr>,
}

fn read_message(alloc: Global, words: &mut Words) -> Result<Message, Stop> {
    let text = optional(words)?;
    let mt = mt(optional(words)?)?;
    let uetr = read_uetr(optional(words)?);
    Ok(Message {
        text: Text::from_bytes(alloc, text)?,
        mt,
        uetr,
    })
}

/// The reference that the legs quote: the next word, or `REF1` where there is none.
fn quoted<'a>(words: &mut Words<'a>) -> Result<&'a [u8], Stop> {
    if words.are_used() {
        Ok(b"REF1")
    } else {
        words.next()
    }
}

/// The pay of some words: the number of its reference, the account that is debited, the one that is credited and the amount;
/// and where they are given its text, `cover` for a cover, its UETR, and the reference that its legs quote.
pub fn pay(alloc: Global, words: &mut Words) -> Result<Pay, Stop>
    ensures { IfOk result (λ p. p.value ≡ TODAY) }
{
    let mir = mir(alloc, words.number()?)?;
    let asked = read_transfer(words)?;
    let Message { text, mt, uetr } = read_message(alloc, words)?;
    let legs = legs(alloc, asked, quoted(words)?)?;
    Ok(Pay {
        mir,
        legs,
        text,
        mt,
        uetr,
        value: TODAY,
        orders: List::new(alloc),
    })
}
