//! A page of a statement.

ghost use Rattle.std.specs.Prelude.{◌≡◌, All, IfOk, OnOk, map};
ghost use Rattle.corr_ids.specs.Bic.{IsBic};
ghost use Rattle.corr_ids.specs.Day.{InCentury};
ghost use Rattle.fin_contents.specs.Writing.{IsReadable};
ghost use Rattle.mt950.specs.Page.{mt950_of};
ghost use Rattle.statement.specs.Pages.{day_before};
ghost use Rattle.statement.specs.inner.Running.{message_by, opening_by, page_by, placed_page_by};
ghost use Rattle.statement.specs.inner.Valid.{PageReadsBack};

use crate::ledger::Ledger;
use crate::line::lines_of;
use crate::movement::{Movement, balance_after};
use crate::references::page_reference;
use corr_ids::{Bic, Day, FIRST_DAY, day_of_year};
use corr_text::{List, Memory, Text};
use day_model::AcctNo;
use fin_blocks::put_blocks;
use mt950::{Balance, Page950, put_mt950};
use std::alloc::Global;

/// Where a page stands: of which account's statement, of which day, its number from 1, and whether it is the last.
#[derive(Clone, Copy)]
pub struct Heading {
    pub account: AcctNo,
    pub day: Day,
    pub page: u32,
    pub last: bool,
}

/// The day before; 1980-01-01 itself, because the day before it can't be spelled.
fn day_before(day: Day) -> Day
    requires { InCentury day }
    ensures { result ≡ day_before day }
{
    if day.0 == FIRST_DAY {
        day
    } else {
        Day(day.0 - 1)
    }
}

/// The opening of a page: on the first page that of the statement, dated with the day before.
fn opening(heading: Heading, balance: i64) -> Balance
    requires { InCentury heading.day }
    ensures { result ≡ opening_by heading balance }
{
    let first = heading.page == 1;
    let day = if first {
        day_before(heading.day)
    } else {
        heading.day
    };
    Balance {
        last: first,
        day,
        signed: balance,
    }
}

/// A page that opens at a balance, with its movements.
fn filled_page(
    alloc: Global,
    ledger: &Ledger,
    heading: Heading,
    balance: i64,
    movements: &[Movement],
) -> Result<Page950, Memory>
    requires day { InCentury heading.day }
    requires days { All (λ movement. InCentury movement.day) movements.now }
    ensures { IfOk result (λ page. page ≡ page_by ledger.now heading balance movements.now) }
{
    Ok(Page950 {
        reference: page_reference(alloc, heading.day, heading.account, heading.page)?,
        account: ledger.id.copy(alloc)?,
        number: day_of_year(heading.day) as u32,
        page: Some(heading.page),
        ccy: ledger.ccy,
        decimals: ledger.decimals,
        opening: opening(heading, balance),
        lines: lines_of(alloc, movements)?,
        closing: Balance {
            last: heading.last,
            day: heading.day,
            signed: balance_after(balance, movements),
        },
        available: None,
    })
}

/// A page of a statement, with the place of the entry of each of its lines.
#[derive(Debug, Drop)]
pub struct PlacedPage {
    pub page: Page950,
    pub places: List<u32>,
}

fn places_of(alloc: Global, movements: &[Movement]) -> Result<List<u32>, Memory>
    ensures { IfOk result (λ places. places ≡ map (λ movement. movement.place) movements.now) }
{
    let mut places = List::with_room(alloc, movements.len())?;
    for movement in movements {
        places.push(movement.place)?;
    }
    Ok(places)
}

/// A page that opens at a balance, with its movements and their places.
pub fn placed_page(
    alloc: Global,
    ledger: &Ledger,
    heading: Heading,
    balance: i64,
    movements: &[Movement],
) -> Result<PlacedPage, Memory>
    requires day { InCentury heading.day }
    requires days { All (λ movement. InCentury movement.day) movements.now }
    ensures { IfOk result (λ placed. placed ≡ placed_page_by ledger.now heading balance movements.now) }
{
    Ok(PlacedPage {
        page: filled_page(alloc, ledger, heading, balance, movements)?,
        places: places_of(alloc, movements)?,
    })
}

/// The message of a page, from the home bank to the owner of its account.
pub fn page_message(alloc: Global, home: &Bic, to: &Bic, page: &Page950) -> Result<Text, Memory>
    requires home { IsBic home.now }
    requires owner { IsBic to.now }
    requires readable { IsReadable mt950_of page.now }
    ensures value { IfOk result (λ text. text ≡ message_by home.now to.now page.now) }
    ensures back { OnOk result (PageReadsBack home.now to.now page.now) }
{
    let text = put_mt950(alloc, page)?;
    put_blocks(alloc, home, 950, to, &[], text.bytes())
}
