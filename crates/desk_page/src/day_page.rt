//! The page of a day.

ghost use Rattle.std.specs.Prelude.{◌≡◌, ◌++◌, All, IfOk, OnOk};
ghost use Rattle.corr_ids.specs.Day.{InCentury};
ghost use Rattle.day_model.specs.Legal.{IsLegal};
ghost use Rattle.desk_page.specs.inner.Books.{AreSound, chart_in, entries_in};
ghost use Rattle.desk_page.specs.Ahead.{IsDated};
ghost use Rattle.desk_page.specs.Page.{bank_text, page_head, page_of, page_style, sections_of, title_text};
ghost use Rattle.desk_page.specs.Row.{IsShown};

use crate::account_table::put_section;
use crate::books::Books;
use crate::escape::put_escaped;
use crate::groups::{put_needs, put_rest};
use crate::mark::{Piece, mark};
use crate::nostros::put_nostros;
use crate::row::Row;
use crate::twice::put_twice;
use crate::{ahead, leaving};
use corr_ids::{Bic, Day, put_yymmdd, with_branch};
use corr_text::{Memory, Text};
use day_model::{Accounts, History, totals};
use std::alloc::Global;

/// Adds a bank.
fn put_bank(bank: &Bic, out: &mut Text) -> Result<(), Memory>
    ensures { OnOk result (out.new ≡ out.old ++ bank_text bank.now) }
{
    if bank.branch == *b"XXX" {
        return put_escaped(&bank.head, out);
    }
    put_escaped(&with_branch(bank), out)
}

/// Adds whose page it is, and of which day.
fn put_title(home: &Bic, day: Day, out: &mut Text) -> Result<(), Memory>
    requires { InCentury day }
    ensures { OnOk result (out.new ≡ out.old ++ title_text home.now day) }
{
    put_bank(home, out)?;
    out.push(mark(Piece::On))?;
    put_yymmdd(day, out)
}

/// Adds how the page looks.
fn put_style(out: &mut Text) -> Result<(), Memory>
    ensures { OnOk result (out.new ≡ out.old ++ page_style) }
{
    out.push_all(&[mark(Piece::StyleBegin), mark(Piece::StyleText)])?;
    out.push_all(&[mark(Piece::StyleCells), mark(Piece::StyleNumbers)])?;
    out.push_all(&[mark(Piece::StyleNarrow), mark(Piece::StyleEnd)])
}

/// Adds what stands ahead of the sections.
fn put_head(home: &Bic, day: Day, out: &mut Text) -> Result<(), Memory>
    requires { InCentury day }
    ensures { OnOk result (out.new ≡ out.old ++ page_head home.now day) }
{
    out.push(mark(Piece::PageBegin))?;
    put_title(home, day, out)?;
    put_style(out)?;
    put_title(home, day, out)?;
    out.push(mark(Piece::HeadEnd))
}

/// Adds the sections.
fn put_sections(
    alloc: Global,
    books: Books<'_>,
    day: Day,
    rows: &[Row],
    out: &mut Text,
) -> Result<(), Memory>
    requires sound { AreSound books }
    requires dated { All IsDated (entries_in books) }
    requires shown { All (IsShown (chart_in books)) rows.now }
    ensures { OnOk result (out.new ≡ out.old ++ sections_of (chart_in books.entry) (entries_in books.entry) day rows.now) }
{
    put_needs(alloc, books, rows, out)?;
    put_twice(alloc, rows, out)?;
    put_section(alloc, books, out)?;
    put_nostros(books.accounts, rows, out)?;
    ahead::put_section(alloc, books, day, out)?;
    leaving::put_section(alloc, books, day, out)?;
    put_rest(alloc, books, rows, out)
}

/// The page of a day, as a file of HTML that needs no script and refers to nothing outside (docs/operating.md, "The page"): what needs
/// somebody, by what to do; what to look twice at; the accounts with their room, a table a currency; those with other banks, with and without
/// a statement; what is booked ahead of its value date; what leaves for what is booked on the day; and all other messages. `rows` says of each message of the file what it is.
///
/// The history is legal for the accounts, its days and the day are of 1980 to 2079, and each message can be shown. `Memory`: there was no
/// room for the text.
pub fn page(
    alloc: Global,
    a: &Accounts,
    h: &History,
    day: Day,
    rows: &[Row],
) -> Result<Text, Memory>
    requires legal { IsLegal a.now h.now.entries }
    requires dated { All IsDated h.now.entries }
    requires day { InCentury day }
    requires shown { All (IsShown a.now) rows.now }
    ensures { IfOk result (λ text. text ≡ page_of a.now h.now.entries day rows.now) }
{
    let totals = totals(alloc, a, h)?;
    let books = Books {
        accounts: a,
        history: h,
        totals: totals.as_slice(),
    };
    let mut out = Text::from_bytes(alloc, b"")?;
    put_head(a.home(), day, &mut out)?;
    put_sections(alloc, books, day, rows, &mut out)?;
    out.push(mark(Piece::PageEnd))?;
    Ok(out)
}
