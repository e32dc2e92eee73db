//! The statement of a customer's account on a day.

ghost use Rattle.std.specs.Prelude.{◌≡◌, All, IfOk, OnOk, map};
ghost use Rattle.corr_ids.specs.Bic.{IsBic};
ghost use Rattle.corr_ids.specs.Day.{InCentury};
ghost use Rattle.day_model.specs.Chart.{IsListed};
ghost use Rattle.day_model.specs.Legal.{IsLegal};
ghost use Rattle.fin_contents.specs.Writing.{IsReadable};
ghost use Rattle.mt950.specs.Page.{mt950_of};
ghost use Rattle.statement.specs.Pages.{statement_of};
ghost use Rattle.statement.specs.Valid.{AreShaped, ClosesAtBalance, Prints};
ghost use Rattle.mt940_out.specs.Pages.{customer_message, customer_pages_of, noted_page, noted_pages_of};
ghost use Rattle.mt940_out.specs.Valid.{IsSent, PagesReadBack};

use crate::message::customer_message;
use corr_ids::{Bic, Day};
use corr_text::{List, Memory, Text};
use day_model::{Accounts, AcctNo, History};
use statement::{HistoryIndex, PlacedPage, page_values};
use std::alloc::Global;

/// The message of each page.
fn messages_of(
    alloc: Global,
    home: &Bic,
    h: &History,
    pages: &[PlacedPage],
) -> Result<List<Text>, Memory>
    requires home { IsBic home.now }
    requires shaped { AreShaped h.now.entries }
    requires readable { All (λ placed. IsReadable mt950_of placed.page) pages.now }
    ensures value { IfOk result (λ texts. texts ≡ map (λ placed. customer_message home.now (noted_page h.now.entries placed)) pages.now) }
    ensures sent { OnOk result (All (λ placed. IsSent home.now (noted_page h.now.entries placed)) pages.now) }
{
    let mut texts = List::with_room(alloc, pages.len())?;
    for placed in pages {
        texts.push(customer_message(alloc, home, h, placed)?)?;
    }
    Ok(texts)
}

/// The statement of an account on a day, from an index of the history: what `customer_pages` gives, under its conditions. Of the
/// history it looks at the account's entries alone.
pub fn customer_pages_with(
    alloc: Global,
    ix: &HistoryIndex,
    a: &Accounts,
    h: &History,
    n: AcctNo,
    day: Day,
) -> Result<List<Text>, Memory>
    requires { Prints ix.now n.0 day (record { chart = a.now; entries = h.now.entries }) }
    ensures value { IfOk result (λ texts. texts ≡ customer_pages_of a.now h.now.entries n.0 day) }
    ensures pages { map (λ page. page.page) (noted_pages_of a.now h.now.entries n.0 day) ≡ statement_of a.now h.now.entries n.0 day }
    ensures closes { ClosesAtBalance a.now h.now.entries n.0 day }
    ensures reads { OnOk result (PagesReadBack a.now h.now.entries n.0 day) }
{
    let pages = page_values(ix, n, day)?;
    messages_of(alloc, a.home(), h, pages.as_slice())
}

/// The statement of a customer's account on a day as messages of type 940 (docs/messages.md, "Customer statements"): the pages of
/// `statement`, each line with a note of what was paid: the first two lines of the payment's 50a, and the lines of its 70 that may
/// continue a field. The home bank is their receiver.
///
/// The `pages` without their notes are those of the account's statement of the day, and so ones that `join_pages` accepts, opening
/// at the balance before the day and closing at the balance by all entries up to the day (`closes`). Each message `reads` back:
/// under all tables that hold the account's currency with its decimals its lines say the page and its notes, where the notes of all
/// entries have the form of an 86, as those of valid messages have. Out of memory is the only error.
///
/// The history is legal for the accounts, of which `n` is one, and its pays can be written down; the home BIC meets its grammar;
/// the day lies in 1980 to 2079.
pub fn customer_pages(
    alloc: Global,
    a: &Accounts,
    h: &History,
    n: AcctNo,
    day: Day,
) -> Result<List<Text>, Memory>
    requires legal { IsLegal a.now h.now.entries }
    requires shaped { AreShaped h.now.entries }
    requires home { IsBic a.now.home }
    requires listed { IsListed a.now n.0 }
    requires day { InCentury day }
    ensures value { IfOk result (λ texts. texts ≡ customer_pages_of a.now h.now.entries n.0 day) }
    ensures pages { map (λ page. page.page) (noted_pages_of a.now h.now.entries n.0 day) ≡ statement_of a.now h.now.entries n.0 day }
    ensures closes { ClosesAtBalance a.now h.now.entries n.0 day }
    ensures reads { OnOk result (PagesReadBack a.now h.now.entries n.0 day) }
{
    let index = HistoryIndex::new(alloc, a, h)?;
    customer_pages_with(alloc, &index, a, h, n, day)
}
