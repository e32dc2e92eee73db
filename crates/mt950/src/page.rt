//! A page of a statement.

ghost use Rattle.std.specs.Prelude.{◌≡◌, option_map};
ghost use Rattle.mt950.specs.Page.{page_of};

use crate::balance::{Balance, Stated};
use crate::entry::Line61;
use crate::said::Said;
use corr_money::Ccy;
use corr_text::{List, Text};

/// A page of the statement of an account.
#[derive(Debug, Drop)]
pub struct Page950 {
    /// Field 20, the sender's reference.
    pub reference: Text,
    /// 25, the account.
    pub account: Text,
    /// The number of the statement in 28C, and that of the page where it is given.
    pub number: u32,
    pub page: Option<u32>,
    /// The currency of all balances and lines, and how many decimals it has.
    pub ccy: Ccy,
    pub decimals: u8,
    /// 60a, the balance before the lines.
    pub opening: Balance,
    /// 61, the lines in their order.
    pub lines: List<Line61>,
    /// 62a, the balance after the lines.
    pub closing: Balance,
    /// 64, the balance of available funds.
    pub available: Option<Balance>,
}

fn balance_in(stated: Option<Stated>) -> Option<Balance>
    ensures { result ≡ option_map (λ s. s.balance) stated }
{
    match stated {
        Some(stated) => Some(stated.balance),
        None => None,
    }
}

/// The page that fields say whose currencies agree.
pub fn page_of(said: Said) -> Page950
    ensures { result ≡ page_of said }
{
    Page950 {
        reference: said.reference,
        account: said.account,
        number: said.numbers.number,
        page: said.numbers.page,
        ccy: said.opening.ccy,
        decimals: said.opening.decimals,
        opening: said.opening.balance,
        lines: said.lines,
        closing: said.closing.balance,
        available: balance_in(said.available),
    }
}
