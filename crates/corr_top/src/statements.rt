//! The commands `statements` and `customer-statements`: what the owners of accounts are sent of a day.

ghost use Rattle.std.specs.Prelude.{◌≡◌, All, IfOk, OnOk};
ghost use Rattle.corr_ids.specs.Bic.{IsBic};
ghost use Rattle.corr_ids.specs.Day.{InCentury};
ghost use Rattle.day_model.specs.Chart.{IsListed};
ghost use Rattle.day_model.specs.Legal.{IsLegal};
ghost use Rattle.statement.specs.Valid.{Prints};
ghost use Rattle.corr_top.specs.inner.Serving.{HasPayShape};
ghost use Rattle.corr_top.specs.Statements.{AreStatements, IsStatementOfDay, owner_pages, sent_statements};
ghost use Rattle.corr_top.specs.inner.Statements.{Adds, MayPrint};

use crate::outgoing::push_parted;
use crate::owners::Owners;
use corr_ids::Day;
use corr_text::{List, Memory, Text};
use day_model::{Accounts, AcctNo, History};
use mt940_out::customer_pages_with;
use statement::{HistoryIndex, pages_with};
use std::alloc::Global;

/// The pages of an account's statement of a day, as these owners are sent them.
fn pages_for(
    alloc: Global,
    owners: Owners,
    a: &Accounts,
    h: &History,
    ix: &HistoryIndex,
    n: AcctNo,
    day: Day,
) -> Result<List<Text>, Memory>
    requires { Prints ix.now n.0 day (record { chart = a.now; entries = h.now.entries }) }
    ensures value { IfOk result (λ texts. texts ≡ owner_pages owners a.now h.now.entries n.0 day) }
    ensures valid { OnOk result (IsStatementOfDay owners a.now h.now.entries day n.0) }
{
    match owners {
        Owners::Banks => pages_with(ix, n, day),
        Owners::Customers => customer_pages_with(alloc, ix, a, h, n, day),
    }
}

/// Appends the pages of an account where it is one of these owners, each followed by `$`.
fn push_pages(
    alloc: Global,
    owners: Owners,
    a: &Accounts,
    h: &History,
    ix: &HistoryIndex,
    n: AcctNo,
    day: Day,
    out: &mut Text,
) -> Result<(), Memory>
    requires listed { IsListed a.now n.0 }
    requires index { MayPrint ix.now a.now day h.now.entries }
    ensures { OnOk result (Adds owners a.now h.now.entries day n.0 out.old out.new) }
{
    if a.get(n).kind != owners.letter() {
        return Ok(());
    }
    push_parted(pages_for(alloc, owners, a, h, ix, n, day)?.as_slice(), out)
}

/// The statements of a day of all accounts of these owners, in the order of the accounts: their pages, each followed by `$`. Each
/// closes at its account's balance; a bank's is accepted by whoever knows the owner and the currency, and a customer's is read back
/// with its notes by whoever knows the currency.
pub fn statements(
    alloc: Global,
    owners: Owners,
    a: &Accounts,
    h: &History,
    day: Day,
) -> Result<Text, Memory>
    requires home { IsBic a.now.home }
    requires legal { IsLegal a.now h.now.entries }
    requires shapes { All HasPayShape h.now.entries }
    requires day { InCentury day }
    ensures text { IfOk result (λ text. text ≡ sent_statements owners a.now h.now.entries day) }
    ensures valid { OnOk result (AreStatements owners a.now h.now.entries day) }
{
    let index = HistoryIndex::new(alloc, a, h)?;
    let mut out = Text::from_bytes(alloc, b"")?;
    for n in 1..a.count() + 1 {
        push_pages(alloc, owners, a, h, &index, AcctNo(n), day, &mut out)?;
    }
    Ok(out)
}
