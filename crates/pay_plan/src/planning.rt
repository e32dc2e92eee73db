//! The pay of a message.

ghost use Rattle.std.specs.Prelude.{◌≡◌, ◌≤◌, ℕ, IfOk, IfSome, IsSome, List, OnOk, Some};
ghost use Rattle.corr_ids.specs.Bic.{IsBic};
ghost use Rattle.day_model.specs.Chart.{IsChart, IsListed, account_at};
ghost use Rattle.day_model.specs.Fit.{FitsAccounts};
ghost use Rattle.day_model.specs.Shape.{HasShape};
ghost use Rattle.day_model.specs.declared.account.Account.{Account};
ghost use Rattle.routing.specs.Accounts.{AreBetween};
ghost use Rattle.pay_plan.specs.Asked.{asked_of};
ghost use Rattle.pay_plan.specs.Charging.{AreCharged};
ghost use Rattle.pay_plan.specs.Plan.{Plans, accounts_of, booked, pay_of, plan_of, route_asked};
ghost use Rattle.pay_plan.specs.Readable.{IsSomeAsked, IsSomeReading, IsWritable};

use crate::ask::Ask;
use crate::asked::Asked;
use crate::asking::{asked_of, is_for_home};
use crate::charging::{Charged, charge_of};
use crate::fault::{P34, PlanFault};
use crate::legs::legs_of;
use crate::orders::orders_of;
use crate::way::way_of;
use corr_ids::{Envelope, Mir};
use corr_text::{Code, Memory, Text};
use day_model::{Accounts, Pay};
use ref_tables::Charges;
use routing::{Routed, route_lent};
use ssi_versions::Ssi;
use std::alloc::Global;

#[inline(never)]
fn pay_of(
    alloc: Global,
    mir: Mir,
    env: &Envelope,
    text: Text,
    asked: &Asked<'_>,
    charged: &Charged,
    a: &Accounts,
) -> Result<Pay, Memory>
    requires reference { env.now.mir ≡ Some mir }
    requires debit { IsListed a.now charged.now.routed.debit.0 }
    requires charge { IfSome charged.now.charge (λ c. c.amount.0 ≤ asked.now.amount.minor.0) }
    ensures value { IfOk result (λ pay. pay ≡ pay_of env.now text asked.now charged.now a.now) }
    ensures sound { OnOk result (IsChart a.now) }
    ensures owner { OnOk result ((x : Account) → account_at a.now charged.now.routed.debit.0 ≡ Some x → IsBic x.owner) }
{
    let routed = &charged.routed;
    let way = way_of(asked.mt, asked.target, routed.method);
    Ok(Pay {
        mir,
        mt: asked.mt,
        uetr: env.uetr,
        text,
        value: asked.value,
        legs: legs_of(alloc, way, asked, charged)?,
        orders: orders_of(alloc, way, asked.target, routed.via, a.get(routed.debit))?,
    })
}

// The route of what a message asks.
fn route_asked(
    env: &Envelope,
    asked: &Asked<'_>,
    ssi: &Ssi,
    accounts: &Accounts,
) -> Result<Routed, Code>
    ensures value { result ≡ route_asked env.now asked.now ssi.now accounts.now }
    ensures accounts { IfOk result (AreBetween accounts.now asked.now.amount) }
    ensures via { IfOk result (λ routed. IfSome routed.via IsBic) }
{
    route_lent(
        &env.sender,
        &asked.amount,
        asked.value,
        asked.cover,
        asked.target,
        ssi,
        accounts,
    )
}

/// The accounts of a message and the charge that is taken out of it, or the code with which it is refused: P34, one of `route`, or
/// P39 or P40 of its charge (docs/operating.md, "Accounts of a payment" and "Charges"). Takes no memory; `pay_on` gives the pay
/// between them.
///
/// `asked` is what the message asks of the home bank of the accounts.
pub fn accounts_of(
    env: &Envelope,
    ask: Ask<'_>,
    asked: &Asked<'_>,
    ssi: &Ssi,
    accounts: &Accounts,
    charges: &Charges,
) -> Result<Charged, Code>
    requires asked { asked.now ≡ asked_of accounts.now.home ask }
    ensures charged { result ≡ accounts_of env.now ask.entry ssi.now charges.now accounts.now }
    ensures value { (text : List ℕ) → plan_of env.now text ask.entry ssi.now charges.now accounts.now ≡ booked env.now text ask.entry accounts.now result }
    ensures accounts { IfOk result (AreCharged accounts.now asked.now.amount) }
    ensures via { IfOk result (λ charged. IfSome charged.routed.via IsBic) }
{
    if is_for_home(accounts.home(), ask) {
        return Err(P34);
    }
    let routed = route_asked(env, asked, ssi, accounts)?;
    let charge = charge_of(ask, charges, accounts)?;
    Ok(Charged { routed, charge })
}

/// The pay of what a message asks, on the accounts that `accounts_of` gives it. It keeps the text. `Memory`: there was no room for it.
///
/// `mir` is the reference of `env`. The pay can be written down where the reference and the UETR of `env` meet their grammar and the
/// text has at most 32,768 bytes.
pub fn pay_on(
    alloc: Global,
    mir: Mir,
    env: &Envelope,
    text: Text,
    asked: &Asked<'_>,
    charged: &Charged,
    accounts: &Accounts,
) -> Result<Pay, Memory>
    requires reference { env.now.mir ≡ Some mir }
    requires message { IsSomeAsked accounts.now.home asked.now }
    requires accounts { AreCharged accounts.now asked.now.amount charged.now }
    requires via { IfSome charged.now.routed.via IsBic }
    ensures value { IfOk result (λ pay. pay ≡ pay_of env.now text asked.now charged.now accounts.now) }
    ensures fit { IfOk result (FitsAccounts accounts.now) }
    ensures form { IsWritable env.now text → IfOk result HasShape }
    ensures sound { OnOk result (IsChart accounts.now) }
{
    pay_of(alloc, mir, env, text, asked, charged, accounts)
}

/// The pay that a message asks for under these instructions and accounts, or the first reason why it has none
/// (docs/operating.md, "Accounts of a payment").
///
/// `env` has a reference, and the message is one that its reader gives. P34 comes exactly where it is a cover whose 58a names
/// the home bank by its BIC; else the codes of `route`; then P39 where the charge isn't below the amount, and P40 where no account
/// of fees has its currency and decimals. `Memory`: there was no room for the pay.
///
/// The pay can be written down where the reference and the UETR of `env` meet their grammar and the text has at most
/// 32,768 bytes.
pub fn plan(
    alloc: Global,
    env: &Envelope,
    text: &Text,
    ask: Ask<'_>,
    ssi: &Ssi,
    accounts: &Accounts,
    charges: &Charges,
) -> Result<Pay, PlanFault>
    requires received { IsSome env.now.mir }
    requires message { IsSomeReading ask }
    ensures plan { Plans result (plan_of env.now text.now ask.entry ssi.now charges.now accounts.now) }
    ensures fit { IfOk result (FitsAccounts accounts.now) }
    ensures form { IsWritable env.now text.now → IfOk result HasShape }
    ensures sound { OnOk result (IsChart accounts.now) }
{
    let mir = env.mir.unwrap();
    let asked = asked_of(accounts.home(), ask);
    let charged = accounts_of(env, ask, &asked, ssi, accounts, charges)?;
    let lines = text.copy(alloc)?;
    Ok(pay_on(alloc, mir, env, lines, &asked, &charged, accounts)?)
}
