//! The account to credit.

ghost use Rattle.std.specs.Prelude.{◌≡◌, IfOk, IfSome, IsTrue, option_map};
ghost use Rattle.corr_ids.specs.Bic.{IsBic};
ghost use Rattle.routing.specs.Accounts.{fits_at};
ghost use Rattle.ssi_versions.specs.InstructionList.{IsInForm};
ghost use Rattle.routing.specs.Lent.{target_lent};
ghost use Rattle.routing.specs.Route.{bank_credit, booked_credit, carried_credit, credit_of, customer_credit, instructed_credit};

use crate::codes::{P30, P33, P35, P36};
use crate::ledger::{Wanted, named};
use crate::lent::LentTarget;
use corr_ids::{Bic, Day};
use corr_money::Amount;
use corr_text::Code;
use day_model::{Accounts, AcctNo};
use ssi_versions::{Method, Ssi, SsiRow};

/// An account to credit, and how the money leaves, as `Routed` has it.
#[derive(Clone, Copy)]
pub struct Credit {
    pub account: AcctNo,
    pub method: Option<Method>,
    pub via: Option<Bic>,
}

fn customer(id: Option<&[u8]>, amount: &Amount, a: &Accounts) -> Result<Credit, Code>
    ensures value { result ≡ customer_credit (option_map (λ b. b.now) id.entry) amount.now a.now }
    ensures fits { IfOk result (λ c. IsTrue (fits_at a.now amount.now c.account)) }
    ensures via { IfOk result (λ c. IfSome c.via IsBic) }
{
    let Some(id) = id else {
        return Err(P33);
    };
    let account = named(id, &Wanted::Customer, amount, a).ok_or(P33)?;
    Ok(Credit {
        account,
        method: None,
        via: None,
    })
}

fn booked(bank: &Bic, id: &[u8], amount: &Amount, a: &Accounts) -> Result<Credit, Code>
    ensures value { result ≡ booked_credit bank.now id.now amount.now a.now }
    ensures fits { IfOk result (λ c. IsTrue (fits_at a.now amount.now c.account)) }
    ensures via { IfOk result (λ c. IfSome c.via IsBic) }
{
    let account = named(id, &Wanted::Vostro(*bank), amount, a).ok_or(P36)?;
    Ok(Credit {
        account,
        method: Some(Method::Book),
        via: None,
    })
}

fn carried(row: &SsiRow, amount: &Amount, a: &Accounts) -> Result<Credit, Code>
    requires { IsInForm row.now }
    ensures value { result ≡ carried_credit row.now amount.now a.now }
    ensures fits { IfOk result (λ c. IsTrue (fits_at a.now amount.now c.account)) }
    ensures via { IfOk result (λ c. IfSome c.via IsBic) }
{
    let via = row.via.ok_or(P36)?;
    let account = named(row.account.bytes(), &Wanted::Nostro(via), amount, a).ok_or(P36)?;
    Ok(Credit {
        account,
        method: Some(row.method),
        via: Some(via),
    })
}

fn instructed(bank: &Bic, row: &SsiRow, amount: &Amount, a: &Accounts) -> Result<Credit, Code>
    requires { IsInForm row.now }
    ensures value { result ≡ instructed_credit bank.now row.now amount.now a.now }
    ensures fits { IfOk result (λ c. IsTrue (fits_at a.now amount.now c.account)) }
    ensures via { IfOk result (λ c. IfSome c.via IsBic) }
{
    match row.method {
        Method::Book => booked(bank, row.account.bytes(), amount, a),
        Method::Serial | Method::Cover => carried(row, amount, a),
    }
}

fn bank(bank: &Bic, amount: &Amount, value: Day, ssi: &Ssi, a: &Accounts) -> Result<Credit, Code>
    ensures value { result ≡ bank_credit bank.now amount.now value ssi.now a.now }
    ensures fits { IfOk result (λ c. IsTrue (fits_at a.now amount.now c.account)) }
    ensures via { IfOk result (λ c. IfSome c.via IsBic) }
{
    match ssi.at(amount.ccy, bank, value) {
        Some(row) => instructed(bank, row, amount, a),
        None => Err(P30),
    }
}

/// The account to credit, or why there is none: P30, P33, P35 or P36.
pub fn credit_side(
    amount: &Amount,
    value: Day,
    target: LentTarget<'_>,
    ssi: &Ssi,
    a: &Accounts,
) -> Result<Credit, Code>
    ensures value { result ≡ credit_of amount.now value (target_lent target.entry) ssi.now a.now }
    ensures fits { IfOk result (λ c. IsTrue (fits_at a.now amount.now c.account)) }
    ensures via { IfOk result (λ c. IfSome c.via IsBic) }
{
    match target {
        LentTarget::Customer { account } => customer(account, amount, a),
        LentTarget::Bank { bic, field: _ } => bank(bic, amount, value, ssi, a),
        LentTarget::NoBic => Err(P35),
    }
}
