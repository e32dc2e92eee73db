//! The route of a payment.

ghost use Rattle.std.specs.Prelude.{◌≡◌, IfOk, IfSome};
ghost use Rattle.corr_ids.specs.Bic.{IsBic};
ghost use Rattle.routing.specs.Accounts.{AreBetween};
ghost use Rattle.routing.specs.Lent.{cover_lent, target_lent};
ghost use Rattle.routing.specs.Route.{route_of};

use crate::codes::P38;
use crate::cover::Cover;
use crate::credit::credit_side;
use crate::debit::debit_side;
use crate::lent::{LentCover, LentTarget, lend_cover, lend_target};
use crate::routed::Routed;
use crate::target::Target;
use corr_ids::{Bic, Day};
use corr_money::Amount;
use corr_text::Code;
use day_model::Accounts;
use ssi_versions::Ssi;

/// The accounts that a payment from `sender` with this value date is booked on, or the first reason why it has no route
/// (docs/operating.md, "Accounts of a payment"). Takes no memory.
///
/// The debit side is decided whole before the credit side. An account fits where its currency and decimals are the
/// amount's; banks are compared by the heads of their BICs.
///
/// - P31: the sender has no vostro account here that fits, and we have no nostro account with it; P32: the account that 53B
///   names, or our account with the bank of 54a or 53a, isn't there or doesn't fit; P35: that bank has no BIC.
/// - P30: no instruction is in force on the value date; P33: the customer has no account that fits; P35: the target has no
///   BIC; P36: the instruction's account isn't there or doesn't fit.
/// - P38: both sides are one account.
pub fn route(
    sender: &Bic,
    amount: &Amount,
    value: Day,
    cover: &Cover,
    target: &Target,
    ssi: &Ssi,
    accounts: &Accounts,
) -> Result<Routed, Code>
    ensures value { result ≡ route_of sender.now amount.now value cover.now target.now ssi.now accounts.now }
    ensures accounts { IfOk result (AreBetween accounts.now amount.now) }
    ensures via { IfOk result (λ routed. IfSome routed.via IsBic) }
{
    let cover = lend_cover(cover);
    let target = lend_target(target);
    route_lent(sender, amount, value, cover, target, ssi, accounts)
}

/// As `route`, of a cover and a target that stay where they are.
#[inline(never)]
#[tactic(auto, unfolding(crate::specs::Route::route_of))]
pub fn route_lent(
    sender: &Bic,
    amount: &Amount,
    value: Day,
    cover: LentCover<'_>,
    target: LentTarget<'_>,
    ssi: &Ssi,
    accounts: &Accounts,
) -> Result<Routed, Code>
    ensures value { result ≡ route_of sender.now amount.now value (cover_lent cover.entry) (target_lent target.entry) ssi.now accounts.now }
    ensures accounts { IfOk result (AreBetween accounts.now amount.now) }
    ensures via { IfOk result (λ routed. IfSome routed.via IsBic) }
{
    let debit = debit_side(sender, amount, cover, accounts)?;
    let credit = credit_side(amount, value, target, ssi, accounts)?;
    if debit == credit.account {
        return Err(P38);
    }
    Ok(Routed {
        debit,
        credit: credit.account,
        method: credit.method,
        via: credit.via,
    })
}
