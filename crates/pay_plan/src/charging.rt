//! Charges: what is taken out of a transfer, and where it is booked (docs/operating.md, "Charges").

ghost use Rattle.std.specs.Prelude.{◌≡◌, ◌<◌, IfOk, IfSome};
ghost use Rattle.pay_plan.specs.Asked.{amount_in};
ghost use Rattle.mt103.specs.Codes.{is_charged};
ghost use Rattle.pay_plan.specs.Charging.{IsTaken, charge_asked, charge_of};

use crate::ask::Ask;
use crate::asking::amount_in;
use crate::fault::{P39, P40};
use corr_money::Minor;
use corr_text::Code;
use day_model::{Accounts, AcctNo, Kind};
use ref_tables::Charges;
use routing::{Routed, account_with};

/// A charge that is taken out of a payment: the account of fees that it is booked on, and the amount in minor units.
#[derive(Clone, Copy, Debug, PartialEq, Eq)]
pub struct Charge {
    pub account: AcctNo,
    pub amount: Minor,
}

/// The accounts of a payment, and the charge that is taken out of it, if there is one.
#[derive(Clone, Copy, Debug, PartialEq, Eq)]
pub struct Charged {
    pub routed: Routed,
    pub charge: Option<Charge>,
}

// Whether charges are shared (SHA), or the beneficiary bears them (BEN).
fn is_charged(whose: [u8; 3]) -> bool
    ensures { result ≡ is_charged whose }
{
    whose == *b"SHA" || whose == *b"BEN"
}

// What a message is charged: a transfer under SHA or BEN, where its currency has a row; a cover nothing.
fn charge_asked(ask: Ask<'_>, charges: &Charges) -> Option<Minor>
    ensures value { result ≡ charge_asked ask.entry charges.now }
    ensures above { IfSome result (λ m. 0 < m.0) }
{
    match ask {
        Ask::Transfer(m) if is_charged(m.charge) => charges.of(m.amount.ccy),
        _ => None,
    }
}

/// The charge of a message, none where it isn't charged; or why there is none that can be taken: P39 where it isn't below the
/// amount, P40 where no account of fees has the amount's currency and decimals. Takes no memory.
pub fn charge_of(ask: Ask<'_>, charges: &Charges, a: &Accounts) -> Result<Option<Charge>, Code>
    ensures value { result ≡ charge_of ask.entry charges.now a.now }
    ensures taken { IfOk result (λ charge. IfSome charge (IsTaken a.now (amount_in ask.entry))) }
{
    let Some(amount) = charge_asked(ask, charges) else {
        return Ok(None);
    };
    let whole = amount_in(ask);
    if amount.0 >= whole.minor.0 {
        return Err(P39);
    }
    let account = account_with(Kind::Fee, a.home(), whole, a).ok_or(P40)?;
    Ok(Some(Charge { account, amount }))
}
