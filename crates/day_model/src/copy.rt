//! Copies of accounts and of pays.

ghost use Rattle.std.specs.Prelude.{◌≡◌, IfOk};

use crate::account::Account;
use crate::pay::{Leg, Order, Pay, Quote};
use corr_text::{List, Memory};
use std::alloc::Global;

impl Account {
    /// The same account once more.
    pub fn copy(&self, alloc: Global) -> Result<Account, Memory>
        ensures { IfOk result (λ account. account ≡ self.now) }
    {
        Ok(Account {
            id: self.id.copy(alloc)?,
            kind: self.kind,
            owner: self.owner,
            ccy: self.ccy,
            decimals: self.decimals,
            floor: self.floor,
            ceil: self.ceil,
            opening: self.opening,
        })
    }
}

/// The same accounts once more.
pub(crate) fn copy_list(alloc: Global, accounts: &[Account]) -> Result<List<Account>, Memory>
    ensures { IfOk result (λ copies. copies ≡ accounts.now) }
{
    let mut copies = List::new(alloc);
    for account in accounts {
        copies.push(account.copy(alloc)?)?;
    }
    Ok(copies)
}

impl Quote {
    /// The same quote once more.
    pub fn copy(&self, alloc: Global) -> Result<Quote, Memory>
        ensures { IfOk result (λ quote. quote ≡ self.now) }
    {
        match self {
            Quote::Theirs(text) => Ok(Quote::Theirs(text.copy(alloc)?)),
            Quote::Ours(order) => Ok(Quote::Ours(*order)),
        }
    }
}

impl Leg {
    /// The same leg once more.
    pub fn copy(&self, alloc: Global) -> Result<Leg, Memory>
        ensures { IfOk result (λ leg. leg ≡ self.now) }
    {
        Ok(Leg {
            account: self.account,
            side: self.side,
            amount: self.amount,
            quote: self.quote.copy(alloc)?,
        })
    }
}

fn copy_legs(alloc: Global, legs: &[Leg]) -> Result<List<Leg>, Memory>
    ensures { IfOk result (λ copies. copies ≡ legs.now) }
{
    let mut copies = List::new(alloc);
    for leg in legs {
        copies.push(leg.copy(alloc)?)?;
    }
    Ok(copies)
}

fn copy_orders(alloc: Global, orders: &[Order]) -> Result<List<Order>, Memory>
    ensures { IfOk result (λ copies. copies ≡ orders.now) }
{
    let mut copies = List::new(alloc);
    for order in orders {
        copies.push(*order)?;
    }
    Ok(copies)
}

impl Pay {
    /// The same pay once more.
    pub fn copy(&self, alloc: Global) -> Result<Pay, Memory>
        ensures { IfOk result (λ pay. pay ≡ self.now) }
    {
        Ok(Pay {
            mir: self.mir,
            mt: self.mt,
            uetr: self.uetr,
            text: self.text.copy(alloc)?,
            value: self.value,
            legs: copy_legs(alloc, self.legs.as_slice())?,
            orders: copy_orders(alloc, self.orders.as_slice())?,
        })
    }
}
