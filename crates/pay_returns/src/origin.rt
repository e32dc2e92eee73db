//! What a return takes over from the payment that it takes back.

ghost use Rattle.std.specs.Prelude.{◌≡◌, IfOk};
ghost use Rattle.pay_returns.specs.Opposite.{origin_of};
ghost use Rattle.pay_returns.specs.Origins.{lent_in};

use crate::first::related_of;
use corr_ids::Uetr;
use corr_text::{List, Memory, Text};
use day_model::{Entry, Leg};
use std::alloc::Global;

/// What a return takes over from a payment: its UETR, the reference that the return names (its own field 20, or `NONREF`), and
/// its legs, which the return has with their sides changed.
#[derive(Debug, Drop)]
pub struct Origin {
    pub uetr: Option<Uetr>,
    pub related: Text,
    pub legs: List<Leg>,
}

/// The same, lent.
#[derive(Clone, Copy)]
pub struct Lent<'a> {
    pub uetr: Option<Uetr>,
    pub related: &'a [u8],
    pub legs: &'a [Leg],
}

fn copy_legs(alloc: Global, legs: &[Leg]) -> Result<List<Leg>, Memory>
    ensures { IfOk result (λ copies. copies ≡ legs.now) }
{
    let mut copies = List::with_room(alloc, legs.len())?;
    for leg in legs {
        copies.push(Leg {
            account: leg.account,
            side: leg.side,
            amount: leg.amount,
            quote: leg.quote.copy(alloc)?,
        })?;
    }
    Ok(copies)
}

impl Origin {
    /// What a return takes over from an entry.
    pub fn of(alloc: Global, e: &Entry) -> Result<Origin, Memory>
        ensures { IfOk result (λ origin. origin ≡ origin_of e.now) }
    {
        Ok(Origin {
            uetr: e.pay.uetr,
            related: Text::from_bytes(alloc, related_of(e.pay.text.bytes()))?,
            legs: copy_legs(alloc, e.pay.legs.as_slice())?,
        })
    }

    /// The same, lent.
    pub fn lend(&self) -> Lent<'_>
        ensures { lent_in result ≡ self.now }
    {
        Lent {
            uetr: self.uetr,
            related: self.related.bytes(),
            legs: self.legs.as_slice(),
        }
    }
}

impl<'a> Lent<'a> {
    /// What a return takes over from an entry, without a copy. Takes no memory.
    pub fn of(e: &'a Entry) -> Lent<'a>
        ensures { lent_in result ≡ origin_of e.now }
    {
        Lent {
            uetr: e.pay.uetr,
            related: related_of(e.pay.text.bytes()),
            legs: e.pay.legs.as_slice(),
        }
    }
}
