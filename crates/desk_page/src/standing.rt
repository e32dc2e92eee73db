//! Where a payment stands with the journal.

ghost use Rattle.std.specs.Prelude.{◌≡◌, ◌-◌, ◌≤◌, length, slice_get};
ghost use Rattle.day_model.specs.Legal.{IsLegal};
ghost use Rattle.day_model.specs.Next.{entered_at};
ghost use Rattle.day_model.specs.Same.{reply_to};
ghost use Rattle.desk_page.specs.Row.{IsShownStanding, entered_as, standing_by};

use crate::row::Standing;
use day_model::{Accounts, History, Outcome, Pay};

/// Where the payment stands that is entered at a place.
fn standing_at(_a: &Accounts, h: &History, place: u32) -> Standing
    requires legal { IsLegal _a.now h.now.entries }
    requires from_one { 1 ≤ place }
    requires there { place ≤ length h.now.entries }
    ensures value { result ≡ entered_as place (slice_get h.now.entries (place - 1)) }
    ensures shown { IsShownStanding _a.now result }
{
    let entry = h.get(place);
    match entry.outcome {
        Outcome::Booked => Standing::Booked { place },
        Outcome::Unfunded { leg, .. } => {
            let leg = &entry.pay.legs.as_slice()[leg as usize - 1];
            Standing::Unfunded {
                place,
                account: leg.account,
                side: leg.side,
                amount: leg.amount,
            }
        }
    }
}

/// Where a payment stands whose reference is entered at a place, from 1, or nowhere: then it isn't entered yet, and whether its accounts
/// could take it is not looked at. The history is legal for the accounts.
pub fn standing_for(a: &Accounts, h: &History, pay: &Pay, place: Option<u32>) -> Standing
    requires legal { IsLegal a.now h.now.entries }
    requires place { place ≡ entered_at pay.now.mir h.now.entries }
    ensures value { result ≡ standing_by h.now.entries (reply_to pay.now h.now.entries) }
    ensures shown { IsShownStanding a.now result }
{
    let Some(place) = place else {
        return Standing::New;
    };
    if pay.is_same(&h.get(place).pay) {
        return standing_at(a, h, place);
    }
    Standing::Conflict { place }
}
