//! Laws of returns, carried by the contracts of functions.

ghost use Rattle.pay_returns.specs.Equal.{EqualDecides};
ghost use Rattle.pay_returns.specs.Laws.{EffectsCancel, ReceivedIsNoReturn, ReturnFits, ReturnIsOwn, ReturnsLater, ReturnsOnce, TaggedMore};

/// A return moves on each account what the payment moved, to the other side, and fits the accounts as the payment does. It is a
/// pay of the home bank's own, whose messages are notices alone: advices' `orders` says when they are accepted.
pub fn return_laws()
    ensures cancel { EffectsCancel }
    ensures fits { ReturnFits }
    ensures equal { EqualDecides }
    ensures own { ReturnIsOwn }
{}

/// An entry more has one tag more; a return stands behind what it takes back, and each place has at most one return. A transfer or
/// cover that was received is never taken for a return, whatever its references are: its text has a field 32A, and no return's has.
pub fn tag_laws()
    ensures more { TaggedMore }
    ensures later { ReturnsLater }
    ensures once { ReturnsOnce }
    ensures received { ReceivedIsNoReturn }
{}
