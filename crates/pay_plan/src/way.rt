//! How a payment goes on.

ghost use Rattle.std.specs.Prelude.{◌≡◌};
ghost use Rattle.routing.specs.Lent.{target_lent};
ghost use Rattle.pay_plan.specs.Way.{cover_way, transfer_way, way_of};

use day_model::Mt;
use routing::LentTarget;
use ssi_versions::Method;

/// How a payment goes on from these books.
#[derive(Clone, Copy, Debug, PartialEq, Eq)]
pub enum Way {
    /// A transfer that ends with a customer of the home bank.
    Ends,
    /// A transfer that one transfer follows.
    Onward,
    /// A transfer that a transfer to its target and a cover over the bank between follow.
    Covered,
    /// A cover that ends with a bank that has an account here.
    Credited,
    /// A cover that is passed on.
    Passed,
}

fn transfer_way(method: Option<Method>) -> Way
    ensures { result ≡ transfer_way method }
{
    match method {
        None => Way::Ends,
        Some(Method::Book) | Some(Method::Serial) => Way::Onward,
        Some(Method::Cover) => Way::Covered,
    }
}

fn cover_way(target: LentTarget<'_>, method: Option<Method>) -> Way
    ensures { result ≡ cover_way (target_lent target.entry) method }
{
    match (target, method) {
        (LentTarget::Bank { bic: _, field: 58 }, Some(Method::Book)) => Way::Credited,
        _ => Way::Passed,
    }
}

/// How a payment goes on, by the type of its message, its target and the method of its instruction.
pub fn way_of(mt: Mt, target: LentTarget<'_>, method: Option<Method>) -> Way
    ensures { result ≡ way_of mt (target_lent target.entry) method }
{
    match mt {
        Mt::Transfer => transfer_way(method),
        Mt::Cover => cover_way(target, method),
    }
}
