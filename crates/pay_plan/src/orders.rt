//! The messages that a pay asks for.

ghost use Rattle.std.specs.Prelude.{◌≡◌, ◌++◌, IfOk, OnOk};
ghost use Rattle.routing.specs.Lent.{target_lent};
ghost use Rattle.pay_plan.specs.Orders.{next_orders, notices_of, orders_of, skip_of};

use crate::way::Way;
use corr_ids::Bic;
use corr_text::{List, Memory};
use day_model::{Account, Kind, Order, Skip};
use routing::LentTarget;
use std::alloc::Global;

// Which of 56a and 57a the next bank doesn't need: those up to the field that names it, and the one before that where it
// isn't the target itself.
fn skip_of(field: u8, is_target: bool) -> Skip
    ensures { result ≡ skip_of field is_target }
{
    match (field, is_target) {
        (56, true) => Skip::Mid,
        (56, false) => Skip::Keep,
        (57, false) => Skip::Mid,
        _ => Skip::Both,
    }
}

fn push_next(
    way: Way,
    bank: &Bic,
    field: u8,
    via: Option<Bic>,
    orders: &mut List<Order>,
) -> Result<(), Memory>
    ensures { OnOk result (orders.new ≡ orders.old ++ next_orders way bank.now field via) }
{
    let to = via.unwrap_or(*bank);
    let skip = skip_of(field, to.head == bank.head);
    match way {
        Way::Ends => Ok(()),
        Way::Onward => orders.push(Order::Transfer {
            to,
            skip,
            via: None,
        }),
        Way::Covered => {
            let skip = skip_of(field, true);
            orders.push(Order::Transfer {
                to: *bank,
                skip,
                via,
            })?;
            orders.push(Order::Cover {
                to,
                end: *bank,
                skip,
            })
        }
        Way::Credited => orders.push(Order::Credit { to: *bank, leg: 2 }),
        Way::Passed => orders.push(Order::Pass { to, skip }),
    }
}

fn push_notice(debited: &Account, orders: &mut List<Order>) -> Result<(), Memory>
    ensures { OnOk result (orders.new ≡ orders.old ++ notices_of debited.now) }
{
    if debited.kind != Kind::Vostro.letter() {
        return Ok(());
    }
    orders.push(Order::Debit {
        to: debited.owner,
        leg: 1,
    })
}

/// How many messages most payments ask for at most; some ask for three.
const MOSTLY: usize = 2;

/// The messages that follow a payment, and last the notice to the bank whose vostro account is debited.
pub fn orders_of(
    alloc: Global,
    way: Way,
    target: LentTarget<'_>,
    via: Option<Bic>,
    debited: &Account,
) -> Result<List<Order>, Memory>
    ensures { IfOk result (λ orders. orders ≡ orders_of way (target_lent target.entry) via debited.now) }
{
    let mut orders = List::with_room(alloc, MOSTLY)?;
    if let LentTarget::Bank { bic, field } = target {
        push_next(way, bic, field, via, &mut orders)?;
    }
    push_notice(debited, &mut orders)?;
    Ok(orders)
}
