//! Fields as a message that is sent.

ghost use Rattle.std.specs.Prelude.{◌≡◌, ◌≢◌, ◌≤◌, ◌++◌, [], All, IfOk, IsTrue, OnOk};
ghost use Rattle.corr_ids.specs.Bic.{IsBic};
ghost use Rattle.fin_blocks.specs.Sending.{are_subblocks, sent_text};
ghost use Rattle.fin_fields.specs.Writing.{IsField, fields_text};
ghost use Rattle.advices.specs.Messages.{receiver_of, order_type, uetr_block, order_user};
ghost use Rattle.advices.specs.inner.Messages.{ReadsBack};

use corr_ids::{Bic, Uetr};
use corr_text::{List, Memory, Text};
use day_model::Order;
use fin_blocks::put_blocks;
use fin_fields::{Field, put_fields};
use std::alloc::Global;

/// The type of an order's message.
pub fn type_of(order: Order) -> u16
    ensures value { result ≡ order_type order }
    ensures bound { result ≤ 999 }
{
    match order {
        Order::Transfer { .. } => 103,
        Order::Cover { .. } | Order::Pass { .. } => 202,
        Order::Debit { .. } => 900,
        Order::Credit { .. } => 910,
    }
}

/// The bank that an order's message goes to.
pub fn receiver_of(order: Order) -> Bic
    ensures { result ≡ receiver_of order }
{
    match order {
        Order::Transfer { to, .. }
        | Order::Cover { to, .. }
        | Order::Pass { to, .. }
        | Order::Debit { to, .. }
        | Order::Credit { to, .. } => to,
    }
}

fn push_uetr(alloc: Global, uetr: &Option<Uetr>, user: &mut List<(u16, Text)>) -> Result<(), Memory>
    ensures { OnOk result (user.new ≡ user.old ++ uetr_block uetr.now) }
{
    match uetr {
        Some(uetr) => user.push((121, Text::from_bytes(alloc, &uetr.0)?)),
        None => Ok(()),
    }
}

/// Block 3 of an order's message: the validation flag of a cover, and the UETR of a transfer or a cover.
pub fn user_of(
    alloc: Global,
    uetr: &Option<Uetr>,
    order: Order,
) -> Result<List<(u16, Text)>, Memory>
    ensures { IfOk result (λ user. user ≡ order_user uetr.now order) }
{
    let mut user = List::new(alloc);
    match order {
        Order::Transfer { .. } => push_uetr(alloc, uetr, &mut user)?,
        Order::Cover { .. } | Order::Pass { .. } => {
            user.push((119, Text::from_bytes(alloc, b"COV")?))?;
            push_uetr(alloc, uetr, &mut user)?;
        }
        Order::Debit { .. } | Order::Credit { .. } => {}
    }
    Ok(user)
}

/// A message of these blocks and fields, which is read into them again.
pub fn put_message(
    alloc: Global,
    home: &Bic,
    mt: u16,
    to: &Bic,
    user: &[(u16, Text)],
    fields: &[Field],
) -> Result<Text, Memory>
    requires home { IsBic home.now }
    requires to { IsBic to.now }
    requires mt { mt ≤ 999 }
    requires user { IsTrue (are_subblocks user.now) }
    requires some { fields.now ≢ [] }
    requires fit { All IsField fields.now }
    ensures value { IfOk result (λ text. text ≡ sent_text home.now mt to.now user.now (fields_text fields.now)) }
    ensures back { OnOk result (ReadsBack home.now mt to.now user.now fields.now) }
{
    let text = put_fields(alloc, fields)?;
    put_blocks(alloc, home, mt, to, user, text.bytes())
}
