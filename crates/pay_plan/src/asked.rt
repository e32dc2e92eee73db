//! What a message asks of the books, as one value.

use corr_ids::Day;
use corr_money::Amount;
use corr_text::Text;
use day_model::Mt;
use routing::{LentCover, LentTarget};
use std::marker::Model;

/// What a message asks of the books.
///
/// `reference` is field 20, and `last_reference` what the last bank's or customer's statement quotes: field 20 of a transfer
/// and field 21 of a cover.
#[derive(Drop)]
pub struct Asked<'a> {
    pub mt: Mt,
    pub value: Day,
    pub amount: Amount,
    pub reference: &'a Text,
    pub last_reference: &'a Text,
    pub cover: LentCover<'a>,
    pub target: LentTarget<'a>,
}

impl<'a> Model for Asked<'a> {
    ghost use Rattle.routing.specs.Lent.{cover_lent, target_lent};
    ghost use Rattle.pay_plan.specs.Asked.{Asked};

    ghost Value = { Asked };

    ghost view = { λ a. record { mt = a.mt; value = a.value; amount = a.amount; reference = a.reference.now; last_reference = a.last_reference.now; cover = cover_lent a.cover; target = target_lent a.target } };
}
