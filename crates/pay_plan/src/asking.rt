//! What a message asks of the books.

ghost use Rattle.std.specs.Prelude.{◌≡◌};
ghost use Rattle.routing.specs.Lent.{cover_lent, target_lent};
ghost use Rattle.pay_plan.specs.Asked.{amount_in, asked_of, asked_with, cover_in, is_for_home, target_in};

use crate::ask::Ask;
use crate::asked::Asked;
use crate::cover::cover_of;
use crate::target::{cover_target, names_home, transfer_target};
use corr_ids::Bic;
use corr_money::Amount;
use day_model::Mt;
use routing::{LentCover, LentTarget};

/// Whether a message is a cover that names the home bank in 58a.
pub fn is_for_home(home: &Bic, ask: Ask<'_>) -> bool
    ensures { result ≡ is_for_home home.now ask.entry }
{
    match ask {
        Ask::Transfer(_) => false,
        Ask::Cover(m) => names_home(home, &m.a58),
    }
}

/// The amount of a message.
pub fn amount_in<'a>(ask: Ask<'a>) -> &'a Amount
    ensures { result.now ≡ amount_in ask.entry }
{
    match ask {
        Ask::Transfer(m) => &m.amount,
        Ask::Cover(m) => &m.amount,
    }
}

// How a message says that it is covered.
fn cover_in<'a>(ask: Ask<'a>) -> LentCover<'a>
    ensures { cover_lent result ≡ cover_in ask.entry }
{
    let (p53, p54) = match ask {
        Ask::Transfer(m) => (&m.p53, &m.p54),
        Ask::Cover(m) => (&m.a53, &m.a54),
    };
    cover_of(p53, p54)
}

// For whom a message says that it is.
fn target_in<'a>(home: &Bic, ask: Ask<'a>) -> LentTarget<'a>
    ensures { target_lent result ≡ target_in home.now ask.entry }
{
    match ask {
        Ask::Transfer(m) => transfer_target(home, m),
        Ask::Cover(m) => cover_target(home, m),
    }
}

// What a message asks of the books, with this cover and target.
fn asked_with<'a>(ask: Ask<'a>, cover: LentCover<'a>, target: LentTarget<'a>) -> Asked<'a>
    ensures { result ≡ asked_with ask.entry (cover_lent cover.entry) (target_lent target.entry) }
{
    match ask {
        Ask::Transfer(m) => Asked {
            mt: Mt::Transfer,
            value: m.value,
            amount: m.amount,
            reference: &m.reference,
            last_reference: &m.reference,
            cover,
            target,
        },
        Ask::Cover(m) => Asked {
            mt: Mt::Cover,
            value: m.value,
            amount: m.amount,
            reference: &m.reference,
            last_reference: &m.related,
            cover,
            target,
        },
    }
}

/// What a message asks of the books: its type, value date, amount and references, how it is covered, and for whom it is, at the bank
/// `home`. Takes no memory.
pub fn asked_of<'a>(home: &Bic, ask: Ask<'a>) -> Asked<'a>
    ensures { result ≡ asked_of home.now ask.entry }
{
    asked_with(ask, cover_in(ask), target_in(home, ask))
}
