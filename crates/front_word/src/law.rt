//! The rule of the word.

use crate::view::View;
use atomic_table::TableRule;

/// What is true of the word and of what all seats know, between any two steps (`Ruled`).
pub struct Law;

impl TableRule<(), View, ()> for Law {
    ghost use Rattle.front_word.specs.inner.Rule.{Ruled};
    ghost use Rattle.front_word.specs.inner.Views.{first_view};

    ghost holds = { λ _ s. Ruled s.words s.views };

    ghost first = { λ _. first_view };
}
