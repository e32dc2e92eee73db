//! The word, and how a writer begins.

ghost use Rattle.std.specs.Prelude.{◌≡◌, [], IfOk, List};
ghost use Rattle.day_model.specs.declared.entry.Entry.{Entry};
ghost use Rattle.front_word.specs.Known.{beginner};
ghost use Rattle.front_word.specs.inner.Views.{first_view};

use crate::law::Law;
use crate::plays::{Base, SetBase};
use crate::view::View;
use crate::writer::Writer;
use atomic_table::{Seat, Table};
use corr_text::Memory;
use std::alloc::Global;
use std::marker::{Brand, Model};

/// The word: how many entries were acknowledged. Contracts see it as the table that it is.
#[derive(Drop)]
pub struct Front {
    pub(crate) table: Table<(), View, (), Law, Global>,
}

impl Model for Front {
    ghost use Rattle.std.specs.Prelude.{◌≡◌};
    ghost use Rattle.atomic_table.specs.Seated.{TableId, table_id_coded};

    ghost Value = { TableId };

    ghost coded = { table_id_coded };

    ghost view = { λ f. f.table.shared.table_id };

    ghost invariant = { λ f. f.table.shared.table_id.words ≡ 1 };
}

impl Front {
    /// A new word, which is 0, and the writer with its first seat, which begins with the entries that the caller's contract
    /// names. `Memory`: there was no room for the word.
    pub fn new(alloc: Global) -> Result<(Front, Writer), Memory>
        ghost base: { List Entry }
        ensures { IfOk result (λ r. r.1 ≡ beginner r.0 base) }
    {
        let Ok((table, seat)) = Table::of_words(alloc, &[0], &()) else {
            return Err(Memory);
        };
        Ok(begun::<Brand>(Front { table }, seat))
    }
}

fn begun<B: Base>(front: Front, mut seat: Seat<(), View>) -> (Front, Writer)
    requires table { seat.table_id ≡ front }
    requires first { seat.me ≡ (first_view, []) }
    ensures { (result.0 ≡ front) × (result.1 ≡ beginner front B.base) }
{
    front.table.shared.load::<SetBase<B>>(&mut seat, 0);
    (front, Writer { seat })
}
