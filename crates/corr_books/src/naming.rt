//! Names of one opening, and of what only contracts speak of.

use acct_locks::Name;
use std::marker::Brand;

/// Names the parts of one opening beside the table of its purses: the accounts, the history then, the day that entries get,
/// the disk's count of faults and its moment then and whether its bytes are told, the number of passes, the table
/// of the word, and how many entries come under one sync at most.
pub trait BooksName: Name {
    ghost use Rattle.std.specs.Prelude.{ℕ, List};
    ghost use Rattle.corr_books.specs.Opening.{Opening};

    ghost opening: { Opening };

    /// What a crash at some moment from an earlier one on might have left when the books were opened.
    ghost past: { ℕ → List ℕ → Type 0 };
}

impl BooksName for Brand {
    ghost use Rattle.corr_books.specs.inner.Opening.{no_opening, no_past};

    ghost opening = { no_opening };

    ghost past = { no_past };
}

/// Names an entry, and the pass that it is published for.
pub(crate) trait Act {
    ghost use Rattle.front_word.specs.declared.view.Act.{Act as TheAct};

    ghost act: { TheAct };
}

impl Act for Brand {
    ghost use Rattle.front_word.specs.inner.Blank.{blank_act};

    ghost act = { blank_act };
}

/// Names the pays of a batch.
pub(crate) trait Batch {
    ghost use Rattle.std.specs.Prelude.{List};
    ghost use Rattle.day_model.specs.declared.pay.Pay.{Pay};

    ghost pays: { List Pay };
}

impl Batch for Brand {
    ghost use Rattle.std.specs.Prelude.{[]};

    ghost pays = { [] };
}

/// Names a pay.
pub(crate) trait Paid {
    ghost use Rattle.day_model.specs.declared.pay.Pay.{Pay};

    ghost pay: { Pay };
}

impl Paid for Brand {
    ghost use Rattle.front_word.specs.inner.Blank.{blank_pay};

    ghost pay = { blank_pay };
}

/// Names the history that a word begins with.
pub(crate) trait Beginning {
    ghost use Rattle.std.specs.Prelude.{List};
    ghost use Rattle.day_model.specs.declared.entry.Entry.{Entry};

    ghost history: { List Entry };
}

impl Beginning for Brand {
    ghost use Rattle.std.specs.Prelude.{[]};

    ghost history = { [] };
}
