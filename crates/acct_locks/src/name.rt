//! The name of an opening.

use std::marker::Brand;

/// Names the table of one opening's purses. What stands behind the locks of an opening has one such name in its type;
/// the call that hands over the parts picks it, with `Brand`.
pub trait Name {
    ghost use Rattle.atomic_table.specs.Seated.{TableId};

    ghost table: { TableId };
}

impl Name for Brand {
    ghost use Rattle.acct_locks.specs.Sides.{no_table};

    ghost table = { no_table };
}
