//! The kinds of step, as the table's plays, splits and joins.

use crate::view::View;
use atomic_table::{Join, Play, Split};
use std::marker::{Brand, PhantomData};

/// Names the entries that a writer begins with.
pub trait Base {
    ghost use Rattle.std.specs.Prelude.{List};
    ghost use Rattle.day_model.specs.declared.entry.Entry.{Entry};

    ghost base: { List Entry };
}

impl Base for Brand {
    ghost use Rattle.std.specs.Prelude.{[]};

    ghost base = { [] };
}

/// Names an entry, and the pass that it is published for.
pub trait Deed {
    ghost use Rattle.front_word.specs.declared.view.Act.{Act};

    ghost act: { Act };
}

impl Deed for Brand {
    ghost use Rattle.front_word.specs.inner.Blank.{blank_act};

    ghost act = { blank_act };
}

/// Names a count of faults.
pub trait Count {
    ghost use Rattle.std.specs.Prelude.{ℕ};

    ghost count: { ℕ };
}

impl Count for Brand {
    ghost count = { 0 };
}

/// The writer looks.
pub struct Watch;

impl Play<(), View> for Watch {
    ghost use Rattle.front_word.specs.inner.Steps.{writer_looks};

    ghost then = { writer_looks };
}

/// A pass looks.
pub struct Look;

impl Play<(), View> for Look {
    ghost use Rattle.front_word.specs.inner.Steps.{pass_looks};

    ghost then = { pass_looks };
}

/// The writer's base is named.
pub struct SetBase<B: Base> {
    base: PhantomData<B>,
}

impl<B: Base> Play<(), View> for SetBase<B> {
    ghost use Rattle.front_word.specs.inner.Steps.{Becomes};
    ghost use Rattle.front_word.specs.inner.Views.{based};

    ghost then = { Becomes (based B.base) };
}

/// The writer publishes.
pub struct Publish<A: Deed> {
    act: PhantomData<A>,
}

impl<A: Deed> Play<(), View> for Publish<A> {
    ghost use Rattle.front_word.specs.inner.Steps.{Becomes};
    ghost use Rattle.front_word.specs.inner.Views.{published};

    ghost then = { Becomes (published A.act) };
}

/// The writer's mark is raised.
pub struct Raise<C: Count> {
    count: PhantomData<C>,
}

impl<C: Count> Play<(), View> for Raise<C> {
    ghost use Rattle.front_word.specs.inner.Steps.{Becomes};
    ghost use Rattle.front_word.specs.inner.Views.{raised};

    ghost then = { Becomes (raised C.count) };
}

/// A note of what the writer knows, for a pass.
pub struct ToPass;

impl Split<View> for ToPass {
    ghost use Rattle.front_word.specs.inner.Views.{writer_note};

    ghost left = { λ v. v };

    ghost right = { writer_note };
}

impl Join<View> for ToPass {
    ghost use Rattle.front_word.specs.inner.Views.{having_read, spent_view};

    ghost both = { having_read };

    ghost spent = { spent_view };
}

/// A note of what a pass knows, for the writer.
pub struct ToWriter;

impl Split<View> for ToWriter {
    ghost use Rattle.front_word.specs.inner.Views.{pass_note};

    ghost left = { λ v. v };

    ghost right = { pass_note };
}

impl Join<View> for ToWriter {
    ghost use Rattle.front_word.specs.inner.Views.{heard, spent_view};

    ghost both = { heard };

    ghost spent = { spent_view };
}

/// A new pass, and its way back.
pub struct Whole;

impl Split<View> for Whole {
    ghost use Rattle.front_word.specs.inner.Views.{having_made, new_pass};

    ghost left = { having_made };

    ghost right = { new_pass };
}

impl Join<View> for Whole {
    ghost use Rattle.front_word.specs.inner.Views.{taken_back, spent_view};

    ghost both = { taken_back };

    ghost spent = { spent_view };
}
