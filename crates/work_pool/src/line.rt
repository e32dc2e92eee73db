//! The line of jobs: a bounded queue, whose rule is that each job is taken once.

use crossbeam_queue::protocol::{Join, Lesson, Outcome, Protocol, Split};
use crossbeam_queue::{Pass, RuledArrayQueue};
use std::collections::LinkedList;

/// A job with its number in the order of the feed, from 1.
#[derive(Drop)]
pub struct Numbered<J> {
    pub number: usize,
    pub job: J,
}

/// What a token knows: its parts of the right to know all, whether there has been no other, whether it puts jobs into the line,
/// the jobs that it put there, and those that it took. No value of it is made.
pub struct Known<J> {
    pub parts: u64,
    pub alone: bool,
    pub feeds: bool,
    pub given: LinkedList<J>,
    pub taken: LinkedList<Numbered<J>>,
}

/// The rule of the line.
pub struct OnceEach;

impl<J> Protocol<Numbered<J>, Known<J>> for OnceEach {
    ghost use Rattle.work_pool.specs.inner.Line.{IsShared, knows_all};

    ghost holds = { IsShared };

    ghost first = { knows_all };
}

/// A job is put at the end of the line.
pub struct Puts;

impl<J> Outcome<Numbered<J>, Known<J>> for Puts {
    ghost use Rattle.std.specs.Prelude.{◌≡◌};
    ghost use Rattle.work_pool.specs.inner.Line.{puts};

    ghost then = { λ v x w. w ≡ puts v x };
}

impl<J> Lesson<Numbered<J>, Known<J>> for Puts {
    ghost fact = { λ v items. Unit {0} };
}

/// A job is taken from the front of the line.
pub struct Takes;

impl<J> Outcome<Numbered<J>, Known<J>> for Takes {
    ghost use Rattle.std.specs.Prelude.{◌≡◌};
    ghost use Rattle.work_pool.specs.inner.Line.{takes};

    ghost then = { λ v x w. w ≡ takes v x };
}

impl<J> Lesson<Numbered<J>, Known<J>> for Takes {
    ghost use Rattle.work_pool.specs.inner.Line.{Tells};

    ghost fact = { Tells };
}

/// A token is cut off, with one part and nothing else.
pub struct Cut;

impl<J> Split<Known<J>> for Cut {
    ghost use Rattle.work_pool.specs.inner.Line.{without_part, one_part};

    ghost left = { without_part };

    ghost right = { λ _. one_part };
}

/// A token comes back, with all that it took.
pub struct Back;

impl<J> Join<Known<J>> for Back {
    ghost use Rattle.work_pool.specs.inner.Line.{with_other, spent};

    ghost both = { with_other };

    ghost spent = { spent };
}

/// The line of jobs.
pub type Line<J> = RuledArrayQueue<Numbered<J>, Known<J>, OnceEach>;

/// What one worker knows of the line. It has no bytes.
pub type Token<J> = Pass<Numbered<J>, Known<J>>;
