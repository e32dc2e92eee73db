//! What a seat of the word's table knows. The code makes no value of these types.

use day_model::Entry;
use std::collections::LinkedList;

/// An entry, tagged with the number of the pass whose call entered it.
pub struct Act {
    pub by: u64,
    pub entry: Entry,
}

/// Whose seat it is: the writer's, a pass's, a copy of one of them, or nobody's any more.
pub enum Role {
    Spent,
    Writer,
    WriterCopy,
    Pass,
    PassCopy,
}

/// What a seat keeps of its last join: the two lists, the two marks, what the other had seen, and of the pass of the
/// two its number, whether it was the pass itself and not a copy, and to which pass an entry was owed before.
pub struct Kept {
    pub own: LinkedList<Act>,
    pub other: LinkedList<Act>,
    pub own_mark: u64,
    pub other_mark: u64,
    pub other_seen: u64,
    pub number: u64,
    pub of_pass: Of,
    pub owed: Option<u64>,
}

/// Which of the two was the pass itself.
pub enum Of {
    Neither,
    Own,
    Other,
}

/// What a seat knows.
///
/// `number` is the pass's, from 1. `base` are the entries that the writer began with, `known` a beginning of those published since.
/// `mark` is a count of the disk's faults, `seen` the word as a pass saw it last. `made` is how many passes a writer has made,
/// `owed` the pass that may not know the last entry yet, which is its own, and `back` the passes that came back.
pub struct View {
    pub role: Role,
    pub number: u64,
    pub base: LinkedList<Entry>,
    pub known: LinkedList<Act>,
    pub mark: u64,
    pub seen: u64,
    pub made: u64,
    pub owed: Option<u64>,
    pub back: LinkedList<u64>,
    pub kept: Kept,
}
