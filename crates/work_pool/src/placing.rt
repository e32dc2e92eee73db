//! Replies are put in the order of the feed.

ghost use Rattle.std.specs.Prelude.{◌≡◌, ℕ, ◌-◌, ◌<◌, ◌≤◌, List, [], Some, Ok, IfOk, length, map, slice_get, vec_len, vec_capacity};
ghost use Rattle.work_pool.specs.Fed.{AreApart, AreReplies, AreWhole, AreWithin};
ghost use Rattle.work_pool.specs.inner.Placing.{AreDistinct, ArePlaced, AreSlots, KeepsOthers, lists_of};

use crate::server::{Answer, Work};
use corr_text::Memory;
use std::alloc::Global;
use std::mem;

// Puts each reply where its number says.
fn place<R: Drop>(slots: &mut Vec<Option<R>>, answers: Vec<Answer<R>>)
    requires within { AreSlots (vec_len slots.old) answers.items }
    requires apart { AreDistinct answers.items }
    ensures placed { ArePlaced answers.items slots.new.items }
    ensures others { KeepsOthers answers.items slots.old.items slots.new.items }
{
    for answer in answers {
        slots[answer.number - 1] = Some(answer.reply);
    }
}

// So many slots with nothing in them.
fn empty_slots<R: Drop>(alloc: Global, count: usize) -> Result<Vec<Option<R>>, Memory>
    ensures { IfOk result (λ slots. vec_len slots ≡ count) }
{
    let mut slots = Vec::with_capacity(alloc, count)?;
    for _ in 0..count {
        slots.push_reserved(None);
    }
    Ok(slots)
}

// The replies in all slots.
fn take_all<R: Drop>(slots: Vec<Option<R>>, replies: &mut Vec<R>)
    requires full { (m : ℕ) → m < vec_len slots → (reply : R) × (slice_get slots.items m ≡ Some (Some reply)) }
    requires empty { replies.old.items ≡ [] }
    requires room { vec_len slots ≤ vec_capacity replies.old }
    ensures { map (λ reply. Some reply) replies.new.items ≡ slots.items }
{
    for slot in slots {
        let Some(reply) = slot else { unreachable!() };
        replies.push_reserved(reply);
    }
}

// Takes the replies of all works, and puts each where its number says.
fn place_all<P: Drop, R: Drop>(alloc: Global, works: &mut [Work<P, R>], slots: &mut Vec<Option<R>>)
    requires within { AreWithin (lists_of works.old) (vec_len slots.old) }
    requires apart { AreApart (lists_of works.old) }
    ensures placed { (k : ℕ) (list : List _) → slice_get (lists_of works.old) k ≡ Some list → ArePlaced list slots.new.items }
    ensures count { vec_len slots.new ≡ vec_len slots.old }
    ensures passes { map (λ work. work.pass) works.new ≡ map (λ work. work.pass) works.old }
{
    for k in 0..works.len() {
        let answers = mem::replace(&mut works[k].answers, Vec::new(alloc));
        place(slots, answers);
    }
}

/// Where the jobs were counted, takes the replies of all works, in the order of their numbers. Each job was answered once.
pub fn collect_answers<P: Drop, R: Drop>(
    alloc: Global,
    works: &mut [Work<P, R>],
    counted: Result<usize, Memory>,
) -> Result<Vec<R>, Memory>
    requires within { IfOk counted (λ count. AreWithin (lists_of works.old) count) }
    requires apart { AreApart (lists_of works.old) }
    requires whole { IfOk counted (λ count. AreWhole (lists_of works.old) count) }
    ensures count { IfOk result (λ replies. counted ≡ Ok (vec_len replies)) }
    ensures replies { IfOk result (λ replies. AreReplies (lists_of works.old) replies.items) }
    ensures passes { map (λ work. work.pass) works.new ≡ map (λ work. work.pass) works.old }
{
    let count = counted?;
    let mut slots = empty_slots(alloc, count)?;
    let mut replies = Vec::with_capacity(alloc, count)?;
    place_all(alloc, works, &mut slots);
    take_all(slots, &mut replies);
    Ok(replies)
}
