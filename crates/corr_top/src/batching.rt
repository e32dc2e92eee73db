//! Batches of messages: what a worker answers together, and what it makes of them.

ghost use Rattle.std.specs.Prelude.{◌≡◌, ◌+◌, ◌-◌, ◌<◌, ◌≤◌, ◌++◌, ◌*◌, ℕ, [], ◌∷◌, All, IfErr, IfOk, OnOk, drop, get_or, length, map, take, true, vec_capacity};
ghost use Rattle.fin_frame.specs.File.{most_bytes};
ghost use Rattle.fin_frame.specs.Pieces.{IsPlaceIn, at_places};
ghost use Rattle.jrn_book.specs.Batches.{most_batch};
ghost use Rattle.corr_top.specs.inner.Batching.{AreInText, IsBatch, IsShort, StandsBetween, all_made, ask_of, behind, halt_after, halted_by, made_by, made_in, messages_in, stopped_so, why_of};
ghost use Rattle.corr_top.specs.Message.{pays_in};

use crate::desk::{Halt, Served, as_served, halt_of};
use crate::message::{NoPay, reply_for};
use crate::words::MOST_BATCH;
use corr_books::BooksName;
use corr_ids::Mir;
use corr_text::{Memory, Text};
use day_model::{Pay, Reply};
use fin_frame::{Framed, Place};
use jrn_book::{CommitFault, Committed};
use std::alloc::Global;
use std::marker::{Model, PhantomData};

/// The most messages of a batch.
const MOST_MESSAGES: u32 = MOST_BATCH as u32;

/// Messages that a worker answers, in a text of their own: one at least, and all under one sync, or one after another.
#[derive(Drop)]
pub struct Batch<N: BooksName> {
    text: Text,
    places: Vec<Place>,
    /// Whether their entries come under one sync: they are no more than may come so by the name of the books.
    together: bool,
    of: PhantomData<N>,
}

impl<N: BooksName> Model for Batch<N> {
    ghost use Rattle.std.specs.Prelude.{◌≡◌, ◌≤◌, List, length, true, ℕ};
    ghost use Rattle.fin_frame.specs.Pieces.{at_places};
    ghost use Rattle.corr_top.specs.inner.Batching.{AreInText, IsBatch};

    ghost Value = { List (List ℕ) };

    ghost view = { λ batch. at_places batch.text batch.places.items };

    ghost invariant = { λ batch. AreInText batch.text batch.places.items × IsBatch (at_places batch.text batch.places.items)
        × (batch.together ≡ true → length batch.places.items ≤ N.opening.most) };
}

impl<N: BooksName> Batch<N> {
    fn new(text: Text, places: Vec<Place>, together: bool) -> Batch<N>
        requires within { AreInText text places.items }
        requires batch { IsBatch (at_places text places.items) }
        requires together { together ≡ true → length places.items ≤ N.opening.most }
        ensures { result ≡ at_places text places.items }
    {
        Batch {
            text,
            places,
            together,
            of: PhantomData,
        }
    }

    /// How many messages it has.
    pub fn len(&self) -> usize
        ensures count { result ≡ length self.now }
        ensures batch { IsBatch self.now }
    {
        self.places.len()
    }

    /// Whether the entries of its messages come under one sync.
    pub fn is_together(&self) -> bool
        ensures { result ≡ true → length self.now ≤ N.opening.most }
    {
        self.together
    }

    /// One of its messages, by its place among them, from 0.
    pub fn message(&self, at: usize) -> &[u8]
        requires { at < length self.now }
        ensures bytes { result.now ≡ get_or self.now at [] }
        ensures short { length result.now ≤ most_bytes }
    {
        self.places[at].of(self.text.bytes())
    }
}

/// Puts a message behind others in a text.
fn put_message(text: &mut Text, places: &mut Vec<Place>, message: &[u8]) -> Result<(), Memory>
    requires within { AreInText text.old places.old.items }
    requires small { length text.old ≤ most_bytes * length places.old.items }
    requires few { length places.old.items < most_batch }
    requires short { length message.now ≤ most_bytes }
    requires room { length places.old.items < vec_capacity places.old }
    ensures put { OnOk result (at_places text.new places.new.items ≡ at_places text.old places.old.items ++ message.now ∷ []) }
    ensures within { OnOk result (AreInText text.new places.new.items) }
    ensures small { OnOk result (length text.new ≤ most_bytes * length places.new.items) }
    ensures count { OnOk result (length places.new.items ≡ length places.old.items + 1) }
    ensures capacity { vec_capacity places.new ≡ vec_capacity places.old }
{
    let from = text.bytes().len() as u32;
    text.push(message)?;
    places.push_reserved(Place {
        from,
        len: message.len() as u32,
    });
    Ok(())
}

/// Where messages stand in a file: at the first byte of any of them, and up to behind the last of any. There are some.
fn stretch_of(at: &[Place]) -> (u32, usize)
    requires some { 1 ≤ length at.now }
    ensures each { All (StandsBetween result.0 result.1) at.now }
    ensures within { (size : ℕ) → All (IsPlaceIn size) at.now → result.1 ≤ size }
    ensures order { result.0 ≤ result.1 }
{
    let mut begin = at[0].from;
    let mut past = begin as usize;
    for place in at {
        begin = begin.min(place.from);
        past = past.max(place.from as usize + place.len as usize);
    }
    (begin, past)
}

/// Puts places of a file, as those of a text that begins there.
fn put_places(at: &[Place], begin: u32, places: &mut Vec<Place>)
    requires none { places.old.items ≡ [] }
    requires room { length at.now ≤ vec_capacity places.old }
    requires behind { All (λ place. begin ≤ place.from) at.now }
    ensures { map (behind begin) places.new.items ≡ at.now }
{
    for place in at {
        places.push_reserved(Place {
            from: place.from - begin,
            len: place.len,
        });
    }
}

/// The messages at these places of a file's bytes, as a batch, whose entries come under one sync, or not. The bytes between them are
/// copied too, so that one copy does.
pub fn batch_at<N: BooksName>(
    alloc: Global,
    file: &[u8],
    at: &[Place],
    together: bool,
) -> Result<Batch<N>, Memory>
    requires within { All (IsPlaceIn (length file.now)) at.now }
    requires short { All IsShort (at_places file.now at.now) }
    requires batch { IsBatch (at_places file.now at.now) }
    requires together { together ≡ true → length at.now ≤ N.opening.most }
    ensures { IfOk result (λ batch. batch ≡ at_places file.now at.now) }
{
    let (begin, past) = stretch_of(at);
    let text = Text::from_bytes(alloc, &file[begin as usize..past])?;
    let mut places = Vec::with_capacity(alloc, at.len())?;
    put_places(at, begin, &mut places);
    Ok(Batch::new(text, places, together))
}

/// These messages, as a batch, whose entries come under one sync.
fn batch_of<N: BooksName>(alloc: Global, messages: &[Framed<'_>]) -> Result<Batch<N>, Memory>
    requires batch { IsBatch messages.now }
    requires named { length messages.now ≤ N.opening.most }
    ensures { IfOk result (λ batch. batch ≡ messages.now) }
{
    let mut text = Text::from_bytes(alloc, &[])?;
    let mut places = Vec::with_capacity(alloc, messages.len())?;
    for message in messages {
        put_message(&mut text, &mut places, message.bytes())?;
    }
    Ok(Batch::new(text, places, true))
}

/// What became of the messages of a batch.
#[derive(Drop)]
pub enum Made {
    /// Of its one message.
    One(Served),
    /// Of each, in their order.
    Each(Vec<Served>),
    /// None of so many messages was answered: their worker stopped at the first, or had stopped before it.
    None { messages: usize, why: Halt },
}

/// What a message asks for, once its pay was taken out.
#[derive(Clone, Copy)]
pub enum Asked {
    /// A pay with this reference.
    Pay(Mir),
    /// None, and this is its reply.
    Reply(Reply),
}

/// The lists that answering a batch takes.
#[derive(Drop)]
pub struct Lists {
    pub readings: Vec<Result<Pay, NoPay>>,
    pub asks: Vec<Asked>,
    pub pays: Vec<Pay>,
    pub answers: Vec<Result<Committed, CommitFault>>,
    pub made: Vec<Served>,
}

/// Room for so many messages.
pub fn make_lists(alloc: Global, count: usize) -> Result<Lists, Memory>
    ensures readings { IfOk result (λ lists. (lists.readings.items ≡ []) × (count ≤ vec_capacity lists.readings)) }
    ensures asks { IfOk result (λ lists. (lists.asks.items ≡ []) × (count ≤ vec_capacity lists.asks)) }
    ensures pays { IfOk result (λ lists. (lists.pays.items ≡ []) × (count ≤ vec_capacity lists.pays)) }
    ensures answers { IfOk result (λ lists. (lists.answers.items ≡ []) × (count ≤ vec_capacity lists.answers)) }
    ensures made { IfOk result (λ lists. (lists.made.items ≡ []) × (count ≤ vec_capacity lists.made)) }
{
    Ok(Lists {
        readings: Vec::with_capacity(alloc, count)?,
        asks: Vec::with_capacity(alloc, count)?,
        pays: Vec::with_capacity(alloc, count)?,
        answers: Vec::with_capacity(alloc, count)?,
        made: Vec::with_capacity(alloc, count)?,
    })
}

/// The most messages that a batch may have: as many as entries come under one sync, or, where its messages are answered one after another,
/// as many as entries ever may.
pub fn limit_of(together: bool, entries: u32) -> u32
    requires entries { (1 ≤ entries) × (entries ≤ most_batch) }
    ensures some { 1 ≤ result }
    ensures few { result ≤ most_batch }
    ensures together { together ≡ true → result ≡ entries }
{
    if together { entries } else { MOST_MESSAGES }
}

/// The most messages of a batch, of those that it may have: of one worker all (`alone`). Several workers share so many messages, so
/// that each has two batches and more; few messages are dealt one by one. No clause speaks of how they share them.
pub fn share_of(count: usize, workers: u32, most: u32) -> usize
    requires workers { 1 ≤ workers }
    requires most { 1 ≤ most }
    ensures some { 1 ≤ result }
    ensures few { result ≤ most }
    ensures alone { workers ≡ 1 → result ≡ most }
{
    let most = most as usize;
    if workers == 1 {
        return most;
    }
    let workers = workers as usize;
    if count < 16 * workers {
        return 1;
    }
    let share = count / (2 * workers);
    if share < 1 {
        1
    } else if share < most {
        share
    } else {
        most
    }
}

/// How many messages the next batch has, where so many are left.
pub fn next_count(left: usize, share: usize) -> usize
    requires left { 1 ≤ left }
    requires share { 1 ≤ share }
    ensures some { 1 ≤ result }
    ensures within { result ≤ left }
    ensures few { result ≤ share }
{
    if share < left { share } else { left }
}

/// So many messages, behind those that were dealt.
fn next_front<'a>(messages: &'a [Framed<'a>], at: usize, count: usize) -> &'a [Framed<'a>]
    requires within { at + count ≤ length messages.now }
    ensures { result.now ≡ take count (drop at messages.now) }
{
    messages.split_at(at).1.split_at(count).0
}

/// The messages in batches of so many; the last may have fewer.
#[tactic(auto, using(crate::proofs::Batched::dealt, crate::proofs::Batched::all_dealt))]
pub fn share_out<N: BooksName>(
    alloc: Global,
    messages: &[Framed<'_>],
    share: usize,
) -> Result<Vec<Batch<N>>, Memory>
    requires some { 1 ≤ share }
    requires few { (share ≤ most_batch) × (share ≤ N.opening.most) }
    ensures { IfOk result (λ batches. messages_in batches.items ≡ messages.now) }
{
    let mut batches = Vec::new(alloc);
    let mut at = 0;
    while at < messages.len() {
        let count = next_count(messages.len() - at, share);
        let front = next_front(messages, at, count);
        batches.push(batch_of(alloc, front)?)?;
        at += count;
    }
    Ok(batches)
}

/// Parts what messages ask for from their pays, each in their order.
pub fn part(readings: Vec<Result<Pay, NoPay>>, asks: &mut Vec<Asked>, pays: &mut Vec<Pay>)
    requires none { (asks.old.items ≡ []) × (pays.old.items ≡ []) }
    requires room { (length readings.items ≤ vec_capacity asks.old) × (length readings.items ≤ vec_capacity pays.old) }
    ensures asks { asks.new.items ≡ map ask_of readings.items }
    ensures pays { pays.new.items ≡ pays_in readings.items }
{
    for reading in readings {
        match reading {
            Ok(pay) => {
                asks.push_reserved(Asked::Pay(pay.mir));
                pays.push_reserved(pay);
            }
            Err(why) => asks.push_reserved(Asked::Reply(reply_for(why))),
        }
    }
}

/// Puts what became of messages, by what they ask for and the answers to their pays, up to the first that stops their worker; and
/// answers why that did.
pub fn put_made(
    asks: Vec<Asked>,
    answers: &[Result<Committed, CommitFault>],
    made: &mut Vec<Served>,
) -> Option<Halt>
    requires none { made.old.items ≡ [] }
    requires room { length asks.items ≤ vec_capacity made.old }
    ensures made { made.new.items ≡ made_by asks.items answers.now }
    ensures halted { result ≡ halted_by asks.items answers.now }
    ensures capacity { vec_capacity made.new ≡ vec_capacity made.old }
{
    let mut left = answers;
    for ask in asks {
        match ask {
            Asked::Reply(reply) => made.push_reserved(Served::Reply(reply)),
            Asked::Pay(mir) => {
                let [answer, more @ ..] = left else {
                    return Some(Halt::Memory);
                };
                left = more;
                let one = as_served(mir, *answer);
                let halted = halt_of(&one);
                made.push_reserved(one);
                if halted.is_some() {
                    return halted;
                }
            }
        }
    }
    None
}

/// Puts so many times that a worker stopped.
pub fn put_stopped(made: &mut Vec<Served>, count: usize, why: Halt)
    requires room { length made.old.items + count ≤ vec_capacity made.old }
    ensures each { made.new.items ≡ made.old.items ++ stopped_so count why }
    ensures capacity { vec_capacity made.new ≡ vec_capacity made.old }
{
    for _at in 0..count {
        made.push_reserved(Served::Stopped(why));
    }
}

/// Puts of each message that is left of so many that its worker stopped: for this reason, or, where there is none, for want of
/// memory. Answers why it serves no more, if it doesn't.
pub fn put_left(made: &mut Vec<Served>, count: usize, halted: Option<Halt>) -> Option<Halt>
    requires within { length made.old.items ≤ count }
    requires room { count ≤ vec_capacity made.old }
    ensures made { made.new.items ≡ made.old.items ++ stopped_so (count - length made.old.items) (why_of halted) }
    ensures halted { result ≡ halt_after (count - length made.old.items) halted }
{
    let left = count - made.len();
    if left == 0 {
        return halted;
    }
    let why = match halted {
        Some(why) => why,
        None => Halt::Memory,
    };
    put_stopped(made, left, why);
    Some(why)
}

// Puts what became of each message.
fn put_list(each: Vec<Served>, served: &mut Vec<Served>)
    requires room { length served.old.items + length each.items ≤ vec_capacity served.old }
    ensures each { served.new.items ≡ served.old.items ++ each.items }
    ensures capacity { vec_capacity served.new ≡ vec_capacity served.old }
{
    for one in each {
        served.push_reserved(one);
    }
}

/// Puts what became of each message of batches, in their order.
pub fn put_all(replies: Vec<Made>, served: &mut Vec<Served>)
    requires none { served.old.items ≡ [] }
    requires room { length (all_made replies.items) ≤ vec_capacity served.old }
    ensures { served.new.items ≡ all_made replies.items }
{
    for made in replies {
        match made {
            Made::One(one) => served.push_reserved(one),
            Made::Each(each) => put_list(each, served),
            Made::None { messages, why } => put_stopped(served, messages, why),
        }
    }
}

// Puts what became of the messages of a batch behind what became of others.
fn put_one(made: Made, served: &mut Vec<Served>) -> Result<(), Memory>
    ensures { OnOk result (served.new.items ≡ served.old.items ++ made_in made) }
{
    match made {
        Made::One(one) => served.push(one)?,
        Made::Each(each) => {
            served.reserve(each.len())?;
            put_list(each, served);
        }
        Made::None { messages, why } => {
            served.reserve(messages)?;
            put_stopped(served, messages, why);
        }
    }
    Ok(())
}

/// What became of each message of batches that a feed gave, in their order.
pub fn join_made(alloc: Global, replies: Result<Vec<Made>, Memory>) -> Result<Vec<Served>, Memory>
    ensures made { IfOk replies (λ made. IfOk result (λ served. served.items ≡ all_made made.items)) }
    ensures ok { IfOk result (λ _. IfErr replies (λ _. ⊥)) }
{
    let mut served = Vec::new(alloc);
    for made in replies? {
        put_one(made, &mut served)?;
    }
    Ok(served)
}
