//! The messages that leave, as one text.

ghost use Rattle.std.specs.Prelude.{◌≡◌, ◌≤◌, ◌++◌, All, IfOk, OnOk, codes, take};
ghost use Rattle.std.specs.Int.{IsInRange};
ghost use Rattle.std.specs.Thread.{IsSync};
ghost use Rattle.day_model.specs.Log.{most_entries};
ghost use Rattle.advices.specs.Messages.{messages_of};
ghost use Rattle.advices.specs.Valid.{AreAccepted};
ghost use Rattle.corr_ids.specs.Bic.{IsBic};
ghost use Rattle.corr_top.specs.inner.Serving.{HasPayShape};
ghost use Rattle.corr_top.specs.inner.Origin.{SendsAccepted};
ghost use Rattle.corr_top.specs.inner.Sides.{IsSendable, IsSentOf};
ghost use Rattle.corr_top.specs.Out.{parted_all, sent_from, entry_out};
ghost use Rattle.day_model.specs.Fit.{FitsAccounts};
ghost use Rattle.day_model.specs.Legal.{IsLegal};
ghost use Rattle.day_model.specs.Shape.{HasShape};

use crate::sides::{FEW, joined, part_of};
use advices::orders;
use corr_text::{Memory, Text};
use day_model::{Accounts, Entry, History};
use std::alloc::Global;
use std::thread::{Threads, join};

/// Appends a message, followed by `$`.
fn push_message(message: &Text, out: &mut Text) -> Result<(), Memory>
    ensures { OnOk result (out.new ≡ out.old ++ (message.now ++ codes "$")) }
{
    out.push(message.bytes())?;
    out.push(b"$")
}

/// Appends messages, each followed by `$`.
pub fn push_parted(messages: &[Text], out: &mut Text) -> Result<(), Memory>
    ensures { OnOk result (out.new ≡ out.old ++ parted_all messages.now) }
{
    for message in messages {
        push_message(message, out)?;
    }
    Ok(())
}

/// Messages, each followed by `$`.
pub fn parted(alloc: Global, messages: &[Text]) -> Result<Text, Memory>
    ensures { IfOk result (λ text. text ≡ parted_all messages.now) }
{
    let mut out = Text::from_bytes(alloc, b"")?;
    push_parted(messages, &mut out)?;
    Ok(out)
}

/// Appends the outgoing messages of the entry at a place, each followed by `$`.
fn push_orders(
    alloc: Global,
    a: &Accounts,
    place: u32,
    entry: &Entry,
    out: &mut Text,
) -> Result<(), Memory>
    requires home { IsBic a.now.home }
    requires fits { FitsAccounts a.now entry.now.pay }
    requires shape { HasShape entry.now.pay }
    requires place { IsInRange 1 most_entries place }
    ensures added { OnOk result (out.new ≡ out.old ++ entry_out a.now place entry.now) }
    ensures accepted { OnOk result (AreAccepted a.now entry.now.pay (messages_of a.now entry.now place)) }
{
    let messages = orders(alloc, a, entry, place)?;
    push_parted(messages.as_slice(), out)
}

/// The outgoing messages of the entries of a history from one place to another, as far as there are any, in their order, each
/// followed by `$`. Each is accepted under the tables under which its pay came from a message.
pub fn outgoing(
    alloc: Global,
    a: &Accounts,
    h: &History,
    from: u32,
    until: u32,
) -> Result<Text, Memory>
    requires home { IsBic a.now.home }
    requires legal { IsLegal a.now h.now.entries }
    requires shapes { All HasPayShape h.now.entries }
    requires from { 1 ≤ from }
    ensures text { IfOk result (λ text. text ≡ sent_from a.now from (take until h.now.entries)) }
    ensures accepted { OnOk result (SendsAccepted a.now from (take until h.now.entries)) }
{
    let mut out = Text::from_bytes(alloc, b"")?;
    for place in from..until.min(h.len()) + 1 {
        push_orders(alloc, a, place, h.get(place), &mut out)?;
    }
    Ok(out)
}

/// What `outgoing` makes, by up to so many threads at once, each of which makes the messages of a range of places.
#[cycle(sides)]
pub fn outgoing_by<R: Threads + Sync>(
    rt: &R,
    alloc: Global,
    a: &Accounts,
    h: &History,
    from: u32,
    until: u32,
    threads: u32,
) -> Result<Text, Memory>
    requires sendable { IsSendable a.now h.now.entries }
    requires from { 1 ≤ from }
    ensures { IfOk result (IsSentOf a.now h.now.entries from until) }
{
    if threads < 2 || until < from || until - from < FEW {
        return outgoing(alloc, a, h, from, until);
    }
    let some = threads / 2;
    let others = threads - some;
    let next = from + part_of(until - from, some, threads);
    let last = next - 1;
    let front = move || -> Result<Text, Memory>
        requires { IsSync R.row × IsSendable a.now h.now.entries × (1 ≤ from) }
        ensures { IfOk result (IsSentOf a.entry.now h.entry.now.entries from last) }
    { outgoing_by(rt, alloc, a, h, from, last, some) };
    let back = move || -> Result<Text, Memory>
        requires { IsSync R.row × IsSendable a.now h.now.entries × (1 ≤ next) }
        ensures { IfOk result (IsSentOf a.entry.now h.entry.now.entries next until) }
    { outgoing_by(rt, alloc, a, h, next, until, others) };
    let (front, back) = join(rt, front, back);
    joined(front?, back?)
}
