//! The report of a run, of what was made of its messages.

ghost use Rattle.std.specs.Prelude.{◌≡◌, ◌≤◌, ◌+◌, All, List, IfOk, length};
ghost use Rattle.std.specs.Thread.{IsSync};
ghost use Rattle.corr_report.specs.Report.{NamesPlace, report_of};
ghost use Rattle.day_model.specs.Legal.{IsLegal};
ghost use Rattle.corr_top.specs.MessageFile.{most_messages};
ghost use Rattle.corr_top.specs.inner.Serving.{are_replies};
ghost use Rattle.corr_top.specs.inner.Sides.{AreLinesOf, HaveReplies};
ghost use Rattle.corr_top.specs.declared.desk.Served.TheVariants.{Reply as HasReply};
ghost use Rattle.day_model.specs.declared.reply.Reply.{Reply as TheReply};

use crate::desk::Served;
use crate::sides::{FEW, joined, part_of};
use corr_report::{put_reply_line, put_report_end};
use corr_text::{Decimal, Memory, Text};
use day_model::{Accounts, History, Reply};
use std::alloc::Global;
use std::thread::{Threads, join};

/// The reply of a message that has one.
fn reply_in(served: &Served) -> &Reply
    requires { (reply : TheReply) × (served.now ≡ HasReply reply) }
    ensures { served.now ≡ HasReply result.now }
{
    match served {
        Served::Reply(reply) => reply,
        _ => unreachable!(),
    }
}

/// The lines of replies, where they stand among what was served, in the memory of `room`. The first has the number `first`.
fn reply_lines(
    alloc: Global,
    a: &Accounts,
    h: &History,
    served: &[Served],
    first: u32,
    room: Text,
) -> Result<Text, Memory>
    requires legal { IsLegal a.now h.now.entries }
    requires served { HaveReplies h.now.entries served.now }
    ensures { IfOk result (AreLinesOf a.now h.now.entries served.now first) }
{
    let mut lines = room;
    lines.truncate(0);
    let mut digits = Decimal::new();
    for (at, one) in served.iter().enumerate() {
        let reply = reply_in(one);
        let number = first as u64 + at as u64;
        put_reply_line(alloc, a, h, number, reply, &mut digits, &mut lines)?;
    }
    Ok(lines)
}

/// What `reply_lines` makes, by up to so many threads at once, each of which makes the lines of a range of replies.
#[cycle(sides)]
fn reply_lines_by<R: Threads + Sync>(
    rt: &R,
    alloc: Global,
    a: &Accounts,
    h: &History,
    served: &[Served],
    first: u32,
    threads: u32,
    room: Text,
) -> Result<Text, Memory>
    requires legal { IsLegal a.now h.now.entries }
    requires served { HaveReplies h.now.entries served.now }
    requires few { first + length served.now ≤ most_messages + 1 }
    ensures { IfOk result (AreLinesOf a.now h.now.entries served.now first) }
{
    let count = served.len() as u32;
    if threads < 2 || count < FEW {
        return reply_lines(alloc, a, h, served, first, room);
    }
    let some = threads / 2;
    let others = threads - some;
    let part = part_of(count, some, threads);
    let next = first + part;
    let (ahead, after) = served.split_at(part as usize);
    let more = Text::from_bytes(alloc, b"")?;
    let front = move || -> Result<Text, Memory>
        requires { IsSync R.row × IsLegal a.now h.now.entries × HaveReplies h.now.entries ahead.now × (first + length ahead.now ≤ most_messages + 1) }
        ensures { IfOk result (AreLinesOf a.entry.now h.entry.now.entries ahead.entry.now first) }
    { reply_lines_by(rt, alloc, a, h, ahead, first, some, room) };
    let back = move || -> Result<Text, Memory>
        requires { IsSync R.row × IsLegal a.now h.now.entries × HaveReplies h.now.entries after.now × (next + length after.now ≤ most_messages + 1) }
        ensures { IfOk result (AreLinesOf a.entry.now h.entry.now.entries after.entry.now next) }
    { reply_lines_by(rt, alloc, a, h, after, next, others, more) };
    let (front, back) = join(rt, front, back);
    joined(front?, back?)
}

/// The report of replies, where they stand among what was served, in the memory of `room`, by up to so many threads at once.
pub fn report_served<R: Threads + Sync>(
    rt: &R,
    alloc: Global,
    a: &Accounts,
    h: &History,
    served: &[Served],
    threads: u32,
    room: Text,
) -> Result<Text, Memory>
    requires legal { IsLegal a.now h.now.entries }
    requires served { (replies : List TheReply) × (served.now ≡ are_replies replies) × All (NamesPlace h.now.entries) replies }
    requires few { length served.now ≤ most_messages }
    ensures { IfOk result (λ text. (replies : List TheReply) → served.now ≡ are_replies replies → text ≡ report_of a.now h.now.entries replies) }
{
    let mut report = reply_lines_by(rt, alloc, a, h, served, 1, threads, room)?;
    put_report_end(alloc, a, h, served.len() as u64, &mut report)?;
    Ok(report)
}
