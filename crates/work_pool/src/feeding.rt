//! The worker that reads the feed.

ghost use Rattle.std.specs.Prelude.{◌≡◌, ◌+◌, true, [], ◌∷◌, ◌++◌, length, Ok, IfOk, OnErr};
ghost use Rattle.crossbeam_queue.specs.Fifo.{Held};
ghost use Rattle.crossbeam_queue.specs.Passes.{view};
ghost use Rattle.work_pool.specs.inner.Line.{Tells};
ghost use Rattle.work_pool.specs.inner.Serving.{Goes, HasFed, PutsNone, PutsOne, IsReady};

use crate::desk::Desk;
use crate::feed::Feed;
use crate::gate::Gate;
use crate::line::{Line, Numbered, Puts};
use crate::server::{Server, serve_line, serve_next};
use corr_text::Memory;
use std::sync::atomic::AtomicBool;
use std::sync::atomic::Ordering::SeqCst;
use std::sync::{Wait, WaitMethods};

// Puts a job into the line. While the line is full, takes one from it and serves it.
fn put<K: Desk, R: Wait, G: Gate>(
    rt: &R,
    desk: &K,
    gate: &G,
    line: &Line<K::Job>,
    server: &mut Server<K::Pass, K::Job, K::Reply>,
    item: Numbered<K::Job>,
) -> Result<(), Memory>
    requires ready { IsReady (K.takes desk.now) line.now server.old }
    requires feeds { (view server.old.token).feeds ≡ true }
    requires number { item.number ≡ length (view server.old.token).given + 1 }
    ensures ready { IsReady (K.takes desk.now) line.now server.new }
    ensures goes { Goes (K.serves desk.now) server.old server.new }
    ensures given { IfOk result (λ _. PutsOne item.job server.old server.new) }
    ensures err { OnErr result (PutsNone server.old server.new) }
{
    let mut next = item;
    for _ in rt.forever() {
        match line.push_as::<Puts, R>(rt, &mut server.token, next) {
            Ok(()) => return Ok(()),
            Err(back) => next = back,
        }
        serve_next(rt, desk, gate, line, server)?;
    }
    unreachable!()
}

// Puts all jobs of the feed into the line, with numbers from 1, and says how many there were.
fn put_all<K: Desk, F: Feed<Job = K::Job>, R: Wait, G: Gate>(
    rt: &R,
    desk: &K,
    gate: &G,
    line: &Line<K::Job>,
    server: &mut Server<K::Pass, K::Job, K::Reply>,
    feed: &mut F,
) -> Result<usize, Memory>
    requires ready { IsReady (K.takes desk.now) line.now server.old }
    requires feeds { (view server.old.token).feeds ≡ true }
    requires none { (view server.old.token).given ≡ [] }
    ensures ready { IsReady (K.takes desk.now) line.now server.new }
    ensures goes { Goes (K.serves desk.now) server.old server.new }
    ensures fed { HasFed (F.given feed.old) (F.given feed.new) (F.ended feed.new) (view server.new.token).given result }
{
    let mut count = 0usize;
    for _ in rt.forever() {
        let Some(number) = count.checked_add(1) else {
            return Err(Memory);
        };
        let Some(job) = feed.next() else {
            return Ok(count);
        };
        put(rt, desk, gate, line, server, Numbered { number, job })?;
        count = number;
    }
    unreachable!()
}

/// Where the jobs were counted, serves what is left in the line. The answer is the count.
pub fn empty_line<K: Desk, R: Wait, G: Gate>(
    rt: &R,
    desk: &K,
    gate: &G,
    line: &Line<K::Job>,
    server: &mut Server<K::Pass, K::Job, K::Reply>,
    counted: Result<usize, Memory>,
) -> Result<usize, Memory>
    requires ready { IsReady (K.takes desk.now) line.now server.old }
    ensures ready { IsReady (K.takes desk.now) line.now server.new }
    ensures goes { Goes (K.serves desk.now) server.old server.new }
    ensures given { PutsNone server.old server.new }
    ensures same { IfOk result (λ count. counted ≡ Ok count) }
    ensures empty { IfOk result (λ _. Held 0 (Tells (view server.new.token))) }
{
    let count = counted?;
    serve_line(rt, desk, gate, line, server)?;
    Ok(count)
}

/// Puts all jobs of the feed into the line, closes the pool, and helps to empty the line. Says how many jobs there were.
pub fn lead<K: Desk, F: Feed<Job = K::Job>, R: Wait, G: Gate>(
    rt: &R,
    desk: &K,
    gate: &G,
    line: &Line<K::Job>,
    closed: &AtomicBool,
    server: &mut Server<K::Pass, K::Job, K::Reply>,
    feed: &mut F,
) -> Result<usize, Memory>
    requires ready { IsReady (K.takes desk.now) line.now server.old }
    requires feeds { (view server.old.token).feeds ≡ true }
    requires none { (view server.old.token).given ≡ [] }
    ensures ready { IsReady (K.takes desk.now) line.now server.new }
    ensures goes { Goes (K.serves desk.now) server.old server.new }
    ensures fed { HasFed (F.given feed.old) (F.given feed.new) (F.ended feed.new) (view server.new.token).given result }
{
    let fed = put_all(rt, desk, gate, line, server, feed);
    closed.store(true, SeqCst);
    empty_line(rt, desk, gate, line, server, fed)
}
