//! A worker that serves jobs from the line.

ghost use Rattle.std.specs.Prelude.{◌≡◌, ◌<◌, false, IfOk};
ghost use Rattle.crossbeam_queue.specs.Fifo.{Held};
ghost use Rattle.crossbeam_queue.specs.Passes.{view};
ghost use Rattle.work_pool.specs.inner.Line.{Tells};
ghost use Rattle.work_pool.specs.inner.Serving.{Goes, PutsNone, IsReady};

use crate::desk::Desk;
use crate::gate::Gate;
use crate::line::{Line, Numbered, Takes, Token};
use corr_text::Memory;
use std::sync::atomic::AtomicBool;
use std::sync::atomic::Ordering::SeqCst;
use std::sync::{Wait, WaitMethods};
use std::thread::yield_now;

/// A reply, and the number of its job in the order of the feed, from 1.
#[derive(Drop)]
pub struct Answer<R> {
    pub number: usize,
    pub reply: R,
}

/// A pass, and the replies of its serves, in their order.
#[derive(Drop)]
pub struct Work<P, R> {
    pub pass: P,
    pub answers: Vec<Answer<R>>,
}

/// A worker: its number (from 1), its token of the line, and its work.
#[derive(Drop)]
pub struct Server<P, J, R> {
    pub worker: u32,
    pub token: Token<J>,
    pub work: Work<P, R>,
}

/// Takes a job from the line and serves it. Says whether there was one. `Memory` comes before a job is taken.
pub fn serve_next<K: Desk, R: Wait, G: Gate>(
    rt: &R,
    desk: &K,
    gate: &G,
    line: &Line<K::Job>,
    server: &mut Server<K::Pass, K::Job, K::Reply>,
) -> Result<bool, Memory>
    requires ready { IsReady (K.takes desk.now) line.now server.old }
    ensures ready { IsReady (K.takes desk.now) line.now server.new }
    ensures goes { Goes (K.serves desk.now) server.old server.new }
    ensures given { PutsNone server.old server.new }
    ensures empty { IfOk result (λ more. more ≡ false → Held 0 (Tells (view server.new.token))) }
{
    server.work.answers.reserve(1)?;
    let Some(Numbered { number, job }) = line.pop_as::<Takes, R>(rt, &mut server.token) else {
        return Ok(false);
    };
    let reply = desk.serve(rt, &mut server.work.pass, server.worker, &job, gate);
    server.work.answers.push_reserved(Answer { number, reply });
    Ok(true)
}

/// Serves jobs from the line until it is empty.
pub fn serve_line<K: Desk, R: Wait, G: Gate>(
    rt: &R,
    desk: &K,
    gate: &G,
    line: &Line<K::Job>,
    server: &mut Server<K::Pass, K::Job, K::Reply>,
) -> Result<(), Memory>
    requires ready { IsReady (K.takes desk.now) line.now server.old }
    ensures ready { IsReady (K.takes desk.now) line.now server.new }
    ensures goes { Goes (K.serves desk.now) server.old server.new }
    ensures given { PutsNone server.old server.new }
    ensures empty { IfOk result (λ _. Held 0 (Tells (view server.new.token))) }
{
    for _ in rt.forever() {
        if !serve_next(rt, desk, gate, line, server)? {
            return Ok(());
        }
    }
    unreachable!()
}

/// Serves jobs from the line until the pool is closed and the line empty. A worker with no room for a reply stops sooner.
pub fn serve_until_closed<K: Desk, R: Wait, G: Gate>(
    rt: &R,
    desk: &K,
    gate: &G,
    line: &Line<K::Job>,
    closed: &AtomicBool,
    server: &mut Server<K::Pass, K::Job, K::Reply>,
)
    requires ready { IsReady (K.takes desk.now) line.now server.old }
    ensures ready { IsReady (K.takes desk.now) line.now server.new }
    ensures goes { Goes (K.serves desk.now) server.old server.new }
{
    for _ in rt.forever() {
        // looked at first: what was in the line when the pool was closed is served
        let over = closed.load(SeqCst);
        let served = serve_line(rt, desk, gate, line, server);
        if over || served.is_err() {
            return;
        }
        yield_now();
    }
    unreachable!()
}
