//! Runs workers over the jobs of a feed.

ghost use Rattle.std.specs.Prelude.{◌≡◌, ◌+◌, ◌<◌, ◌≤◌, true, List, [], ◌++◌, IfOk, map, length, vec_len, vec_capacity};
ghost use Rattle.crossbeam_queue.specs.Passes.{view};
ghost use Rattle.work_pool.specs.inner.Ending.{HasEnded};
ghost use Rattle.work_pool.specs.Fed.{AreFed, most_depth};
ghost use Rattle.work_pool.specs.inner.Seating.{AllGo, AreHelping, AreReady};
ghost use Rattle.work_pool.specs.Served.{AllTaken, most_workers};
ghost use Rattle.work_pool.specs.inner.Serving.{Goes, HasFed, IsReady};

use crate::desk::Desk;
use crate::feed::Feed;
use crate::feeding::{empty_line, lead};
use crate::gate::Gate;
use crate::line::{Line, Takes};
use crate::placing::collect_answers;
use crate::seating::{Hall, in_order, make_hall, passes_back, seat_at_line, take_back};
use crate::server::{Server, Work, serve_until_closed};
use crate::streamed::Streamed;
use corr_text::Memory;
use std::alloc::Global;
use std::sync::Wait;
use std::sync::atomic::AtomicBool;
use std::thread;
use std::thread::Threads;

// The most workers that run at once.
const MOST_WORKERS: usize = 16;

// Each helper serves from the line until the pool is closed, in a thread of its own where one can be made.
fn help<K: Desk + Sync, G: Gate + Sync, R: Wait + Threads + Sync>(
    rt: &R,
    desk: &K,
    gate: &G,
    line: &Line<K::Job>,
    closed: &AtomicBool,
    mut helpers: Vec<Server<K::Pass, K::Job, K::Reply>>,
) -> Vec<Server<K::Pass, K::Job, K::Reply>>
    requires { AreReady line.now (K.takes desk.now) helpers.items }
    ensures ready { AreReady line.now (K.takes desk.now) result.items }
    ensures goes { AllGo (K.serves desk.now) helpers.items result.items }
{
    let one = move |_: usize, server: &mut Server<K::Pass, K::Job, K::Reply>|
        requires { IsReady (K.takes desk.now) line.now server.now }
        ensures ready { IsReady (K.takes desk.entry.now) line.entry.now server.exit.now }
        ensures goes { Goes (K.serves desk.entry.now) server.entry.now server.exit.now }
    { serve_until_closed(rt, desk, gate, line, closed, server) };
    thread::for_each_mut(rt, helpers.as_mut_slice(), MOST_WORKERS, &one);
    helpers
}

// As `lead`, by value.
fn lead_on<K: Desk, F: Feed<Job = K::Job>, G: Gate, R: Wait>(
    rt: &R,
    desk: &K,
    gate: &G,
    line: &Line<K::Job>,
    closed: &AtomicBool,
    mut first: Server<K::Pass, K::Job, K::Reply>,
    mut feed: F,
) -> (Server<K::Pass, K::Job, K::Reply>, F, Result<usize, Memory>)
    requires ready { IsReady (K.takes desk.now) line.now first }
    requires feeds { (view first.token).feeds ≡ true }
    requires none { (view first.token).given ≡ [] }
    ensures ready { IsReady (K.takes desk.now) line.now result.0 }
    ensures goes { Goes (K.serves desk.now) first result.0 }
    ensures fed { HasFed (F.given feed) (F.given result.1) (F.ended result.1) (view result.0.token).given result.2 }
{
    let count = lead(rt, desk, gate, line, closed, &mut first, &mut feed);
    (first, feed, count)
}

// The first worker leads, in this thread, and the helpers help. It begins at once, so all ends also where no thread is made.
fn serve_feed<
    K: Desk + Sync,
    F: Feed<Job = K::Job> + Drop,
    G: Gate + Sync,
    R: Wait + Threads + Sync,
>(
    rt: &R,
    desk: &K,
    gate: &G,
    line: &Line<K::Job>,
    first: Server<K::Pass, K::Job, K::Reply>,
    helpers: Vec<Server<K::Pass, K::Job, K::Reply>>,
    feed: F,
) -> (
    Vec<Server<K::Pass, K::Job, K::Reply>>,
    (Server<K::Pass, K::Job, K::Reply>, F, Result<usize, Memory>),
)
    requires ready { IsReady (K.takes desk.now) line.now first }
    requires feeds { (view first.token).feeds ≡ true }
    requires none { (view first.token).given ≡ [] }
    requires helpers { AreReady line.now (K.takes desk.now) helpers.items }
    ensures helpers { AreReady line.now (K.takes desk.now) result.0.items }
    ensures help { AllGo (K.serves desk.now) helpers.items result.0.items }
    ensures ready { IsReady (K.takes desk.now) line.now result.1.0 }
    ensures goes { Goes (K.serves desk.now) first result.1.0 }
    ensures fed { HasFed (F.given feed) (F.given result.1.1) (F.ended result.1.1) (view result.1.0.token).given result.1.2 }
{
    let flag = AtomicBool::new(false);
    let closed = &flag;
    thread::join(
        rt,
        move || -> Vec<Server<K::Pass, K::Job, K::Reply>>
            requires { AreReady line.now (K.takes desk.now) helpers.items }
            ensures ready { AreReady line.entry.now (K.takes desk.entry.now) result.items }
            ensures goes { AllGo (K.serves desk.entry.now) helpers.items result.items }
        { help(rt, desk, gate, line, closed, helpers) },
        move || -> (Server<K::Pass, K::Job, K::Reply>, F, Result<usize, Memory>)
            requires ready { IsReady (K.takes desk.now) line.now first }
            requires feeds { (view first.token).feeds ≡ true }
            requires none { (view first.token).given ≡ [] }
            ensures ready { IsReady (K.takes desk.entry.now) line.entry.now result.0 }
            ensures goes { Goes (K.serves desk.entry.now) first result.0 }
            ensures fed { HasFed (F.given feed) (F.given result.1) (F.ended result.1) (view result.0.token).given result.2 }
        { lead_on(rt, desk, gate, line, closed, first, feed) },
    )
}

// The helpers' tokens come back to the leader's, which then knows all: that nothing is left once the line is empty.
fn finish<K: Desk, G: Gate, R: Wait>(
    rt: &R,
    desk: &K,
    gate: &G,
    line: &Line<K::Job>,
    first: &mut Server<K::Pass, K::Job, K::Reply>,
    helpers: Vec<Server<K::Pass, K::Job, K::Reply>>,
    rest: &mut Vec<Work<K::Pass, K::Reply>>,
    fed: Result<usize, Memory>,
) -> Result<usize, Memory>
    requires ready { IsReady (K.takes desk.now) line.now first.old }
    requires feeds { (view first.old.token).feeds ≡ true }
    requires parts { (view first.old.token).parts + length helpers.items ≡ most_workers }
    requires helpers { AreHelping line.now helpers.items }
    requires empty { rest.old.items ≡ [] }
    requires room { vec_len helpers ≤ vec_capacity rest.old }
    ensures ready { IsReady (K.takes desk.now) line.now first.new }
    ensures ended { HasEnded (K.serves desk.now) helpers.items first.old first.new fed result }
    ensures works { rest.new.items ≡ map (λ server. server.work) helpers.items }
{
    take_back(line, &mut first.token, helpers, rest);
    let served = empty_line(rt, desk, gate, line, first, fed);
    line.learn_as::<Takes>(&mut first.token);
    served
}

/// Serves each job that the feed gives, in a line of this depth. The first pass's worker, in this thread, reads the feed, and
/// where the line is full, or the feed has ended, serves; each other pass has a worker that serves, in a thread of its own where
/// one can be made. Returns once the feed has ended and all jobs were served.
///
/// There are 1 to 16 passes, all of which the desk takes, before and after, and the depth is 1 to 1,024. After `Memory` jobs may
/// have been served, and the feed may not have ended.
pub fn run_feed<
    K: Desk + Sync,
    F: Feed<Job = K::Job> + Drop,
    G: Gate + Sync,
    R: Wait + Threads + Sync,
>(
    rt: &R,
    alloc: Global,
    desk: &K,
    passes: Vec<K::Pass>,
    feed: F,
    depth: u32,
    gate: &G,
) -> Streamed<K, F>
    requires passes { (1 ≤ vec_len passes) × (vec_len passes ≤ most_workers) }
    requires taken { AllTaken (K.takes desk.now) passes.items }
    requires depth { (1 ≤ depth) × (depth ≤ most_depth) }
    ensures fed { (jobs : List K.Job) × (F.given result.feed ≡ F.given feed ++ jobs) × AreFed (K.serves desk.now) passes.items jobs (F.ended result.feed) result.passes.items result.replies }
    ensures taken { AllTaken (K.takes desk.now) result.passes.items }
{
    let Hall {
        line,
        token,
        mut helpers,
        mut rest,
        mut works,
        passes: mut back,
    } = match make_hall(alloc, passes.len(), depth) {
        Ok(hall) => hall,
        Err(memory) => {
            return Streamed {
                passes,
                feed,
                replies: Err(memory),
            };
        }
    };
    let first = seat_at_line(alloc, &line, token, passes, &mut helpers);
    let (helpers, (mut first, feed, fed)) = serve_feed(rt, desk, gate, &line, first, helpers, feed);
    let counted = finish(rt, desk, gate, &line, &mut first, helpers, &mut rest, fed);
    in_order(first.work, rest, &mut works);
    let replies = collect_answers(alloc, works.as_mut_slice(), counted);
    passes_back(works, &mut back);
    Streamed {
        passes: back,
        feed,
        replies,
    }
}
