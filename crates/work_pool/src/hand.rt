//! A worker's jobs.

ghost use Rattle.std.specs.Prelude.{◌≡◌, ℕ, ◌<◌, ◌≤◌, ◌++◌, ◌∷◌, [], IfOk, List, Some, length, map, slice_get, vec_capacity};
ghost use Rattle.work_pool.specs.inner.Hands.{Task as TaskOf, tasks_of, unserved};
ghost use Rattle.work_pool.specs.inner.Tasks.{AreReplied, ServedHand, reply_of};

use crate::desk::Desk;
use crate::gate::Gate;
use corr_text::Memory;
use std::alloc::Global;
use std::marker::Model;
use std::mem;
use std::sync::Wait;

/// The jobs of one worker in their order, and the replies to those that were served. Contracts see them as a list of tasks,
/// each a job with its reply.
#[derive(Drop)]
pub struct Hand<J, R> {
    jobs: Vec<J>,
    replies: Vec<R>,
}

impl<J, R> Model for Hand<J, R> {
    ghost use Rattle.std.specs.Prelude.{◌≤◌, List, length, vec_capacity};
    ghost use Rattle.work_pool.specs.inner.Hands.{Task, tasks_of};

    ghost Value = { List (Task J R) };

    ghost view = { λ h. tasks_of h.jobs.items h.replies.items };

    ghost invariant = { λ h. (length h.replies.items ≤ length h.jobs.items) × (length h.jobs.items ≤ vec_capacity h.replies) };
}

impl<J: Drop, R: Drop> Hand<J, R> {
    /// These jobs, none of them served, with room for their replies.
    pub fn of(alloc: Global, jobs: Vec<J>) -> Result<Hand<J, R>, Memory>
        ensures { IfOk result (λ hand. hand ≡ map unserved jobs.items) }
    {
        let replies = Vec::with_capacity(alloc, jobs.len())?;
        Ok(Hand { jobs, replies })
    }

    /// Takes all jobs away, and gives their replies.
    pub fn take_all(&mut self, alloc: Global) -> Vec<R>
        requires { AreReplied self.old }
        ensures { (r : ℕ) → slice_get result.items r ≡ reply_of self.old r }
    {
        self.jobs.clear();
        mem::replace(&mut self.replies, Vec::new(alloc))
    }

    /// Takes the last job away, and gives its reply.
    pub fn pop(&mut self) -> R
        requires some { 0 < length self.old }
        requires served { AreReplied self.old }
        ensures { (task : TaskOf J R) × (self.old ≡ self.new ++ task ∷ []) × (Some result ≡ task.reply) }
    {
        self.jobs.pop();
        let Some(reply) = self.replies.pop() else {
            unreachable!()
        };
        reply
    }
}

// Serves jobs one after another, with the pass of their worker. There are no replies yet, and there is room for one a job.
fn serve_jobs<K: Desk, R: Wait, G: Gate>(
    rt: &R,
    desk: &K,
    gate: &G,
    worker: u32,
    pass: &mut K::Pass,
    jobs: &[K::Job],
    replies: &mut Vec<K::Reply>,
)
    requires taken { K.takes desk.now pass.old }
    requires empty { replies.old.items ≡ [] }
    requires room { length jobs.now ≤ vec_capacity replies.old }
    ensures taken { K.takes desk.now pass.new }
    // whatever had been replied before
    ensures served { (first : List _) → ServedHand (K.serves desk.now) pass.old (tasks_of jobs.now first) pass.new (tasks_of jobs.now replies.new.items) }
    ensures count { length replies.new.items ≡ length jobs.now }
    ensures room { vec_capacity replies.new ≡ vec_capacity replies.old }
{
    for job in jobs {
        let reply = desk.serve(rt, pass, worker, job, gate);
        replies.push_reserved(reply);
    }
}

/// Serves the jobs of a hand one after another, with the pass of its worker.
pub fn serve_hand<K: Desk, R: Wait, G: Gate>(
    rt: &R,
    desk: &K,
    gate: &G,
    worker: u32,
    pass: &mut K::Pass,
    hand: &mut Hand<K::Job, K::Reply>,
)
    requires taken { K.takes desk.now pass.old }
    ensures taken { K.takes desk.now pass.new }
    ensures served { ServedHand (K.serves desk.now) pass.old hand.old pass.new hand.new }
{
    hand.replies.clear();
    let jobs = hand.jobs.as_slice();
    serve_jobs(rt, desk, gate, worker, pass, jobs, &mut hand.replies);
}
