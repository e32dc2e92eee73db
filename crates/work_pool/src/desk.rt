//! Desks: what serves a job.

use crate::gate::Gate;
use std::sync::Wait;

/// What serves jobs, each with the pass of the worker that has it. Workers share one desk.
pub trait Desk {
    /// What a worker keeps from job to job.
    type Pass: Send + Drop;

    /// What is served.
    type Job: Send + Drop;

    /// The answer to a job.
    type Reply: Send + Drop;

    /// Which passes this desk takes.
    ghost takes: { Self → Self.Pass → Type 0 };

    /// Which pass and reply may follow from a pass and a job.
    ghost serves: { Self → Self.Pass → Self.Job → Self.Pass → Self.Reply → Type 0 };

    /// Serves a job with the pass of a worker, whose number is `worker`, from 1. The desk takes that pass before and after.
    fn serve<R: Wait, G: Gate>(
        &self,
        rt: &R,
        pass: &mut Self::Pass,
        worker: u32,
        job: &Self::Job,
        gate: &G,
    ) -> Self::Reply
        requires { takes self.now pass.old }
        ensures takes { takes self.now pass.new }
        ensures serves { serves self.now pass.old job.now pass.new result };
}
