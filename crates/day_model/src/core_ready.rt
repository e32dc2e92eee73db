//! Which worker of a core may go on.

ghost use Rattle.std.specs.Prelude.{◌≡◌, ◌<◌, ◌^◌, length};
ghost use Rattle.std.specs.List.{position_from};
ghost use Rattle.day_model.specs.inner.CoreSound.{can_go_on, is_free};

use crate::core_job::{Job, holder};

fn is_unheld(workers: &[Option<Job>], account: Option<u32>) -> bool
    requires { length workers.now < 2 ^ 32 }
    ensures { result ≡ is_free workers.now account }
{
    match account {
        Some(n) => holder(workers, n).is_none(),
        None => true,
    }
}

fn may_go_on(workers: &[Option<Job>], worker: &Option<Job>) -> bool
    requires { length workers.now < 2 ^ 32 }
    ensures { result ≡ can_go_on workers.now worker.now }
{
    match worker {
        Some(job) => job.mark.is_some() || is_unheld(workers, job.wanted()),
        None => false,
    }
}

/// The place, from 0, of the first worker that may go on.
pub(crate) fn first_ready(workers: &[Option<Job>]) -> Option<usize>
    requires { length workers.now < 2 ^ 32 }
    ensures { result ≡ position_from (can_go_on workers.now) 0 workers.now }
{
    workers.iter().position(|worker| may_go_on(workers, worker))
}
