//! Workers for the line: how they are seated, and how their work comes back.

ghost use Rattle.std.specs.Prelude.{◌≡◌, ◌+◌, ◌<◌, ◌≤◌, true, [], ◌∷◌, ◌++◌, IfOk, map, length, vec_len, vec_capacity};
ghost use Rattle.crossbeam_queue.specs.Passes.{view, IsPassOf};
ghost use Rattle.work_pool.specs.inner.Line.{knows_all};
ghost use Rattle.work_pool.specs.inner.Seating.{AreHelpers, AreHelping, IsLeader, TakesBack};
ghost use Rattle.work_pool.specs.Served.{most_workers};

use crate::line::{Back, Cut, Line, Token};
use crate::server::{Server, Work};
use corr_text::Memory;
use std::alloc::Global;

/// All that a run over a feed takes beforehand: the line with its token, and room for workers, their works and their passes.
pub struct Hall<P, J, R> {
    pub line: Line<J>,
    pub token: Token<J>,
    pub helpers: Vec<Server<P, J, R>>,
    pub rest: Vec<Work<P, R>>,
    pub works: Vec<Work<P, R>>,
    pub passes: Vec<P>,
}

/// Makes a line of this depth, and room for so many workers.
pub fn make_hall<P: Drop, J: Drop, R: Drop>(
    alloc: Global,
    workers: usize,
    depth: u32,
) -> Result<Hall<P, J, R>, Memory>
    requires { 1 ≤ depth }
    ensures token { IfOk result (λ hall. IsPassOf hall.line hall.token × (view hall.token ≡ knows_all)) }
    ensures helpers { IfOk result (λ hall. (hall.helpers.items ≡ []) × (workers ≤ vec_capacity hall.helpers)) }
    ensures rest { IfOk result (λ hall. (hall.rest.items ≡ []) × (workers ≤ vec_capacity hall.rest)) }
    ensures works { IfOk result (λ hall. (hall.works.items ≡ []) × (workers ≤ vec_capacity hall.works)) }
    ensures passes { IfOk result (λ hall. (hall.passes.items ≡ []) × (workers ≤ vec_capacity hall.passes)) }
{
    let helpers = Vec::with_capacity(alloc, workers)?;
    let rest = Vec::with_capacity(alloc, workers)?;
    let works = Vec::with_capacity(alloc, workers)?;
    let passes = Vec::with_capacity(alloc, workers)?;
    let (line, token) = Line::ruled(alloc, depth as usize)?;
    Ok(Hall {
        line,
        token,
        helpers,
        rest,
        works,
        passes,
    })
}

/// Seats a worker with each pass: the one with the first pass is given back, and leads; the others, from 2, each have a part.
pub fn seat_at_line<P: Drop, J: Drop, R: Drop>(
    alloc: Global,
    line: &Line<J>,
    mut token: Token<J>,
    mut passes: Vec<P>,
    helpers: &mut Vec<Server<P, J, R>>,
) -> Server<P, J, R>
    requires token { IsPassOf line.now token × (view token ≡ knows_all) }
    requires some { 1 ≤ vec_len passes }
    requires few { vec_len passes ≤ most_workers }
    requires empty { helpers.old.items ≡ [] }
    requires room { vec_len passes ≤ vec_capacity helpers.old }
    ensures leader { IsLeader line.now (length helpers.new.items) result }
    ensures helpers { AreHelpers line.now helpers.new.items }
    ensures passes { result.work.pass ∷ map (λ server. server.work.pass) helpers.new.items ≡ passes.items }
{
    let first = passes.remove(0);
    let mut worker = 1;
    for pass in passes {
        let token = line.another::<Cut>(&mut token);
        let answers = Vec::new(alloc);
        worker += 1;
        helpers.push_reserved(Server {
            worker,
            token,
            work: Work { pass, answers },
        });
    }
    Server {
        worker: 1,
        token,
        work: Work {
            pass: first,
            answers: Vec::new(alloc),
        },
    }
}

/// Takes the tokens of the helpers back, and gives their works.
pub fn take_back<P: Drop, J: Drop, R: Drop>(
    line: &Line<J>,
    token: &mut Token<J>,
    helpers: Vec<Server<P, J, R>>,
    rest: &mut Vec<Work<P, R>>,
)
    requires token { IsPassOf line.now token.old × (0 < (view token.old).parts) }
    requires helpers { AreHelping line.now helpers.items }
    requires empty { rest.old.items ≡ [] }
    requires room { vec_len helpers ≤ vec_capacity rest.old }
    ensures token { IsPassOf line.now token.new }
    ensures knows { TakesBack helpers.items (view token.old) (view token.new) }
    ensures works { rest.new.items ≡ map (λ server. server.work) helpers.items }
{
    for server in helpers {
        line.absorb::<Back>(token, server.token);
        rest.push_reserved(server.work);
    }
}

/// The works in the order of their passes.
pub fn in_order<P: Drop, R: Drop>(
    first: Work<P, R>,
    rest: Vec<Work<P, R>>,
    works: &mut Vec<Work<P, R>>,
)
    requires empty { works.old.items ≡ [] }
    requires room { vec_len rest + 1 ≤ vec_capacity works.old }
    ensures { works.new.items ≡ first ∷ rest.items }
{
    works.push_reserved(first);
    for work in rest {
        works.push_reserved(work);
    }
}

/// The passes of works that nobody needs any more, in their order.
pub fn passes_back<P: Drop, R: Drop>(works: Vec<Work<P, R>>, passes: &mut Vec<P>)
    requires empty { passes.old.items ≡ [] }
    requires room { vec_len works ≤ vec_capacity passes.old }
    ensures { passes.new.items ≡ map (λ work. work.pass) works.items }
{
    for work in works {
        passes.push_reserved(work.pass);
    }
}
