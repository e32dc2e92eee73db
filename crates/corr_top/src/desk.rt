//! The desk of a run: what a worker does with messages.

ghost use Rattle.std.specs.Prelude.{◌≡◌, ◌≤◌, [], ◌∷◌, All, IfSome, None, Ok, length, map, take, vec_capacity, vec_len};
ghost use mathlib.Core.List.{IsPrefix};
ghost use Rattle.fin_frame.specs.File.{most_bytes};
ghost use Rattle.corr_books.specs.Passes.{Belongs};
ghost use Rattle.day_model.specs.Fit.{FitsAccounts};
ghost use Rattle.day_model.specs.Shape.{HasShape, most_text};
ghost use Rattle.fin_message.specs.Sound.{Goes, HasEnvelope, TextSays, lines_in};
ghost use Rattle.fin_message.specs.declared.direction.Direction.TheVariants.{Received};
ghost use Rattle.corr_top.specs.inner.Asking.{IsAsking, IsWritten, pay_asked};
ghost use Rattle.corr_top.specs.inner.Batching.{IsSoundReading, ServesInTurn, made_in};
ghost use Rattle.corr_top.specs.Message.{pay_asked_of, pay_in, readings_of};
ghost use Rattle.corr_top.specs.inner.Serving.{AnswersMessage, Serves, halt_of, served_of, starting};

use crate::batching::{Batch, Lists, Made, make_lists, part, put_left, put_made};
use crate::directory::Directory;
use crate::message::{Asking, NoPay, Stop, read_message, reply_for, route_message};
use crate::worker::Worker;
use corr_books::{Books, BooksName};
use corr_disk::Disk;
use corr_ids::Mir;
use corr_text::let_go;
use day_model::{Pay, Reply};
use fin_layout::Found;
use fin_message::Message;
use front_word::Pass;
use jrn_book::{CommitFault, Committed};
use std::alloc::Global;
use std::sync::Wait;
use work_pool::{Desk, Gate};

/// Why a worker serves no more.
#[derive(Clone, Copy)]
pub enum Halt {
    /// The disk failed over a pay of the worker's: its count of faults when the books were opened, and then.
    Disk { before: u64, after: u64 },
    /// The disk had failed over an earlier pay.
    Broken,
    /// There was no memory.
    Memory,
}

/// What a worker made of a message.
#[derive(Drop)]
pub enum Served {
    /// The message has this reply: its pay is entered, or another one of its reference is, or it gives none.
    Reply(Reply),
    /// Its pay found no room in the journal: how many entries there were, the place of the closed gate, and the bytes that the
    /// pay needed.
    Full { entries: u32, end: u64, need: u64 },
    /// Its pay was not entered: its worker stopped at this message, or had stopped before it.
    Stopped(Halt),
}

/// What the workers of a run share: what messages are judged, routed and charged by, and the books into which their pays are
/// entered.
#[derive(Drop)]
pub struct RunDesk<'a, N: BooksName, D: Disk> {
    pub alloc: Global,
    pub directory: &'a Directory,
    pub books: Books<N, D>,
}

/// Makes a worker of each pass. None has served yet.
pub fn seat(alloc: Global, workers: &mut Vec<Worker>, passes: Vec<Pass>)
    requires empty { workers.old.items ≡ [] }
    requires room { vec_len passes ≤ vec_capacity workers.old }
    ensures { workers.new.items ≡ map starting passes.items }
{
    for pass in passes {
        workers.push_reserved(Worker {
            pass,
            halted: None,
            room: Message::blank(alloc),
            found: Found::new(alloc),
        });
    }
}

/// The passes of workers that nobody needs any more, in their order.
pub fn vacate(passes: &mut Vec<Pass>, workers: Vec<Worker>)
    requires empty { passes.old.items ≡ [] }
    requires room { vec_len workers ≤ vec_capacity passes.old }
    ensures { passes.new.items ≡ map (λ worker. worker.pass) workers.items }
{
    for worker in workers {
        passes.push_reserved(worker.pass);
        let_go(worker.room);
        let_go(worker.found);
    }
}

/// What the answer to the pay of a reference makes of its message.
pub fn as_served(mir: Mir, answer: Result<Committed, CommitFault>) -> Served
    ensures { result ≡ served_of mir answer }
{
    match answer {
        Ok(Committed::New { place, .. }) => Served::Reply(Reply::Entered { mir, place }),
        Ok(Committed::Kept { place, .. }) => Served::Reply(Reply::Entered { mir, place }),
        Err(CommitFault::Conflict { place }) => Served::Reply(Reply::Conflict { mir, place }),
        Err(CommitFault::Full { entries, end, need }) => Served::Full { entries, end, need },
        Err(CommitFault::DiskFault { before, after }) => {
            Served::Stopped(Halt::Disk { before, after })
        }
        Err(CommitFault::Broken { .. }) => Served::Stopped(Halt::Broken),
        Err(CommitFault::Memory) => Served::Stopped(Halt::Memory),
    }
}

/// Why the worker of a message serves no more.
pub fn halt_of(made: &Served) -> Option<Halt>
    ensures { result ≡ halt_of made.now }
{
    match made {
        Served::Stopped(why) => Some(*why),
        Served::Reply(_) | Served::Full { .. } => None,
    }
}

impl<'a, N: BooksName, D: Disk> RunDesk<'a, N, D> {
    /// Reads a message, and enters the pay that it asks for.
    fn answer<R: Wait, G: Gate>(
        &self,
        rt: &R,
        pass: &mut Pass,
        room: &mut Message,
        found: &mut Found,
        worker: u32,
        text: &[u8],
        gate: &G,
    ) -> Served
        requires pass { Belongs N.opening pass.old }
        requires short { length text.now ≤ most_bytes }
        ensures pass { Belongs N.opening pass.new }
        ensures answered { AnswersMessage N.opening (pay_asked_of self.now.directory.now N.opening.accounts text.now) pass.old pass.new result }
    {
        let accounts = self.books.accounts();
        match read_message(self.alloc, self.directory, accounts, text, found, room) {
            Ok(()) => self.answer_valid(rt, pass, room, worker, gate),
            Err(Stop::NoPay(why)) => Served::Reply(reply_for(why)),
            Err(Stop::Memory) => Served::Stopped(Halt::Memory),
        }
    }

    /// Answers a valid message: enters the pay that it asks for, if it asks for one.
    fn answer_valid<R: Wait, G: Gate>(
        &self,
        rt: &R,
        pass: &mut Pass,
        message: &mut Message,
        worker: u32,
        gate: &G,
    ) -> Served
        requires pass { Belongs N.opening pass.old }
        requires received { Goes Received message.old × TextSays self.now.directory.now.tables message.old × HasEnvelope message.old }
        requires short { length (lines_in message.old) ≤ most_text }
        ensures pass { Belongs N.opening pass.new }
        ensures answered { AnswersMessage N.opening (pay_in self.now.directory.now N.opening.accounts message.old) pass.old pass.new result }
    {
        match route_message(self.alloc, self.directory, self.books.accounts(), message) {
            Ok(asking) => self.enter(rt, pass, asking, worker, gate),
            Err(why) => Served::Reply(reply_for(why)),
        }
    }

    /// Enters the pay that a message asks for. The locks are taken once the pay is known. It stands apart, so that what a pay takes
    /// isn't made room for where a message is refused.
    #[inline(never)]
    fn enter<R: Wait, G: Gate>(
        &self,
        rt: &R,
        pass: &mut Pass,
        asking: Asking<'_>,
        worker: u32,
        gate: &G,
    ) -> Served
        requires pass { Belongs N.opening pass.old }
        requires asks { IsAsking N.opening.accounts asking }
        requires written { IsWritten asking }
        ensures pass { Belongs N.opening pass.new }
        ensures answered { AnswersMessage N.opening (Ok (pay_asked N.opening.accounts asking.entry)) pass.old pass.new result }
    {
        match self.make_pay(asking) {
            Some(pay) => as_served(pay.mir, self.books.book(rt, pass, worker, &pay, gate)),
            None => Served::Stopped(Halt::Memory),
        }
    }

    /// The pay that a message asks for. None where memory ran out.
    fn make_pay(&self, asking: Asking<'_>) -> Option<Pay>
        requires asks { IsAsking N.opening.accounts asking }
        requires written { IsWritten asking }
        ensures value { IfSome result (λ pay. pay ≡ pay_asked N.opening.accounts asking.entry) }
        ensures fits { IfSome result (FitsAccounts N.opening.accounts) }
        ensures shape { IfSome result HasShape }
    {
        match asking.pay(self.alloc, self.books.accounts()) {
            Ok(pay) => Some(pay),
            Err(_) => None,
        }
    }

    /// Reads a message: the pay that it asks for, or why it gives none. None where memory ran out.
    fn read(&self, room: &mut Message, found: &mut Found, text: &[u8]) -> Option<Result<Pay, NoPay>>
        requires short { length text.now ≤ most_bytes }
        ensures value { IfSome result (λ reading. reading ≡ pay_asked_of self.now.directory.now N.opening.accounts text.now) }
        ensures sound { IfSome result (IsSoundReading N.opening.accounts) }
    {
        let accounts = self.books.accounts();
        match read_message(self.alloc, self.directory, accounts, text, found, room) {
            Ok(()) => self.read_valid(room),
            Err(Stop::NoPay(why)) => Some(Err(why)),
            Err(Stop::Memory) => None,
        }
    }

    /// The pay that a valid message asks for, or why it gives none. None where memory ran out.
    fn read_valid(&self, message: &mut Message) -> Option<Result<Pay, NoPay>>
        requires received { Goes Received message.old × TextSays self.now.directory.now.tables message.old × HasEnvelope message.old }
        requires short { length (lines_in message.old) ≤ most_text }
        ensures value { IfSome result (λ reading. reading ≡ pay_in self.now.directory.now N.opening.accounts message.old) }
        ensures sound { IfSome result (IsSoundReading N.opening.accounts) }
    {
        match route_message(self.alloc, self.directory, self.books.accounts(), message) {
            Ok(asking) => Some(Ok(self.make_pay(asking)?)),
            Err(why) => Some(Err(why)),
        }
    }

    /// Reads the messages of a batch, up to the first for which memory ran out.
    fn read_all(
        &self,
        room: &mut Message,
        found: &mut Found,
        batch: &Batch<N>,
        readings: &mut Vec<Result<Pay, NoPay>>,
    )
        requires none { readings.old.items ≡ [] }
        requires room { length batch.now ≤ vec_capacity readings.old }
        ensures front { IsPrefix readings.new.items (readings_of self.now.directory.now N.opening.accounts batch.now) }
        ensures sound { All (IsSoundReading N.opening.accounts) readings.new.items }
    {
        for at in 0..batch.len() {
            let Some(reading) = self.read(room, found, batch.message(at)) else {
                return;
            };
            readings.push_reserved(reading);
        }
    }

    /// Answers messages of a batch one after another, by a worker that goes on, up to the first that stops it: each entry is on the disk
    /// before the next message is answered.
    fn answer_front<R: Wait, G: Gate>(
        &self,
        rt: &R,
        pass: &mut Worker,
        worker: u32,
        batch: &Batch<N>,
        gate: &G,
        made: &mut Vec<Served>,
    )
        requires pass { Belongs N.opening pass.old.pass }
        requires on { pass.old.halted ≡ None }
        requires none { made.old.items ≡ [] }
        requires room { length batch.now ≤ vec_capacity made.old }
        ensures pass { Belongs N.opening pass.new.pass }
        ensures few { length made.new.items ≤ length batch.now }
        ensures served { ServesInTurn N.opening (readings_of self.now.directory.now N.opening.accounts (take (length made.new.items) batch.now))
            pass.old pass.new made.new.items }
        ensures capacity { vec_capacity made.new ≡ vec_capacity made.old }
    {
        for at in 0..batch.len() {
            let one = self.answer_next(rt, pass, worker, batch.message(at), gate);
            made.push_reserved(one);
            if pass.halted.is_some() {
                return;
            }
        }
    }

    /// Answers the messages of a batch one after another, by a worker that goes on.
    fn answer_each<R: Wait, G: Gate>(
        &self,
        rt: &R,
        pass: &mut Worker,
        worker: u32,
        batch: &Batch<N>,
        gate: &G,
    ) -> Made
        requires pass { Belongs N.opening pass.old.pass }
        requires on { pass.old.halted ≡ None }
        ensures pass { Belongs N.opening pass.new.pass }
        ensures served { ServesInTurn N.opening (readings_of self.now.directory.now N.opening.accounts batch.now) pass.old pass.new (made_in result) }
    {
        let count = batch.len();
        let Ok(mut made) = Vec::with_capacity(self.alloc, count) else {
            pass.halted = Some(Halt::Memory);
            return Made::None {
                messages: count,
                why: Halt::Memory,
            };
        };
        self.answer_front(rt, pass, worker, batch, gate, &mut made);
        pass.halted = put_left(&mut made, count, pass.halted);
        Made::Each(made)
    }

    /// Answers the messages of a batch together, by a worker that goes on. Their new entries come under one sync.
    fn answer_all<R: Wait, G: Gate>(
        &self,
        rt: &R,
        pass: &mut Worker,
        worker: u32,
        batch: &Batch<N>,
        gate: &G,
    ) -> Made
        requires pass { Belongs N.opening pass.old.pass }
        requires on { pass.old.halted ≡ None }
        requires named { length batch.now ≤ N.opening.most }
        ensures pass { Belongs N.opening pass.new.pass }
        ensures served { ServesInTurn N.opening (readings_of self.now.directory.now N.opening.accounts batch.now) pass.old pass.new (made_in result) }
    {
        let count = batch.len();
        let Ok(lists) = make_lists(self.alloc, count) else {
            pass.halted = Some(Halt::Memory);
            return Made::None {
                messages: count,
                why: Halt::Memory,
            };
        };
        let Lists {
            mut readings,
            mut asks,
            mut pays,
            mut answers,
            mut made,
        } = lists;
        self.read_all(&mut pass.room, &mut pass.found, batch, &mut readings);
        part(readings, &mut asks, &mut pays);
        self.books.book_all(
            rt,
            self.alloc,
            &mut pass.pass,
            worker,
            pays,
            gate,
            &mut answers,
        );
        let halted = put_made(asks, answers.as_slice(), &mut made);
        pass.halted = put_left(&mut made, count, halted);
        Made::Each(made)
    }

    /// Answers one message, by a worker that goes on.
    fn answer_next<R: Wait, G: Gate>(
        &self,
        rt: &R,
        pass: &mut Worker,
        worker: u32,
        message: &[u8],
        gate: &G,
    ) -> Served
        requires pass { Belongs N.opening pass.old.pass }
        requires on { pass.old.halted ≡ None }
        requires short { length message.now ≤ most_bytes }
        ensures pass { Belongs N.opening pass.new.pass }
        ensures served { Serves N.opening (pay_asked_of self.now.directory.now N.opening.accounts message.now) pass.old pass.new result }
        ensures halted { pass.new.halted ≡ halt_of result }
    {
        let room = &mut pass.room;
        let found = &mut pass.found;
        let one = self.answer(rt, &mut pass.pass, room, found, worker, message, gate);
        pass.halted = halt_of(&one);
        one
    }

    /// Answers the one message of a batch, by a worker that goes on. It needs no lists.
    fn answer_one<R: Wait, G: Gate>(
        &self,
        rt: &R,
        pass: &mut Worker,
        worker: u32,
        message: &[u8],
        gate: &G,
    ) -> Made
        requires pass { Belongs N.opening pass.old.pass }
        requires on { pass.old.halted ≡ None }
        requires short { length message.now ≤ most_bytes }
        ensures pass { Belongs N.opening pass.new.pass }
        ensures served { ServesInTurn N.opening (pay_asked_of self.now.directory.now N.opening.accounts message.now ∷ []) pass.old pass.new (made_in result) }
    {
        Made::One(self.answer_next(rt, pass, worker, message, gate))
    }
}

impl<'a, N: BooksName + Send + Sync, D: Disk + Drop + Send> Desk for RunDesk<'a, N, D> {
    ghost use Rattle.corr_books.specs.Passes.{Belongs};
    ghost use Rattle.corr_top.specs.inner.Batching.{ServesInTurn, made_in};
    ghost use Rattle.corr_top.specs.Message.{readings_of};

    type Pass = Worker;

    type Job = Batch<N>;

    type Reply = Made;

    ghost takes = { λ _ worker. Belongs N.opening worker.pass };

    ghost serves = { λ desk old job new made. ServesInTurn N.opening (readings_of desk.directory.now N.opening.accounts job) old new (made_in made) };

    /// Answers the messages of a batch, unless the worker has stopped. It stops where the disk failed and where memory ran out: so a
    /// worker enters what stands ahead of a message before what stands after it, or nothing after it.
    fn serve<R: Wait, G: Gate>(
        &self,
        rt: &R,
        pass: &mut Worker,
        worker: u32,
        job: &Batch<N>,
        gate: &G,
    ) -> Made {
        let count = job.len();
        if let Some(why) = pass.halted {
            return Made::None {
                messages: count,
                why,
            };
        }
        if count == 1 {
            self.answer_one(rt, pass, worker, job.message(0), gate)
        } else if job.is_together() {
            self.answer_all(rt, pass, worker, job, gate)
        } else {
            self.answer_each(rt, pass, worker, job, gate)
        }
    }
}
