//! The message file as a feed of batches.

ghost use Rattle.std.specs.Prelude.{◌≡◌, ◌+◌, ◌≤◌, IfErr, IfOk, [], drop, length, take};
ghost use Rattle.jrn_book.specs.Batches.{most_batch};

use crate::batching::{Batch, batch_at, limit_of, next_count, share_of};
use crate::stream::MessageFile;
use corr_books::BooksName;
use corr_io::Source;
use corr_text::Memory;
use fin_frame::Place;
use std::alloc::Global;
use std::marker::{Brand, Model, PhantomData};
use work_pool::Feed;

/// Names what only contracts speak of: what a message file's source had left when its feed was made, where it tells that, and its count
/// of faults then.
pub trait FileName {
    ghost use Rattle.std.specs.Prelude.{ℕ, List};
    ghost use Rattle.std.specs.declared.option.Option.{Option};

    ghost left: { Option (List ℕ) };

    ghost faults: { ℕ };
}

impl FileName for Brand {
    ghost use Rattle.std.specs.Prelude.{None};

    ghost left = { None };

    ghost faults = { 0 };
}

/// A feed of the messages of a file, in batches for so many workers, with so many entries under one sync at most; where that is one, the
/// messages of a batch are answered one after another. It ends where the file's end was met and all was given, where its source failed,
/// where it is too large or can't be cut, and where memory ran out; the file keeps which.
#[derive(Drop)]
pub struct MessageFeed<N: BooksName, F: FileName, S: Source> {
    alloc: Global,
    workers: u32,
    /// Whether the entries of a batch come under one sync.
    together: bool,
    /// The most messages that a batch may have.
    most: u32,
    file: MessageFile<S>,
    /// How many messages each batch has that was given.
    sizes: Vec<usize>,
    /// How many messages were given.
    given: usize,
    /// The most messages of the next batch.
    share: usize,
    over: bool,
    of: PhantomData<(N, F)>,
}

impl<N: BooksName, F: FileName, S: Source> Model for MessageFeed<N, F, S> {
    ghost use Rattle.std.specs.Prelude.{◌≡◌, ◌≤◌, true};
    ghost use Rattle.jrn_book.specs.Batches.{most_batch};
    ghost use Rattle.corr_top.specs.inner.Fed.{Fed, IsFed};

    ghost Value = { Fed S };

    ghost view = { λ f. record { file = f.file; sizes = f.sizes.items; over = f.over } };

    ghost invariant = { λ f. IsFed S.Source F.left F.faults (record { file = f.file; sizes = f.sizes.items; over = f.over }) f.given
        × (f.together ≡ true → f.most ≤ N.opening.most) × ((1 ≤ f.most) × (f.most ≤ most_batch)) × (1 ≤ f.workers) × ((1 ≤ f.share) × (f.share ≤ f.most)) };
}

/// So many places, behind those before them.
fn next_places(places: &[Place], at: usize, count: usize) -> &[Place]
    requires within { at + count ≤ length places.now }
    ensures { result.now ≡ take count (drop at places.now) }
{
    &places[at..at + count]
}

/// How many messages are read ahead of the next one: of one worker so many that it may have two batches, of several so many that each may
/// have two, of eight messages at least, so that they aren't dealt one by one. No clause speaks of it.
fn messages_ahead(workers: u32, most: u32) -> usize {
    let two = (most as usize).saturating_mul(2);
    let each = if workers == 1 { two } else { two.max(16) };
    (workers as usize).saturating_mul(each).saturating_sub(1)
}

impl<N: BooksName, F: FileName, S: Source> MessageFeed<N, F, S> {
    ghost use Rattle.std.specs.Prelude.{◌++◌, ◌∷◌, ◌<◌, false, sum, true};
    ghost use Rattle.corr_top.specs.inner.Fed.{IsOver, IsStreamFrom};
    ghost use Rattle.corr_top.specs.inner.Stream.{batches_of, messages_so_far};
    ghost use Rattle.corr_top.specs.declared.stream.Stage.TheVariants as stage;

    /// A feed that gave nothing yet. Where there is no memory, the source comes back as it was.
    pub fn new(
        alloc: Global,
        source: S,
        workers: u32,
        entries: u32,
    ) -> Result<MessageFeed<N, F, S>, (S, Memory)>
        requires workers { 1 ≤ workers }
        requires entries { (1 ≤ entries) × (entries ≤ most_batch) }
        requires most { N.opening.most ≡ entries }
        requires file { (F.left ≡ S.left source) × (F.faults ≡ S.faults source) }
        ensures fresh { IfOk result (λ f. (f.sizes ≡ []) × (f.over ≡ false)) }
        ensures source { IfOk result (λ f. f.file.source ≡ source) }
        ensures err { IfErr result (λ e. e.0 ≡ source) }
    {
        let file = match MessageFile::new(alloc, source) {
            Ok(file) => file,
            Err(refused) => return Err(refused),
        };
        let together = entries != 1;
        Ok(MessageFeed {
            alloc,
            workers,
            together,
            most: limit_of(together, entries),
            file,
            sizes: Vec::new(alloc),
            given: 0,
            share: 1,
            over: false,
            of: PhantomData,
        })
    }

    /// The file, as it is.
    pub fn into_file(self) -> MessageFile<S>
        ensures file { result ≡ self.file }
        ensures fed { IsStreamFrom S.Source F.left F.faults self }
        ensures over { self.over ≡ true → IsOver self }
    {
        self.file
    }

    /// Reads on until there is a message to give, or the file ends.
    fn read_on(&mut self)
        requires open { self.old.over ≡ false }
        ensures given { batches_of self.new.sizes (messages_so_far self.new.file) ≡ batches_of self.old.sizes (messages_so_far self.old.file) }
        ensures over { self.new.over ≡ self.old.over }
        ensures on { self.new.file.stage ≡ stage.Going → sum self.new.sizes < length (messages_so_far self.new.file) }
    {
        if self.given < self.file.places.len() {
            return;
        }
        let past = self.given.saturating_add(self.ahead());
        self.file.read_past(self.alloc, past);
        let count = self.file.places.len() - self.given;
        self.share = share_of(count, self.workers, self.most);
    }

    /// How many messages are read ahead: none where they are answered one after another.
    fn ahead(&self) -> usize {
        if self.together {
            messages_ahead(self.workers, self.most)
        } else {
            0
        }
    }

    /// The next of the messages that were found. There are some.
    fn give(&mut self) -> Result<Batch<N>, Memory>
        requires open { self.old.over ≡ false }
        requires left { sum self.old.sizes < length (messages_so_far self.old.file) }
        ensures ok { IfOk result (λ batch. batches_of self.new.sizes (messages_so_far self.new.file)
            ≡ batches_of self.old.sizes (messages_so_far self.old.file) ++ batch ∷ []) }
        ensures err { IfErr result (λ _. self.new ≡ self.old) }
        ensures over { self.new.over ≡ self.old.over }
    {
        self.sizes.reserve(1)?;
        let left = self.file.places.len() - self.given;
        let count = next_count(left, self.share);
        let at = next_places(self.file.places.as_slice(), self.given, count);
        let batch = batch_at(self.alloc, self.file.text.bytes(), at, self.together)?;
        self.sizes.push_reserved(count);
        self.given += count;
        Ok(batch)
    }
}

impl<N: BooksName, F: FileName, S: Source> Feed for MessageFeed<N, F, S> {
    ghost use Rattle.corr_top.specs.inner.Stream.{batches_of, messages_so_far};

    type Job = Batch<N>;

    ghost given = { λ f. batches_of f.sizes (messages_so_far f.file) };

    ghost ended = { λ f. f.over };

    /// The next messages of the file, as a batch.
    fn next(&mut self) -> Option<Batch<N>> {
        if self.over {
            return None;
        }
        self.read_on();
        if self.given == self.file.places.len() {
            self.over = true;
            return None;
        }
        match self.give() {
            Ok(batch) => Some(batch),
            Err(_) => {
                self.file.stop();
                self.over = true;
                None
            }
        }
    }
}
