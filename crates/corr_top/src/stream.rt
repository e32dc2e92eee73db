//! The message file, read in pieces and cut as they come.

ghost use Rattle.std.specs.Prelude.{◌≡◌, ◌⊎◌, ◌<◌, ◌+◌, ◌-◌, ◌≤◌, ◌++◌, ℕ, List, [], All, IfErr, IfOk, OnOk, false, true, length, drop, take, vec_capacity, vec_len};
ghost use Rattle.std.specs.Io.KnownBytes.{IsAtEnd};
ghost use Rattle.std.specs.declared.option.Option.{Option};
ghost use Rattle.fin_frame.specs.File.{IsCutInto};
ghost use Rattle.fin_frame.specs.Pieces.{HasTakenFile, IsPlaceIn, at_places};
ghost use Rattle.fin_frame.specs.Whole.{is_led};
ghost use Rattle.corr_top.specs.MessageFile.{IsMessageFile, most_message_bytes, most_messages};
ghost use Rattle.corr_top.specs.Reading.{IsRead};
ghost use Rattle.corr_top.specs.inner.Reading.{chunk_bytes};
ghost use Rattle.corr_top.specs.inner.Stream.{HasFirst, HasFound, IsReadOn, IsSameCut, IsStreamOf, StopsStream, messages_so_far, most_found, stage_at, stop_at};
ghost use Rattle.corr_top.specs.declared.cutting.FileStop.{FileStop};
ghost use Rattle.corr_top.specs.declared.stream.Stage.TheVariants as stage;

use crate::cutting::{FILE_LIMIT, FileStop, MESSAGE_LIMIT, first_stop};
use crate::reading::{CHUNK, make_chunk, read_until};
use crate::slices::after;
use corr_io::Source;
use corr_text::{Memory, Text};
use fin_frame::{PieceCutter, Place};
use std::alloc::Global;

/// The most messages that are looked for in a piece: more than can stand there, since a message has four bytes and more.
const MOST_FOUND: usize = 32_768;

/// How far a message file is.
#[derive(Clone, Copy)]
pub enum Stage {
    /// It is being read.
    Going,
    /// It was read to its end, and cut whole.
    Whole,
    /// It stopped.
    Stopped(FileStop),
}

impl Stage {
    /// The stage of a file that was cut as far as it was read: to its end, or not.
    fn at(ended: bool) -> Stage
        ensures { result ≡ stage_at ended }
    {
        if ended { Stage::Whole } else { Stage::Going }
    }

    /// Why a file has stopped: for want of memory, if it hadn't.
    fn stop(self) -> FileStop
        ensures { result ≡ stop_at self }
    {
        match self {
            Stage::Going => FileStop::Memory,
            Stage::Whole => FileStop::Memory,
            Stage::Stopped(stop) => stop,
        }
    }
}

/// A message file that is read: its source, what was read of it, and the places of the messages in that.
#[derive(Drop)]
pub struct MessageFile<S> {
    pub source: S,
    pub text: Text,
    /// How many bytes of the text the cutter has taken.
    pub taken: usize,
    pub cutter: PieceCutter,
    pub places: Vec<Place>,
    pub stage: Stage,
    pub chunk: Vec<u8>,
    pub found: Vec<Place>,
}

/// The memory that reading a message file in pieces takes at first.
#[derive(Drop)]
struct Rooms {
    text: Text,
    chunk: Vec<u8>,
    found: Vec<Place>,
}

fn make_rooms(alloc: Global) -> Result<Rooms, Memory>
    ensures text { IfOk result (λ rooms. rooms.text ≡ []) }
    ensures chunk { IfOk result (λ rooms. vec_len rooms.chunk ≡ chunk_bytes) }
    ensures found { IfOk result (λ rooms. most_found ≤ vec_capacity rooms.found) }
{
    Ok(Rooms {
        text: Text::from_bytes(alloc, &[])?,
        chunk: make_chunk(alloc)?,
        found: Vec::with_capacity(alloc, MOST_FOUND)?,
    })
}

/// Puts the places of messages behind those of the messages before them, where the piece that they stand in begins.
fn note_places(found: &[Place], begin: usize, places: &mut Vec<Place>)
    requires room { length places.old.items + length found.now ≤ vec_capacity places.old }
    requires begin { begin ≤ most_message_bytes }
    requires small { All (λ place. begin + place.from + place.len ≤ most_message_bytes) found.now }
    ensures each { (text : List ℕ) → at_places text places.new.items ≡ at_places text places.old.items ++ at_places (drop begin text) found.now }
    ensures within { (size : ℕ) → begin ≤ size → All (IsPlaceIn size) places.old.items → All (IsPlaceIn (size - begin)) found.now → All (IsPlaceIn size) places.new.items }
    ensures count { length places.new.items ≡ length places.old.items + length found.now }
{
    for place in found {
        places.push_reserved(Place {
            from: begin as u32 + place.from,
            len: place.len,
        });
    }
}

impl<S: Source> MessageFile<S> {
    /// A file of which nothing was read. Where there is no memory, its source comes back as it was.
    pub fn new(alloc: Global, source: S) -> Result<MessageFile<S>, (S, Memory)>
        ensures made { IfOk result (IsStreamOf S.Source (S.left source) (S.faults source)) }
        ensures going { IfOk result (λ f. (f.stage ≡ stage.Going) × (f.places.items ≡ [])) }
        ensures source { IfOk result (λ f. f.source ≡ source) }
        ensures err { IfErr result (λ e. e.0 ≡ source) }
    {
        let Ok(rooms) = make_rooms(alloc) else {
            return Err((source, Memory));
        };
        let Rooms { text, chunk, found } = rooms;
        Ok(MessageFile {
            source,
            text,
            taken: 0,
            cutter: PieceCutter::new(),
            places: Vec::new(alloc),
            stage: Stage::Going,
            chunk,
            found,
        })
    }

    /// Whether it is being read.
    fn is_going(&self) -> bool
        ensures yes { result ≡ true → self.now.stage ≡ stage.Going }
        ensures no { result ≡ false → self.now.stage ≡ stage.Going → ⊥ }
    {
        match self.stage {
            Stage::Going => true,
            Stage::Whole | Stage::Stopped(_) => false,
        }
    }

    /// Memory ran out for what is made of it: it has stopped, unless it had before.
    pub fn stop(&mut self)
        ensures stream { (left : Option (List ℕ)) (faults : ℕ) → IsStreamOf S.Source left faults self.old → IsStreamOf S.Source left faults self.new }
        ensures text { self.new.text ≡ self.old.text }
        ensures places { self.new.places ≡ self.old.places }
        ensures stopped { (stop : FileStop) × (self.new.stage ≡ stage.Stopped stop) }
    {
        self.stage = Stage::Stopped(self.stage.stop());
    }

    /// Reads on until there are so many bytes, or the source's end is met, which it tells.
    fn fill(&mut self, until: usize) -> Result<bool, FileStop>
        requires chunk { vec_len self.old.chunk ≡ chunk_bytes }
        requires until { (length self.old.text ≤ until) × (until ≤ most_message_bytes + 1) }
        ensures read { OnOk result ((left : Option (List ℕ)) (faults : ℕ) → IsReadOn S.Source left faults self.old → IsReadOn S.Source left faults self.new) }
        ensures ended { IfOk result (λ ended. ended ≡ true → IsAtEnd (S.left self.new.source)) }
        ensures full { IfOk result (λ ended. ended ≡ false → until ≤ length self.new.text) }
        ensures bound { length self.new.text ≤ until }
        ensures stopped { IfErr result (λ stop. (left : Option (List ℕ)) (faults : ℕ) → IsReadOn S.Source left faults self.old
            → StopsStream left faults (S.left self.new.source) (S.faults self.new.source) self.new.text stop) }
        ensures text { (left : Option (List ℕ)) (faults : ℕ) → IsReadOn S.Source left faults self.old → HasFirst left (S.left self.new.source) self.new.text }
        ensures grown { (more : List ℕ) × (self.new.text ≡ self.old.text ++ more) }
        ensures same { IsSameCut self.old self.new × (self.new.stage ≡ self.old.stage) }
    {
        let ended = read_until(&mut self.source, &mut self.chunk, until, &mut self.text)?;
        Ok(ended)
    }

    /// The rest of the source, up to a byte past the limit, behind what was read, unless that was all.
    fn read_rest(&mut self, ended: bool) -> Result<(), FileStop>
        requires short { length self.old.text ≤ most_message_bytes + 1 }
        requires chunk { vec_len self.old.chunk ≡ chunk_bytes }
        requires ended { ended ≡ true → IsAtEnd (S.left self.old.source) }
        ensures read { OnOk result ((left : Option (List ℕ)) (faults : ℕ) → IsReadOn S.Source left faults self.old
            → IsRead most_message_bytes left (S.left self.new.source) self.new.text × (S.faults self.new.source ≡ faults)) }
        ensures bound { length self.new.text ≤ most_message_bytes + 1 }
        ensures stopped { IfErr result (λ stop. (left : Option (List ℕ)) (faults : ℕ) → IsReadOn S.Source left faults self.old
            → StopsStream left faults (S.left self.new.source) (S.faults self.new.source) self.new.text stop) }
        ensures text { (left : Option (List ℕ)) (faults : ℕ) → IsReadOn S.Source left faults self.old → HasFirst left (S.left self.new.source) self.new.text }
        ensures grown { (more : List ℕ) × (self.new.text ≡ self.old.text ++ more) × (ended ≡ true → more ≡ []) }
        ensures same { IsSameCut self.old self.new }
    {
        if ended {
            return Ok(());
        }
        self.fill(FILE_LIMIT + 1)?;
        Ok(())
    }

    /// Why it is no message file. Unless it was read to its end, the rest is read, so that a fault of the source is told before those of
    /// its bytes; the first of these is told else.
    fn find_stop(&mut self, alloc: Global, ended: bool) -> FileStop
        requires short { length self.old.text ≤ most_message_bytes + 1 }
        requires chunk { vec_len self.old.chunk ≡ chunk_bytes }
        requires ended { ended ≡ true → IsAtEnd (S.left self.old.source) }
        requires none { (more : List ℕ) (messages : List (List ℕ)) → (ended ≡ true → more ≡ []) → IsMessageFile (self.old.text ++ more) messages → ⊥ }
        ensures stops { (left : Option (List ℕ)) (faults : ℕ) → IsReadOn S.Source left faults self.old
            → StopsStream left faults (S.left self.new.source) (S.faults self.new.source) self.new.text result }
        ensures text { (left : Option (List ℕ)) (faults : ℕ) → IsReadOn S.Source left faults self.old → HasFirst left (S.left self.new.source) self.new.text }
        ensures grown { (more : List ℕ) × (self.new.text ≡ self.old.text ++ more) }
        ensures same { IsSameCut self.old self.new }
    {
        match self.read_rest(ended) {
            Ok(()) => first_stop(alloc, self.text.bytes()),
            Err(stop) => stop,
        }
    }

    /// It is no message file: it stops, and the messages that were found stay.
    fn refuse(&mut self, alloc: Global, ended: bool)
        requires short { length self.old.text ≤ most_message_bytes + 1 }
        requires chunk { vec_len self.old.chunk ≡ chunk_bytes }
        requires ended { ended ≡ true → IsAtEnd (S.left self.old.source) }
        requires none { (more : List ℕ) (messages : List (List ℕ)) → (ended ≡ true → more ≡ []) → IsMessageFile (self.old.text ++ more) messages → ⊥ }
        ensures stream { (left : Option (List ℕ)) (faults : ℕ) → HasFound S.Source left faults self.old → IsStreamOf S.Source left faults self.new }
        ensures more { All (IsPlaceIn (length self.old.text)) self.old.places.items → messages_so_far self.new ≡ messages_so_far self.old }
        ensures stopped { (stop : FileStop) × (self.new.stage ≡ stage.Stopped stop) }
    {
        let stop = self.find_stop(alloc, ended);
        self.stage = Stage::Stopped(stop);
    }

    /// Keeps the places of the messages that a cutter found, which took so many bytes.
    fn keep(&mut self, cutter: PieceCutter, count: usize, ended: bool)
        requires going { self.old.stage ≡ stage.Going }
        requires within { self.old.taken + count ≤ length self.old.text }
        requires short { length self.old.text ≤ most_message_bytes }
        requires few { length self.old.places.items + length self.old.found.items ≤ most_messages }
        requires places { All (IsPlaceIn (length self.old.text - self.old.taken)) self.old.found.items }
        requires took { HasTakenFile cutter (take self.old.taken self.old.text ++ take count (drop self.old.taken self.old.text))
            (messages_so_far self.old ++ at_places (drop self.old.taken self.old.text) self.old.found.items) }
        requires led { ended ≡ false → cutter.apart ≡ false → is_led (drop count (drop self.old.taken self.old.text)) ≡ true }
        requires whole { ended ≡ true → IsCutInto (take self.old.taken self.old.text ++ drop self.old.taken self.old.text)
            (messages_so_far self.old ++ at_places (drop self.old.taken self.old.text) self.old.found.items) }
        requires ended { ended ≡ true → IsAtEnd (S.left self.old.source) }
        ensures stream { (left : Option (List ℕ)) (faults : ℕ) → IsStreamOf S.Source left faults self.old → IsStreamOf S.Source left faults self.new }
        ensures more { (found : List (List ℕ)) × (messages_so_far self.new ≡ messages_so_far self.old ++ found) }
        ensures on { self.new.stage ≡ stage.Going → ended ≡ false }
        ensures text { self.new.text ≡ self.old.text }
    {
        if let Err(_) = self.places.reserve(self.found.len()) {
            return self.stop();
        }
        note_places(self.found.as_slice(), self.taken, &mut self.places);
        self.cutter = cutter;
        self.taken += count;
        self.stage = Stage::at(ended);
    }

    /// Cuts what was read since the last cut: all that there is, if the end was met.
    fn cut(&mut self, alloc: Global, ended: bool)
        requires going { self.old.stage ≡ stage.Going }
        requires stream { (left : Option (List ℕ)) × (faults : ℕ) × IsStreamOf S.Source left faults self.old }
        requires ended { ended ≡ true → IsAtEnd (S.left self.old.source) }
        ensures stream { (left : Option (List ℕ)) (faults : ℕ) → IsStreamOf S.Source left faults self.old → IsStreamOf S.Source left faults self.new }
        ensures more { (found : List (List ℕ)) × (messages_so_far self.new ≡ messages_so_far self.old ++ found) }
        ensures on { self.new.stage ≡ stage.Going → (ended ≡ false) × (self.new.text ≡ self.old.text) }
        ensures text { (self.new.text ≡ self.old.text) ⊎ ((stop : FileStop) × (self.new.stage ≡ stage.Stopped stop)) }
    {
        let mut cutter = self.cutter;
        self.found.clear();
        let rest = after(self.text.bytes(), self.taken);
        let count = match cutter.cut_piece(rest, ended, MOST_FOUND, &mut self.found) {
            Some(count) => count,
            None => return self.refuse(alloc, ended),
        };
        if self.found.len() == MOST_FOUND {
            return self.stop();
        }
        if self.places.len() + self.found.len() > MESSAGE_LIMIT as usize {
            return self.refuse(alloc, ended);
        }
        self.keep(cutter, count, ended);
    }

    /// Reads the next piece of it, and cuts it.
    fn advance(&mut self, alloc: Global)
        requires going { self.old.stage ≡ stage.Going }
        requires stream { (left : Option (List ℕ)) × (faults : ℕ) × IsStreamOf S.Source left faults self.old }
        ensures stream { (left : Option (List ℕ)) (faults : ℕ) → IsStreamOf S.Source left faults self.old → IsStreamOf S.Source left faults self.new }
        // What was found before stays.
        ensures more { (found : List (List ℕ)) × (messages_so_far self.new ≡ messages_so_far self.old ++ found) }
        // It goes on only where there were more bytes.
        ensures on { self.new.stage ≡ stage.Going → length self.old.text < length self.new.text }
        // It has no more than a piece more, unless it stopped.
        ensures piece { (length self.new.text ≤ length self.old.text + chunk_bytes) ⊎ ((stop : FileStop) × (self.new.stage ≡ stage.Stopped stop)) }
    {
        let until = (self.text.bytes().len() + CHUNK).min(FILE_LIMIT + 1);
        let ended = match self.fill(until) {
            Ok(ended) => ended,
            Err(stop) => {
                self.stage = Stage::Stopped(stop);
                return;
            }
        };
        if self.text.bytes().len() > FILE_LIMIT {
            return self.refuse(alloc, false);
        }
        self.cut(alloc, ended);
    }

    /// Reads on until it has more than so many messages, or is read no further.
    pub fn read_past(&mut self, alloc: Global, count: usize)
        requires stream { (left : Option (List ℕ)) × (faults : ℕ) × IsStreamOf S.Source left faults self.old }
        ensures stream { (left : Option (List ℕ)) (faults : ℕ) → IsStreamOf S.Source left faults self.old → IsStreamOf S.Source left faults self.new }
        // What was found before stays.
        ensures more { (found : List (List ℕ)) × (messages_so_far self.new ≡ messages_so_far self.old ++ found) }
        ensures on { self.new.stage ≡ stage.Going → count < length self.new.places.items }
    {
        while self.places.len() <= count && self.is_going() {
            self.advance(alloc);
        }
    }
}
