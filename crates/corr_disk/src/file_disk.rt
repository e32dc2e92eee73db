//! A real file.

ghost use Rattle.std.specs.Prelude.{◌≡◌, ◌≤◌, [], ℕ, Some, None, Ok, true, false, length, if◌then◌else◌, IsTrue, IfOk, OnOk};
ghost use Rattle.std.specs.Option.{ForSome};
ghost use Rattle.std.specs.Str.{is_utf8};
ghost use Rattle.corr_disk.specs.Laws.{not_told};
ghost use Rattle.corr_text.specs.Faults.{HasCause};

use crate::file_watch::FileWatch;
use crate::held_file::{Cause, HeldFile, Hold, Trouble};
use crate::{Disk, Failed};
use corr_io::count_fault;
use corr_text::Text;
use std::fs::File;
use std::rt::Files;

/// A real file, which is opened or made at the first call, and held against other programs from then on until the disk ends. It
/// tells neither its bytes nor its images: what a file holds, and what a sync of it has made sure of, is trusted of the system.
///
/// With a path that isn't UTF-8 every call fails. Where another program holds the file, the call fails, waits for nobody and
/// writes nothing. `len` fails where another file or none stands at the path, and, as a write past the end, where the file is
/// shorter than it was seen or written. A read that a signal interrupts is made again, 1,000 times at most; an opening, a write
/// and a sync as often as one does.
#[derive(Drop)]
pub struct FileDisk<'a, R: Files> {
    rt: &'a R,
    path: Text,
    hold: Hold,
    watch: Option<&'a FileWatch>,
    held: Option<HeldFile<'a>>,
    trouble: Option<Trouble>,
    faults: u64,
    ghost opened: { ForSome held (λ _. IsTrue (is_utf8 path)) },
}

impl<'a, R: Files<File = File>> FileDisk<'a, R> {
    /// The file at this path, not yet opened, to be held alone: no other program holds it then, not for reading either.
    pub fn new(rt: &'a R, path: Text) -> FileDisk<'a, R>
        ensures faults { ⟦<FileDisk<'a, R> as Disk>⟧.faults result ≡ 0 }
        ensures plan { (k : ℕ) → ⟦<FileDisk<'a, R> as Disk>⟧.plan result k ≡ (if is_utf8 path then None else Some true) }
    {
        closed(rt, path, Hold::Alone)
    }

    /// The file at this path, not yet opened, to be held beside others that hold it so: for who only reads it.
    pub fn shared(rt: &'a R, path: Text) -> FileDisk<'a, R>
        ensures faults { ⟦<FileDisk<'a, R> as Disk>⟧.faults result ≡ 0 }
        ensures plan { (k : ℕ) → ⟦<FileDisk<'a, R> as Disk>⟧.plan result k ≡ (if is_utf8 path then None else Some true) }
    {
        closed(rt, path, Hold::Shared)
    }

    /// This disk, which notes in `watch` what is known of its file.
    pub fn watched(self, watch: &'a FileWatch) -> FileDisk<'a, R>
        ensures faults { ⟦<FileDisk<'a, R> as Disk>⟧.faults result ≡ ⟦<FileDisk<'a, R> as Disk>⟧.faults self.entry }
        ensures plan { ⟦<FileDisk<'a, R> as Disk>⟧.plan result ≡ ⟦<FileDisk<'a, R> as Disk>⟧.plan self.entry }
    {
        let mut disk = self;
        disk.watch = Some(watch);
        disk
    }

    /// What was wrong with the file when the newest of the calls that failed did so; none where the system refused that call,
    /// or no call has failed.
    pub fn trouble(&self) -> Option<Trouble> {
        self.trouble
    }

    /// Opens or makes the file and holds it, where it isn't open.
    fn open(&mut self) -> Result<(), Cause>
        ensures path { self.new.path ≡ self.old.path }
        ensures faults { self.new.faults ≡ self.old.faults }
    {
        if self.held.is_none() {
            let held = HeldFile::open(self.rt, &self.path, self.hold, self.watch)?;
            self.held = Some(held);
        }
        Ok(())
    }

    fn measure(&mut self) -> Result<u64, Cause>
        ensures path { self.new.path ≡ self.old.path }
        ensures faults { self.new.faults ≡ self.old.faults }
        ensures open { OnOk result (IsTrue (is_utf8 self.old.path)) }
    {
        self.open()?;
        match &mut self.held {
            Some(held) => held.look(self.rt, &self.path),
            None => Err(None),
        }
    }

    fn read(&mut self, at: u64, buf: &mut [u8]) -> Result<usize, Cause>
        ensures path { self.new.path ≡ self.old.path }
        ensures faults { self.new.faults ≡ self.old.faults }
        ensures open { OnOk result (IsTrue (is_utf8 self.old.path)) }
        ensures within { IfOk result (λ n. n ≤ length buf.old) }
    {
        self.open()?;
        match &self.held {
            Some(held) => held.fill(at, buf),
            None => Err(None),
        }
    }

    fn write(&mut self, at: u64, bytes: &[u8]) -> Result<(), Cause>
        ensures path { self.new.path ≡ self.old.path }
        ensures faults { self.new.faults ≡ self.old.faults }
        ensures open { OnOk result (IsTrue (is_utf8 self.old.path)) }
    {
        self.open()?;
        match &mut self.held {
            Some(held) => held.put(at, bytes),
            None => Err(None),
        }
    }

    fn settle(&mut self) -> Result<(), Cause>
        ensures path { self.new.path ≡ self.old.path }
        ensures faults { self.new.faults ≡ self.old.faults }
        ensures open { OnOk result (IsTrue (is_utf8 self.old.path)) }
    {
        self.open()?;
        match &self.held {
            Some(held) => held.settle(),
            None => Err(None),
        }
    }

    /// An answer to the caller; a failure is counted, and its cause kept.
    fn answer<T: Drop>(&mut self, answer: Result<T, Cause>) -> Result<T, Failed>
        ensures path { self.new.path ≡ self.old.path }
        ensures same { IfOk result (λ x. answer ≡ Ok x) }
        ensures cause { HasCause self.old.faults self.new.faults result }
    {
        match answer {
            Ok(value) => Ok(value),
            Err(cause) => {
                self.trouble = cause;
                Err(count_fault(&mut self.faults))
            }
        }
    }
}

fn closed<'a, R: Files>(rt: &'a R, path: Text, hold: Hold) -> FileDisk<'a, R>
    ensures path { result.path ≡ path }
    ensures faults { result.faults ≡ 0 }
{
    FileDisk {
        rt,
        path,
        hold,
        watch: None,
        held: None,
        trouble: None,
        faults: 0,
    }
}

impl<'a, R: Files<File = File>> Disk for FileDisk<'a, R> {
    ghost honest = { λ _. false };

    ghost reads = { λ _. [] };

    ghost may_leave = { λ _ _. ⊥ };

    ghost moment = { λ _. 0 };

    ghost left_since = { λ _ _ _. ⊥ };

    ghost faults = { λ d. d.faults };

    ghost plan = { λ d _. if is_utf8 d.path then None else Some true };

    ghost counts_now = { λ d t c le now. now };

    ghost only_now = { λ d c left. left };

    ghost reads_may_stay = { λ d honest. absurd (not_told honest) };

    fn faults(&self) -> u64 {
        self.faults
    }

    fn len(&mut self) -> Result<u64, Failed> {
        let answer = self.measure();
        self.answer(answer)
    }

    fn read_at(&mut self, at: u64, buf: &mut [u8]) -> Result<usize, Failed> {
        let answer = self.read(at, buf);
        self.answer(answer)
    }

    fn write_at(&mut self, at: u64, bytes: &[u8]) -> Result<(), Failed> {
        let answer = self.write(at, bytes);
        self.answer(answer)
    }

    fn sync(&mut self) -> Result<(), Failed> {
        let answer = self.settle();
        self.answer(answer)
    }
}
