//! Sinks that look at the journal before they are written to.

ghost use Rattle.std.specs.Prelude.{None};

use corr_disk::FileWatch;
use corr_io::{Failed, Sink, StdSink, count_fault};
use corr_text::Text;
use std::sync::atomic::{AtomicBool, Ordering};

/// The journal of a folder: its path, what its disk knows of its file, and whether it was looked for and found before anything was
/// written.
#[derive(Drop)]
pub struct Journal {
    path: Text,
    watch: FileWatch,
    was_sought: AtomicBool,
    was_found: AtomicBool,
}

impl Journal {
    pub fn new(path: Text) -> Journal {
        Journal {
            path,
            watch: FileWatch::new(),
            was_sought: AtomicBool::new(false),
            was_found: AtomicBool::new(false),
        }
    }

    /// Where the disk notes what it knows of its file.
    pub fn watch(&self) -> &FileWatch {
        &self.watch
    }

    /// Whether the file of the disk is there. It looks once, and answers the same ever after.
    pub fn find(&self, rt: &HostRuntime) -> bool {
        if !self.was_sought.load(Ordering::SeqCst) {
            let is_there = self.watch.is_there(rt, &self.path);
            self.was_found.store(is_there, Ordering::SeqCst);
            self.was_sought.store(true, Ordering::SeqCst);
        }
        self.was_found.load(Ordering::SeqCst)
    }
}

/// Standard output or a file, to which nothing is written where the journal was removed, replaced or cut since it was opened. Of the
/// sinks of one journal the first write to any of them looks.
#[derive(Drop)]
pub struct GuardedSink<'a> {
    rt: &'a HostRuntime,
    journal: &'a Journal,
    sink: StdSink<'a, HostRuntime>,
    faults: u64,
}

impl<'a> GuardedSink<'a> {
    pub fn new(
        rt: &'a HostRuntime,
        journal: &'a Journal,
        sink: StdSink<'a, HostRuntime>,
    ) -> GuardedSink<'a> {
        GuardedSink {
            rt,
            journal,
            sink,
            faults: 0,
        }
    }
}

impl<'a> Sink for GuardedSink<'a> {
    ghost held = { λ _. None };

    ghost faults = { λ s. s.faults };

    fn write(&mut self, piece: &[u8]) -> Result<usize, Failed> {
        if !self.journal.find(self.rt) {
            return Err(count_fault(&mut self.faults));
        }
        match self.sink.write(piece) {
            Ok(count) => Ok(count),
            Err(Failed) => Err(count_fault(&mut self.faults)),
        }
    }

    fn faults(&self) -> u64 {
        self.faults
    }
}
