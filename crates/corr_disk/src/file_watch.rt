//! What a disk on a real file tells others of its file.

use crate::held_file::Known;
use corr_text::Text;
use std::rt::Files;
use std::sync::atomic::{AtomicBool, AtomicU64, Ordering};

/// Which file a `FileDisk` has opened, and how long it must be at least: for those who look at it while the disk is away, as
/// lent to a command. The disk notes it; no clause says what it holds.
#[derive(Drop)]
pub struct FileWatch {
    device: AtomicU64,
    node: AtomicU64,
    len: AtomicU64,
    is_open: AtomicBool,
}

impl FileWatch {
    /// That of no file.
    pub fn new() -> FileWatch {
        FileWatch {
            device: AtomicU64::new(0),
            node: AtomicU64::new(0),
            len: AtomicU64::new(0),
            is_open: AtomicBool::new(false),
        }
    }

    /// Whether the disk's file still stands at this path, no shorter than it must be; also where the disk has opened none.
    pub fn is_there<R: Files>(&self, rt: &R, path: &Text) -> bool {
        !self.is_open.load(Ordering::SeqCst) || self.known().find(rt, path).is_ok()
    }

    /// Notes that this file is open.
    pub(crate) fn note(&self, known: Known) {
        self.device.store(known.device, Ordering::SeqCst);
        self.node.store(known.node, Ordering::SeqCst);
        self.len.store(known.len, Ordering::SeqCst);
        self.is_open.store(true, Ordering::SeqCst);
    }

    fn known(&self) -> Known {
        Known {
            device: self.device.load(Ordering::SeqCst),
            node: self.node.load(Ordering::SeqCst),
            len: self.len.load(Ordering::SeqCst),
        }
    }
}
