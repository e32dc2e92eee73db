//! What a disk in memory has been through.

ghost use Rattle.std.specs.Prelude.{◌≡◌, ◌+◌, ◌≤◌, [], ◌∷◌, Some, length, OnOk, OnErr};
ghost use Rattle.corr_disk.specs.Disk.{written, most_disk_bytes};
ghost use Rattle.corr_disk.specs.Past.{bytes_after};
ghost use Rattle.corr_disk.specs.inner.Past.{History, Settles};

use corr_text::{Memory, Text};
use std::alloc::Global;
use std::marker::Model;

/// One write that was done.
#[derive(Drop)]
pub(crate) struct Write {
    at: u64,
    piece: Text,
    /// The disk was synced since the write before.
    after_sync: bool,
}

/// The bytes of a disk in memory, and each of its steps, so that it can tell what a crash might have left at
/// any moment since it was made.
#[derive(Drop)]
pub(crate) struct Past {
    alloc: Global,
    first: Text,
    /// The bytes, from the first write on.
    current: Option<Vec<u8>>,
    writes: Vec<Write>,
    /// It was synced since the last write.
    synced: bool,
}

impl Model for Past {
    ghost use Rattle.std.specs.Prelude.{◌≡◌, unwrap_or, option_map};
    ghost use Rattle.corr_disk.specs.Past.{bytes_after};
    ghost use Rattle.corr_disk.specs.inner.Past.{History, steps_of};

    ghost Value = { History };

    ghost view = { λ p. record { first = p.first; steps = steps_of p.writes.items p.synced } };

    ghost invariant = { λ p. unwrap_or (option_map (λ v. v.items) p.current) p.first
        ≡ bytes_after p.first (steps_of p.writes.items p.synced) };
}

impl Past {
    /// A disk with these bytes, all of them synced.
    pub(crate) fn new(alloc: Global, bytes: Text) -> Past
        ensures first { result.first ≡ bytes }
        ensures steps { result.steps ≡ [] }
    {
        Past {
            alloc,
            first: bytes,
            current: None,
            writes: Vec::new(alloc),
            synced: false,
        }
    }

    /// What a read gives.
    pub(crate) fn bytes(&self) -> &[u8]
        ensures { result.now ≡ bytes_after self.now.first self.now.steps }
    {
        match &self.current {
            Some(bytes) => bytes.as_slice(),
            None => self.first.bytes(),
        }
    }

    /// The same, and the disk is gone. Takes no memory.
    pub(crate) fn into_bytes(self) -> Text
        ensures { result ≡ bytes_after self.first self.steps }
    {
        let Past { first, current, .. } = self;
        match current {
            Some(bytes) => Text::from_vec(bytes),
            None => first,
        }
    }

    /// Writes over what is there and past the end.
    pub(crate) fn write(&mut self, at: u64, piece: &[u8]) -> Result<(), Memory>
        requires no_gap { at ≤ length (bytes_after self.old.first self.old.steps) }
        requires room { at + length piece.now ≤ most_disk_bytes }
        ensures first { self.new.first ≡ self.old.first }
        ensures ok { OnOk result (self.new.steps ≡ Some (at, piece.now) ∷ self.old.steps) }
        ensures err { OnErr result (self.new.steps ≡ self.old.steps) }
    {
        if self.current.is_none() {
            self.current = Some(Vec::from_slice(self.alloc, self.first.bytes())?);
        }
        if let Some(bytes) = &mut self.current {
            let write = Write {
                at,
                piece: Text::from_bytes(self.alloc, piece)?,
                after_sync: self.synced,
            };
            self.writes.push(write)?;
            if overwrite(bytes, at as usize, piece).is_err() {
                self.writes.pop();
                return Err(Memory);
            }
            self.synced = false;
        }
        Ok(())
    }

    /// Makes what a read gives the only image. Takes no memory.
    pub(crate) fn sync(&mut self)
        ensures first { self.new.first ≡ self.old.first }
        ensures settled { Settles self.old.steps self.new.steps }
    {
        self.synced = true;
    }
}

/// Puts a piece over the bytes from a place on.
pub(crate) fn overwrite(bytes: &mut Vec<u8>, at: usize, piece: &[u8]) -> Result<(), Memory>
    requires no_gap { at ≤ length bytes.old.items }
    requires room { at + length piece.now ≤ most_disk_bytes }
    ensures ok { OnOk result (bytes.new.items ≡ written at piece.now bytes.old.items) }
    ensures err { OnErr result (bytes.new.items ≡ bytes.old.items) }
{
    let over = piece.len().min(bytes.len() - at);
    bytes.extend_from_slice(&piece[over..])?;
    bytes[at..at + over].copy_from_slice(&piece[..over]);
    Ok(())
}
