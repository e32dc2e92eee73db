//! The bytes of a disk that are held: those in front of a buffer whose length stays.

ghost use Rattle.std.specs.Prelude.{◌≡◌, ◌≤◌, ◌<◌, [], drop, length, take, IfErr, IfOk, IsTrue, OnOk};
ghost use Rattle.corr_disk.specs.Calls.{AtMostCalls, CallsMade};
ghost use Rattle.corr_disk.specs.Disk.{most_disk_bytes};
ghost use Rattle.jrn_file.specs.inner.Faults.{LoadCause};
ghost use Rattle.jrn_file.specs.inner.Opening.{ExplainsLoad};
ghost use Rattle.jrn_file.specs.inner.Pieces.{IsPiece};
ghost use Rattle.jrn_file.specs.Untouched.{IsUntouched};

use crate::loading::LoadFault;
use corr_disk::Disk;
use std::alloc::{AllocError, Global};
use std::marker::Model;

/// Bytes that were read and not yet taken. Contracts see them alone, and not what is left of others after them.
#[derive(Drop)]
pub(crate) struct Held {
    buffer: Vec<u8>,
    filled: usize,
}

impl Model for Held {
    ghost use Rattle.std.specs.Prelude.{List, ℕ, length, take, ◌≤◌};

    ghost Value = { List ℕ };

    ghost view = { λ h. take h.filled h.buffer.items };

    ghost invariant = { λ h. h.filled ≤ length h.buffer.items };
}

impl Held {
    /// No bytes.
    pub(crate) fn new(alloc: Global) -> Held
        ensures { result ≡ [] }
    {
        Held {
            buffer: Vec::new(alloc),
            filled: 0,
        }
    }

    /// The bytes.
    pub(crate) fn bytes(&self) -> &[u8]
        ensures { result.now ≡ self.now }
    {
        &self.buffer[..self.filled]
    }

    /// How many there are.
    pub(crate) fn len(&self) -> usize
        ensures { result ≡ length self.now }
    {
        self.filled
    }

    /// Drops so many bytes in front. Where there are none to drop, nothing is moved.
    pub(crate) fn drop_front(&mut self, count: usize)
        requires { count ≤ length self.old }
        ensures { self.new ≡ drop count self.old }
    {
        if count > 0 {
            self.buffer.copy_within(count..self.filled, 0);
            self.filled -= count;
        }
    }
}

/// Makes a buffer at least so long, by zeros after what it holds. One that is long enough is left as it is.
fn lengthen(buffer: &mut Vec<u8>, len: usize) -> Result<(), AllocError>
    ensures long { OnOk result (len ≤ length buffer.new.items) }
    ensures no_shorter { length buffer.old.items ≤ length buffer.new.items }
    ensures front { take (length buffer.old.items) buffer.new.items ≡ buffer.old.items }
{
    if buffer.len() < len {
        buffer.resize(len, 0)?;
    }
    Ok(())
}

/// Reads so many bytes from this place of the disk on, or as many as there are, and puts them after the held ones.
pub(crate) fn read_piece<D: Disk>(
    disk: &mut D,
    at: u64,
    piece: usize,
    held: &mut Held,
) -> Result<usize, LoadFault>
    requires few { piece ≤ most_disk_bytes }
    ensures piece { IfOk result (λ n. IsPiece (D.honest disk.old) (D.reads disk.old) at piece n held.old held.new) }
    ensures fault { IfErr result (ExplainsLoad (D.honest disk.old) (D.reads disk.old)) }
    ensures untouched { IsUntouched D.reads D.may_leave D.moment D.left_since disk.old disk.new }
    ensures honest { D.honest disk.new ≡ D.honest disk.old }
    ensures cause { IfErr result (LoadCause (D.faults disk.old) (D.faults disk.new)) }
    ensures kept { OnOk result (D.faults disk.new ≡ D.faults disk.old) }
    ensures calls { OnOk result (CallsMade 1 (D.plan disk.old) (D.plan disk.new)) }
    ensures no_more_calls { AtMostCalls 1 (D.plan disk.old) (D.plan disk.new) }
{
    let old = held.filled;
    let end = old + piece;
    lengthen(&mut held.buffer, end)?;
    let count = disk.read_at(at, &mut held.buffer[old..end])?;
    held.filled = old + count;
    Ok(count)
}
