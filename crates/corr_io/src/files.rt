//! What an adapter does with a real file. `corr_disk` uses it too.

ghost use Rattle.std.specs.Prelude.{◌<◌, length, OnOk, IfOk, IsTrue};
ghost use Rattle.std.specs.Io.{ReadsAtMost, WritesAtMost};
ghost use Rattle.std.specs.Str.{is_utf8};

use corr_text::{Failed, Text};
use std::fs::OpenOptions;
use std::io::{ErrorKind, Read, Write};
use std::os::unix::fs::FileExt;
use std::rt::Files;

/// How often a read or a write is made that a signal interrupts each time.
const TRIES: u32 = 1000;

/// Opens a file. `Failed` comes where the path is not UTF-8, which names none, and where the system doesn't open it.
pub fn open_at<R: Files>(rt: &R, path: &Text, how: &OpenOptions) -> Result<R::File, Failed>
    ensures { OnOk result (IsTrue (is_utf8 path.now)) }
{
    match str::from_utf8(path.bytes()) {
        Ok(path) => how.open(rt, path).map_err(|_| Failed),
        Err(_) => Err(Failed),
    }
}

/// Reads once, and again where a signal interrupted the read, a bounded number of times. Every other error
/// is a failure, that of a folder's read among them.
pub fn read_some<F: Read>(file: &mut F, buf: &mut [u8]) -> Result<usize, Failed>
    ensures { ReadsAtMost result buf.new }
{
    for _ in 0..TRIES {
        match file.read(buf) {
            Ok(count) => return Ok(count),
            Err(error) if error.kind() == ErrorKind::Interrupted => {}
            Err(_) => return Err(Failed),
        }
    }
    Err(Failed)
}

/// Reads once at a place, as `read_some` does from where the file stands.
pub fn read_some_at<F: FileExt>(file: &F, at: u64, buf: &mut [u8]) -> Result<usize, Failed>
    ensures { ReadsAtMost result buf.new }
{
    for _ in 0..TRIES {
        match file.read_at(buf, at) {
            Ok(count) => return Ok(count),
            Err(error) if error.kind() == ErrorKind::Interrupted => {}
            Err(_) => return Err(Failed),
        }
    }
    Err(Failed)
}

/// Writes once, and again where a signal interrupted the write, a bounded number of times. A write that takes
/// nothing of a piece that is not empty is a failure.
pub fn write_some<F: Write>(file: &mut F, piece: &[u8]) -> Result<usize, Failed>
    ensures bound { WritesAtMost result piece.now }
    ensures progress { IfOk result (λ n. 0 < length piece.now → 0 < n) }
{
    for _ in 0..TRIES {
        match file.write(piece) {
            Ok(0) if !piece.is_empty() => return Err(Failed),
            Ok(count) => return Ok(count),
            Err(error) if error.kind() == ErrorKind::Interrupted => {}
            Err(_) => return Err(Failed),
        }
    }
    Err(Failed)
}
