//! A source, read whole or past a limit.

ghost use Rattle.std.specs.Prelude.{◌≡◌, ◌≤◌, ◌<◌, ◌^◌, ℕ, List, true, false, length, vec_len, IfOk, IfErr, OnOk};
ghost use Rattle.std.specs.Io.KnownBytes.{IsAtEnd};
ghost use Rattle.std.specs.declared.option.Option.{Option};
ghost use Rattle.corr_top.specs.Reading.{Took};
ghost use Rattle.corr_top.specs.inner.Reading.{AddsRead, AddsSome, IsStopped, chunk_bytes};

use corr_io::Source;
use corr_text::{Memory, Text};
use std::alloc::{AllocError, Global};

/// How many bytes one read asks for at most.
pub const CHUNK: usize = 65536;

/// Why a source was not read: its count of faults rose by one, from `before` to `after`, or memory ran out.
#[derive(Drop)]
pub enum ReadStop {
    Fault { before: u64, after: u64 },
    Memory,
}

impl From<Memory> for ReadStop {
    ghost use Rattle.corr_top.specs.declared.reading.ReadStop.TheVariants.{Memory as NoMemory};

    ghost from_gives = { λ _ e. e ≡ NoMemory };

    fn from(_e: Memory) -> ReadStop {
        ReadStop::Memory
    }
}

impl From<AllocError> for ReadStop {
    ghost use Rattle.corr_top.specs.declared.reading.ReadStop.TheVariants.{Memory as NoMemory};

    ghost from_gives = { λ _ e. e ≡ NoMemory };

    fn from(_e: AllocError) -> ReadStop {
        ReadStop::Memory
    }
}

pub fn make_chunk(alloc: Global) -> Result<Vec<u8>, AllocError>
    ensures { IfOk result (λ v. vec_len v ≡ chunk_bytes) }
{
    vec![in alloc; 0u8; CHUNK]
}

/// Reads behind a text until it has so many bytes, or nothing is left of the source, which it tells. `Fault`: a read failed. What was
/// read before a failure stays; where memory ran out the bytes of the last read are lost.
pub fn read_until<S: Source>(
    source: &mut S,
    chunk: &mut [u8],
    until: usize,
    text: &mut Text,
) -> Result<bool, ReadStop>
    requires chunk { length chunk.old ≡ chunk_bytes }
    ensures read { OnOk result (AddsRead (S.left source.old) (S.left source.new) text.old text.new) }
    ensures kept { OnOk result (S.faults source.new ≡ S.faults source.old) }
    ensures ended { IfOk result (λ ended. ended ≡ true → IsAtEnd (S.left source.new)) }
    ensures full { IfOk result (λ ended. ended ≡ false → until ≤ length text.new) }
    ensures bound { length text.old ≤ until → length text.new ≤ until }
    ensures stopped { IfErr result (IsStopped S.faults source.old source.new) }
    ensures text { AddsSome (S.left source.old) (S.left source.new) until text.old text.new }
{
    let before = source.faults();
    while text.bytes().len() < until {
        let room = (until - text.bytes().len()).min(CHUNK);
        let room = &mut chunk[..room];
        match source.read(room) {
            Ok(0) => return Ok(true),
            Ok(count) => text.push(&room[..count])?,
            Err(_) => {
                return Err(ReadStop::Fault {
                    before,
                    after: source.faults(),
                });
            }
        }
    }
    Ok(false)
}

/// The bytes of a source up to its end, or one byte more than `limit` where it has more than that. `Fault`: a read failed.
pub fn read_whole<S: Source>(alloc: Global, source: &mut S, limit: usize) -> Result<Text, ReadStop>
    requires { limit < 2 ^ 32 }
    ensures read { IfOk result (Took S.left S.faults limit source.old source.new) }
    ensures stopped { IfErr result (IsStopped S.faults source.old source.new) }
{
    let mut text = Text::from_bytes(alloc, &[])?;
    let mut chunk = make_chunk(alloc)?;
    read_until(source, &mut chunk, limit + 1, &mut text)?;
    Ok(text)
}
