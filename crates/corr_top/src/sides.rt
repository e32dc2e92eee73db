//! Work that threads do side by side: each has a part of a list, and what they make is put together in the order of the list.

ghost use Rattle.std.specs.Prelude.{◌≡◌, ◌<◌, ◌≤◌, ◌++◌, IfOk};

use corr_text::{Memory, Text};

/// The fewest things for which another thread is started.
pub const FEW: u32 = 64;

/// How many of `count` things come to `some` of `threads` threads that have the same to do.
pub fn part_of(count: u32, some: u32, threads: u32) -> u32
    requires { 0 < threads }
    ensures { result ≤ count }
{
    let part = count as u64 * some as u64 / threads as u64;
    part.min(count as u64) as u32
}

/// Two texts as one.
pub fn joined(front: Text, back: Text) -> Result<Text, Memory>
    ensures { IfOk result (λ text. text ≡ front ++ back) }
{
    let mut text = front;
    text.push(back.bytes())?;
    Ok(text)
}
