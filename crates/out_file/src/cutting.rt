//! The messages of a file, each up to a `$`.

ghost use Rattle.std.specs.Prelude.{◌≡◌, ◌==◌, ◌<◌, ◌++◌, ◌∷◌, [], None, IfOk, IfSome, length, map};
ghost use Rattle.std.specs.List.{position};
ghost use Rattle.out_file.specs.Mended.{messages_of};

use corr_text::{List, Memory};
use std::alloc::Global;

/// The place of the first `$`, from 0.
fn dollar(bytes: &[u8]) -> Option<usize>
    ensures { result ≡ position (λ b. b == 36) bytes.now }
{
    bytes.iter().position(|b| *b == b'$')
}

/// Cuts bytes after their first `$`; none where they have none.
fn cut(bytes: &[u8]) -> Option<(&[u8], &[u8])>
    ensures first { IfSome result (λ cut. messages_of bytes.now ≡ cut.0.now ∷ messages_of cut.1.now) }
    ensures shorter { IfSome result (λ cut. length cut.1.now < length bytes.now) }
    ensures none { result ≡ None → messages_of bytes.now ≡ [] }
{
    let at = dollar(bytes)?;
    Some(bytes.split_at(at + 1))
}

/// The messages of a file where they stand, each with its `$`; bytes after the last `$` are none.
///
/// `Memory`: there was no room for the list.
pub(crate) fn messages_in(alloc: Global, file: &[u8]) -> Result<List<&[u8]>, Memory>
    ensures { IfOk result (λ messages. map (λ message. message.now) messages ≡ messages_of file.now) }
{
    let mut messages = List::new(alloc);
    let mut rest = file;
    while let Some((message, after)) = cut(rest) {
        messages.push(message)?;
        rest = after;
    }
    Ok(messages)
}
