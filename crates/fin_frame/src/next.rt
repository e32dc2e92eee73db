//! What a piece goes on with where a message may begin.

ghost use Rattle.std.specs.Prelude.{◌≡◌, ◌<◌, length};
ghost use Rattle.fin_frame.specs.inner.Next.{IsNext};
ghost use Rattle.fin_frame.specs.Shown.{is_over};

use crate::whole::{Front, is_led, is_part, message_front};

/// What a piece goes on with where a message may begin.
pub(crate) enum Next {
    /// A message of so many bytes that is shown to be whole, or ends the file.
    Message(usize),
    /// Bytes of which more must come.
    Open,
    /// Bytes that show a fault, or the last ones, which end within a group.
    Faulty,
}

/// What the bytes go on with.
pub(crate) fn next_message(bytes: &[u8], last: bool) -> Next
    requires some { 0 < length bytes.now }
    ensures { IsNext last bytes.now result }
{
    if !is_led(bytes) {
        return if is_part(bytes) && !last {
            Next::Open
        } else {
            Next::Faulty
        };
    }
    match message_front(bytes) {
        Front::Whole(len) => {
            let after = &bytes[len..];
            if after.is_empty() {
                if last { Next::Message(len) } else { Next::Open }
            } else if is_over(after) {
                Next::Message(len)
            } else {
                Next::Faulty
            }
        }
        Front::Open => { if last { Next::Faulty } else { Next::Open } }
        Front::Long => Next::Faulty,
    }
}

/// Whether the bytes after a message show that it is whole.
fn is_over(bytes: &[u8]) -> bool
    ensures { result ≡ is_over bytes.now }
{
    match bytes {
        [b'\n' | b'\r' | b' ' | b'$', ..] => true,
        _ => is_led(bytes),
    }
}
