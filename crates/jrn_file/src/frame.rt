//! A record as it is appended.

ghost use Rattle.std.specs.Prelude.{◌≡◌, ◌≤◌, length, IfOk};
ghost use Rattle.jrn_file.specs.Journal.{frame_of};
ghost use Rattle.jrn_file.specs.Reading.{most_record_bytes};

use corr_text::Memory;
use std::alloc::Global;

/// A record after its length in four bytes, and a closed gate after it.
pub(crate) fn framed(alloc: Global, body: &[u8]) -> Result<Vec<u8>, Memory>
    requires { length body.now ≤ most_record_bytes }
    ensures { IfOk result (λ frame. frame.items ≡ frame_of body.now) }
{
    let mut frame = Vec::from_slice(alloc, &(body.len() as u32).to_be_bytes())?;
    frame.extend_from_slice(body)?;
    frame.push(0)?;
    Ok(frame)
}
