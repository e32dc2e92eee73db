//! Texts copied.

ghost use Rattle.std.specs.Prelude.{◌≡◌, ◌++◌, IfOk, OnOk, OnErr};

use crate::list::List;
use crate::memory::Memory;
use crate::text::Text;
use std::alloc::Global;

/// The same texts once more, in their order.
pub fn copy_texts(alloc: Global, texts: &[Text]) -> Result<List<Text>, Memory>
    ensures { IfOk result (λ copies. copies ≡ texts.now) }
{
    let mut copies = List::with_room(alloc, texts.len())?;
    for text in texts {
        copies.push(text.copy(alloc)?)?;
    }
    Ok(copies)
}

/// Adds the same texts once more at the end of a list, in their order.
///
/// `Memory`: there was no room; then nothing was added.
pub fn push_texts(alloc: Global, texts: &[Text], out: &mut List<Text>) -> Result<(), Memory>
    ensures ok { OnOk result (out.new ≡ out.old ++ texts.now) }
    ensures err { OnErr result (out.new ≡ out.old) }
{
    let copies = copy_texts(alloc, texts)?;
    out.append(copies)
}
