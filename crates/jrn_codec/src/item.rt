//! Reading the records behind the header.

ghost use Rattle.std.specs.Prelude.{◌≡◌, IfOk};
ghost use Rattle.day_model.specs.declared.change.Item.{Item as TheItem};
ghost use Rattle.jrn_codec.specs.Answers.{IsGiven};
ghost use Rattle.jrn_codec.specs.Items.{IsItem, item_bytes};

use crate::change::read_change;
use crate::entry::read_entry;
use crate::fault::EntryFault;
use day_model::Item;
use std::alloc::Global;

/// The entry or the change whose record these bytes are, all of them.
///
/// `NoEntry` comes exactly where they are the record of neither; `Memory` where there is no room for it.
pub fn read_item(alloc: Global, b: &[u8]) -> Result<Item, EntryFault>
    ensures found { IfOk result (λ item. IsItem item × (b.now ≡ item_bytes item)) }
    ensures only { (item : TheItem) → IsItem item → b.now ≡ item_bytes item → IsGiven item result }
{
    match b {
        [1, ..] => Ok(Item::Changed(read_change(alloc, b)?)),
        _ => Ok(Item::Entered(read_entry(alloc, b)?)),
    }
}
