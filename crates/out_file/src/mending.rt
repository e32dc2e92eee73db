//! What a file of messages that leave should hold.

ghost use Rattle.std.specs.Prelude.{◌≡◌, ◌++◌, ◌||◌, [], IfOk, OnOk, ℕ, List, filter, map, not, if◌then◌else◌};
ghost use Rattle.std.specs.Str.{bytes_eq};
ghost use Rattle.std.specs.List.{concat, list_any};
ghost use Rattle.out_file.specs.Mended.{mended_of, stands_in};

use crate::cutting::messages_in;
use corr_text::{Memory, Text};
use indexmap::IndexSet;
use std::alloc::Global;

/// Adds a message to a set.
fn add<'a>(set: &mut IndexSet<&'a [u8]>, message: &'a [u8]) -> Result<(), Memory>
    ensures { OnOk result ((other : List ℕ) → list_any (λ key. bytes_eq other key.now) set.new.keys ≡ (list_any (λ key. bytes_eq other key.now) set.old.keys || bytes_eq other message.now)) }
{
    set.insert(message)?;
    Ok(())
}

/// The messages as a set.
fn set_of<'a>(alloc: Global, messages: &[&'a [u8]]) -> Result<IndexSet<&'a [u8]>, Memory>
    ensures { IfOk result (λ set. (message : List ℕ) → list_any (λ key. bytes_eq message key.now) set.keys ≡ stands_in (map (λ m. m.now) messages.now) message) }
{
    let mut set = IndexSet::new(alloc);
    for message in messages {
        add(&mut set, *message)?;
    }
    Ok(set)
}

/// Adds a message that isn't in a set.
fn push_unless(text: &mut Text, set: &IndexSet<&[u8]>, message: &[u8]) -> Result<(), Memory>
    ensures { OnOk result (text.new ≡ text.old ++ (if list_any (λ key. bytes_eq message.now key.now) set.now.keys then [] else message.now)) }
{
    if !set.contains(message) {
        text.push(message)?;
    }
    Ok(())
}

/// Adds the messages that aren't in a set, in their order.
fn push_lacking(text: &mut Text, set: &IndexSet<&[u8]>, messages: &[&[u8]]) -> Result<(), Memory>
    ensures { OnOk result (text.new ≡ text.old ++ concat (filter (λ message. not (list_any (λ key. bytes_eq message key.now) set.now.keys)) (map (λ m. m.now) messages.now))) }
{
    for message in messages {
        push_unless(text, set, message)?;
    }
    Ok(())
}

/// What a file of messages that leave should hold, where those of `sent` should stand in it: its whole messages as they stand, then those
/// of `sent` that don't stand whole in it, in their order. A message is what ends with a `$`; bytes after the last `$` of either are
/// dropped.
///
/// `Memory`: there was no room.
pub fn mended(alloc: Global, file: &[u8], sent: &[u8]) -> Result<Text, Memory>
    ensures { IfOk result (λ text. text ≡ mended_of file.now sent.now) }
{
    let whole = messages_in(alloc, file)?;
    let set = set_of(alloc, whole.as_slice())?;
    let asked = messages_in(alloc, sent)?;
    let mut text = Text::with_room(alloc, &[], file.len())?;
    text.push_all(whole.as_slice())?;
    push_lacking(&mut text, &set, asked.as_slice())?;
    Ok(text)
}
