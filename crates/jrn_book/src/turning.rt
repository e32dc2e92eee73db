//! Lists that are used up from their front.

ghost use Rattle.std.specs.Prelude.{◌≡◌, reverse};

/// The same items, the last one first: so `pop` gives the first one.
pub(crate) fn turned<T>(items: Vec<T>) -> Vec<T>
    ensures { result.items ≡ reverse items.items }
{
    let mut items = items;
    items.reverse();
    items
}
