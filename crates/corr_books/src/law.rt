//! What calls of books told stands when they are closed.

ghost use Rattle.corr_books.specs.Laws.{BaseStands, KeptStands, NewStands, MoreKeepPlaces};

/// What `book` told stands in the history of `close`, where the pass that was told so is given back, or one that knows no less: the
/// entry of a `New`, and the same pay of a `Kept`, at their places. What stood at the opening stands there too. More entries
/// move none of them, so that whatever a crash leaves has them.
pub fn told_stands()
    ensures new { NewStands }
    ensures kept { KeptStands }
    ensures base { BaseStands }
    ensures places { MoreKeepPlaces }
{}
