//! Values that end or are replaced apart from the function that had them.

ghost use Rattle.std.specs.Prelude.{◌≡◌, None};

/// Lets a value go. A function makes room at its start for the parts of each value that ends in it: with this call that room
/// is made where the value ends.
#[inline(never)]
pub fn let_go<T: Drop>(_x: T) {}

/// Puts a value in the place of another, which ends, as in `let_go`.
#[inline(never)]
pub fn put<T: Drop>(place: &mut T, x: T)
    ensures { place.new ≡ x }
{
    *place = x;
}

/// Makes a place hold nothing. What it held, if anything, ends apart, as in `let_go`.
#[inline(always)]
pub fn clear<T: Drop>(place: &mut Option<T>)
    ensures { place.new ≡ None }
{
    if place.is_some() {
        put_none(place);
    }
}

/// Puts nothing in the place of a value, which ends apart.
#[inline(never)]
fn put_none<T: Drop>(place: &mut Option<T>)
    ensures { place.new ≡ None }
{
    *place = None;
}
