//! Places whose value changes.

ghost use Rattle.std.specs.Prelude.{◌≡◌};

/// Puts a value in the place of another. To let go of that is one step for a caller's proof then, whatever parts it has.
pub(crate) fn put<T: Drop>(place: &mut T, value: T)
    ensures { place.new ≡ value }
{
    *place = value;
}
