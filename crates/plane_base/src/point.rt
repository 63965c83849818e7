//! Points of whole coordinates, and their order: by x, then by y.

ghost use Rattle.std.specs.Prelude.{◌≡◌};

/// A point, ordered by x and then by y.
#[derive(Clone, Copy, Debug, PartialEq, Eq, PartialOrd, Ord)]
pub struct IntPoint<I> {
    pub x: I,
    pub y: I,
}

impl<I> IntPoint<I> {
    /// The point with these coordinates.
    pub fn new(x: I, y: I) -> Self
        ensures x { result.x ≡ x }
        ensures y { result.y ≡ y }
    {
        IntPoint { x, y }
    }
}
