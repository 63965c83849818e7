//! How a crossing off the grid becomes a whole point: by a radius within which it goes to an end, or late, to no end.

/// How a crossing off the grid becomes a whole point.
#[derive(Clone, Copy, Debug, PartialEq, Eq)]
pub enum Rounding {
    /// It is rounded down along a horizontal or vertical target, else to the nearest whole point, halves up. From there it
    /// goes to the nearest of the four ends, where that is within this squared distance.
    Near(u64),
    /// It goes to the nearest whole point, halves up, and to no end. That point may be an end of one of the two, which is
    /// then not marked there.
    Nearest,
}
