//! In which direction contours are answered.

/// The direction of outlines; holes run the other way.
#[derive(Clone, Copy, Debug, PartialEq, Eq)]
pub enum ContourDirection {
    /// The region lies on the left of each contour.
    CounterClockwise,
    /// The region lies on the right of each contour.
    Clockwise,
}
