//! Where a point lies.

/// Where a point lies in shapes.
#[derive(Clone, Copy, Debug, PartialEq, Eq)]
pub enum Place {
    /// Inside of some shape, and on no edge.
    Inside,
    /// Inside of none, and on no edge.
    Outside,
    /// On an edge of some contour.
    OnEdge,
}
