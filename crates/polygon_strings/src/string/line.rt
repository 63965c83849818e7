//! Lines.

use plane_base::point::IntPoint;

/// A line from its first point to its second.
pub type IntLine<I> = [IntPoint<I>; 2];
