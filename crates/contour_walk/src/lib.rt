//! From the links of a boundary to contours, and from contours to shapes.
//!
//! A walk goes along the boundary with the region on one hand, and takes at each node the unvisited link that is met first on
//! turning. Each link is passed once. A hole belongs to the shape that is met on the way down from its least point.
#![tactic(auto)]

pub mod bind;
pub mod borders;
pub mod contour;
pub mod contour_direction;
mod corners;
pub mod extract;
mod flat;
pub mod hierarchy;
pub mod laws;
pub mod loops;
pub mod nearest_vector;
pub mod options;
pub mod turning;
pub mod vector;
pub mod walk;
