//! Overlays of polygons: contours in, shapes out.
//!
//! What stands below is given out again, a name for each crate: `plane` (points, contours, faults), `split` (whose a contour is,
//! solvers), `arrangement` (rules, graphs) and `walk` (options, extraction); and, under their own names, `string` (lines clipped by shapes, shapes
//! sliced along lines) and `slice_laws` of `polygon_strings`.
#![tactic(auto)]

pub mod checks;
pub mod edge_overlay;
pub mod given_laws;
pub mod hierarchies;
pub mod laws;
pub mod overlay;
mod perfect;
mod point_box;
pub mod point_location;
mod predicate;
mod query;
pub mod relate;
pub mod simplify;
pub mod single;
pub mod sizing;
pub mod sizing_laws;
pub mod tile;
pub mod tile_laws;
mod vectors;

pub use contour_walk as walk;
pub use plane_base as plane;
pub use polygon_strings::{slice_laws, string};
pub use segment_arrangement as arrangement;
pub use segment_split as split;
