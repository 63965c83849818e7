//! The plane: points of whole coordinates, segments and their crossing, contours, areas and thinning, and the
//! definitions that every theorem of the engine speaks of.
#![tactic(auto)]

pub mod area;
pub mod cross;
pub mod distance;
pub mod equality;
pub mod fault;
pub mod flat;
pub mod flat_shapes;
pub mod int;
pub mod laws;
pub mod meet;
pub mod orientation;
pub mod path;
pub mod point;
pub mod range;
pub mod resource;
pub mod rounding;
pub mod segment;
pub mod segment_laws;
pub mod thin;
