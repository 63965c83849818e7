//! What lies on both sides of each segment of an arrangement, found by one sweep, and the links and nodes of its graph.
//!
//! The segments are those that splitting leaves: distinct, sorted, meeting in common ends alone, their counts balanced at
//! each point. Then a winding doesn't change along a segment, and each segment has two sides.
//!
//! What stands below is given out again, a name for each crate: `plane` (points, faults) and `split` (segments, counts, solvers).
#![tactic(auto)]

pub mod builder;
pub mod clip_rule;
mod collect;
pub mod count;
mod crowd;
pub mod depth;
mod ends;
mod fan;
mod fan_list;
mod fan_sides;
pub mod fill;
pub mod fill_rule;
pub mod filter;
pub mod graph;
pub mod handler;
pub mod laws;
pub mod link;
mod live;
pub mod node;
pub mod overlay_rule;
mod rectilinear_sides;
pub mod string_graph;
pub mod sweep;

pub use plane_base as plane;
pub use segment_split as split;
