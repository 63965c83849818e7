//! Lines and polygons: clips of lines by polygons, and slices of polygons along lines.
#![tactic(auto)]

pub mod slice_laws;
pub mod string;
