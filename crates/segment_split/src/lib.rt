//! Segments, and how they are cut at each other until they meet in ends alone: what every theorem calls redrawing.
//!
//! A pass lays the marks of all pairs, cuts each segment at its marks, and joins what then lies on one pair of ends.
//! Passes go on until one marks nothing; a map of horizontal and vertical segments may be swept over its lines instead. The
//! first 256 passes let a crossing off the grid go to an end that is near to it, by a radius that grows from pass to pass; later
//! ones do not, and each of them shortens the segments.
#![tactic(auto)]

pub mod count;
pub mod data;
pub mod given;
pub mod laws;
pub mod lines;
mod maps;
mod mark;
mod pairs;
mod pass;
pub mod segment;
pub mod solver;
mod sort;
pub mod split;
