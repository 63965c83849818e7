//! Strings: lines, open paths and closed contours that run over a shape.

pub mod clip;
mod clip_walk;
pub mod extract;
pub mod line;
pub mod overlay;
mod pieces;
mod query;
pub mod rule;
pub mod slice;
mod slice_walk;
mod turns;
