//! Edges with what is filled beside them, and lists of such edges.

mod along;
pub mod edge;
pub mod extract;
pub mod simplify;
