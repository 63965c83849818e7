//! Reference programs: each computes a definition as it stands, for tests to compare with, and its head says at what cost. No crate of
//! the product uses them.
#![tactic(auto)]

pub mod arrangements;
pub mod contours;
pub mod convexity;
pub mod maps;
pub mod passes;
pub mod regions;
pub mod shapes;
pub mod thinning;
pub mod turning;
pub mod walks;
pub mod windings;
