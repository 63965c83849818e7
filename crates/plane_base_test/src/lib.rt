//! Tests of the public calls of `plane_base`, and a caller of its laws of segments.
#![tactic(auto)]

pub mod sweep;
#[cfg(test)]
mod tests;
