//! Tests of the public calls of `contour_walk`.
#![tactic(auto)]

#[cfg(test)]
mod tests;
