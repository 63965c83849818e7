//! Tests of `EdgeOverlay`, and of edges with their sides.
#![tactic(auto)]

#[cfg(test)]
mod tests;
