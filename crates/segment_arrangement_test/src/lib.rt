//! Tests of the public calls of `segment_arrangement`.
#![tactic(auto)]

#[cfg(test)]
mod tests;
