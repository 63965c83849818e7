//! Tests of the public calls of `segment_split`.
#![tactic(auto)]

#[cfg(test)]
mod tests;
