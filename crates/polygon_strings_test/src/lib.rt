//! Tests of the public calls of `polygon_strings`.
#![tactic(auto)]

#[cfg(test)]
mod tests;
